//! The pure core: lists of steps on the board, which of them are lawful, and what holds of every
//! lawful one.
//!
//! A *step* is one operation of a *role* on one *word* of the board: the pool's bits, the cells of
//! rings, the feeders' posts and the functions' weights. A *parcel* is a frame on its way, with a
//! *crumb* for each function that handled it. A *history* is a list of steps, and it is *lawful*
//! where each step is allowed by the steps before it. [`State`] is the plain machine that judges
//! steps one after another; it is made to be read, not to be fast.
#![tactic(auto, using(crate::proofs::Scanned::newest))]

mod entry;
mod item;
mod judge;
mod judged;
pub mod laws;
mod layout;
mod parcel;
mod place;
mod rings;
mod scan;
mod state;
mod step;
mod word;

pub use entry::{Entries, Entry};
pub use judged::Judged;
pub use layout::{Layout, Word};
pub use parcel::{Crumb, MAX_PLACE, Parcel, Trail};
pub use place::Place;
pub use state::{State, apply};
pub use step::{Act, Item, Step};
