//! Where the frames of a receive role come from, one after another as they are wanted.
//!
//! A *feed* is a capture that is read of a source, or a generator. An *intake* pulls its frames. Of a
//! capture bytes are *taken* piece by piece and fed to a reader, a piece only where the reader wants
//! more; what was taken and not fed *waits*. A port has *stopped* where the end was seen, or where a
//! *fault* is there: a take failed, the capture is faulty, or the next frame passes a limit.
#![tactic(auto)]

mod fault;
mod feed;
mod generator;
mod history;
mod intake;
pub mod laws;
mod stream;
#[cfg(test)]
mod tests;

pub use fault::FeedFault;
pub use feed::Feed;
pub use generator::Generator;
pub use intake::{Intake, IntakeRoom};
pub use stream::PIECE_LEN;
