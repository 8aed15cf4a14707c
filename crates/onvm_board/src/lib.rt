//! The board: words that change in single atomic steps, and a slot for each buffer.
//!
//! Roles share a [`Board`] through `&`, each with a [`Token`] of its own. A *spot* is a ring's end:
//! the cell of its next push or pop. The *first token* is split into the tokens of roles and joins
//! them again. A token's *log* is its role's acts, the newest first, and its *hand* the buffer that
//! it holds, with the content of the buffer's slot. Each call is one atomic operation on one word,
//! and takes no memory.
//!
//! The *rule* (`specs/Rule.antt`) says that words, slots and views stand for one lawful history. It
//! holds between any two steps of any threads. A call tells its token that its act is the last step
//! of a lawful history in which the role's earlier acts are the token's: so the refusals are true.
#![tactic(auto)]

mod ask;
mod board;
mod closed;
mod mail;
mod make;
mod memory;
mod pool;
mod regions;
mod rings;
mod roles;
mod rule;
mod slot;
mod spot;
#[cfg(test)]
mod tests;
mod token;
mod view;
mod words;

pub use ask::Ask;
pub use board::Board;
pub use closed::Closed;
pub use spot::Spot;
pub use token::Token;
