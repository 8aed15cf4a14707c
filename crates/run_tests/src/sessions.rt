//! Sessions over a board, and lists that were put together by hand.

mod calls;
mod captures;
mod faults;
mod lists;
mod marks;
mod outcomes;
mod passes;
mod plans;
mod ports;
mod shares;
mod side_by_side;
