//! The parcel in hand, in its slot.
ghost use Rattle.std.specs.Prelude.{◌≡◌, ◌≤◌, ◌∷◌, [], Some, None, length};
ghost use Rattle.onvm_core.specs.Logs.{with_cursor};
ghost use Rattle.onvm_board.specs.Tokens.{Carries, parcel_in};
ghost use Rattle.tx_pass.specs.Moving.{IsMoveOf, holding};

use nf_registry::Registry;
use onvm_base::{BufId, Move, Plan};
use onvm_board::{Board, Token};
use service_chain::step;

/// Sets the cursor of the parcel in hand.
pub(crate) fn set_cursor(board: &Board, token: &mut Token, buf: BufId, cursor: u8)
    requires board { token.old.board ≡ board.now.id }
    requires carries { Carries buf.0 token.old }
    ensures { token.new ≡ holding buf.0 (Some (with_cursor cursor (parcel_in token.old))) token.old }
{
    match token.slot(board, buf) {
        Some(parcel) => parcel.cursor = cursor,
        None => {}
    }
}

/// Where the verdict of its last function moves the parcel in hand.
pub(crate) fn next_of(
    board: &Board,
    token: &mut Token,
    plan: &Plan,
    registry: &Registry,
    buf: BufId,
) -> Move
    requires board { token.old.board ≡ board.now.id }
    requires registry { registry.now ≡ plan.now }
    requires carries { Carries buf.0 token.old }
    requires handled { 1 ≤ length (parcel_in token.old).trail }
    ensures same { token.new ≡ token.old }
    ensures next { IsMoveOf plan.now (parcel_in token.old) result }
{
    match token.slot(board, buf) {
        Some(parcel) => {
            let hops = parcel.trail.len();
            let verdict = parcel.trail.get(hops - 1).verdict;
            step(
                plan,
                registry,
                parcel.chain,
                parcel.cursor,
                hops,
                verdict,
                parcel.hash,
            )
        }
        None => unreachable!(),
    }
}
