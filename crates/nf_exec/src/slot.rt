//! The parcel in hand, handled in its slot.
ghost use Rattle.std.specs.Prelude.{◌≡◌, ◌<◌, length, IfOk, OnErr};
ghost use Rattle.onvm_base.specs.declared.limits.TheConstants.{MAX_HOPS};
ghost use Rattle.onvm_board.specs.Tokens.{Carries, parcel_in};
ghost use Rattle.nf_exec.specs.Handing.{HasHandled, IsUnmoved};

use nf_api::{Meta, NetFunction};
use onvm_base::{BufId, FnId, NoMemory};
use onvm_board::{Board, Token};
use onvm_core::Crumb;

/// Lets a function handle the parcel in hand, and leaves a crumb with this place. Where memory is
/// wanting the parcel is as it was.
pub(crate) fn handle_in_slot<N: NetFunction>(
    board: &Board,
    token: &mut Token,
    unit: &mut N,
    function: FnId,
    place: u32,
    buf: BufId,
) -> Result<(), NoMemory>
    requires board { token.old.board ≡ board.now.id }
    requires carries { Carries buf.0 token.old }
    requires fits { length (parcel_in token.old).trail < MAX_HOPS }
    ensures handled { IfOk result (λ _. HasHandled N.acts N.state function place buf.0 unit.old unit.new
        token.old token.new) }
    ensures unchanged { OnErr result (token.new ≡ token.old) }
    ensures unmoved { OnErr result (IsUnmoved N.acts N.state unit.old unit.new) }
{
    match token.slot(board, buf) {
        Some(parcel) => {
            let meta = Meta {
                frame: parcel.frame,
                stamp: parcel.stamp,
                chain: parcel.chain,
                hops: parcel.trail.len(),
                hash: parcel.hash,
            };
            let verdict = unit.handle(&mut parcel.packet, &meta)?;
            parcel.trail.add(Crumb {
                place,
                function,
                verdict,
            });
            Ok(())
        }
        None => unreachable!(),
    }
}
