//! Whether a frame may enter.
ghost use Rattle.std.specs.Prelude.{◌≡◌};
ghost use Rattle.onvm_core.specs.Layouts.{feeder_count};
ghost use Rattle.desc_ring.specs.Ends.{LeavesEnds};
ghost use Rattle.entry_throttle.specs.Admissions.{IsAnswer};

use crate::answer::Admit;
use crate::post_word::{bits_of, number_of};
use onvm_base::{FnId, FrameId};
use onvm_board::{Ask, Board, Token};
use onvm_core::Word;

/// Looks at the feeders' posts in order. The first that has a bit of the mask holds the frame
/// back, and the look records it as throttled. It takes no memory.
pub fn admit(board: &Board, token: &mut Token, frame: FrameId, mask: u32, feeders: u8) -> Admit
    requires board { token.old.board ≡ board.now.id }
    requires feeders { feeders ≡ feeder_count board.now.layout }
    ensures answer { IsAnswer frame mask feeders token.old token.new result }
    ensures hand { token.new.hand ≡ token.old.hand }
    ensures board { token.new.board ≡ token.old.board }
    ensures role { token.new.role ≡ token.old.role }
    ensures ends { LeavesEnds board.now token.old token.new }
{
    for feeder in 0..feeders {
        let ask = Ask::Hold { feeder, mask };
        let seen = board.judge(token, Word::Post(feeder), frame, ask);
        let held = bits_of(seen) & mask;
        if held != 0 {
            return Admit::Hold {
                feeder,
                post: number_of(seen),
                function: FnId(held.trailing_zeros() as u8),
            };
        }
    }
    Admit::Go
}
