//! The part of a port.
ghost use Rattle.std.specs.Prelude.{◌≡◌, ◌≢◌, ◌<◌, [], ◌∷◌, IfNone, IfSome, None};
ghost use Rattle.onvm_core.specs.declared.step.Act.TheVariants.{Look, Take};
ghost use Rattle.onvm_core.specs.Layouts.{IsLayout};
ghost use Rattle.onvm_core.specs.Receiving.{IsLowest};
ghost use Rattle.onvm_board.specs.Tokens.{MakesStep};
ghost use Rattle.desc_ring.specs.Ends.{LeavesEnds};
ghost use Rattle.mbuf_pool.specs.Parts.{FindsNone, IsPartOf, TakesLowest, part_word};

use onvm_base::{BufId, FrameId, PortId, WORD_BITS};
use onvm_board::{Ask, Board, Token};
use onvm_core::{Layout, Word};

/// A port's part of the pool.
#[derive(Clone, Copy, Debug)]
pub struct Part {
    pub port: PortId,
    /// How many words the part has.
    pub words: u8,
    /// How many buffers the part has.
    pub buffers: u16,
}

impl Part {
    /// The part of a port of this layout.
    pub fn of(layout: &Layout, port: PortId) -> Part
        requires ranges { IsLayout layout.now }
        requires port { port.0 < layout.now.ports }
        ensures of { IsPartOf layout.now result }
        ensures port { result.port ≡ port }
    {
        Part {
            port,
            words: ((layout.buffers + (WORD_BITS - 1)) / WORD_BITS) as u8,
            buffers: layout.buffers,
        }
    }

    /// Takes the lowest buffer of the first word of the part that isn't 0, with an empty slot. None
    /// exactly where each word read 0, each at a step of this call; the frame is then recorded as one
    /// that found the pool empty.
    pub fn take(&self, board: &Board, token: &mut Token, frame: FrameId) -> Option<BufId>
        requires part { IsPartOf board.now.layout self.now }
        requires board { token.old.board ≡ board.now.id }
        requires role { token.old.role ≡ self.now.port.0 }
        requires empty_handed { token.old.hand ≡ [] }
        ensures taken { IfSome result (λ buf. TakesLowest board.now self.now.port.0 buf token.old token.new) }
        ensures none { IfNone result (FindsNone board.now self.now.port.0 frame token.old token.new) }
        ensures ends { LeavesEnds board.now token.old token.new }
    {
        let port = self.port;
        let last = self.words - 1;
        for index in 0..last {
            let seen = board.look(token, Word::Pool { port, index });
            if seen != 0 {
                return Some(self.take_lowest(board, token, index, seen));
            }
        }
        let word = Word::Pool { port, index: last };
        let seen = board.judge(token, word, frame, Ask::Last);
        if seen != 0 {
            return Some(self.take_lowest(board, token, last, seen));
        }
        None
    }

    // Takes the lowest buffer of a word that was just seen.
    fn take_lowest(&self, board: &Board, token: &mut Token, index: u8, seen: u64) -> BufId
        requires part { IsPartOf board.now.layout self.now }
        requires board { token.old.board ≡ board.now.id }
        requires role { token.old.role ≡ self.now.port.0 }
        requires empty_handed { token.old.hand ≡ [] }
        requires some { seen ≢ 0 }
        requires looked { (before : _) × MakesStep board.now (Look (part_word self.now.port.0 index)
            seen None) before token.old }
        ensures lowest { IsLowest board.now.layout self.now.port.0 index seen result.0 }
        ensures taken { MakesStep board.now (Take result) token.old token.new }
    {
        let bit = seen.trailing_zeros() as u16;
        let buf = BufId(self.port.0 as u16 * self.buffers + WORD_BITS * index as u16 + bit);
        board.take(token, buf);
        buf
    }
}
