//! Where the words of a board lie in its table.
ghost use Rattle.std.specs.Prelude.{◌≡◌};
ghost use Rattle.onvm_core.specs.Layouts.{IsLayout, IsRing, IsWord, ring_size};
ghost use Rattle.onvm_core.specs.declared.layout.Word.TheVariants.{Cell};
ghost use Rattle.onvm_board.specs.Addresses.{word_count, address, cell_address};
ghost use Rattle.onvm_board.specs.Regions.{IsRegions};

use onvm_base::{MAIL_RING, RingId, WORD_BITS};
use onvm_core::{Layout, Word};

/// How many words a pool's part has, how many feeders there are, and where each region begins. Word
/// 0 is for split and join, and the pool's words begin at word 1.
#[derive(Clone, Copy)]
pub struct Regions {
    pub parts: usize,
    pub feeders: usize,
    pub lanes: usize,
    pub outputs: usize,
    pub mails: usize,
    pub posts: usize,
    pub weights: usize,
    pub end: usize,
}

impl Regions {
    /// The regions of a layout.
    #[tactic(auto, unfolding(crate::specs::Addresses::lanes_at, crate::specs::Addresses::outputs_at, crate::specs::Addresses::mails_at, crate::specs::Addresses::posts_at, crate::specs::Addresses::weights_at, crate::specs::Addresses::word_count))]
    pub fn of(layout: &Layout) -> Regions
        requires { IsLayout layout.now }
        ensures { IsRegions layout.now result }
    {
        let ports = layout.ports as usize;
        let functions = layout.functions as usize;
        let parts = (layout.buffers as usize + (WORD_BITS as usize - 1)) / WORD_BITS as usize;
        let feeders = ports + layout.transmit as usize;
        let lanes = 1 + ports * parts;
        let outputs = lanes + functions * feeders * layout.ring as usize;
        let mails = outputs + functions * layout.output as usize;
        let posts = mails + functions * MAIL_RING as usize;
        let weights = posts + feeders;
        Regions {
            parts,
            feeders,
            lanes,
            outputs,
            mails,
            posts,
            weights,
            end: weights + functions,
        }
    }

    /// The word of a cell.
    pub fn cell(&self, layout: &Layout, ring: RingId, at: u16) -> usize
        requires ranges { IsLayout layout.now }
        requires regions { IsRegions layout.now self.now }
        requires known { IsWord layout.now (Cell ring at) }
        ensures { result ≡ cell_address layout.now ring at }
    {
        match ring {
            RingId::Lane(f, feeder) => {
                let lane = f.0 as usize * self.feeders + feeder as usize;
                self.lanes + (lane * layout.ring as usize + at as usize)
            }
            RingId::Output(f) => self.outputs
                + (f.0 as usize * layout.output as usize + at as usize),
            RingId::Mail(f) => self.mails + (f.0 as usize * MAIL_RING as usize + at as usize),
        }
    }

    /// The word of the table that stands for a word of the board.
    pub fn word(&self, layout: &Layout, word: Word) -> usize
        requires ranges { IsLayout layout.now }
        requires regions { IsRegions layout.now self.now }
        requires known { IsWord layout.now word }
        ensures { result ≡ address layout.now word }
    {
        match word {
            Word::Pool { port, index } => 1 + (port.0 as usize * self.parts + index as usize),
            Word::Cell { ring, at } => self.cell(layout, ring, at),
            Word::Post(feeder) => self.posts + feeder as usize,
            Word::Weight(f) => self.weights + f.0 as usize,
        }
    }
}
