//! What was taken and pulled, as contracts see it.
//!
//! A snapshot has no bytes. So of all pieces and frames none is in memory, and contracts know them.
ghost use Rattle.std.specs.Prelude.{◌≡◌, [], ◌∷◌, ◌++◌, take};
ghost use Rattle.rx_feed.specs.History.{bytes_in, frames_in};

use onvm_base::Frame;
use std::snapshot::Snapshot;

/// The bytes that were taken of a source.
#[derive(Drop)]
pub(crate) enum TakenBytes {
    None,
    Then {
        before: Snapshot<TakenBytes>,
        piece: Snapshot<Vec<u8>>,
        count: usize,
    },
}

impl TakenBytes {
    /// Remembers the first bytes of a piece.
    pub(crate) fn add(&mut self, piece: &Vec<u8>, count: usize)
        ensures { bytes_in self.new ≡ bytes_in self.old ++ take count piece.now.items }
    {
        *self = TakenBytes::Then {
            before: Snapshot::of(&*self),
            piece: Snapshot::of(piece),
            count,
        };
    }
}

/// The frames that were pulled.
#[derive(Drop)]
pub(crate) enum PulledFrames {
    None,
    Then {
        before: Snapshot<PulledFrames>,
        frame: Snapshot<Frame>,
    },
}

impl PulledFrames {
    /// Remembers a frame.
    pub(crate) fn add(&mut self, frame: &Frame)
        ensures { frames_in self.new ≡ frames_in self.old ++ frame.now ∷ [] }
    {
        *self = PulledFrames::Then {
            before: Snapshot::of(&*self),
            frame: Snapshot::of(frame),
        };
    }
}
