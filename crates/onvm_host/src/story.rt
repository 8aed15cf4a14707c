//! The calls that were made, in order, as contracts see them.
//!
//! A snapshot has no bytes. So of all calls the last one alone is in memory, and contracts know
//! those before it.
ghost use Rattle.std.specs.Prelude.{◌≡◌, [], ◌∷◌, ◌++◌};
ghost use Rattle.std.specs.Result.{result_ok};
ghost use Rattle.onvm_host.specs.Deeds.{Opened, OpenFailed, Shut, Created, CreateFailed, Said, kept_or_failed};
ghost use Rattle.onvm_host.specs.Story.{amounts_of, deeds_of};

use onvm_base::{Failed, Name};
use std::snapshot::Snapshot;

/// How much each take gave, or each put took. An input or an output begins with `None`.
#[derive(Drop)]
pub enum Amounts {
    None,
    Moved {
        before: Snapshot<Amounts>,
        amount: Option<usize>,
    },
}

impl Amounts {
    /// Remembers a take or a put, and hands its answer on.
    #[inline]
    pub fn add(&mut self, answer: Result<usize, Failed>) -> Result<usize, Failed>
        ensures same { result ≡ answer }
        ensures added { amounts_of self.new ≡ amounts_of self.old ++ result_ok answer ∷ [] }
    {
        let before = Snapshot::of(&*self);
        *self = Amounts::Moved {
            before,
            amount: answer.ok(),
        };
        answer
    }
}

/// The calls of a host, which begins with `Begin`.
#[derive(Drop)]
pub enum Story {
    Begin,
    Opened {
        before: Snapshot<Story>,
        name: Snapshot<Name>,
    },
    OpenFailed {
        before: Snapshot<Story>,
        name: Snapshot<Name>,
    },
    Shut {
        before: Snapshot<Story>,
        name: Snapshot<Name>,
        takes: Snapshot<Amounts>,
    },
    Created {
        before: Snapshot<Story>,
        name: Snapshot<Name>,
    },
    CreateFailed {
        before: Snapshot<Story>,
        name: Snapshot<Name>,
    },
    Kept {
        before: Snapshot<Story>,
        name: Snapshot<Name>,
        puts: Snapshot<Amounts>,
    },
    KeepFailed {
        before: Snapshot<Story>,
        name: Snapshot<Name>,
        puts: Snapshot<Amounts>,
    },
    Said {
        before: Snapshot<Story>,
        amount: Option<usize>,
    },
}

impl Story {
    /// Remembers that a file was opened.
    pub fn opened(&mut self, name: &Name)
        ensures { deeds_of self.new ≡ deeds_of self.old ++ Opened name.now ∷ [] }
    {
        *self = Story::Opened {
            before: Snapshot::of(&*self),
            name: Snapshot::of(name),
        };
    }

    /// Remembers that a file was not opened.
    pub fn open_failed(&mut self, name: &Name)
        ensures { deeds_of self.new ≡ deeds_of self.old ++ OpenFailed name.now ∷ [] }
    {
        *self = Story::OpenFailed {
            before: Snapshot::of(&*self),
            name: Snapshot::of(name),
        };
    }

    /// Remembers that an input was shut, and its takes.
    pub fn shut(&mut self, name: &Name, takes: &Amounts)
        ensures { deeds_of self.new
            ≡ deeds_of self.old ++ Shut name.now (amounts_of takes.now) ∷ [] }
    {
        *self = Story::Shut {
            before: Snapshot::of(&*self),
            name: Snapshot::of(name),
            takes: Snapshot::of(takes),
        };
    }

    /// Remembers that an output was made.
    pub fn created(&mut self, name: &Name)
        ensures { deeds_of self.new ≡ deeds_of self.old ++ Created name.now ∷ [] }
    {
        *self = Story::Created {
            before: Snapshot::of(&*self),
            name: Snapshot::of(name),
        };
    }

    /// Remembers that an output was not made.
    pub fn create_failed(&mut self, name: &Name)
        ensures { deeds_of self.new ≡ deeds_of self.old ++ CreateFailed name.now ∷ [] }
    {
        *self = Story::CreateFailed {
            before: Snapshot::of(&*self),
            name: Snapshot::of(name),
        };
    }

    /// Remembers a keep, and hands its answer on.
    pub fn kept(
        &mut self,
        name: &Name,
        puts: &Amounts,
        answer: Result<(), Failed>,
    ) -> Result<(), Failed>
        ensures same { result ≡ answer }
        ensures added { deeds_of self.new
            ≡ deeds_of self.old ++ kept_or_failed name.now (amounts_of puts.now) answer ∷ [] }
    {
        let before = Snapshot::of(&*self);
        let name = Snapshot::of(name);
        let puts = Snapshot::of(puts);
        *self = match answer {
            Ok(()) => Story::Kept { before, name, puts },
            Err(Failed) => Story::KeepFailed { before, name, puts },
        };
        answer
    }

    /// Remembers that something was said, and hands the answer on.
    pub fn said(&mut self, answer: Result<usize, Failed>) -> Result<usize, Failed>
        ensures same { result ≡ answer }
        ensures added { deeds_of self.new ≡ deeds_of self.old ++ Said (result_ok answer) ∷ [] }
    {
        let before = Snapshot::of(&*self);
        *self = Story::Said {
            before,
            amount: answer.ok(),
        };
        answer
    }
}
