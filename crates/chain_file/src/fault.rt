//! What a chain file is refused for, and where.

use std::fmt;

/// What is wrong at a place of the file's tree. At one place the first in this order is told.
#[derive(Clone, Copy, Debug, PartialEq, Eq)]
pub enum Cause {
    Shape,
    Unknown,
    Limit,
    Twice,
    Marks,
}

/// What a place belongs to.
#[derive(Clone, Copy, Debug, PartialEq, Eq)]
pub enum Part {
    File,
    Top,
    Function,
    Chain,
    Step,
    Rule,
    Default,
}

/// A place of the file. Numbers that a part does not have are 0.
#[derive(Clone, Copy, Debug, PartialEq, Eq)]
pub struct Place {
    pub part: Part,
    /// The function, chain or rule, from 0.
    pub item: u16,
    /// The step of the chain, from 0.
    pub inner: u16,
}

impl Place {
    ghost use Rattle.std.specs.Prelude.{◌≡◌};

    /// The one place of a part.
    pub fn of(part: Part) -> Place
        ensures { result ≡ record { part = part; item = 0; inner = 0 } }
    {
        Place {
            part,
            item: 0,
            inner: 0,
        }
    }
}

/// Why a chain file was not read.
#[derive(Clone, Copy, Debug, PartialEq, Eq)]
pub enum FileFault {
    Json,
    Shape { place: Place },
    Unknown { place: Place },
    Limit { place: Place },
    Twice { place: Place },
    Marks { place: Place },
    Memory,
}

impl FileFault {
    ghost use Rattle.std.specs.Prelude.{◌≡◌};
    ghost use Rattle.chain_file.specs.Causes.{fault_at};

    /// A cause at a place.
    pub fn at(cause: Cause, place: Place) -> FileFault
        ensures { result ≡ fault_at cause place }
    {
        match cause {
            Cause::Shape => FileFault::Shape { place },
            Cause::Unknown => FileFault::Unknown { place },
            Cause::Limit => FileFault::Limit { place },
            Cause::Twice => FileFault::Twice { place },
            Cause::Marks => FileFault::Marks { place },
        }
    }
}

/// `file`, `top`, `function N`, `chain N`, `step N M`, `rule N` or `default`.
impl fmt::Display for Place {
    ghost use Rattle.std.specs.Prelude.{Some};
    ghost use Rattle.chain_file.specs.Messages.{place_text};

    ghost output = { λ place. Some (place_text place) };

    fn fmt<W: fmt::Write>(&self, f: &mut fmt::Formatter<W>) -> fmt::Result {
        match self.part {
            Part::File => write!(f, "file"),
            Part::Top => write!(f, "top"),
            Part::Function => write!(f, "function {}", self.item),
            Part::Chain => write!(f, "chain {}", self.item),
            Part::Step => write!(f, "step {} {}", self.item, self.inner),
            Part::Rule => write!(f, "rule {}", self.item),
            Part::Default => write!(f, "default"),
        }
    }
}

/// The cause and the place, as `twice function 1`, or `memory`.
impl fmt::Display for FileFault {
    ghost use Rattle.std.specs.Prelude.{Some};
    ghost use Rattle.chain_file.specs.Messages.{fault_text};

    ghost output = { λ fault. Some (fault_text fault) };

    fn fmt<W: fmt::Write>(&self, f: &mut fmt::Formatter<W>) -> fmt::Result {
        match self {
            FileFault::Json => write!(f, "json file"),
            FileFault::Shape { place } => write!(f, "shape {place}"),
            FileFault::Unknown { place } => write!(f, "unknown {place}"),
            FileFault::Limit { place } => write!(f, "limit {place}"),
            FileFault::Twice { place } => write!(f, "twice {place}"),
            FileFault::Marks { place } => write!(f, "marks {place}"),
            FileFault::Memory => write!(f, "memory"),
        }
    }
}
