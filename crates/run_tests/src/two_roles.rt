//! A gate at which two roles meet.

use onvm_host::Gate;
use std::sync::atomic::{AtomicBool, Ordering};

/// A chain file of one port and two cores, with one function on each, and a chain through both and out
/// of the port.
pub const TWO_CORES: &str =
    r#"{"version":1,"ports":1,"transmit":1,"cores":2,"functions":[{"name":"f","service":1,"core":0,"kind":"forward"},{"name":"g","service":2,"core":1,"kind":"forward"}],"chains":[{"name":"a","steps":[{"to":1},{"to":2},{"out":0}]}],"default":"a"}"#;

// The numbers of its cores, behind one receive and one transmit role.
const CORE_0: u32 = 2;

const CORE_1: u32 = 3;

// How often a role looks whether the other one has come.
const LOOKS: u32 = 200_000_000;

// What is known of a role: whether it came, and whether it saw that the other one had.
#[derive(Drop)]
struct Visit {
    came: AtomicBool,
    met: AtomicBool,
}

impl Visit {
    fn new() -> Visit {
        Visit {
            came: AtomicBool::new(false),
            met: AtomicBool::new(false),
        }
    }

    // At its first turn a role says that it came, and looks for the other one until it has come, too.
    // So where they take turns the one that comes first looks in vain.
    fn meet(&self, other: &Visit) {
        if self.came.swap(true, Ordering::SeqCst) {
            return;
        }
        for _ in 0..LOOKS {
            if other.came.load(Ordering::SeqCst) {
                self.met.store(true, Ordering::SeqCst);
                return;
            }
        }
    }
}

/// Two core roles meet there at their first turns, unless one has ended its pass before the other
/// begins.
#[derive(Drop)]
pub struct TwoRoles {
    first: Visit,
    second: Visit,
}

impl TwoRoles {
    /// None has come.
    pub fn new() -> TwoRoles {
        TwoRoles {
            first: Visit::new(),
            second: Visit::new(),
        }
    }

    /// Whether each of the two saw the other one.
    pub fn have_met(&self) -> bool {
        self.first.met.load(Ordering::SeqCst) && self.second.met.load(Ordering::SeqCst)
    }
}

impl Gate for TwoRoles {
    fn turn(&self, role: u32, _pass: u64) {
        if role == CORE_0 {
            self.first.meet(&self.second);
        } else if role == CORE_1 {
            self.second.meet(&self.first);
        }
    }
}
