//! Objects of tests, any of which drops a frame.
ghost use Rattle.std.specs.Prelude.{◌≡◌};
ghost use Rattle.nf_api.specs.Answers.{does_match, filter_answer};
ghost use Rattle.onvm_packet.specs.Heads.{heads_of};

use onvm_base::{PortId, TestsList, Verdict};
use onvm_packet::{Heads, holds, parse};

/// Drops a frame for which all tests of one object hold.
pub fn filter(objects: &TestsList, bytes: &[u8], port: PortId) -> Verdict
    ensures { result ≡ (filter_answer objects.now port bytes.now).0 }
{
    if matches_one(objects, port, &parse(bytes)) {
        Verdict::Drop
    } else {
        Verdict::Next
    }
}

// Whether the tests of one object hold for a frame with these heads.
fn matches_one(objects: &TestsList, port: PortId, heads: &Heads) -> bool
    ensures { result ≡ does_match objects.now port heads.now }
{
    for tests in objects.as_slice() {
        if holds(tests, port, heads) {
            return true;
        }
    }
    false
}
