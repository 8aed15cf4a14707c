//! Words that are no command.

use super::frames::CAPTURE;
use super::hosts::{SPACE, compare, host_of, play, refused, sound};
use super::texts::FORWARDING;
use onvm_base::Status;
use std::test::Fail;

const USAGE: &str =
    "usage: onvm [--serial] [--records] [--throttle-log] [--shares] CHAIN OUT CAPTURE...\n";

// The host's second call fails. So where nothing is opened before it, the line is said.
#[test]
fn words_that_are_no_command_open_nothing(rt: HostRuntime) -> Result<(), Fail> {
    for words in [
        [].as_slice(),
        &["c"],
        &["c", "o"],
        &["c", "o", "k", "k", "k", "k", "k"],
        &["--serial", "--serial", "c", "o", "k"],
        &["--serial=true", "c", "o", "k"],
        &["--trace", "c", "o", "k"],
        &["-c", "o", "k"],
        &["--help"],
        &["--", "c", "o"],
        &["c", "o", "gen:07:5"],
        &["c", "o", "gen:7"],
        &["c", "o", "gen:7:262145"],
        &["c", "o", "gen:18446744073709551616:1"],
        &["c", "o", "k", "gen:"],
    ] {
        let given = [sound("c", FORWARDING.as_bytes()), sound("k", &CAPTURE)];
        let mut host = host_of(rt.alloc(), &given, &[2], SPACE)?;
        let status = play(&rt, &mut host, words, Vec::new(rt.alloc()))?;
        let shown = format!(in rt.alloc(); "{words:?}")?;
        compare(&rt, &host, status, refused(Status::Words, USAGE), &shown)?;
    }
    Ok(())
}
