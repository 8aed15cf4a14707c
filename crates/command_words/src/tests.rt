//! Words that are commands, and words that are none.

use crate::{CaptureWord, read};
use onvm_base::NoMemory;
use onvm_report::Options;
use std::alloc::Global;
use std::test::Fail;

const NONE: Options = Options {
    serial: false,
    records: false,
    throttle_log: false,
    shares: false,
};

fn strings(alloc: Global, words: &[&str]) -> Result<Vec<String>, NoMemory> {
    let mut strings = Vec::new(alloc);
    for word in words {
        strings.push(String::from_str(alloc, *word)?)?;
    }
    Ok(strings)
}

fn is_command(alloc: Global, words: &[&str]) -> Result<bool, NoMemory> {
    let words = strings(alloc, words)?;
    Ok(read(alloc, words.as_slice())?.is_some())
}

#[test]
fn flags_stand_anywhere_before_two_hyphens(rt: HostRuntime) -> Result<(), Fail> {
    let words = [
        "c",
        "--serial",
        "o",
        "--shares",
        "-",
        "--",
        "--records",
        "--",
    ];
    let words = strings(rt.alloc(), &words)?;
    let command = read(rt.alloc(), words.as_slice())?.expect(&rt, "a command");
    assert_eq!(rt;
        command.options,
        Options {
            serial: true,
            shares: true,
            ..NONE
        }
    );
    assert_eq!(rt; command.chain, "c");
    assert_eq!(rt; command.output, "o");
    assert_eq!(rt;
        command.captures.as_slice(),
        [
            CaptureWord::File("-"),
            CaptureWord::File("--records"),
            CaptureWord::File("--")
        ]
        .as_slice()
    );
    Ok(())
}

#[test]
fn each_flag_sets_its_option(rt: HostRuntime) -> Result<(), Fail> {
    for (flag, options) in [
        (
            "--serial",
            Options {
                serial: true,
                ..NONE
            },
        ),
        (
            "--records",
            Options {
                records: true,
                ..NONE
            },
        ),
        (
            "--throttle-log",
            Options {
                throttle_log: true,
                ..NONE
            },
        ),
        (
            "--shares",
            Options {
                shares: true,
                ..NONE
            },
        ),
    ] {
        let words = strings(rt.alloc(), &["c", "o", "k", flag])?;
        let command = read(rt.alloc(), words.as_slice())?.expect(&rt, "a command");
        assert_eq!(rt; command.options, options);
    }
    Ok(())
}

#[test]
fn words_that_are_no_command(rt: HostRuntime) -> Result<(), Fail> {
    for words in [
        [].as_slice(),
        &["c", "o"],
        &["c", "o", "1", "2", "3", "4", "5"],
        &["--serial", "--serial", "c", "o", "k"],
        &["--serial=true", "c", "o", "k"],
        &["--trace", "c", "o", "k"],
        &["--help"],
        &["-h", "c", "o", "k"],
        &["-s", "c", "o", "k"],
        &["c", "o", "gen:"],
        &["c", "o", "gen:7"],
        &["c", "o", "gen:07:5"],
        &["c", "o", "gen:+7:5"],
        &["c", "o", "gen:7:5:"],
        &["c", "o", "gen:7:262145"],
        &["c", "o", "gen:18446744073709551616:5"],
        &["c", "o", "k", "--", "gen:"],
    ] {
        assert!(rt; !is_command(rt.alloc(), words)?);
    }
    Ok(())
}

#[test]
fn captures_are_files_or_generated(rt: HostRuntime) -> Result<(), Fail> {
    for (word, capture) in [
        ("k", CaptureWord::File("k")),
        ("", CaptureWord::File("")),
        ("generated", CaptureWord::File("generated")),
        ("gen:0:0", CaptureWord::Generated { seed: 0, count: 0 }),
        (
            "gen:7:100000",
            CaptureWord::Generated {
                seed: 7,
                count: 100_000,
            },
        ),
        (
            "gen:18446744073709551615:262144",
            CaptureWord::Generated {
                seed: u64::MAX,
                count: 262_144,
            },
        ),
    ] {
        assert_eq!(rt; CaptureWord::of(word), Some(capture));
    }
    Ok(())
}
