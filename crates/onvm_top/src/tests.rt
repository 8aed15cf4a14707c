//! One run, so that each call that takes memory is made once.
use crate::run;
use onvm_base::{ListOf, Status, Text};
use onvm_host::{MemFile, MemFiles, MemHost, OpenGate, StepClock, have_distinct_names};
use std::alloc::Global;
use std::test::Fail;

const CHAIN: &[u8] =
    br#"{"version":1,"ports":1,"functions":[{"name":"f","service":1,"core":0,"kind":"forward"}],"chains":[{"name":"a","steps":[{"to":1},{"out":0}]}],"default":"a"}"#;

// A header, and one record at second 1, microsecond 2, of 16 bytes.
const CAPTURE: [u8; 56] = [
    0xd4, 0xc3, 0xb2, 0xa1, 2, 0, 4, 0, 0, 0, 0, 0, 0, 0, 0, 0, 0, 0, 4, 0, 1, 0, 0, 0, //
    1, 0, 0, 0, 2, 0, 0, 0, 16, 0, 0, 0, 16, 0, 0, 0, //
    2, 0, 0, 0, 0, 1, 2, 0, 0, 0, 0, 2, 0x88, 0xb5, 1, 2,
];

const REPORT: &str =
    "frames 1\nsent 1\nasked 0\nchain-end 0\nno-service 0\nno-port 0\nhops 0\nthrottled 0\nring-full 0\npool-empty 0\nposts 0\nticks 1\nlost 0\nyields 0\ntick 1 0\nshare f 1 100 1 100/100 1024\n";

fn file(alloc: Global, name: &str, bytes: &[u8]) -> Result<MemFile, Fail> {
    Ok(MemFile {
        name: Text::from_slice(alloc, name.as_bytes())?,
        bytes: Text::from_slice(alloc, bytes)?,
        fail: ListOf::make(alloc),
        piece: 0,
    })
}

fn host_of(alloc: Global) -> Result<MemHost, Fail> {
    let mut files = MemFiles::make(alloc);
    files.push(file(alloc, "c", CHAIN)?)?;
    files.push(file(alloc, "k", &CAPTURE)?)?;
    if !have_distinct_names(&files) {
        return Err(Fail::from("two files of one name"));
    }
    Ok(MemHost::make(alloc, files, ListOf::make(alloc), 4_000)?)
}

#[test]
fn one_frame_is_sent_and_its_report_said(rt: HostRuntime) -> Result<(), Fail> {
    let mut host = host_of(rt.alloc())?;
    let mut words = Vec::new(rt.alloc());
    for word in ["--serial", "--shares", "c", "o", "k"] {
        words.push(String::from_str(rt.alloc(), word)?)?;
    }
    let guests = Vec::new(rt.alloc());
    let finish = run(
        &rt,
        &words,
        &mut host,
        &StepClock { at: 0 },
        &OpenGate,
        guests,
    );
    assert_eq!(rt; finish.status, Status::Done);
    assert!(rt; finish.run.is_some());
    assert_eq!(rt; host.said(), REPORT.as_bytes());
    assert_eq!(rt; host.file("o").map(|bytes| bytes.len()), Some(56));
    Ok(())
}
