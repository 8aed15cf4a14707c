//! Runs whose roles work side by side.

use super::expected::all_sent;
use super::hosts::{SPACE, host_of, play, play_behind, sound};
use crate::two_roles::{TWO_CORES, TwoRoles};
use onvm_base::Status;
use onvm_host::MemHost;
use std::alloc::Global;
use std::str;
use std::test::Fail;

const CAPTURE: &str = "gen:7:40";

fn host(alloc: Global) -> Result<MemHost, Fail> {
    host_of(alloc, &[sound("c", TWO_CORES.as_bytes())], &[], SPACE)
}

// Each core's pass begins before the other's ends.
#[test]
fn gate_two_roles(rt: HostRuntime) -> Result<(), Fail> {
    let mut host = host(rt.alloc())?;
    let gate = TwoRoles::new();
    let guests = Vec::new(rt.alloc());
    let status = play_behind(&rt, &mut host, &["c", "o", CAPTURE], &gate, guests)?;
    assert_eq!(rt; status, Status::Done);
    assert!(rt; gate.have_met());
    Ok(())
}

// The lines of the records in a report, one behind the other.
fn records_in(alloc: Global, report: &[u8]) -> Result<String, Fail> {
    let mut records = String::new(alloc);
    for line in str::from_utf8(report)?.lines() {
        if line.starts_with("record ") {
            records.push_str(line)?;
            records.push('\n')?;
        }
    }
    Ok(records)
}

// Lanes and output rings have room for all frames, so each is sent, whoever comes first.
#[test]
fn a_run_side_by_side_sends_what_a_serial_one_sends(rt: HostRuntime) -> Result<(), Fail> {
    let mut records = String::new(rt.alloc());
    for number in 1..=40 {
        records.push_str(&format!(in rt.alloc(); "record 0 {number} sent 0\n")?)?;
    }
    let mut serial = host(rt.alloc())?;
    let words = ["--serial", "--records", "c", "o", CAPTURE];
    let status = play(&rt, &mut serial, &words, Vec::new(rt.alloc()))?;
    assert_eq!(rt; status, Status::Done);
    assert_eq!(rt;
        serial.said(),
        all_sent(rt.alloc(), 40, &records)?.as_bytes()
    );
    let mut beside = host(rt.alloc())?;
    let words = ["--records", "c", "o", CAPTURE];
    let status = play(&rt, &mut beside, &words, Vec::new(rt.alloc()))?;
    assert_eq!(rt; status, Status::Done);
    assert_eq!(rt;
        records_in(rt.alloc(), beside.said())?.as_str(),
        records.as_str()
    );
    assert!(rt; serial.file("o").is_some());
    assert!(rt; beside.file("o") == serial.file("o"));
    Ok(())
}
