//! The first fault of a file.

use crate::{FileFault, Part, Place, read};
use std::alloc::{AllocError, Global};
use std::test::Fail;

// The fault of a file that is read for one capture and without guests.
fn fault(alloc: Global, text: &[u8]) -> Option<FileFault> {
    read(alloc, text, 1, &[]).err()
}

// The least file, with further keys at its top, a key of its function, further functions, the steps of
// its chain, and what stands behind the chain's own braces.
fn file(
    alloc: Global,
    top: &str,
    functions: &str,
    steps: &str,
    behind: &str,
) -> Result<String, AllocError> {
    format!(in alloc;
        r#"{{"version":1,"ports":1{top},"functions":[{{"name":"f","service":1,"core":0,"kind":"forward"{functions}],"chains":[{{"name":"a","steps":[{steps}]}}{behind}"#
    )
}

const STEPS: &str = r#"{"to":1},{"out":0}"#;

const END: &str = r#"],"default":"a"}"#;

fn at(part: Part, item: u16, inner: u16) -> Place {
    Place { part, item, inner }
}

#[test]
fn what_is_no_json_and_what_is_too_large(rt: HostRuntime) -> Result<(), Fail> {
    let alloc = rt.alloc();
    for text in [b"".as_slice(), b"\xff", br#"{"version":1"#] {
        assert_eq!(rt; fault(alloc, text), Some(FileFault::Json));
    }
    let nested = "[".repeat(alloc, 200)?;
    assert_eq!(rt; fault(alloc, nested.as_bytes()), Some(FileFault::Json));
    let spaces = " ".repeat(alloc, 1_048_577)?;
    let place = at(Part::File, 0, 0);
    assert_eq!(rt;
        fault(alloc, spaces.as_bytes()),
        Some(FileFault::Limit { place })
    );
    for bracket in ["[", "{"] {
        let most = bracket.repeat(alloc, 32_768)?;
        assert_eq!(rt; fault(alloc, most.as_bytes()), Some(FileFault::Json));
        let too_many = bracket.repeat(alloc, 32_769)?;
        assert_eq!(rt;
            fault(alloc, too_many.as_bytes()),
            Some(FileFault::Limit { place })
        );
    }
    Ok(())
}

#[test]
fn faults_of_the_top_object(rt: HostRuntime) -> Result<(), Fail> {
    let alloc = rt.alloc();
    let place = at(Part::Top, 0, 0);
    let rows = [
        (r#","transmit":true"#, FileFault::Shape { place }),
        (r#","ports":-1"#, FileFault::Limit { place }),
        (r#","transmit":5"#, FileFault::Limit { place }),
        (r#","colour":1"#, FileFault::Unknown { place }),
        (r#","version":3,"ecn":1"#, FileFault::Unknown { place }),
        (r#","low":4,"high":4"#, FileFault::Marks { place }),
        (r#","ports":1.0"#, FileFault::Shape { place }),
        (r#","ports":5"#, FileFault::Limit { place }),
    ];
    for (top, told) in rows {
        let text = file(alloc, top, "}", STEPS, END)?;
        assert_eq!(rt; fault(alloc, text.as_bytes()), Some(told));
    }
    let text = file(alloc, "", "}", STEPS, END)?;
    assert_eq!(rt;
        read(alloc, text.as_bytes(), 2, &[]).err(),
        Some(FileFault::Limit { place })
    );
    Ok(())
}

#[test]
fn faults_of_functions(rt: HostRuntime) -> Result<(), Fail> {
    let alloc = rt.alloc();
    let first = at(Part::Function, 0, 0);
    let second = at(Part::Function, 1, 0);
    let rows = [
        (r#","colour":1}"#, FileFault::Unknown { place: first }),
        (
            r#","kind":"guest","guest":"g"}"#,
            FileFault::Unknown { place: first },
        ),
        (r#","core":1}"#, FileFault::Limit { place: first }),
        (r#","name":"F"}"#, FileFault::Shape { place: first }),
        (r#"},7"#, FileFault::Shape { place: second }),
        (
            r#"},{"name":"g","service":1,"core":0,"kind":"forward"}"#,
            FileFault::Twice { place: second },
        ),
    ];
    for (functions, told) in rows {
        let text = file(alloc, "", functions, STEPS, END)?;
        assert_eq!(rt; fault(alloc, text.as_bytes()), Some(told));
    }
    Ok(())
}

#[test]
fn faults_of_chains_and_steps(rt: HostRuntime) -> Result<(), Fail> {
    let alloc = rt.alloc();
    let step = at(Part::Step, 0, 0);
    let chain = at(Part::Chain, 1, 0);
    let rows = [
        (r#"{"to":2}"#, END, FileFault::Unknown { place: step }),
        (r#"{"to":1,"out":0}"#, END, FileFault::Shape { place: step }),
        (r#"{"out":1}"#, END, FileFault::Limit { place: step }),
        (
            STEPS,
            r#",{"name":"a","steps":[{"to":1}]}],"default":"a"}"#,
            FileFault::Twice { place: chain },
        ),
        (
            STEPS,
            r#",{"name":"b","steps":[]}],"default":"a"}"#,
            FileFault::Limit { place: chain },
        ),
        (
            STEPS,
            r#",{"name":"b","step":[]}],"default":"a"}"#,
            FileFault::Shape { place: chain },
        ),
        (
            STEPS,
            r#",{"name":"b","steps":[{"to":1}],"to":1}],"default":"a"}"#,
            FileFault::Unknown { place: chain },
        ),
    ];
    for (steps, behind, told) in rows {
        let text = file(alloc, "", "}", steps, behind)?;
        assert_eq!(rt; fault(alloc, text.as_bytes()), Some(told));
    }
    Ok(())
}

#[test]
fn faults_of_rules_and_of_the_default(rt: HostRuntime) -> Result<(), Fail> {
    let alloc = rt.alloc();
    let rule = at(Part::Rule, 1, 0);
    let default = at(Part::Default, 0, 0);
    let top = at(Part::Top, 0, 0);
    let rows = [
        (
            r#"{"chain":"b","match":{}}"#,
            "a",
            FileFault::Unknown { place: rule },
        ),
        (
            r#"{"chain":"B","match":{}}"#,
            "a",
            FileFault::Shape { place: rule },
        ),
        (
            r#"{"chain":"a","match":{"port":4}}"#,
            "a",
            FileFault::Limit { place: rule },
        ),
        (
            r#"{"chain":"a","match":{"src_ports":[2,1]}}"#,
            "a",
            FileFault::Shape { place: rule },
        ),
        (
            r#"{"chain":"a","match":{"port":3}}"#,
            "b",
            FileFault::Unknown { place: default },
        ),
        (
            r#"{"chain":"b","match":{}}"#,
            "B",
            FileFault::Shape { place: top },
        ),
    ];
    for (second, name, told) in rows {
        let behind = format!(in alloc;
            r#"],"rules":[{{"chain":"a","match":{{}}}},{second}],"default":"{name}"}}"#
        )?;
        let text = file(alloc, "", "}", STEPS, behind.as_str())?;
        assert_eq!(rt; fault(alloc, text.as_bytes()), Some(told));
    }
    Ok(())
}
