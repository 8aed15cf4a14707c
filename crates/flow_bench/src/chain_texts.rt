//! Chain files with so many rules.

use std::alloc::{AllocError, Global};

const BEFORE: &str =
    r#"{"version":1,"ports":4,"functions":[{"name":"f","service":1,"core":0,"kind":"forward"}],"chains":[{"name":"a","steps":[{"to":1},{"out":0}]},{"name":"b","steps":[{"out":0}]}],"rules":["#;

/// A chain file of which the last rule alone holds for the frames of [`crate::frames`]. The others ask
/// for other targets: of one type at all ports, or, `parted`, of one of two types at one of four ports.
pub fn text_of(alloc: Global, rules: u16, parted: bool) -> Result<String, AllocError> {
    let mut text = String::from_str(alloc, BEFORE)?;
    for number in 1..rules {
        text.push_str(rule(alloc, number, parted)?.as_str())?;
    }
    text.push_str(r#"{"chain":"b","match":{"type":2048}}],"default":"a"}"#)?;
    Ok(text)
}

// A rule that doesn't hold, and a comma.
fn rule(alloc: Global, number: u16, parted: bool) -> Result<String, AllocError> {
    let target = number % 256;
    if !parted {
        return format!(in alloc;
            r#"{{"chain":"b","match":{{"type":2048,"dst":"10.2.{target}.0/24"}}}},"#
        );
    }
    let port = number % 4;
    let ethertype = if number % 8 < 4 { 2048 } else { 34_525 };
    format!(in alloc;
        r#"{{"chain":"b","match":{{"port":{port},"type":{ethertype},"dst":"10.2.{target}.0/24"}}}},"#
    )
}
