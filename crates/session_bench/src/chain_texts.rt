//! Chain files.

use onvm_base::NoMemory;
use std::alloc::Global;

/// The most steps of a chain.
const STEPS: u8 = 16;

/// So many functions on one core, and a chain through all of them and out of the port. All forward,
/// but where the chain has no place for the step out of the port: there the last one sends out.
pub fn text_of(alloc: Global, functions: u8) -> Result<String, NoMemory> {
    let mut text = String::new(alloc);
    text.push_str(r#"{"version":1,"ports":1,"functions":["#)?;
    for number in 1..=functions {
        let comma = if number == 1 { "" } else { "," };
        let kind = if number == STEPS {
            r#""out","port":0"#
        } else {
            r#""forward""#
        };
        text.push_str(&format!(in alloc;
            r#"{comma}{{"name":"f{number}","service":{number},"core":0,"kind":{kind}}}"#
        )?)?;
    }
    text.push_str(r#"],"chains":[{"name":"c","steps":["#)?;
    for service in 1..=functions {
        let comma = if service == 1 { "" } else { "," };
        text.push_str(&format!(in alloc; r#"{comma}{{"to":{service}}}"#)?)?;
    }
    if functions < STEPS {
        text.push_str(r#",{"out":0}"#)?;
    }
    text.push_str(r#"]}],"default":"c"}"#)?;
    Ok(text)
}
