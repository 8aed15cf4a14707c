//! Chain files.

use onvm_base::NoMemory;
use std::alloc::Global;

/// One port, and a chain through one function that forwards and out of the port.
pub const FORWARDING: &str =
    r#"{"version":1,"ports":1,"functions":[{"name":"f","service":1,"core":0,"kind":"forward"}],"chains":[{"name":"a","steps":[{"to":1},{"out":0}]}],"default":"a"}"#;

/// The same with two ports.
pub const TWO_PORTS: &str =
    r#"{"version":1,"ports":2,"burst":8,"functions":[{"name":"f","service":1,"core":0,"kind":"forward"}],"chains":[{"name":"a","steps":[{"to":1},{"out":0}]}],"default":"a"}"#;

/// Three ports with a chain each, which goes out of the port that a frame came in by.
pub const THREE_PORTS: &str =
    r#"{"version":1,"ports":3,"functions":[{"name":"f","service":1,"core":0,"kind":"forward"}],"chains":[{"name":"a","steps":[{"to":1},{"out":0}]},{"name":"b","steps":[{"to":1},{"out":1}]},{"name":"c","steps":[{"to":1},{"out":2}]}],"rules":[{"chain":"b","match":{"port":1}},{"chain":"c","match":{"port":2}}],"default":"a"}"#;

/// One port, and a chain through function f of service 1 and out of the port. `top` has further keys
/// of the file, each with a comma behind it, and `kind` the function's own.
pub fn one_function(alloc: Global, top: &str, kind: &str) -> Result<String, NoMemory> {
    Ok(format!(in alloc;
        r#"{{"version":1,"ports":1,{top}"functions":[{{"name":"f","service":1,"core":0,{kind}}}],"chains":[{{"name":"a","steps":[{{"to":1}},{{"out":0}}]}}],"default":"a"}}"#
    )?)
}
