//! Chain files.

use onvm_base::NoMemory;
use std::alloc::Global;

/// A function that forwards.
pub const FORWARD: &str = r#""kind":"forward""#;

/// A function that forwards, one frame a pass where bursts have eight.
pub const SLOW: &str = r#""kind":"forward","weight":1"#;

/// Lanes of eight frames with marks, which throttle without delay.
pub const MARKED: &str = r#""buffers":64,"ring":8,"high":4,"low":2,"burst":8,"age":0,"#;

/// One port and one function f of service 1, and a chain through it and out of the port. `top` has
/// further keys of the file, each with a comma behind it, and `kind` the function's.
pub fn one_function(alloc: Global, top: &str, kind: &str) -> Result<String, NoMemory> {
    Ok(format!(in alloc;
        r#"{{"version":1,"ports":1,{top}"functions":[{{"name":"f","service":1,"core":0,{kind}}}],"chains":[{{"name":"a","steps":[{{"to":1}},{{"out":0}}]}}],"default":"a"}}"#
    )?)
}

/// One port and two functions: g of service 2 has the frames of type 2048, and f of service 1 all
/// others.
pub fn two_functions(alloc: Global, top: &str, f: &str, g: &str) -> Result<String, NoMemory> {
    Ok(format!(in alloc;
        r#"{{"version":1,"ports":1,{top}"functions":[{{"name":"f","service":1,"core":0,{f}}},{{"name":"g","service":2,{g}}}],"chains":[{{"name":"a","steps":[{{"to":1}},{{"out":0}}]}},{{"name":"b","steps":[{{"to":2}},{{"out":0}}]}}],"rules":[{{"chain":"b","match":{{"type":2048}}}}],"default":"a"}}"#
    )?)
}

/// Sixteen functions that forward, of services 1 to 16, and a chain through so many of them and then
/// by the steps of `end`, each with a comma before it.
pub fn sixteen_functions(alloc: Global, through: u8, end: &str) -> Result<String, NoMemory> {
    let mut text = String::new(alloc);
    text.push_str(r#"{"version":1,"ports":1,"functions":["#)?;
    for number in 1..=16 {
        let comma = if number == 1 { "" } else { "," };
        text.push_str(&format!(in alloc;
            r#"{comma}{{"name":"f{number}","service":{number},"core":0,"kind":"forward"}}"#
        )?)?;
    }
    text.push_str(r#"],"chains":[{"name":"a","steps":[{"to":1}"#)?;
    for service in 2..=through {
        text.push_str(&format!(in alloc; r#",{{"to":{service}}}"#)?)?;
    }
    text.push_str(end)?;
    text.push_str(r#"]}],"default":"a"}"#)?;
    Ok(text)
}

/// Two ports, which share one function that forwards. All frames leave by port 0.
pub const TWO_PORTS: &str =
    r#"{"version":1,"ports":2,"burst":8,"functions":[{"name":"f","service":1,"core":0,"kind":"forward"}],"chains":[{"name":"a","steps":[{"to":1},{"out":0}]}],"default":"a"}"#;

/// Two ports, four functions on two cores, and one chain through all of them. Lanes have room for all
/// frames of a thousand.
pub const LONG_CHAIN: &str =
    r#"{"version":1,"ports":2,"transmit":2,"cores":2,"ring":1024,"high":1024,"low":512,"functions":[{"name":"f","service":1,"core":0,"kind":"forward"},{"name":"g","service":2,"core":0,"kind":"forward"},{"name":"h","service":3,"core":1,"kind":"forward"},{"name":"i","service":4,"core":1,"kind":"forward"}],"chains":[{"name":"a","steps":[{"to":1},{"to":2},{"to":3},{"to":4},{"out":0}]}],"default":"a"}"#;

/// Four ports, each with a chain of its own and back out of the port: port 0 through f, port 1
/// through g, port 2 through both, and port 3 through none.
pub const FOUR_PORTS: &str =
    r#"{"version":1,"ports":4,"transmit":2,"cores":2,"functions":[{"name":"f","service":1,"core":0,"kind":"forward"},{"name":"g","service":2,"core":1,"kind":"forward"}],"chains":[{"name":"a","steps":[{"to":1},{"out":0}]},{"name":"b","steps":[{"to":2},{"out":1}]},{"name":"c","steps":[{"to":1},{"to":2},{"out":2}]},{"name":"d","steps":[{"out":3}]}],"rules":[{"chain":"a","match":{"port":0}},{"chain":"b","match":{"port":1}},{"chain":"c","match":{"port":2}}],"default":"d"}"#;
