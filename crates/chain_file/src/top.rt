//! The top object.
ghost use Rattle.std.specs.Prelude.{◌≡◌, ◌≤◌, [], option_and_then};
ghost use Rattle.serde_json.specs.Find.{get};
ghost use Rattle.serde_json.specs.View.{view};
ghost use Rattle.chain_file.specs.Top as spec;
ghost use Rattle.chain_file.specs.Values.{name_at, only};

use crate::fault::Cause;
use crate::judged::{Judged, first_of, unless};
use crate::values::{is_name, list, list_in, number, number_or, only, text};
use onvm_base::{
    MAX_AGE, MAX_BUFFERS, MAX_BURST, MAX_CHAINS, MAX_CORES, MAX_FUNCTIONS, MAX_PORTS, MAX_RING,
    MAX_RULES, MAX_TICK, MAX_TRANSMIT_ROLES, MAX_WINDOW, MIN_RING, MIN_TICK,
};
use serde_json::Value;

// What stands for a key that is not there. The default of `output` is the ring, and those of the marks
// are a quarter from its ends.
const TRANSMIT: u64 = 1;

const CORES: u64 = 1;

const BUFFERS: u64 = 1024;

const RING: u64 = 128;

const BURST: u64 = 32;

const AGE: u64 = 100_000;

const WINDOW: u64 = 100_000_000;

const TICK: u64 = 10_000_000;

/// The numbers of the top object.
#[derive(Clone, Copy, Debug)]
pub struct Sizes {
    pub version: u8,
    pub ports: u8,
    pub transmit: u8,
    pub cores: u8,
    pub buffers: u16,
    pub ring: u16,
    pub output: u16,
    pub burst: u16,
    pub high: u16,
    pub low: u16,
    pub age: u64,
    pub window: u64,
    pub tick: u64,
}

#[derive(Clone, Copy, Debug)]
struct Roles {
    version: u8,
    ports: u8,
    transmit: u8,
    cores: u8,
}

#[derive(Clone, Copy, Debug)]
struct Rings {
    buffers: u16,
    ring: u16,
    output: u16,
    burst: u16,
    high: u16,
    low: u16,
}

#[derive(Clone, Copy, Debug)]
struct Times {
    age: u64,
    window: u64,
    tick: u64,
}

/// The top object, read for so many captures.
#[tactic(auto, unfolding(crate::specs::Top::top_in))]
pub fn top(tree: &Value, captures: u8) -> Judged<Sizes>
    ensures judged { result ≡ spec.top_in captures (view tree.now) }
    ensures ports { 1 ≤ result.value.ports }
    ensures cores { 1 ≤ result.value.cores }
{
    let roles = roles_of(tree, captures);
    let rings = rings_of(tree);
    let times = times_of(tree);
    let lists = lists_cause(tree);
    let rings_value = rings.value;
    Judged {
        cause: first_of(&[
            keys_cause(tree),
            roles.cause,
            rings.cause,
            times.cause,
            lists,
        ]),
        value: Sizes {
            version: roles.value.version,
            ports: roles.value.ports,
            transmit: roles.value.transmit,
            cores: roles.value.cores,
            buffers: rings_value.buffers,
            ring: rings_value.ring,
            output: rings_value.output,
            burst: rings_value.burst,
            high: rings_value.high,
            low: rings_value.low,
            age: times.value.age,
            window: times.value.window,
            tick: times.value.tick,
        },
    }
}

// What is wrong with the keys of the top object.
fn keys_cause(tree: &Value) -> Option<Cause>
    ensures { result ≡ only spec.top_keys [] (view tree.now) }
{
    only(
        tree,
        &[
            "version",
            "ports",
            "transmit",
            "cores",
            "buffers",
            "ring",
            "output",
            "burst",
            "high",
            "low",
            "age",
            "window",
            "tick",
            "functions",
            "chains",
            "rules",
            "default",
        ],
        &[],
    )
}

fn roles_of(tree: &Value, captures: u8) -> Judged<Roles>
    ensures judged { result ≡ spec.roles_in captures (view tree.now) }
    ensures ports { 1 ≤ result.value.ports }
    ensures cores { 1 ≤ result.value.cores }
{
    let version = number(tree, "version", 1, 1);
    let ports = number(tree, "ports", 1, MAX_PORTS as u64);
    let transmit = number_or(tree, "transmit", 1, MAX_TRANSMIT_ROLES as u64, TRANSMIT);
    let cores = number_or(tree, "cores", 1, MAX_CORES as u64, CORES);
    let enough = unless(captures as u64 <= ports.value, Cause::Limit);
    Judged {
        cause: first_of(&[
            version.cause,
            ports.cause,
            enough,
            transmit.cause,
            cores.cause,
        ]),
        value: Roles {
            version: version.value as u8,
            ports: ports.value as u8,
            transmit: transmit.value as u8,
            cores: cores.value as u8,
        },
    }
}

fn rings_of(tree: &Value) -> Judged<Rings>
    ensures { result ≡ spec.rings_in (view tree.now) }
{
    let buffers = number_or(tree, "buffers", 1, MAX_BUFFERS as u64, BUFFERS);
    let ring = number_or(tree, "ring", MIN_RING as u64, MAX_RING as u64, RING);
    let output = number_or(tree, "output", MIN_RING as u64, MAX_RING as u64, ring.value);
    let burst = number_or(tree, "burst", 1, MAX_BURST as u64, BURST);
    let quarter = ring.value / 4;
    let high = number_or(tree, "high", 1, MAX_RING as u64, ring.value - quarter);
    let low = number_or(tree, "low", 1, MAX_RING as u64, quarter.max(1));
    let marks = unless(
        low.value < high.value && high.value <= ring.value,
        Cause::Marks,
    );
    Judged {
        cause: first_of(&[
            buffers.cause,
            ring.cause,
            output.cause,
            burst.cause,
            high.cause,
            low.cause,
            marks,
        ]),
        value: Rings {
            buffers: buffers.value as u16,
            ring: ring.value as u16,
            output: output.value as u16,
            burst: burst.value as u16,
            high: high.value as u16,
            low: low.value as u16,
        },
    }
}

fn times_of(tree: &Value) -> Judged<Times>
    ensures { result ≡ spec.times_in (view tree.now) }
{
    let age = number_or(tree, "age", 0, MAX_AGE, AGE);
    let window = number_or(tree, "window", 1, MAX_WINDOW, WINDOW);
    let tick = number_or(tree, "tick", MIN_TICK, MAX_TICK, TICK);
    Judged {
        cause: first_of(&[age.cause, window.cause, tick.cause]),
        value: Times {
            age: age.value,
            window: window.value,
            tick: tick.value,
        },
    }
}

fn lists_cause(tree: &Value) -> Option<Cause>
    ensures { result ≡ spec.lists_cause (view tree.now) }
{
    let functions = list(tree, "functions", 1, MAX_FUNCTIONS);
    let chains = list(tree, "chains", 1, MAX_CHAINS);
    let rules = match tree.get("rules") {
        Some(rules) => list_in(rules, 0, MAX_RULES),
        None => None,
    };
    let default = name_cause(tree, "default");
    first_of(&[functions, chains, rules, default])
}

// What is wrong with the name under a key.
fn name_cause(tree: &Value, key: &str) -> Option<Cause>
    ensures { result ≡ (name_at (get key.now (view tree.now))).cause }
{
    match text(tree, key) {
        Some(text) => unless(is_name(text), Cause::Shape),
        None => Some(Cause::Shape),
    }
}
