//! Reports that were worked out by hand.
use crate::options::Options;
use crate::printed::Printed;
use crate::text::text_of;
use load_estimate::{Share, Tick, TickLine};
use onvm_base::{
    FnId, FrameId, FunctionList, FunctionPlan, Kind, ListOf, Name, NoMemory, Outcome, PortId, Post,
    Record, RingId, Why,
};
use std::alloc::Global;
use std::test::Fail;

const NOTHING_ELSE: Options = Options {
    serial: true,
    records: false,
    throttle_log: false,
    shares: false,
};

fn function(alloc: Global, name: &[u8], priority: u16) -> Result<FunctionPlan, NoMemory> {
    Ok(FunctionPlan {
        name: Name::from_slice(alloc, name)?,
        service: 1,
        core: 0,
        kind: Kind::Forward,
        priority,
        weight: 1024,
        cost: 100,
    })
}

fn functions(alloc: Global) -> Result<FunctionList, NoMemory> {
    let mut functions = ListOf::make(alloc);
    functions.push(function(alloc, b"f", 1)?)?;
    functions.push(function(alloc, b"nat-1", 3)?)?;
    functions.push(function(alloc, b"g", 2)?)?;
    Ok(functions)
}

fn record(port: u8, number: u32, outcome: Outcome) -> Record {
    Record {
        frame: FrameId {
            port: PortId(port),
            number,
        },
        outcome,
    }
}

#[test]
fn records_stand_by_port_and_number_whatever_order_they_come_in(
    rt: HostRuntime,
) -> Result<(), Fail> {
    let alloc = rt.alloc();
    let functions = functions(alloc)?;
    let mut records = ListOf::make(alloc);
    records.push(record(1, 2, Outcome::PoolEmpty))?;
    records.push(record(
        1,
        1,
        Outcome::Throttled {
            feeder: 2,
            post: 7,
            function: FnId(1),
        },
    ))?;
    records.push(record(0, 300, Outcome::Dropped(FnId(0), Why::Hops)))?;
    records.push(record(
        0,
        2,
        Outcome::RingFull {
            ring: RingId::Lane(FnId(2), 3),
        },
    ))?;
    records.push(record(0, 1, Outcome::Sent(1)))?;
    records.push(record(0, 10, Outcome::Dropped(FnId(1), Why::NoPort)))?;
    let printed = Printed {
        frames: 6,
        yields: 12,
        lost: 3,
        records: &records,
        posts: &ListOf::make(alloc),
        ticks: &ListOf::make(alloc),
    };
    let options = Options {
        records: true,
        ..NOTHING_ELSE
    };
    let text = text_of(alloc, functions.as_slice(), &printed, &options)?;
    assert_eq!(rt;
        text.as_slice(),
        b"frames 6\nsent 1\nasked 0\nchain-end 0\nno-service 0\nno-port 1\nhops 1\nthrottled 1\nring-full 1\npool-empty 1\nposts 0\nticks 0\nlost 3\nyields 12\nrecord 0 1 sent 1\nrecord 0 2 ring-full g 3\nrecord 0 10 dropped nat-1 no-port\nrecord 0 300 dropped f hops\nrecord 1 1 throttled 2 7 nat-1\nrecord 1 2 pool-empty\n".as_slice()
    );
    Ok(())
}

#[test]
fn posts_name_the_functions_held_back_and_ticks_what_each_had(rt: HostRuntime) -> Result<(), Fail> {
    let alloc = rt.alloc();
    let functions = functions(alloc)?;
    let mut posts = ListOf::make(alloc);
    posts.push(Post {
        feeder: 1,
        number: 1,
        moment: 3000,
        bits: 0b110,
    })?;
    posts.push(Post {
        feeder: 0,
        number: 1,
        moment: 1000,
        bits: 0b101,
    })?;
    posts.push(Post {
        feeder: 0,
        number: 2,
        moment: 7000,
        bits: 0,
    })?;
    let mut lines = ListOf::make(alloc);
    lines.push(TickLine {
        arrivals: 100,
        median: Some(20),
        share: Some(Share {
            num: 2000,
            den: 36893488147419103232,
            weight: 1,
        }),
        weight: 1,
    })?;
    lines.push(TickLine {
        arrivals: 0,
        median: None,
        share: None,
        weight: 1024,
    })?;
    let mut ticks = ListOf::make(alloc);
    ticks.push(Tick {
        number: 1,
        moment: 3_125_000,
        taken: 4,
        lines,
    })?;
    let printed = Printed {
        frames: 0,
        yields: 0,
        lost: 0,
        records: &ListOf::make(alloc),
        posts: &posts,
        ticks: &ticks,
    };
    let options = Options {
        throttle_log: true,
        shares: true,
        ..NOTHING_ELSE
    };
    let text = text_of(alloc, functions.as_slice(), &printed, &options)?;
    assert_eq!(rt;
        text.as_slice(),
        b"frames 0\nsent 0\nasked 0\nchain-end 0\nno-service 0\nno-port 0\nhops 0\nthrottled 0\nring-full 0\npool-empty 0\nposts 3\nticks 1\nlost 0\nyields 0\npost 0 1 1000 f,g\npost 0 2 7000 -\npost 1 1 3000 nat-1,g\ntick 1 3125000\nshare f 100 20 1 2000/36893488147419103232 1\nshare nat-1 0 - 3 - 1024\n".as_slice()
    );
    Ok(())
}

#[test]
fn the_summary_stands_alone_where_nothing_else_is_asked_for(rt: HostRuntime) -> Result<(), Fail> {
    let alloc = rt.alloc();
    let mut records = ListOf::make(alloc);
    records.push(record(0, 1, Outcome::Dropped(FnId(0), Why::ChainEnd)))?;
    records.push(record(0, 2, Outcome::Dropped(FnId(0), Why::Asked)))?;
    records.push(record(0, 3, Outcome::Dropped(FnId(0), Why::NoService)))?;
    records.push(record(0, 4, Outcome::Dropped(FnId(0), Why::Asked)))?;
    let printed = Printed {
        frames: 4,
        yields: 0,
        lost: 0,
        records: &records,
        posts: &ListOf::make(alloc),
        ticks: &ListOf::make(alloc),
    };
    let text = text_of(alloc, &[], &printed, &NOTHING_ELSE)?;
    assert_eq!(rt;
        text.as_slice(),
        b"frames 4\nsent 0\nasked 2\nchain-end 1\nno-service 1\nno-port 0\nhops 0\nthrottled 0\nring-full 0\npool-empty 0\nposts 0\nticks 0\nlost 0\nyields 0\n".as_slice()
    );
    Ok(())
}
