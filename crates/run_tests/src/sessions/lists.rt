//! Lists that were put together by hand.

use onvm_base::{
    FrameId, NoMemory, Outcome, Packet, PortId, Post, Posts, Record, Records, SentFrame,
    SentFrames, Stamp,
};
use onvm_session::{Gathered, RunLists};
use std::alloc::Global;
use std::test::Fail;

fn record(port: u8, number: u32, to: u8) -> Record {
    Record {
        frame: FrameId {
            port: PortId(port),
            number,
        },
        outcome: Outcome::Sent(to),
    }
}

fn post(feeder: u8, number: u32) -> Post {
    Post {
        feeder,
        number,
        moment: 1000,
        bits: 1,
    }
}

// The bytes of each are the frame's number.
fn sent_frames(alloc: Global, records: &[Record]) -> Result<SentFrames, NoMemory> {
    let mut sent = SentFrames::make(alloc);
    for told in records {
        sent.push(SentFrame {
            frame: told.frame,
            stamp: Stamp {
                seconds: 0,
                nanos: 0,
                tail: 0,
            },
            packet: Packet::from_slice(alloc, &told.frame.number.to_be_bytes())?,
        })?;
    }
    Ok(sent)
}

fn add(
    alloc: Global,
    gathered: &mut Gathered,
    records: &[Record],
    posts: &[Post],
) -> Result<(), NoMemory> {
    let sent = sent_frames(alloc, records)?;
    gathered.add_feeder(
        Records::from_slice(alloc, records)?,
        sent,
        Posts::from_slice(alloc, posts)?,
    )
}

// Frame 2 of port 0 left before frame 1 of port 1, and frame 1 of port 0 after both.
fn of_two_feeders(alloc: Global) -> Result<RunLists, NoMemory> {
    let mut gathered = Gathered::make(alloc);
    add(
        alloc,
        &mut gathered,
        &[record(0, 2, 0), record(1, 1, 0)],
        &[post(0, 1), post(0, 2)],
    )?;
    add(alloc, &mut gathered, &[record(0, 1, 1)], &[post(1, 1)])?;
    gathered.add_core(3, 5);
    gathered.add_core(u64::MAX, 6);
    gathered.into_lists()
}

#[test]
fn frames_stand_by_port_and_number_and_posts_by_feeder(rt: HostRuntime) -> Result<(), Fail> {
    let lists = of_two_feeders(rt.alloc())?;
    assert_eq!(rt;
        lists.records.as_slice(),
        [record(0, 1, 1), record(0, 2, 0), record(1, 1, 0)].as_slice()
    );
    assert_eq!(rt;
        lists.posts.as_slice(),
        [post(0, 1), post(0, 2), post(1, 1)].as_slice()
    );
    Ok(())
}

#[test]
fn a_sent_frame_moves_with_its_bytes(rt: HostRuntime) -> Result<(), Fail> {
    let lists = of_two_feeders(rt.alloc())?;
    assert_eq!(rt; lists.sent.len(), 3);
    for (sent, told) in lists
        .sent
        .as_slice()
        .iter()
        .zip(lists.records.as_slice().iter())
    {
        assert_eq!(rt; sent.frame, told.frame);
        assert_eq!(rt;
            sent.packet.bytes(),
            told.frame.number.to_be_bytes().as_slice()
        );
    }
    Ok(())
}

#[test]
fn counts_of_cores_are_added_up_to_the_last_number(rt: HostRuntime) -> Result<(), Fail> {
    let lists = of_two_feeders(rt.alloc())?;
    assert_eq!(rt; (lists.yields, lists.lost), (u64::MAX, 11));
    Ok(())
}
