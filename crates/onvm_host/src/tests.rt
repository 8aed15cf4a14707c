//! What no clause says.
use crate::{
    Calls, Host, HostFault, MemFile, MemFiles, MemHost, Sink, Source, have_distinct_names,
};
use onvm_base::{Failed, ListOf, Text};
use std::test::Fail;

fn text(rt: HostRuntime, bytes: &[u8]) -> Result<Text, Fail> {
    Ok(ListOf::from_slice(rt.alloc(), bytes)?)
}

fn calls(rt: HostRuntime, numbers: &[u64]) -> Result<Calls, Fail> {
    Ok(ListOf::from_slice(rt.alloc(), numbers)?)
}

fn file(rt: HostRuntime, name: &str, bytes: &[u8], fail: &[u64]) -> Result<MemFile, Fail> {
    Ok(MemFile {
        name: text(rt, name.as_bytes())?,
        bytes: text(rt, bytes)?,
        fail: calls(rt, fail)?,
        piece: 0,
    })
}

// A host of the files `in`, whose second take or put fails, and `plan`.
fn host(rt: HostRuntime, fail: &[u64], space: u64) -> Result<MemHost, Fail> {
    let mut files = MemFiles::make(rt.alloc());
    files.push(file(rt, "in", &[1, 2, 3], &[2])?)?;
    files.push(file(rt, "plan", &[4], &[])?)?;
    if !have_distinct_names(&files) {
        return Err(Fail::from(Failed));
    }
    Ok(MemHost::make(rt.alloc(), files, calls(rt, fail)?, space)?)
}

// Puts a piece into a file and reads it back, through the bound.
fn write_and_read<H: Host>(
    host: &mut H,
    name: &str,
    piece: &[u8],
    into: &mut [u8],
) -> Result<(usize, usize), Fail>
    requires create { H.may_create host.old name.now }
    requires open { H.may_open host.old name.now }
{
    let mut output = host.create_output(name)?;
    let put = output.put(piece)?;
    host.keep(output)?;
    let mut input = host.open_input(name)?;
    let took = input.take(into)?;
    host.shut(input);
    Ok((put, took))
}

#[test]
fn a_host_in_memory_gives_what_was_written(rt: HostRuntime) -> Result<(), Fail> {
    let mut host = host(rt, &[], 8)?;
    let mut into = [0u8; 4];
    assert_eq!(rt;
        write_and_read(&mut host, "out", &[7, 8], &mut into)?,
        (2, 2)
    );
    assert_eq!(rt; into, [7, 8, 0, 0]);
    assert_eq!(rt; write_and_read(&mut host, "plan", &[9], &mut into)?, (1, 1));
    assert_eq!(rt; host.file("plan"), Some([9].as_slice()));
    assert_eq!(rt; host.file("in"), Some([1, 2, 3].as_slice()));
    assert_eq!(rt; host.file("i"), None);
    assert_eq!(rt; host.open_input("i").err(), Some(HostFault::Failed));
    assert_eq!(rt; host.say(&[5, 6]), Ok(2));
    assert_eq!(rt; host.said(), [5, 6].as_slice());
    Ok(())
}

#[test]
fn the_hosts_calls_of_the_listed_numbers_fail(rt: HostRuntime) -> Result<(), Fail> {
    let mut host = host(rt, &[2, 4, 5, 7], 8)?;
    let input = host.open_input("plan")?;
    host.shut(input);
    assert_eq!(rt; host.open_input("plan").err(), Some(HostFault::Failed));
    let mut output = host.create_output("plan")?;
    assert!(rt; host.file("plan").is_some_and(|bytes| bytes.is_empty()));
    output.put(&[3])?;
    assert_eq!(rt; host.keep(output), Err(Failed));
    assert_eq!(rt; host.file("plan"), Some([3].as_slice()));
    assert_eq!(rt; host.create_output("new").err(), Some(HostFault::Failed));
    assert_eq!(rt; host.file("new"), None);
    assert_eq!(rt; host.say(&[1]), Ok(1));
    assert_eq!(rt; host.say(&[2]), Err(Failed));
    assert_eq!(rt; host.said(), [1].as_slice());
    Ok(())
}

#[test]
fn takes_and_puts_of_the_listed_numbers_fail(rt: HostRuntime) -> Result<(), Fail> {
    let mut host = host(rt, &[], 8)?;
    let mut into = [0u8; 2];
    let mut input = host.open_input("in")?;
    assert_eq!(rt; input.take(&mut into), Ok(2));
    assert_eq!(rt; input.take(&mut into), Err(Failed));
    assert_eq!(rt; input.take(&mut into), Ok(1));
    assert_eq!(rt; into, [3, 2]);
    assert_eq!(rt; input.take(&mut into), Ok(0));
    host.shut(input);
    for _ in 0..2 {
        let mut output = host.create_output("in")?;
        assert_eq!(rt; output.put(&[6]), Ok(1));
        assert_eq!(rt; output.put(&[7]), Err(Failed));
        assert_eq!(rt; output.put(&[8]), Ok(1));
        assert_eq!(rt; host.keep(output), Ok(()));
        assert_eq!(rt; host.file("in"), Some([6, 8].as_slice()));
    }
    Ok(())
}

#[test]
fn of_a_piece_past_the_space_what_fits_is_taken(rt: HostRuntime) -> Result<(), Fail> {
    let mut host = host(rt, &[], 3)?;
    let mut output = host.create_output("out")?;
    assert_eq!(rt; output.put(&[1, 2]), Ok(2));
    assert_eq!(rt; output.put(&[3, 4]), Ok(1));
    assert_eq!(rt; output.put(&[5]), Err(Failed));
    assert_eq!(rt; output.put(&[]), Ok(0));
    assert_eq!(rt; host.keep(output), Ok(()));
    assert_eq!(rt; host.file("out"), Some([1, 2, 3].as_slice()));
    assert_eq!(rt; host.say(&[6, 7, 8, 9]), Ok(3));
    assert_eq!(rt; host.say(&[9]), Err(Failed));
    assert_eq!(rt; host.said(), [6, 7, 8].as_slice());
    Ok(())
}

// Of what there is, of what there is room for, and of what is left, a piece of two bytes. The output
// takes it over from the file whose name it has.
#[test]
fn takes_and_puts_move_at_most_a_piece(rt: HostRuntime) -> Result<(), Fail> {
    let mut files = MemFiles::make(rt.alloc());
    let whole = file(rt, "in", &[1, 2, 3, 4, 5], &[])?;
    files.push(MemFile { piece: 2, ..whole })?;
    let mut host = MemHost::make(rt.alloc(), files, calls(rt, &[])?, 3)?;
    let mut into = [0u8; 4];
    let mut input = host.open_input("in")?;
    assert_eq!(rt; input.take(&mut into), Ok(2));
    assert_eq!(rt; into, [1, 2, 0, 0]);
    assert_eq!(rt; input.take(&mut into[..1]), Ok(1));
    assert_eq!(rt; input.take(&mut into), Ok(2));
    assert_eq!(rt; into, [4, 5, 0, 0]);
    assert_eq!(rt; input.take(&mut into), Ok(0));
    host.shut(input);
    let mut output = host.create_output("in")?;
    assert_eq!(rt; output.put(&[6]), Ok(1));
    assert_eq!(rt; output.put(&[7, 8, 9]), Ok(2));
    assert_eq!(rt; output.put(&[9]), Err(Failed));
    assert_eq!(rt; host.keep(output), Ok(()));
    assert_eq!(rt; host.file("in"), Some([6, 7, 8].as_slice()));
    assert_eq!(rt; host.say(&[1, 2, 3]), Ok(3));
    Ok(())
}

#[test]
fn two_files_of_one_name_are_seen(rt: HostRuntime) -> Result<(), Fail> {
    let mut files = MemFiles::make(rt.alloc());
    assert!(rt; have_distinct_names(&files));
    files.push(file(rt, "in", &[1], &[])?)?;
    files.push(file(rt, "out", &[1], &[])?)?;
    assert!(rt; have_distinct_names(&files));
    files.push(file(rt, "in", &[2], &[])?)?;
    assert!(rt; !have_distinct_names(&files));
    Ok(())
}
