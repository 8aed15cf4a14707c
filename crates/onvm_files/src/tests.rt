//! What no clause says.
use crate::{FileHost, SysClock};
use onvm_host::{Clock, Host, HostFault, Sink, Source};
use std::fs::Permissions;
use std::os::unix::fs::{MetadataExt, PermissionsExt, symlink};
use std::process;
use std::test::Fail;

// Puts a piece into a file and reads it back, through the bound.
fn write_and_read<H: Host>(
    host: &mut H,
    name: &str,
    piece: &[u8],
    into: &mut [u8],
) -> Result<(usize, usize), Fail>
    requires create { H.may_create host.old name.now }
    requires open { H.may_open host.old name.now }
{
    let mut output = host.create_output(name)?;
    let put = output.put(piece)?;
    host.keep(output)?;
    let mut input = host.open_input(name)?;
    let took = input.take(into)?;
    host.shut(input);
    Ok((put, took))
}

#[test]
fn a_real_file_gives_what_was_written(rt: HostRuntime) -> Result<(), Fail> {
    let mut host = FileHost::make(rt);
    let mut into = [0u8; 4];
    // Two runs of this test at once, as in two checkouts, have two files.
    let number = process::id(rt.process());
    let name = format!(in rt.alloc();
        "/tmp/onvm_files_a_real_file_gives_what_was_written_{number}"
    )?;
    let name = name.as_str();
    assert_eq!(rt;
        write_and_read(&mut host, name, &[7, 8, 9, 10, 11], &mut into)?,
        (5, 4)
    );
    assert_eq!(rt; into, [7, 8, 9, 10]);
    assert_eq!(rt; write_and_read(&mut host, name, &[12], &mut into)?, (1, 1));
    assert_eq!(rt; into, [12, 8, 9, 10]);
    std::fs::remove_file(&rt, name)?;
    assert_eq!(rt; host.open_input(name).err(), Some(HostFault::Failed));
    assert_eq!(rt; host.create_output("/tmp").err(), Some(HostFault::Failed));
    assert_eq!(rt; host.say(b"onvm_files\n"), Ok(11));
    Ok(())
}

// How many bytes a real file gives, and which.
fn read_back<H: Host>(host: &mut H, name: &str, into: &mut [u8]) -> Result<usize, Fail>
    requires open { H.may_open host.old name.now }
{
    let mut input = host.open_input(name)?;
    let took = input.take(into)?;
    host.shut(input);
    Ok(took)
}

#[test]
fn what_was_there_stays_until_an_output_is_kept(rt: HostRuntime) -> Result<(), Fail> {
    let mut host = FileHost::make(rt);
    let mut into = [0u8; 4];
    let number = process::id(rt.process());
    let name = format!(in rt.alloc(); "/tmp/onvm_files_what_was_there_stays_{number}")?;
    let link = format!(in rt.alloc(); "{name}_link")?;
    write_and_read(&mut host, &name, &[7, 8], &mut into)?;
    std::fs::set_permissions(&rt, &name, Permissions::from_mode(0o640))?;
    symlink(&rt, &name, &link)?;
    let mut output = host.create_output(&link)?;
    assert_eq!(rt; output.put(&[9, 10, 11]), Ok(3));
    assert_eq!(rt; read_back(&mut host, &name, &mut into)?, 2);
    assert_eq!(rt; host.keep(output), Ok(()));
    assert_eq!(rt; read_back(&mut host, &name, &mut into)?, 3);
    assert_eq!(rt; into, [9, 10, 11, 0]);
    assert_eq!(rt; std::fs::metadata(&rt, &name)?.mode() & 0o777, 0o640);
    std::fs::remove_file(&rt, &link)?;
    std::fs::remove_file(&rt, &name)?;
    Ok(())
}

// The system has the same standard output under each of these names.
#[test]
fn standard_output_is_an_output(rt: HostRuntime) -> Result<(), Fail> {
    let mut host = FileHost::make(rt);
    for name in ["/dev/stdout", "/dev/fd/1", "/proc/self/fd/1"] {
        let mut output = host.create_output(name)?;
        assert_eq!(rt; output.put(b"onvm_files\n"), Ok(11));
        assert_eq!(rt; host.keep(output), Ok(()));
    }
    Ok(())
}

#[test]
fn a_moment_is_not_before_an_earlier_one(rt: HostRuntime) {
    let clock = SysClock::make(rt);
    let first = clock.now();
    let second = clock.now();
    assert!(rt; 0 < first && first <= second);
    assert!(rt; clock.span(first, 0) >= second - first);
    assert_eq!(rt; clock.span(u64::MAX, 7), 0);
}
