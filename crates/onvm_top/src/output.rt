//! What a run leaves: the capture of what was sent, and what it says.
ghost use Rattle.std.specs.Prelude.{◌≡◌, ◌++◌, ℕ, IfErr, List, OnErr, OnOk, length};
ghost use Rattle.std.specs.Io.KnownBytes.{Appends};
ghost use Rattle.pcap_in.specs.Emitted.{emitted_frame};
ghost use Rattle.onvm_top.specs.Accounts.{IsLeft, Leaves, capture_text, frame_in};
ghost use Rattle.onvm_top.specs.Calls.{Adds, Writes};
ghost use Rattle.onvm_top.specs.Put.{PutsAll, PutsPart, SaysAll, SaysPart};
ghost use Rattle.onvm_top.specs.Stops.{StopsAtOutput, StopsAtWrite};

use crate::fault::Fault;
use onvm_base::{Failed, SentFrame, SentFrames};
use onvm_host::{Host, Sink};
use pcap_in::{frame_head, header};

/// Writes the capture of these frames, and then says the report.
pub(crate) fn leave<H: Host>(
    host: &mut H,
    name: &str,
    sent: &SentFrames,
    report: &[u8],
) -> Result<(), Fault>
    requires { H.may_create host.old name.now }
    ensures ok { OnOk result (Adds (H.deeds host.old) (H.deeds host.new)
        (IsLeft name.now (capture_text sent.now) report.now (H.files host.old) (H.files host.new)
        (H.said host.old) (H.said host.new))) }
    ensures err { IfErr result (λ fault. Adds (H.deeds host.old) (H.deeds host.new)
        (λ deeds. (front : List ℕ) × Appends (H.said host.old) (H.said host.new) front
        × StopsAtOutput name.now (capture_text sent.now) report.now (H.files host.old) (H.files host.new)
        front deeds fault)) }
{
    write_output(host, name, sent)?;
    match say_all(host, report) {
        Ok(()) => Ok(()),
        Err(_) => Err(Fault::Write),
    }
}

// Creates the output, puts the capture text of the frames, and keeps it.
fn write_output<H: Host>(host: &mut H, name: &str, sent: &SentFrames) -> Result<(), Fault>
    requires { H.may_create host.old name.now }
    ensures ok { OnOk result (Leaves name.now (capture_text sent.now) (H.files host.old) (H.files host.new)) }
    ensures written { OnOk result
        (Adds (H.deeds host.old) (H.deeds host.new) (Writes (length (capture_text sent.now)) name.now)) }
    ensures err { IfErr result (λ fault. Adds (H.deeds host.old) (H.deeds host.new)
        (λ deeds. StopsAtWrite name.now (capture_text sent.now)
        (H.files host.old) (H.files host.new) deeds fault)) }
    ensures said { H.said host.new ≡ H.said host.old }
{
    let mut output = match host.create_output(name) {
        Ok(output) => output,
        Err(why) => return Err(Fault::Write.unless_memory(why)),
    };
    let put = put_capture(&mut output, sent);
    let kept = host.keep(output);
    match (put, kept) {
        (Ok(()), Ok(())) => Ok(()),
        _ => Err(Fault::Write),
    }
}

// Puts the whole piece.
fn put_all<K: Sink>(sink: &mut K, piece: &[u8]) -> Result<(), Failed>
    ensures ok { OnOk result (PutsAll (K.held sink.old) (K.held sink.new)
        (K.puts sink.old) (K.puts sink.new) piece.now) }
    ensures err { OnErr result (PutsPart (K.held sink.old) (K.held sink.new)
        (K.puts sink.old) (K.puts sink.new) piece.now) }
    ensures named { K.name sink.new ≡ K.name sink.old }
{
    let mut rest = piece;
    while !rest.is_empty() {
        let count = sink.put(rest)?;
        rest = &rest[count..];
    }
    Ok(())
}

// Puts the capture text of the frames.
fn put_capture<K: Sink>(sink: &mut K, sent: &SentFrames) -> Result<(), Failed>
    ensures ok { OnOk result (PutsAll (K.held sink.old) (K.held sink.new)
        (K.puts sink.old) (K.puts sink.new) (capture_text sent.now)) }
    ensures err { OnErr result (PutsPart (K.held sink.old) (K.held sink.new)
        (K.puts sink.old) (K.puts sink.new) (capture_text sent.now)) }
    ensures named { K.name sink.new ≡ K.name sink.old }
{
    put_all(sink, &header())?;
    for frame in sent.as_slice() {
        put_frame(sink, frame)?;
    }
    Ok(())
}

// Puts a record: its head, and then the frame's bytes.
fn put_frame<K: Sink>(sink: &mut K, frame: &SentFrame) -> Result<(), Failed>
    ensures ok { OnOk result (PutsAll (K.held sink.old) (K.held sink.new)
        (K.puts sink.old) (K.puts sink.new) (emitted_frame (frame_in frame.now))) }
    ensures err { OnErr result (PutsPart (K.held sink.old) (K.held sink.new)
        (K.puts sink.old) (K.puts sink.new) (emitted_frame (frame_in frame.now))) }
    ensures named { K.name sink.new ≡ K.name sink.old }
{
    let bytes = frame.packet.bytes();
    put_all(sink, &frame_head(&frame.stamp, bytes.len() as u32))?;
    put_all(sink, bytes)?;
    Ok(())
}

/// Says the whole piece.
pub(crate) fn say_all<H: Host>(host: &mut H, piece: &[u8]) -> Result<(), Failed>
    ensures ok { OnOk result (SaysAll (H.said host.old) (H.said host.new)
        (H.deeds host.old) (H.deeds host.new) piece.now) }
    ensures err { OnErr result (SaysPart (H.said host.old) (H.said host.new)
        (H.deeds host.old) (H.deeds host.new) piece.now) }
    ensures files { H.files host.new ≡ H.files host.old }
{
    let mut rest = piece;
    while !rest.is_empty() {
        let count = host.say(rest)?;
        rest = &rest[count..];
    }
    Ok(())
}
