//! What stops a run, and the line that says it.
ghost use Rattle.std.specs.Prelude.{◌≡◌, ◌≤◌, ◌<◌, ◌+◌, ◌^◌, ◌++◌, length};
ghost use Rattle.std.specs.Fmt.{decimal};
ghost use Rattle.chain_file.specs.Messages.{fault_text, place_text};
ghost use Rattle.onvm_top.specs.Fault.{cause_of};

use arrayvec::ArrayString;
use chain_file::{FileFault, Part, Place};
use itoa::Buffer;
use onvm_base::{PortId, Status};
use onvm_host::HostFault;
use onvm_session::Stop;
use pcap_in::PcapFault;

const USAGE: &str =
    "usage: onvm [--serial] [--records] [--throttle-log] [--shares] CHAIN OUT CAPTURE...";

/// What is said of a fault. It takes no memory.
pub type Line = ArrayString<128>;

/// What stops a run.
#[derive(Clone, Copy, Debug, PartialEq, Eq)]
pub enum Fault {
    /// The words are no command.
    Words,
    /// The chain file is no plan.
    Plan(FileFault),
    /// A capture is faulty.
    Broken(PortId, PcapFault),
    /// A capture is over a limit of its port.
    TooMany(PortId),
    /// The chain file could not be opened or read.
    ReadChain,
    /// A capture could not be opened or read.
    ReadCapture(PortId),
    /// The output could not be created or written.
    Write,
    /// Want of memory.
    Memory,
}

impl Fault {
    ghost use Rattle.onvm_top.specs.Fault.{fault_of_file, fault_of_stop, line_of, status_of, text_of, unless_memory};

    /// What stops a run where the host made no input or output: this fault, unless memory was
    /// wanting.
    pub fn unless_memory(self, why: HostFault) -> Fault
        ensures { result ≡ unless_memory self why }
    {
        match why {
            HostFault::Failed => self,
            HostFault::Memory => Fault::Memory,
        }
    }

    /// What stops a run whose chain file is no plan.
    pub fn of_file(fault: FileFault) -> Fault
        ensures { result ≡ fault_of_file fault }
    {
        match fault {
            FileFault::Memory => Fault::Memory,
            _ => Fault::Plan(fault),
        }
    }

    /// What stops a run where this stopped its session.
    pub fn of_stop(stop: Stop) -> Fault
        ensures { result ≡ fault_of_stop stop }
    {
        match stop {
            Stop::Read { port } => Fault::ReadCapture(port),
            Stop::Capture { port, fault } => Fault::Broken(port, fault),
            Stop::TooMany { port } => Fault::TooMany(port),
            Stop::Memory => Fault::Memory,
        }
    }

    /// How a run ends that is stopped by it.
    pub fn status(&self) -> Status
        ensures { result ≡ status_of self.now }
    {
        match self {
            Fault::Words => Status::Words,
            Fault::Plan(_) => Status::Plan,
            Fault::Broken(_, _) | Fault::TooMany(_) => Status::Capture,
            Fault::ReadChain | Fault::ReadCapture(_) => Status::Read,
            Fault::Write => Status::Write,
            Fault::Memory => Status::Memory,
        }
    }

    /// Its line, with a line feed.
    pub fn line(&self) -> Line
        ensures { result.bytes ≡ line_of self.now }
    {
        let mut line = self.text();
        line.push('\n');
        line
    }

    #[tactic(auto, unfolding(crate::specs::Fault::text_of))]
    fn text(&self) -> Line
        ensures text { result.bytes ≡ text_of self.now }
        ensures short { length result.bytes ≤ 120 }
    {
        let mut line = Line::new();
        match self {
            Fault::Words => line.push_str(USAGE),
            Fault::Plan(fault) => {
                line.push_str("fault plan ");
                push_fault(&mut line, fault);
            }
            Fault::Broken(PortId(port), fault) => {
                push_port(&mut line, "fault capture ", *port);
                line.push_str(" ");
                push_cause(&mut line, fault);
            }
            Fault::TooMany(PortId(port)) => {
                push_port(&mut line, "fault capture ", *port);
                line.push_str(" too-many");
            }
            Fault::ReadChain => line.push_str("fault read chain"),
            Fault::ReadCapture(PortId(port)) => push_port(&mut line, "fault read ", *port),
            Fault::Write => line.push_str("fault write"),
            Fault::Memory => line.push_str("fault memory"),
        }
        line
    }
}

#[tactic(auto, unfolding(chain_file::specs::Messages::fault_text))]
fn push_fault(line: &mut Line, fault: &FileFault)
    requires { length line.old.bytes ≤ 20 }
    ensures text { line.new.bytes ≡ line.old.bytes ++ fault_text fault.now }
    ensures short { length line.new.bytes ≤ length line.old.bytes + 80 }
{
    match fault {
        FileFault::Json => line.push_str("json file"),
        FileFault::Shape { place } => push_place(line, "shape ", place),
        FileFault::Unknown { place } => push_place(line, "unknown ", place),
        FileFault::Limit { place } => push_place(line, "limit ", place),
        FileFault::Twice { place } => push_place(line, "twice ", place),
        FileFault::Marks { place } => push_place(line, "marks ", place),
        FileFault::Memory => line.push_str("memory"),
    }
}

#[tactic(auto, unfolding(chain_file::specs::Messages::place_text))]
fn push_place(line: &mut Line, words: &str, place: &Place)
    requires { (length line.old.bytes ≤ 20) × (length words.now ≤ 10) }
    ensures text { line.new.bytes ≡ line.old.bytes ++ words.now ++ place_text place.now }
    ensures short { length line.new.bytes ≤ length line.old.bytes + length words.now + 60 }
{
    line.push_str(words);
    match place.part {
        Part::File => line.push_str("file"),
        Part::Top => line.push_str("top"),
        Part::Function => push_item(line, "function ", place.item),
        Part::Chain => push_item(line, "chain ", place.item),
        Part::Step => {
            push_item(line, "step ", place.item);
            push_item(line, " ", place.inner);
        }
        Part::Rule => push_item(line, "rule ", place.item),
        Part::Default => line.push_str("default"),
    }
}

fn push_item(line: &mut Line, words: &str, number: u16)
    requires { (length line.old.bytes ≤ 60) × (length words.now ≤ 10) }
    ensures text { line.new.bytes ≡ line.old.bytes ++ words.now ++ decimal number }
    ensures short { length line.new.bytes ≤ length line.old.bytes + length words.now + 20 }
{
    line.push_str(words);
    push_number(line, u64::from(number));
}

fn push_port(line: &mut Line, words: &str, port: u8)
    requires { length line.old.bytes + length words.now ≤ 60 }
    ensures text { line.new.bytes ≡ line.old.bytes ++ words.now ++ decimal port }
    ensures short { length line.new.bytes ≤ length line.old.bytes + length words.now + 20 }
{
    line.push_str(words);
    push_number(line, u64::from(port));
}

#[tactic(auto, unfolding(crate::specs::Fault::cause_of))]
fn push_cause(line: &mut Line, fault: &PcapFault)
    requires { length line.old.bytes ≤ 60 }
    ensures text { line.new.bytes ≡ line.old.bytes ++ cause_of fault.now }
    ensures short { length line.new.bytes ≤ length line.old.bytes + 60 }
{
    match fault {
        PcapFault::Magic => line.push_str("magic"),
        PcapFault::Version => line.push_str("version"),
        PcapFault::Link => line.push_str("link"),
        PcapFault::Torn { at } => {
            line.push_str("torn ");
            push_number(line, *at);
        }
        PcapFault::TooLong { at, len } => {
            line.push_str("too-long ");
            push_number(line, *at);
            line.push_str(" ");
            push_number(line, u64::from(*len));
        }
        PcapFault::Fraction { at } => {
            line.push_str("fraction ");
            push_number(line, *at);
        }
    }
}

fn push_number(line: &mut Line, number: u64)
    requires { length line.old.bytes ≤ 100 }
    ensures text { line.new.bytes ≡ line.old.bytes ++ decimal number }
    ensures short { length line.new.bytes ≤ length line.old.bytes + 20 }
{
    line.push_str(Buffer::new().format(number));
}
