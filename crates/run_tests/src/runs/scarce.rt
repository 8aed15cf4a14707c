//! Want of memory, as a host tells it.
ghost use Rattle.std.specs.Prelude.{⊤};

use super::frames::CAPTURE;
use super::hosts::{SPACE, compare, host_of, refused, sound, status_of, words_of};
use super::texts::FORWARDING;
use onvm_base::{Failed, Status};
use onvm_host::{Host, HostFault, MemHost, MemInput, MemOutput, OpenGate, StepClock};
use onvm_top::run;
use std::test::Fail;

// A host in memory that finds memory for so many inputs, and for no output.
#[derive(Drop)]
struct ScarceHost {
    host: MemHost,
    inputs: u64,
}

impl Host for ScarceHost {
    type Input = MemInput;

    type Output = MemOutput;

    ghost files = { λ scarce. ⟦<MemHost as Host>⟧.files scarce.host };

    ghost said = { λ scarce. ⟦<MemHost as Host>⟧.said scarce.host };

    ghost deeds = { λ scarce. ⟦<MemHost as Host>⟧.deeds scarce.host };

    ghost may_open = { λ _ _. ⊤ };

    ghost may_create = { λ _ _. ⊤ };

    fn open_input(&mut self, name: &str) -> Result<MemInput, HostFault> {
        if self.inputs == 0 {
            return Err(HostFault::Memory);
        }
        self.inputs -= 1;
        self.host.open_input(name)
    }

    fn create_output(&mut self, _name: &str) -> Result<MemOutput, HostFault> {
        Err(HostFault::Memory)
    }

    fn shut(&mut self, input: MemInput) {
        self.host.shut(input)
    }

    fn keep(&mut self, output: MemOutput) -> Result<(), Failed> {
        self.host.keep(output)
    }

    fn say(&mut self, piece: &[u8]) -> Result<usize, Failed> {
        self.host.say(piece)
    }
}

// For the chain file, for the capture, and for the output.
#[test]
fn want_of_memory_is_told_and_makes_nothing(rt: HostRuntime) -> Result<(), Fail> {
    for inputs in 0..3 {
        let given = [sound("c", FORWARDING.as_bytes()), sound("k", &CAPTURE)];
        let host = host_of(rt.alloc(), &given, &[], SPACE)?;
        let mut scarce = ScarceHost { host, inputs };
        let words = words_of(rt.alloc(), &["--serial", "c", "o", "k"])?;
        let guests = Vec::new(rt.alloc());
        let finish = run(
            &rt,
            &words,
            &mut scarce,
            &StepClock { at: 0 },
            &OpenGate,
            guests,
        );
        let status = status_of(&finish)?;
        let shown = format!(in rt.alloc(); "memory for {inputs} inputs")?;
        let expected = refused(Status::Memory, "fault memory\n");
        compare(&rt, &scarce.host, status, expected, &shown)?;
    }
    Ok(())
}
