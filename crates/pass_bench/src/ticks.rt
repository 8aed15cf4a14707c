//! What a pass of the tick role costs.
ghost use Rattle.std.specs.Prelude.{◌≡◌, ◌<◌, ◌≤◌, false, IfOk};
ghost use Rattle.tick_pass.specs.Roles.{IsTickRole, latest_of};
ghost use Rattle.pass_bench.specs.Ticks.{AreMailed};

use chain_file::read;
use desc_ring::{Mail, mail_ends};
use onvm_base::{NoMemory, Plan};
use onvm_board::{Board, Token};
use onvm_core::Layout;
use onvm_files::SysClock;
use onvm_host::Clock;
use onvm_promises::Pass;
use std::alloc::Global;
use tick_pass::{TickRole, TickRoom};

// Passes that find nothing, between two looks at the clock.
const BURST: u32 = 1024;

// A mailed number has the count of frames above its time, which has 40 bits.
const FRAMES: u64 = 32 << 40;

/// A tick role, and the core that mails it samples.
#[derive(Drop)]
struct Desk {
    plan: Plan,
    board: Board,
    core: Token,
    mails: Vec<Mail>,
    token: Token,
    role: TickRole,
}

// So many functions on one core, with a tick each microsecond.
fn chain_file(alloc: Global, functions: u8) -> Result<String, NoMemory> {
    let mut text = String::new(alloc);
    text.push_str("{\"version\":1,\"ports\":1,\"tick\":1000,\"functions\":[")?;
    for f in 1..functions {
        text.push_str(&function(alloc, f)?)?;
        text.push_str(",")?;
    }
    text.push_str(&function(alloc, functions)?)?;
    text.push_str("],\"chains\":[{\"name\":\"c\",\"steps\":[{\"out\":0}]}],\"default\":\"c\"}")?;
    Ok(text)
}

fn function(alloc: Global, number: u8) -> Result<String, NoMemory> {
    Ok(format!(in alloc;
        "{{\"name\":\"f{number}\",\"service\":{number},\"core\":0,\"kind\":\"forward\"}}"
    )?)
}

impl Desk {
    fn open(alloc: Global, functions: u8) -> Result<Desk, NoMemory>
        ensures mailed { IfOk result (λ desk. AreMailed desk.board desk.core desk.mails.items) }
        ensures role { IfOk result (λ desk. IsTickRole desk.board desk.plan false desk.token desk.role) }
        ensures begin { IfOk result (λ desk. latest_of desk.role ≡ 0) }
    {
        let text = chain_file(alloc, functions)?;
        let Ok(plan) = read(alloc, text.as_bytes(), 1, &[]) else {
            return Err(NoMemory);
        };
        // The core of all functions.
        if plan.cores != 1 {
            return Err(NoMemory);
        }
        let core = u32::from(plan.ports) + u32::from(plan.transmit);
        let layout = Layout::of(&plan);
        let (board, mut first) = Board::make(alloc, &layout)?;
        let mails = mail_ends(alloc, &board, &layout)?;
        let role = TickRoom::make(alloc, &plan)?.start(0);
        Ok(Desk {
            core: board.split(&mut first, core),
            token: board.split(&mut first, core + 1),
            plan,
            board,
            mails,
            role,
        })
    }

    // Mails a sample of each function. The answer is how many mail rings weren't full.
    fn mail_all(&mut self, time: u64) -> u64
        requires mailed { AreMailed self.old.board self.old.core self.old.mails.items }
        requires role { IsTickRole self.old.board self.old.plan false self.old.token self.old.role }
        requires short { time < 1024 }
        ensures mailed { AreMailed self.new.board self.new.core self.new.mails.items }
        ensures role { IsTickRole self.new.board self.new.plan false self.new.token self.new.role }
        ensures latest { latest_of self.new.role ≡ latest_of self.old.role }
    {
        let mut mailed = 0u64;
        for f in 0..self.mails.len() {
            let mail = &mut self.mails[f];
            if mail
                .post_sample(&self.board, &mut self.core, FRAMES + time)
                .is_ok()
            {
                mailed = mailed.wrapping_add(1);
            }
        }
        mailed
    }

    // The answer is how many samples were taken and ticks made.
    fn pass(&mut self, now: u64) -> u64
        requires mailed { AreMailed self.old.board self.old.core self.old.mails.items }
        requires role { IsTickRole self.old.board self.old.plan false self.old.token self.old.role }
        requires later { latest_of self.old.role ≤ now }
        ensures mailed { AreMailed self.new.board self.new.core self.new.mails.items }
        ensures role { IsTickRole self.new.board self.new.plan false self.new.token self.new.role }
        ensures latest { latest_of self.new.role ≤ now }
    {
        let answer = self
            .role
            .pass(&mut self.token, &self.board, &self.plan, now, false);
        match answer {
            Pass::Did(done) => u64::from(done),
            _ => 0,
        }
    }
}

// Passes and the least time that one took, in tenths of a nanosecond.
#[derive(Clone, Copy, Debug)]
struct Cost {
    least: u64,
    // Over what the passes answered. Since it is printed, the compiler can leave out none.
    sum: u64,
}

impl Cost {
    fn new() -> Cost {
        Cost {
            least: u64::MAX,
            sum: 0,
        }
    }

    // So many passes more, with the nanoseconds that they took.
    fn add(&mut self, passes: u32, nanoseconds: u64, sum: u64)
        requires { 0 < passes }
    {
        let tenths = nanoseconds.saturating_mul(10) / u64::from(passes);
        self.least = self.least.min(tenths);
        self.sum = self.sum.wrapping_add(sum);
    }

    fn print(&self, rt: &HostRuntime, functions: u8, name: &str) {
        let _ = println!(rt;
            "tick pass of {functions} functions, {name}: {}.{} ns, sum {}",
            self.least / 10,
            self.least % 10,
            self.sum
        );
    }
}

// Of passes that find nothing and make no tick.
fn idle<C: Clock>(desk: &mut Desk, clock: &C, rounds: u32) -> Cost
    requires mailed { AreMailed desk.old.board desk.old.core desk.old.mails.items }
    requires role { IsTickRole desk.old.board desk.old.plan false desk.old.token desk.old.role }
    requires begin { latest_of desk.old.role ≤ 0 }
    ensures mailed { AreMailed desk.new.board desk.new.core desk.new.mails.items }
    ensures role { IsTickRole desk.new.board desk.new.plan false desk.new.token desk.new.role }
    ensures begin { latest_of desk.new.role ≤ 0 }
{
    let mut cost = Cost::new();
    for _ in 0..rounds {
        let start = clock.now();
        let mut sum = 0u64;
        for _ in 0..BURST {
            sum = sum.wrapping_add(desk.pass(0));
        }
        cost.add(BURST, clock.now().saturating_sub(start), sum);
    }
    cost
}

// Of passes that take a sample of each function, and make a tick or not.
fn busy<C: Clock>(desk: &mut Desk, clock: &C, first: u64, step: u64, passes: u32) -> Cost
    requires mailed { AreMailed desk.old.board desk.old.core desk.old.mails.items }
    requires role { IsTickRole desk.old.board desk.old.plan false desk.old.token desk.old.role }
    requires later { latest_of desk.old.role ≤ first }
{
    let mut cost = Cost::new();
    let mut now = first;
    for pass in 0..passes {
        let mailed = desk.mail_all(u64::from(pass) * 37 % 101);
        let start = clock.now();
        let done = desk.pass(now);
        cost.add(
            1,
            clock.now().saturating_sub(start),
            mailed.wrapping_add(done),
        );
        now = now.saturating_add(step);
    }
    cost
}

/// Prints what a pass costs that finds nothing, one that takes a sample of each function, and one
/// that makes a tick besides, over so many rounds.
pub fn measure_ticks(rt: &HostRuntime, functions: u8, rounds: u32) -> Result<(), NoMemory> {
    let clock = SysClock::make(*rt);
    let mut desk = Desk::open(rt.alloc(), functions)?;
    idle(&mut desk, &clock, rounds).print(rt, functions, "idle");
    busy(&mut desk, &clock, 0, 0, rounds).print(rt, functions, "a sample each");
    let mut desk = Desk::open(rt.alloc(), functions)?;
    busy(&mut desk, &clock, 1000, 1000, rounds).print(rt, functions, "a sample each and a tick");
    Ok(())
}
