//! Ticks over a small board, worked out by hand.
ghost use Rattle.std.specs.Prelude.{◌≡◌, ◌<◌, ◌≤◌, All, IfOk, length};
ghost use Rattle.onvm_base.specs.Plan.{IsChainPlan};
ghost use Rattle.tick_pass.specs.Examples.{IsDesk, IsSmall, function_of, two_functions};
ghost use Rattle.tick_pass.specs.Roles.{latest_of};

use crate::{TickKept, TickRole, TickRoom};
use desc_ring::{Mail, mail_ends};
use load_estimate::{Sample, Share, TickLine};
use onvm_base::{
    ChainId, ChainList, ChainPlan, ChainStep, FnId, FunctionList, FunctionPlan, Kind, ListOf, Name,
    NoMemory, Plan,
};
use onvm_board::{Board, Token};
use onvm_core::{Layout, Word};
use onvm_promises::Pass;
use std::alloc::Global;
use std::test::Fail;

fn may_be_handed_over<T: Send>(_value: &T) {}

fn function(alloc: Global, service: u8, priority: u16) -> Result<FunctionPlan, NoMemory>
    requires { service < 10 }
    ensures { IfOk result (λ function. function ≡ function_of service priority) }
{
    Ok(FunctionPlan {
        name: Name::from_slice(alloc, &[b'0' + service])?,
        service,
        core: 0,
        kind: Kind::Forward,
        priority,
        weight: 1024,
        cost: 100,
    })
}

// Functions 0 and 1 share core 0, with priorities 1 and 3.
fn functions(alloc: Global) -> Result<FunctionList, NoMemory>
    ensures { IfOk result (λ functions. functions ≡ two_functions) }
{
    let mut functions = ListOf::make(alloc);
    functions.push(function(alloc, 1, 1)?)?;
    functions.push(function(alloc, 2, 3)?)?;
    Ok(functions)
}

fn chains(alloc: Global) -> Result<ChainList, NoMemory>
    ensures count { IfOk result (λ chains. length chains ≡ 1) }
    ensures are { IfOk result (λ chains. All (IsChainPlan 1 two_functions) chains) }
{
    let mut chains = ListOf::make(alloc);
    chains.push(ChainPlan {
        name: Name::from_slice(alloc, b"c")?,
        steps: ListOf::from_slice(alloc, &[ChainStep::Out(0)])?,
    })?;
    Ok(chains)
}

// A tick each microsecond, over windows of a tenth of a second.
fn plan(alloc: Global) -> Result<Plan, NoMemory>
    ensures { IfOk result IsSmall }
{
    let functions = functions(alloc)?;
    let chains = chains(alloc)?;
    Ok(Plan {
        version: 1,
        ports: 1,
        transmit: 1,
        cores: 1,
        buffers: 4,
        ring: 8,
        output: 8,
        burst: 8,
        high: 6,
        low: 2,
        age: 100_000,
        window: 100_000_000,
        tick: 1000,
        functions,
        chains,
        rules: ListOf::make(alloc),
        default: ChainId(0),
    })
}

// A board with its first token and those of its core and its tick role, the core's ends of the mail
// rings, and a tick role.
#[derive(Drop)]
struct Desk {
    plan: Plan,
    board: Board,
    first: Token,
    core: Token,
    mails: Vec<Mail>,
    token: Token,
    role: TickRole,
}

// What the closing pass leaves.
#[derive(Drop)]
struct Closed {
    answer: Pass,
    weights: (u64, u64),
    kept: TickKept,
}

// The values of both weight words.
fn weights_of(board: &Board, token: &mut Token) -> (u64, u64)
    requires two { board.now.layout.functions ≡ 2 }
    requires board { token.old.board ≡ board.now.id }
    ensures board { token.new.board ≡ board.now.id }
{
    let zero = board.look(token, Word::Weight(FnId(0)));
    let one = board.look(token, Word::Weight(FnId(1)));
    (zero, one)
}

impl Desk {
    fn open(alloc: Global, begin: u64) -> Result<Desk, NoMemory>
        ensures desk { IfOk result (λ desk.
            IsDesk desk.plan desk.board desk.first desk.core desk.mails.items desk.token desk.role) }
        ensures begin { IfOk result (λ desk. latest_of desk.role ≡ begin) }
    {
        let plan = plan(alloc)?;
        let layout = Layout::of(&plan);
        let (board, mut first) = Board::make(alloc, &layout)?;
        let core = board.split(&mut first, 2);
        let token = board.split(&mut first, 3);
        let mails = mail_ends(alloc, &board, &layout)?;
        let role = TickRoom::make(alloc, &plan)?.start(begin);
        Ok(Desk {
            plan,
            board,
            first,
            core,
            mails,
            token,
            role,
        })
    }

    // Mails a sample of a function: so many frames, of which the first took 100 nanoseconds. False
    // where the mail ring was full.
    fn mail(&mut self, f: u8, count: u64) -> bool
        requires desk { IsDesk self.old.plan self.old.board self.old.first self.old.core self.old.mails.items
            self.old.token self.old.role }
        requires known { f < 2 }
        requires few { count < 100 }
        ensures desk { IsDesk self.new.plan self.new.board self.new.first self.new.core self.new.mails.items
            self.new.token self.new.role }
        ensures role { self.new.role ≡ self.old.role }
    {
        let number = count * 1_099_511_627_776 + 100;
        let mail = &mut self.mails[f as usize];
        mail.post_sample(&self.board, &mut self.core, number)
            .is_ok()
    }

    fn pass(&mut self, now: u64) -> Pass
        requires desk { IsDesk self.old.plan self.old.board self.old.first self.old.core self.old.mails.items
            self.old.token self.old.role }
        requires later { latest_of self.old.role ≤ now }
        ensures desk { IsDesk self.new.plan self.new.board self.new.first self.new.core self.new.mails.items
            self.new.token self.new.role }
        ensures later { latest_of self.new.role ≤ now }
    {
        self.role
            .pass(&mut self.token, &self.board, &self.plan, now, false)
    }

    fn weights(&mut self) -> (u64, u64)
        requires desk { IsDesk self.old.plan self.old.board self.old.first self.old.core self.old.mails.items
            self.old.token self.old.role }
        ensures desk { IsDesk self.new.plan self.new.board self.new.first self.new.core self.new.mails.items
            self.new.token self.new.role }
        ensures role { self.new.role ≡ self.old.role }
    {
        weights_of(&self.board, &mut self.first)
    }

    fn close(mut self, now: u64) -> Closed
        requires desk { IsDesk self.plan self.board self.first self.core self.mails.items self.token self.role }
        requires later { latest_of self.role ≤ now }
    {
        let answer = self
            .role
            .pass(&mut self.token, &self.board, &self.plan, now, true);
        let weights = weights_of(&self.board, &mut self.first);
        let Desk { role, .. } = self;
        Closed {
            answer,
            weights,
            kept: role.end(),
        }
    }

    fn end(self) -> TickKept {
        let Desk { role, .. } = self;
        role.end()
    }
}

fn line(arrivals: u64, num: u128, den: u128, weight: u32) -> TickLine {
    TickLine {
        arrivals,
        median: Some(100),
        share: Some(Share { num, den, weight }),
        weight,
    }
}

// Of a function that handled nothing in the window.
fn silent(weight: u32) -> TickLine {
    TickLine {
        arrivals: 0,
        median: None,
        share: None,
        weight,
    }
}

#[test]
fn a_tick_comes_at_its_time_and_not_one_nanosecond_before(rt: HostRuntime) -> Result<(), Fail> {
    let mut desk = Desk::open(rt.alloc(), 500)?;
    assert_eq!(rt; desk.pass(1499), Pass::Idle);
    assert_eq!(rt; desk.pass(1500), Pass::Did(1));
    assert_eq!(rt; desk.pass(2499), Pass::Idle);
    assert_eq!(rt; desk.pass(2500), Pass::Did(1));
    let kept = desk.end();
    let moments: Vec<u64> = kept
        .ticks
        .as_slice()
        .iter()
        .map(|tick| tick.moment)
        .collect(rt.alloc())?;
    assert_eq!(rt; moments.as_slice(), [1500, 2500].as_slice());
    Ok(())
}

#[test]
fn a_closing_pass_makes_a_tick_that_is_not_due(rt: HostRuntime) -> Result<(), Fail> {
    let closed = Desk::open(rt.alloc(), 0)?.close(0);
    assert_eq!(rt; closed.answer, Pass::Did(1));
    assert_eq!(rt; closed.weights, (0, 0));
    assert_eq!(rt; closed.kept.ticks.len(), 1);
    for tick in closed.kept.ticks.as_slice() {
        assert_eq!(rt; (tick.number, tick.moment, tick.taken), (1, 0, 0));
        assert_eq!(rt;
            tick.lines.as_slice(),
            [silent(1024), silent(1024)].as_slice()
        );
    }
    Ok(())
}

#[test]
fn a_mailed_sample_is_logged_with_the_moment_of_its_pass(rt: HostRuntime) -> Result<(), Fail> {
    let mut desk = Desk::open(rt.alloc(), 0)?;
    assert!(rt; desk.mail(1, 7));
    assert!(rt; desk.mail(0, 5));
    assert_eq!(rt; desk.pass(900), Pass::Did(2));
    assert_eq!(rt; desk.pass(901), Pass::Idle);
    let kept = desk.end();
    may_be_handed_over(&kept);
    let sample = |function, count| Sample {
        function: FnId(function),
        moment: 900,
        count,
        time: 100,
    };
    assert_eq!(rt;
        kept.samples.as_slice(),
        [sample(0, 5), sample(1, 7)].as_slice()
    );
    assert_eq!(rt; kept.ticks.len(), 0);
    Ok(())
}

// How many of so many samples of function 0 its mail ring takes.
fn mail_many(desk: &mut Desk, samples: u64) -> u64
    requires few { samples ≤ 100 }
    requires desk { IsDesk desk.old.plan desk.old.board desk.old.first desk.old.core desk.old.mails.items
        desk.old.token desk.old.role }
    ensures desk { IsDesk desk.new.plan desk.new.board desk.new.first desk.new.core desk.new.mails.items
        desk.new.token desk.new.role }
    ensures role { desk.new.role ≡ desk.old.role }
{
    let mut mailed = 0;
    for sample in 0..samples {
        if desk.mail(0, sample) {
            mailed += 1;
        }
    }
    mailed
}

#[test]
fn of_65_samples_of_a_function_a_pass_takes_the_64_that_its_mail_ring_holds(
    rt: HostRuntime,
) -> Result<(), Fail> {
    let mut desk = Desk::open(rt.alloc(), 0)?;
    assert_eq!(rt; mail_many(&mut desk, 65), 64);
    assert_eq!(rt; desk.pass(0), Pass::Did(64));
    assert_eq!(rt; mail_many(&mut desk, 1), 1);
    assert_eq!(rt; desk.pass(1), Pass::Did(1));
    assert_eq!(rt; desk.end().samples.len(), 65);
    Ok(())
}

// Frames come to functions 0 and 1 by turns, and then to function 0 alone, which has half its core
// by then. Each sample has a time of 100.
#[test]
fn weights_follow_the_shares_of_a_core(rt: HostRuntime) -> Result<(), Fail> {
    let mut desk = Desk::open(rt.alloc(), 0)?;
    assert!(rt; desk.mail(0, 4) && desk.mail(1, 4));
    assert_eq!(rt; desk.pass(0), Pass::Did(2));
    assert!(rt; desk.mail(0, 4) && desk.mail(1, 4));
    assert_eq!(rt; desk.pass(1000), Pass::Did(3));
    assert_eq!(rt; desk.weights(), (512, 1536));
    assert!(rt; desk.mail(0, 4));
    assert_eq!(rt; desk.pass(2000), Pass::Did(2));
    assert_eq!(rt; desk.weights(), (614, 1228));
    assert!(rt; desk.mail(0, 4));
    assert_eq!(rt; desk.pass(3000), Pass::Did(2));
    let closed = desk.close(3000);
    assert_eq!(rt; closed.answer, Pass::Did(1));
    assert_eq!(rt; closed.weights, (682, 1024));
    let lines = [
        [line(8, 800, 1600, 512), line(8, 2400, 1600, 1536)],
        [line(12, 1200, 2000, 614), line(8, 2400, 2000, 1228)],
        [line(16, 1600, 2400, 682), line(8, 2400, 2400, 1024)],
        [line(16, 1600, 2400, 682), line(8, 2400, 2400, 1024)],
    ];
    let heads = [(1, 1000, 4), (2, 2000, 5), (3, 3000, 6), (4, 3000, 6)];
    assert_eq!(rt; closed.kept.ticks.len(), 4);
    for (at, tick) in closed.kept.ticks.as_slice().iter().enumerate() {
        assert_eq!(rt; (tick.number, tick.moment, tick.taken), heads[at]);
        assert_eq!(rt; tick.lines.as_slice(), lines[at].as_slice());
    }
    Ok(())
}

#[test]
fn without_a_sample_in_the_window_a_weight_stays(rt: HostRuntime) -> Result<(), Fail> {
    let mut desk = Desk::open(rt.alloc(), 0)?;
    assert!(rt; desk.mail(0, 8) && desk.mail(1, 8));
    assert_eq!(rt; desk.pass(1000), Pass::Did(3));
    let closed = desk.close(100_001_000);
    assert_eq!(rt; closed.answer, Pass::Did(1));
    assert_eq!(rt; closed.weights, (512, 1536));
    let last = closed.kept.ticks.get(1).expect(&rt, "a second tick");
    assert_eq!(rt;
        last.lines.as_slice(),
        [silent(512), silent(1536)].as_slice()
    );
    Ok(())
}
