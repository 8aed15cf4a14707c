//! One tick: what its lines tell, and the weights that it posts.
ghost use Rattle.std.specs.Prelude.{◌≡◌, ◌<◌, ◌≤◌, ℕ, List, [], Some, length, slice_get, vec_len, vec_capacity};
ghost use Rattle.onvm_base.specs.declared.function.FunctionPlan.{FunctionPlan};
ghost use Rattle.onvm_core.specs.Layouts.{tick_role};
ghost use Rattle.onvm_board.specs.Tokens.{grown};
ghost use Rattle.load_estimate.specs.declared.sample.Sample.{Sample};
ghost use Rattle.load_estimate.specs.declared.tick.Tick.{Tick};
ghost use Rattle.onvm_promises.specs.Lines.{line_of, lines_of, weight_after, weight_or};
ghost use Rattle.onvm_promises.specs.Ticks.{last_number};
ghost use Rattle.tick_pass.specs.Roles.{HasCoreRoom, LastInForce};
ghost use Rattle.tick_pass.specs.Telling.{AreCurrent, AreLoaded, post_of, posts_from};

use crate::loads::{CoreLoads, load_of};
use crate::room::append;
use load_estimate::{Share, Tick, TickLine, Window};
use onvm_base::{FnId, ListOf, Plan};
use onvm_board::{Board, Token};
use onvm_core::Word;

// The weight of a function that is in force after these ticks.
fn weight_in_force(plan: &Plan, ticks: &[Tick], f: usize) -> u32
    requires known { f < length plan.now.functions }
    requires last { LastInForce plan.now ticks.now }
    ensures { (function : FunctionPlan) → slice_get plan.now.functions f ≡ Some function
        → result ≡ weight_after f function.weight ticks.now }
{
    match ticks.last() {
        Some(tick) => tick.lines.as_slice()[f].weight,
        None => plan.functions.as_slice()[f].weight,
    }
}

// The weight of a function in force from now on: its share's, and without a share the one so far.
fn weight_told(plan: &Plan, ticks: &[Tick], f: usize, share: Option<Share>) -> u32
    requires known { f < length plan.now.functions }
    requires last { LastInForce plan.now ticks.now }
    ensures { (function : FunctionPlan) → slice_get plan.now.functions f ≡ Some function
        → result ≡ weight_or share (weight_after f function.weight ticks.now) }
{
    match share {
        Some(share) => share.weight,
        None => weight_in_force(plan, ticks, f),
    }
}

// Posts the weight of a share that is there.
fn post_weight(board: &Board, token: &mut Token, function: FnId, share: Option<Share>)
    requires board { token.old.board ≡ board.now.id }
    requires mine { token.old.role ≡ tick_role board.now.layout }
    requires known { function.0 < board.now.layout.functions }
    ensures { token.new ≡ grown (post_of function share) token.old.hand token.old }
{
    if let Some(share) = share {
        board.post(token, Word::Weight(function), u64::from(share.weight));
    }
}

// The line of a function.
fn line_at(
    core: &mut CoreLoads,
    plan: &Plan,
    windows: &[Window],
    ticks: &[Tick],
    f: usize,
) -> TickLine
    requires room { HasCoreRoom core.old }
    requires windows { AreLoaded plan.now windows.now }
    requires last { LastInForce plan.now ticks.now }
    requires known { f < length plan.now.functions }
    ensures line { (samples : List Sample) (now : ℕ) (function : FunctionPlan)
        → AreCurrent plan.now samples now windows.now → slice_get plan.now.functions f ≡ Some function
        → result ≡ line_of plan.now ticks.now samples now f function }
    ensures room { HasCoreRoom core.new }
{
    let share = core.share(plan, windows, f);
    let weight = weight_told(plan, ticks, f, share);
    let load = load_of(&windows[f]);
    TickLine {
        arrivals: load.arrivals,
        median: load.median,
        share,
        weight,
    }
}

/// The lines of a tick behind these, the weights of which it posts. There has to be room for them.
pub(crate) fn tell_lines(
    mut lines: Vec<TickLine>,
    core: &mut CoreLoads,
    windows: &[Window],
    ticks: &[Tick],
    token: &mut Token,
    board: &Board,
    plan: &Plan,
) -> Vec<TickLine>
    requires none { lines.items ≡ [] }
    requires line_room { length plan.now.functions ≤ vec_capacity lines }
    requires room { HasCoreRoom core.old }
    requires windows { AreLoaded plan.now windows.now }
    requires last { LastInForce plan.now ticks.now }
    requires board { token.old.board ≡ board.now.id }
    requires mine { token.old.role ≡ tick_role board.now.layout }
    requires functions { board.now.layout.functions ≡ length plan.now.functions }
    ensures lines { (samples : List Sample) (now : ℕ) → AreCurrent plan.now samples now windows.now
        → result.items ≡ lines_of plan.now ticks.now samples now }
    ensures posted { token.new ≡ grown (posts_from 0 result.items) token.old.hand token.old }
    ensures room { HasCoreRoom core.new }
{
    for f in 0..plan.functions.len() {
        let line = line_at(core, plan, windows, ticks, f);
        post_weight(board, token, FnId(f as u8), line.share);
        append(&mut lines, line);
    }
    lines
}
