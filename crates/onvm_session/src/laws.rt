//! What holds of a session from turn to turn and from phase to phase, and what follows at its end.
//!
//! Each function went from its `start` to its `state`. The laws hold in all surroundings.
ghost use Rattle.std.specs.Prelude.{◌≡◌, ◌<◌, ◌≤◌, Bool, true, false, ℕ, List, None, length};
ghost use Rattle.onvm_core.specs.Blocks.{kind_of};
ghost use Rattle.onvm_core.specs.History.{History};
ghost use Rattle.onvm_core.specs.Layouts.{IsLayout, first_role, tick_role};
ghost use Rattle.onvm_core.specs.Logs.{Log, Setting};
ghost use Rattle.onvm_core.specs.Settings.{IsSetting, frame_count};
ghost use Rattle.onvm_core.specs.Potential.{sum_below};
ghost use Rattle.onvm_core.specs.declared.entry.Entry.{Entry};
ghost use Rattle.onvm_core.specs.declared.step.Act.{Act};
ghost use Rattle.onvm_promises.specs.Roles.{Fits};
ghost use Rattle.onvm_board.specs.Closing.{ClosedView, IsEndOf};
ghost use Rattle.onvm_board.specs.Tokens.{BoardView, EndsHistory, TokenView};
ghost use Rattle.onvm_promises.specs.declared.pass.Pass.{Pass};
ghost use Rattle.onvm_promises.specs.Answers.{is_complete};
ghost use Rattle.onvm_promises.specs.Kept.{moment_then, records_by};
ghost use Rattle.onvm_session.specs.Accounts.{IsAccounted, RunView};
ghost use Rattle.onvm_session.specs.Boards.{token_after_turn, view_of_closed, view_of_token};
ghost use Rattle.onvm_session.specs.Endings.{Closes, HasLists, IsClosed, closing_moments};
ghost use Rattle.onvm_session.specs.Gathering.{AreRunLists, recorded_count};
ghost use Rattle.onvm_session.specs.Lists.{all_told};
ghost use Rattle.onvm_session.specs.Moments.{moment_of_round, round_of_turn};
ghost use Rattle.onvm_session.specs.Sessions.{AllTold, AreTicksKept, IsRolePass, IsRoleSoFar, IsSession, Keeps, OthersKeep, after_phase, after_turn, with_keeps, with_moment};
ghost use Rattle.onvm_session.specs.Starts.{FirstMoment, first_view, no_keeps};
ghost use Rattle.onvm_session.specs.Turns.{IsOneByOne, role_steps, seated, turn_steps};
ghost use Rattle.onvm_session.specs.Views.{FinalView, IsHistoryOf, place_in, role_at, turns_in};

use crate::surroundings::Surroundings;

/// Before anything was done the loop's invariant holds.
pub fn a_session_begins<S, W: Surroundings<S>>(world: &W)
    ensures { (serial : Bool) (start : ℕ → S) (setting : Setting) (moments : ℕ → ℕ → ℕ) (first : ℕ)
        → FirstMoment serial first
        → IsSession serial (W.may_tell world.now) (W.acts world.now) start start
        (W.cost_may_take world.now) setting moments first first
        first_view (λ role. no_keeps) }
{}

/// A turn of a serial session keeps it: a pass of the role whose place in the round it is, at the
/// round's moment, that wasn't cut short.
pub fn a_turn_keeps_a_session<S, W: Surroundings<S>>(world: &W)
    ensures { (start state now : ℕ → S) (setting : Setting)
        (moments : ℕ → ℕ → ℕ) (first latest : ℕ) (final : FinalView) (keeps : ℕ → Keeps)
        (role seen : ℕ) (after : Log) (kept : Keeps) (answer : Pass) → IsLayout setting.layout
        → IsSession true (W.may_tell world.now) (W.acts world.now) start state
        (W.cost_may_take world.now) setting moments first latest
        final keeps
        → role ≡ role_at setting.layout (place_in setting.layout final.lead)
        → IsRolePass (W.acts world.now) start now (W.cost_may_take world.now) setting role
        (kind_of setting.layout role) first
        (moment_of_round (round_of_turn setting.layout (turns_in final))) false (moments role)
        (final.logs role) after (keeps role) kept answer
        → is_complete answer ≡ true → OthersKeep setting role state now
        → (later : ℕ)
        × IsSession true (W.may_tell world.now) (W.acts world.now) start now (W.cost_may_take world.now) setting
        (with_moment role (moment_then (moments role) (length (final.logs role))
        (moment_of_round (round_of_turn setting.layout (turns_in final)))) moments)
        first later (after_turn role seen after final) (with_keeps role kept keeps) }
{}

/// A phase of another session keeps it, where each role's passes do.
pub fn a_phase_keeps_a_session<S, W: Surroundings<S>>(world: &W)
    ensures { (start state now : ℕ → S) (setting : Setting)
        (moments moments_now : ℕ → ℕ → ℕ) (first latest later : ℕ) (final : FinalView)
        (keeps keeps_now : ℕ → Keeps) (seen : ℕ) (logs : ℕ → Log)
        → IsSession false (W.may_tell world.now) (W.acts world.now) start state
        (W.cost_may_take world.now) setting moments first latest
        final keeps
        → ((role : ℕ) → first_role setting.layout ≤ role → logs role ≡ final.logs role)
        → ((role number : ℕ) → number < length (logs role) → (W.may_tell world.now) (moments_now role number))
        → ((role : ℕ) → role < first_role setting.layout
        → IsRoleSoFar (W.acts world.now) start now (W.cost_may_take world.now) setting role
        (kind_of setting.layout role)
        (moments_now role) (logs role) (keeps_now role))
        → AreTicksKept setting first later (logs (tick_role setting.layout))
        (keeps_now (tick_role setting.layout))
        → AllTold (W.may_tell world.now) (keeps_now (tick_role setting.layout)).ticks
        → IsSession false (W.may_tell world.now) (W.acts world.now) start now
        (W.cost_may_take world.now) setting moments_now first later
        (after_phase (first_role setting.layout) seen logs final) keeps_now }
{}

/// The headline: a session is accounted for that made its closing turn, whose board is closed, and
/// whose roles have as many records as there are frames.
pub fn headline<S, W: Surroundings<S>>(world: &W)
    ensures { (serial : Bool) (start state : ℕ → S)
        (setting : Setting) (moments : ℕ → ℕ → ℕ)
        (first latest : ℕ) (final : FinalView) (keeps : ℕ → Keeps) (seen now : ℕ) (after : Log)
        (kept : Keeps) (run : RunView) → IsLayout setting.layout → IsSetting setting
        → IsSession serial (W.may_tell world.now) (W.acts world.now) start state
        (W.cost_may_take world.now) setting moments first latest
        final keeps
        → Closes serial (W.may_tell world.now) setting moments first latest final keeps seen now after kept run
        → IsClosed setting run
        → HasLists setting (closing_moments setting moments final now) run
        → all_told (λ told. true) records_by (closing_moments setting moments final now)
        run.final.logs (first_role setting.layout) ≡ frame_count setting
        → IsAccounted serial (W.may_tell world.now) (W.cost_may_take world.now) (W.acts world.now) start setting run }
{}

/// What a session's roles kept, put together, are the lists that the headline asks for.
pub fn lists_of_roles<S, W: Surroundings<S>>(world: &W)
    ensures { (serial : Bool) (start state : ℕ → S)
        (setting : Setting) (moments : ℕ → ℕ → ℕ)
        (first latest : ℕ) (final : FinalView) (keeps : ℕ → Keeps) (seen now : ℕ) (after : Log)
        (kept : Keeps) (run : RunView) → IsLayout setting.layout → IsSetting setting
        → IsSession serial (W.may_tell world.now) (W.acts world.now) start state
        (W.cost_may_take world.now) setting moments first latest
        final keeps
        → Closes serial (W.may_tell world.now) setting moments first latest final keeps seen now after kept run
        → IsClosed setting run
        → AreRunLists setting.layout keeps run
        → HasLists setting (closing_moments setting moments final now) run }
{}

/// How many records there are is the sum of what the feeders kept, also behind the closing turn; and
/// how many frames, where each capture was pulled to its end, the sum of what was pulled.
pub fn records_are_counted<S, W: Surroundings<S>>(world: &W)
    ensures kept { (serial : Bool) (start state : ℕ → S) (setting : Setting) (moments : ℕ → ℕ → ℕ)
        (first latest : ℕ) (final : FinalView) (keeps : ℕ → Keeps)
        → IsSession serial (W.may_tell world.now) (W.acts world.now) start state
        (W.cost_may_take world.now) setting moments first latest
        final keeps
        → all_told (λ told. true) records_by moments final.logs (first_role setting.layout)
        ≡ recorded_count setting.layout keeps }
    ensures closed { (serial : Bool) (start state : ℕ → S) (setting : Setting) (moments : ℕ → ℕ → ℕ)
        (first latest : ℕ) (final : FinalView) (keeps : ℕ → Keeps) (seen now : ℕ) (after : Log)
        (kept : Keeps) (run : RunView) → IsLayout setting.layout → IsSetting setting
        → IsSession serial (W.may_tell world.now) (W.acts world.now) start state
        (W.cost_may_take world.now) setting moments first latest
        final keeps
        → Closes serial (W.may_tell world.now) setting moments first latest final keeps seen now after kept run
        → IsClosed setting run
        → all_told (λ told. true) records_by (closing_moments setting moments final now)
        run.final.logs (first_role setting.layout)
        ≡ recorded_count setting.layout keeps }
    ensures pulled { (setting : Setting) (pulled : ℕ → List Entry)
        → ((port : ℕ) → port < setting.layout.ports
        → Fits setting.layout setting.plan port (pulled port) true setting)
        → frame_count setting ≡ sum_below (λ port. length (pulled port)) setting.layout.ports }
{}

/// What a closed board keeps, and how many buffers it says are left, is what the headline asks of a
/// closed board.
pub fn a_closed_board_is_closed()
    ensures { (setting : Setting) (closed : ClosedView) (past : History) (run : RunView)
        → closed.layout ≡ setting.layout → IsEndOf closed past
        → run.final ≡ view_of_closed closed → run.left ≡ closed.left
        → IsClosed setting run }
{}

/// The first token's view after a turn is the view before with the turn's acts; and where a look
/// told it that its logs are of one lawful history, its view is that history's.
pub fn the_first_token_has_the_view()
    ensures turn { (role seen : ℕ) (other token : TokenView) → other.role ≡ role → role < length token.logs
        → view_of_token (token_after_turn role seen other token)
        ≡ after_turn role seen other.log (view_of_token token) }
    ensures settled { (site : BoardView) (act : Act) (token : TokenView) → EndsHistory site act token
        → (past : History) × IsHistoryOf site.layout (view_of_token token) past }
{}

/// Where one role at a time is split, the final view tells the order of all the roles' steps: so two
/// histories of it have the same.
pub fn one_view_has_one_order()
    ensures told { (setting : Setting) (final : FinalView) (past : History)
        → IsHistoryOf setting.layout final past → IsOneByOne final.lead → seated final.lead ≡ None
        → role_steps setting.layout past ≡ turn_steps final.logs (turns_in final) }
    ensures same { (setting : Setting) (final : FinalView) (past other : History)
        → IsHistoryOf setting.layout final past → IsHistoryOf setting.layout final other
        → IsOneByOne final.lead → seated final.lead ≡ None
        → role_steps setting.layout past ≡ role_steps setting.layout other }
{}
