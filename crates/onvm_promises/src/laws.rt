//! What the definitions of passes and logs say together.
ghost use Rattle.std.specs.Prelude.{◌≡◌, ◌+◌, ◌≤◌, ◌<◌, ◌++◌, ◌∷◌, [], true, false, ℕ, List, length, None};
ghost use Rattle.onvm_base.specs.declared.ids.FnId.{FnId};
ghost use Rattle.onvm_base.specs.declared.ids.RingId.TheVariants.{Output};
ghost use Rattle.onvm_base.specs.declared.plan.Plan.{Plan};
ghost use Rattle.onvm_core.specs.Blocks.{IsOfBlocks, kind_of};
ghost use Rattle.onvm_core.specs.Blocks.RoleKind.{Handles, Receives, Sends, Ticks};
ghost use Rattle.onvm_core.specs.Handling.{core_hand};
ghost use Rattle.onvm_core.specs.Logs.{Log, Setting};
ghost use Rattle.onvm_core.specs.Marks.{Ages, AreMarked};
ghost use Rattle.onvm_core.specs.Places.{how_many};
ghost use Rattle.onvm_core.specs.Receiving.{done_count, receive_phase};
ghost use Rattle.onvm_core.specs.Receiving.ReceivePhase.{Between};
ghost use Rattle.onvm_core.specs.Sending.{send_phase};
ghost use Rattle.onvm_core.specs.Sending.SendPhase.{Free};
ghost use Rattle.load_estimate.specs.declared.sample.Sample.{Sample};
ghost use Rattle.load_estimate.specs.declared.tick.Tick.{Tick};
ghost use Rattle.onvm_promises.specs.Acts.{AreBlockSteps, AreMoveSteps};
ghost use Rattle.onvm_promises.specs.Follows.{HandlesFrom, ReceivesFrom, SendsFrom, TicksOn, receive_phase_from};
ghost use Rattle.onvm_promises.specs.Kept.{kept_at, kept_now, moment_then, posts_by, records_by, samples_by, sent_by};
ghost use Rattle.onvm_promises.specs.Passes.{HasOneSample, IsMarksPass, IsServed, is_pop_of};
ghost use Rattle.onvm_promises.specs.Rests.{IsSettledFeeder};
ghost use Rattle.onvm_promises.specs.Sampling.{AreEven, IsEven};
ghost use Rattle.onvm_promises.specs.Ticks.{AreAllTicks, AreTicksSoFar, PostsWeights, last_moment, new_ticks};
ghost use Rattle.onvm_promises.specs.Times.{aged_by, passes_in};

/// What a role keeps grows by what the acts of a pass tell, each at the pass's moment.
pub fn lists_grow_by_a_pass()
    ensures records { (moment : ℕ → ℕ) (now : ℕ) (added before : Log)
        → kept_at records_by (moment_then moment (length before) now) (added ++ before)
        ≡ kept_at records_by moment before ++ kept_now records_by now added }
    ensures sent { (moment : ℕ → ℕ) (now : ℕ) (added before : Log)
        → kept_at sent_by (moment_then moment (length before) now) (added ++ before)
        ≡ kept_at sent_by moment before ++ kept_now sent_by now added }
    ensures posts { (moment : ℕ → ℕ) (now : ℕ) (added before : Log)
        → kept_at posts_by (moment_then moment (length before) now) (added ++ before)
        ≡ kept_at posts_by moment before ++ kept_now posts_by now added }
    ensures samples { (moment : ℕ → ℕ) (now : ℕ) (added before : Log)
        → kept_at samples_by (moment_then moment (length before) now) (added ++ before)
        ≡ kept_at samples_by moment before ++ kept_now samples_by now added }
{}

/// The pattern of a stretch, from where the role stood, goes on the pattern of its log.
pub fn stretches_go_on()
    ensures receives { (setting : Setting) (port : ℕ) (added before : Log)
        → kind_of setting.layout port ≡ Receives → IsOfBlocks setting port before
        → ReceivesFrom setting port (receive_phase setting before) added
        → IsOfBlocks setting port (added ++ before) }
    ensures sends { (setting : Setting) (role : ℕ) (added before : Log)
        → kind_of setting.layout role ≡ Sends → IsOfBlocks setting role before
        → SendsFrom setting role (send_phase before) added
        → IsOfBlocks setting role (added ++ before) }
    ensures handles { (setting : Setting) (role : ℕ) (added before : Log)
        → kind_of setting.layout role ≡ Handles → IsOfBlocks setting role before
        → HandlesFrom setting role before added
        → IsOfBlocks setting role (added ++ before) }
    ensures ticks { (setting : Setting) (role : ℕ) (added before : Log)
        → kind_of setting.layout role ≡ Ticks → IsOfBlocks setting role before
        → TicksOn setting added → IsOfBlocks setting role (added ++ before) }
{}

/// Behind a marks pass a burst of blocks, or of pops from each output ring, leaves a feeder settled.
pub fn a_burst_leaves_a_feeder_settled()
    ensures moves { (setting : Setting) (feeder : ℕ) (aged : Ages) (before marks moves : Log)
        → setting.layout.ports ≤ feeder → IsMarksPass setting feeder aged before marks
        → AreMoveSteps (λ f. f.0 < setting.layout.functions) moves
        → SendsFrom setting feeder Free moves
        → ((f : FnId) → how_many (is_pop_of (Output f)) moves ≤ setting.plan.burst)
        → IsSettledFeeder setting feeder aged (moves ++ marks ++ before) }
    ensures blocks { (setting : Setting) (port done : ℕ) (aged : Ages) (before marks blocks : Log)
        → port < setting.layout.ports → IsMarksPass setting port aged before marks
        → receive_phase setting (marks ++ before) ≡ Between done → AreBlockSteps blocks
        → ReceivesFrom setting port (Between done) blocks
        → done_count (receive_phase_from setting (Between done) blocks) ≤ done + setting.plan.burst
        → receive_phase_from setting (Between done) blocks
        ≡ Between (done_count (receive_phase_from setting (Between done) blocks))
        → IsSettledFeeder setting port aged (blocks ++ marks ++ before) }
{}

/// The answers on the age, read off a log and its moments, stay as the log grows, and so do marks
/// that are right. An age of 0 is always reached.
pub fn answers_stay()
    ensures aged { (setting : Setting) (feeder : ℕ) (moment later : ℕ → ℕ) (added before : Log)
        (pass f : ℕ) → ((k : ℕ) → k < length before → later k ≡ moment k)
        → pass < passes_in setting feeder before
        → aged_by setting feeder later (added ++ before) pass f
        ≡ aged_by setting feeder moment before pass f }
    ensures marked { (setting : Setting) (feeder : ℕ) (moment later : ℕ → ℕ) (added before : Log)
        → ((k : ℕ) → k < length before → later k ≡ moment k)
        → AreMarked setting feeder (aged_by setting feeder moment before) before
        → AreMarked setting feeder (aged_by setting feeder later (added ++ before)) before }
    ensures at_once { (setting : Setting) (feeder : ℕ) (moment : ℕ → ℕ) (log : Log) (pass f : ℕ)
        → setting.plan.age ≡ 0 → pass < passes_in setting feeder log
        → aged_by setting feeder moment log pass f ≡ true }
{}

/// Where whole passes follow one another, one sample stands between two looks at a function's weight
/// word, if the function handled a frame there, and else none.
pub fn whole_passes_mail_one_sample()
    ensures { (setting : Setting) (f : FnId) (before added : Log) → core_hand before ≡ None
        → IsServed setting f before added → HasOneSample f added → AreEven f before
        → IsEven f before → AreEven f (added ++ before) × IsEven f (added ++ before) }
{}

/// A pass of the tick role that takes these samples more makes a tick where one is due, and so it is
/// with all ticks; one that closes the run makes the last.
pub fn ticks_go_on()
    ensures next { (plan : Plan) (functions first now : ℕ) (samples more : List Sample)
        (ticks : List Tick) (added before : Log) → last_moment first ticks ≤ now
        → AreTicksSoFar plan functions first samples ticks before
        → PostsWeights functions (new_ticks plan first now false (samples ++ more) ticks) added
        → AreTicksSoFar plan functions first (samples ++ more)
        (ticks ++ new_ticks plan first now false (samples ++ more) ticks) (added ++ before) }
    ensures closed { (plan : Plan) (functions first now : ℕ) (samples more : List Sample)
        (ticks : List Tick) (added before : Log) → last_moment first ticks ≤ now
        → AreTicksSoFar plan functions first samples ticks before
        → PostsWeights functions (new_ticks plan first now true (samples ++ more) ticks) added
        → AreAllTicks plan functions first (samples ++ more)
        (ticks ++ new_ticks plan first now true (samples ++ more) ticks) (added ++ before) }
{}
