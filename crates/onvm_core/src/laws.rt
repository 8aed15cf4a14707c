//! What holds of every lawful list of steps.
ghost use Rattle.std.specs.Prelude.{◌≡◌, ◌+◌, ◌*◌, ◌<◌, ◌≤◌, ◌∷◌, [], true, ℕ, Some, None, length};
ghost use Rattle.onvm_base.specs.declared.limits.TheConstants.{MAX_HOPS};
ghost use Rattle.onvm_base.specs.declared.ids.FnId.{FnId};
ghost use Rattle.onvm_base.specs.declared.ids.FrameId.{FrameId};
ghost use Rattle.onvm_base.specs.declared.ids.BufId.{BufId};
ghost use Rattle.onvm_base.specs.declared.ids.RingId.{RingId};
ghost use Rattle.onvm_base.specs.declared.outcome.Outcome.TheVariants.{Dropped, PoolEmpty, RingFull, Sent, Throttled};
ghost use Rattle.onvm_base.specs.declared.outcome.Record.{Record};
ghost use Rattle.onvm_base.specs.declared.outcome.Why.{Why};
ghost use Rattle.onvm_core.specs.declared.entry.Entry.{Entry};
ghost use Rattle.onvm_core.specs.declared.layout.Layout.{Layout};
ghost use Rattle.onvm_core.specs.declared.layout.Word.TheVariants.{Post as PostWord};
ghost use Rattle.onvm_core.specs.declared.parcel.Parcel.{Parcel};
ghost use Rattle.onvm_core.specs.declared.place.Place.TheVariants.{Pool};
ghost use Rattle.onvm_core.specs.declared.step.Act.TheVariants.{Give, Look};
ghost use Rattle.onvm_core.specs.declared.step.Step.{Step};
ghost use Rattle.onvm_core.specs.Earned.{Clears, ClearsAtOnce, IsDropped, IsEarnedEmpty, IsEarnedFull, IsEarnedThrottle, IsSent, MayRecord};
ghost use Rattle.onvm_core.specs.Marks.{Ages, AreMarked, last_post, mark_events};
ghost use Rattle.onvm_core.specs.Words.{value_of};
ghost use Rattle.onvm_core.specs.Records.{records_in, records_of_act};
ghost use Rattle.onvm_core.specs.Layouts.{IsBuffer, IsFeeder, IsLayout, core_role, ring_size};
ghost use Rattle.onvm_core.specs.History.{History, content_of, place_of, popped_from, pushed_on};
ghost use Rattle.onvm_core.specs.Lawful.{IsLawful};
ghost use Rattle.onvm_core.specs.Places.{IsPrefixOf, StandsOnce, one_if};
ghost use Rattle.onvm_core.specs.Logs.{IsNumbered, Setting, entry_after, log_of};
ghost use Rattle.onvm_core.specs.Blocks.{AllOfBlocks, IsOfBlocks};
ghost use Rattle.onvm_core.specs.Frames.{AllEnded, AllInPool, IsNoFrame, buffer_count, has_begun, load, record_count};
ghost use Rattle.onvm_core.specs.Journals.{HasShortJournals, IsTraced, Names, journal_of};
ghost use Rattle.onvm_core.specs.Potential.{fresh_potential, outputs_by, potential, potential_of_logs, sum_below};
ghost use Rattle.onvm_core.specs.Settings.{HasFewFrames, IsSetting, frame_count};
ghost use Rattle.onvm_core.specs.Samples.{AreSamples, unsampled_count, is_sampled, lost_count, mailed_count};

/// One place: at every moment each buffer is in exactly one of the pool, one ring's content, once,
/// or one role's hands, and that is its place.
pub fn t3_1()
    ensures { (layout : Layout) (past : History) → IsLayout layout → IsLawful layout past
        → (buf : ℕ) → IsBuffer layout buf → StandsOnce layout past buf }
{}

/// Bounded rings: no ring holds more than its size, and what was popped from it is the front of
/// what was pushed on it.
pub fn t3_2()
    ensures bounded { (layout : Layout) (past : History) → IsLawful layout past
        → (ring : RingId) → length (content_of ring past) ≤ ring_size layout ring }
    ensures in_order { (layout : Layout) (past : History) → IsLawful layout past
        → (ring : RingId) → IsPrefixOf (popped_from ring past) (pushed_on ring past) }
{}

/// One frame, one buffer: from its take or its record on, each frame has exactly one record or is
/// in exactly one buffer, and never both. No other frame has a record or is in a buffer, and the
/// buffers of the pool are those without a frame.
pub fn t3_3()
    ensures one { (setting : Setting) (past : History) → IsNumbered setting
        → IsLawful setting.layout past → AllOfBlocks setting past → (frame : FrameId)
        → record_count frame past + buffer_count setting frame past
        ≡ one_if (has_begun setting frame past) }
    ensures pool { (setting : Setting) (past : History) (buf : ℕ)
        → place_of buf past ≡ Pool → load setting buf past ≡ None }
    ensures unloaded { (setting : Setting) (past : History) (buf : ℕ)
        → load setting buf past ≡ None → place_of buf past ≡ Pool }
{}

/// Trails tell journals: each parcel that is pushed, popped or given is made of its frame's as it
/// entered, and its crumbs name entries of their functions' journals, which lead from the captured
/// bytes to the parcel's. So it is where the frames are so few that crumbs can tell entries apart,
/// as those within the limits are, and wherever the journals are short: together they have an entry
/// for each hop of each frame at most.
pub fn t3_4()
    ensures traced { (setting : Setting) (step : Step) (before : History) (parcel : Parcel)
        → IsNumbered setting → IsLawful setting.layout (step ∷ before)
        → AllOfBlocks setting (step ∷ before) → HasFewFrames setting → Names step.act parcel
        → IsTraced setting (step ∷ before) parcel }
    ensures few { (setting : Setting) → IsLayout setting.layout → IsSetting setting
        → HasFewFrames setting }
    ensures by_journals { (setting : Setting) (step : Step) (before : History) (parcel : Parcel)
        → IsLawful setting.layout (step ∷ before) → AllOfBlocks setting (step ∷ before)
        → HasShortJournals setting (step ∷ before) → Names step.act parcel
        → IsTraced setting (step ∷ before) parcel }
    ensures together { (setting : Setting) (past : History) → IsNumbered setting
        → IsLawful setting.layout past → AllOfBlocks setting past
        → sum_below (λ f. length (journal_of setting past (record { 0 = f })))
        setting.layout.functions ≤ MAX_HOPS * frame_count setting }
{}

/// Complete records: where every frame's block has ended and every buffer is in the pool, each
/// frame has exactly one record. No other frame ever has one, or is in a buffer. As soon as there
/// are as many records as frames, every block has ended and every buffer is in the pool.
pub fn t3_6()
    ensures one { (setting : Setting) (past : History) → IsNumbered setting
        → IsLawful setting.layout past → AllOfBlocks setting past → AllEnded setting past
        → AllInPool setting past → (port number : ℕ) (e : Entry) → port < setting.layout.ports
        → entry_after setting port number ≡ Some e → record_count e.frame past ≡ 1 }
    ensures no_other { (setting : Setting) (past : History) → IsNumbered setting
        → IsLawful setting.layout past → AllOfBlocks setting past → (frame : FrameId)
        → IsNoFrame setting frame
        → (record_count frame past ≡ 0) × (buffer_count setting frame past ≡ 0) }
    ensures ends { (setting : Setting) (past : History) → IsNumbered setting
        → IsLawful setting.layout past → AllOfBlocks setting past
        → length (records_in past) ≡ frame_count setting
        → AllEnded setting past × AllInPool setting past }
{}

/// It ends: no step raises the potential, and each push on an output ring lowers it. At first it is
/// 66 for each frame. It can be told from the roles' logs alone.
pub fn t5_1()
    ensures falls { (setting : Setting) (step : Step) (before : History) → IsNumbered setting
        → IsLawful setting.layout (step ∷ before) → AllOfBlocks setting (step ∷ before)
        → potential setting (step ∷ before) + outputs_by step.act ≤ potential setting before }
    ensures at_first { (setting : Setting)
        → potential setting [] ≡ fresh_potential * frame_count setting }
    ensures from_logs { (setting : Setting) (past : History) → IsLawful setting.layout past
        → AllOfBlocks setting past
        → potential setting past ≡ potential_of_logs setting (λ role. log_of role past) }
{}

/// Each cause is true: a frame was throttled by a look at the word of a feeder whose mark was
/// raised by a pass that found high and low, with a time of at least the age, and not cleared; each
/// mark is cleared at once by the pass that doesn't find low; a full ring was found full directly before,
/// an empty pool showed no buffer in any word of its part, and each drop and send is the move's.
/// Of the marks only those of that one feeder have to be right.
pub fn t3_5()
    ensures throttled { (setting : Setting) (aged : Ages) (step : Step) (before : History)
        (told : Record) (feeder post : ℕ) (function : FnId)
        → IsLawful setting.layout (step ∷ before) → AllOfBlocks setting (step ∷ before)
        → AreMarked setting feeder aged (log_of feeder before) → records_of_act step.act ≡ told ∷ []
        → told.outcome ≡ Throttled feeder post function
        → (e : Entry) × (done : ℕ) × (entry_after setting step.role done ≡ Some e)
        × (told.frame ≡ e.frame)
        × (step.act ≡ Look (PostWord feeder)
        (value_of setting.layout before (PostWord feeder)) (Some told))
        × IsEarnedThrottle setting aged before e told feeder post function.0 }
    ensures shown { (setting : Setting) (past : History) (feeder : ℕ)
        → IsLawful setting.layout past → IsFeeder setting.layout feeder
        → value_of setting.layout past (PostWord feeder)
        ≡ last_post (mark_events setting feeder (log_of feeder past)) }
    ensures cleared { (setting : Setting) (aged : Ages) (past : History) (feeder f : ℕ)
        → AreMarked setting feeder aged (log_of feeder past)
        → Clears f (mark_events setting feeder (log_of feeder past)) }
    ensures at_once { (setting : Setting) (aged : Ages) (past : History) (feeder f : ℕ)
        → AreMarked setting feeder aged (log_of feeder past)
        → ClearsAtOnce setting feeder f (log_of feeder past) }
    ensures ring_full { (setting : Setting) (step : Step) (before : History) (told : Record)
        (ring : RingId) → AllOfBlocks setting (step ∷ before) → records_of_act step.act ≡ told ∷ []
        → told.outcome ≡ RingFull ring → IsEarnedFull (log_of step.role before) ring }
    ensures pool_empty { (setting : Setting) (step : Step) (before : History) (told : Record)
        → AllOfBlocks setting (step ∷ before) → records_of_act step.act ≡ told ∷ []
        → told.outcome ≡ PoolEmpty
        → IsEarnedEmpty setting step.role (log_of step.role before) step.act
        × (told.frame.port.0 ≡ step.role) }
    ensures dropped { (setting : Setting) (step : Step) (before : History) (b : BufId) (f : FnId)
        (why : Why) (parcel : Parcel) → IsLawful setting.layout before
        → AllOfBlocks setting (step ∷ before) → step.act ≡ Give b (Dropped f why) parcel
        → IsDropped setting parcel f why }
    ensures sent { (setting : Setting) (step : Step) (before : History) (b : BufId) (q : ℕ)
        (parcel : Parcel) → AllOfBlocks setting (step ∷ before)
        → step.act ≡ Give b (Sent q) parcel → IsSent setting parcel q }
    ensures kinds { (setting : Setting) (step : Step) (before : History) (told : Record)
        → AllOfBlocks setting (step ∷ before) → records_of_act step.act ≡ told ∷ []
        → MayRecord step.act told.outcome }
{}

/// Samples: where each number that a core mails counts what its function handled since its last
/// sample, mailed or lost, all counts and what was handled since make up the function's journal,
/// and the counts alone where the last push is followed by a sample. So no handled frame is
/// counted twice.
pub fn t3_7()
    ensures counted { (setting : Setting) (past : History) (f : FnId) → IsLayout setting.layout
        → f.0 < setting.layout.functions
        → IsOfBlocks setting (core_role setting.layout f.0)
        (log_of (core_role setting.layout f.0) past)
        → AreSamples (log_of (core_role setting.layout f.0) past)
        → mailed_count f (log_of (core_role setting.layout f.0) past)
        + lost_count f (log_of (core_role setting.layout f.0) past)
        + unsampled_count f (log_of (core_role setting.layout f.0) past)
        ≡ length (journal_of setting past f) }
    ensures complete { (setting : Setting) (past : History) (f : FnId) → IsLayout setting.layout
        → f.0 < setting.layout.functions
        → IsOfBlocks setting (core_role setting.layout f.0)
        (log_of (core_role setting.layout f.0) past)
        → AreSamples (log_of (core_role setting.layout f.0) past)
        → is_sampled f (log_of (core_role setting.layout f.0) past) ≡ true
        → mailed_count f (log_of (core_role setting.layout f.0) past)
        + lost_count f (log_of (core_role setting.layout f.0) past)
        ≡ length (journal_of setting past f) }
{}
