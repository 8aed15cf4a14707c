//! What the clauses of a run imply, in the words of its user.
ghost use Rattle.std.specs.Prelude.{◌≡◌, ◌≢◌, ◌⊎◌, ◌++◌, ℕ, List, Option, Some};
ghost use Rattle.onvm_base.specs.declared.frame.Frame.{Frame};
ghost use Rattle.onvm_base.specs.declared.ids.PortId.{PortId};
ghost use Rattle.onvm_base.specs.declared.plan.Plan.{Plan};
ghost use Rattle.onvm_base.specs.declared.status.Status.{Status};
ghost use Rattle.onvm_base.specs.declared.status.Status.TheVariants as status;
ghost use Rattle.chain_file.specs.File.{IsSamePlan};
ghost use Rattle.chain_file.specs.declared.fault.FileFault.{FileFault};
ghost use Rattle.command_words.specs.declared.capture.CaptureWord.{CaptureWord};
ghost use Rattle.command_words.specs.declared.command.Command.{Command};
ghost use Rattle.rx_feed.specs.Limits.{IsSoundSoFar};
ghost use Rattle.onvm_host.specs.Deeds.{Deed};
ghost use Rattle.onvm_host.specs.Files.{Entries, file_of};
ghost use Rattle.onvm_top.specs.Answers.{IsTrueStatus, IsUnlessStopped, OnCommand};
ghost use Rattle.onvm_top.specs.Calls.{CannotOpen};
ghost use Rattle.onvm_top.specs.Captures.{AreGood, IsFaultyCapture, IsFileOf, IsLargeCapture, IsLowestBad};
ghost use Rattle.onvm_top.specs.Chains.{HasFaultyPlan, HasPlan};
ghost use Rattle.onvm_top.specs.Names.{IsNoCommand};
ghost use Rattle.onvm_top.specs.Stops.{StopsAtCaptures};
ghost use Rattle.onvm_top.specs.declared.fault.Fault.TheVariants.{ReadCapture};
ghost use Rattle.pcap_in.specs.declared.pull.PcapFault.{PcapFault};

/// A chain file has one fault, a capture has one, and one that has a fault within the limits passes no
/// limit; and one port is the lowest that has a bad capture. So no fault line can tell another.
pub fn one_cause()
    ensures plan { (command : Command) (guests : List (List ℕ)) (files : Entries) (cause other : FileFault)
        → HasFaultyPlan command guests files cause → HasFaultyPlan command guests files other → cause ≡ other }
    ensures fault { (name : List ℕ) (files : Entries) (fault other : PcapFault)
        → IsFaultyCapture name files fault → IsFaultyCapture name files other → fault ≡ other }
    ensures large { (name : List ℕ) (files : Entries) (fault : PcapFault)
        → IsFaultyCapture name files fault → ¬ (IsLargeCapture name files) }
    ensures port { (files : Entries) (captures : List CaptureWord) (port other : ℕ)
        → IsLowestBad files captures port → IsLowestBad files captures other → port ≡ other }
{}

/// A command has one plan at most, up to what is written in it, and each port has one list of frames.
pub fn one_input()
    ensures frames { (files : Entries) (captures : List CaptureWord) (frames others : ℕ → List Frame)
        → AreGood (Some files) captures frames → AreGood (Some files) captures others
        → (port : ℕ) → frames port ≡ others port }
    ensures plan { (command : Command) (guests : List (List ℕ)) (files : Entries) (plan : Plan) (cause : FileFault)
        → HasPlan command guests files plan → ¬ (HasFaultyPlan command guests files cause) }
    ensures same { (command : Command) (guests : List (List ℕ)) (files : Entries) (plan other : Plan)
        → HasPlan command guests files plan → HasPlan command guests files other → IsSamePlan plan other }
    ensures captures { (files : Entries) (captures : List CaptureWord) (frames : ℕ → List Frame) (port : ℕ)
        → AreGood (Some files) captures frames → ¬ (IsLowestBad files captures port) }
{}

/// Words that are no command are told, unless memory ran out.
pub fn no_command()
    ensures { (words guests : List (List ℕ)) (told told_now : Option Entries) (answer : Status)
        → IsTrueStatus words guests told told_now answer → IsNoCommand words
        → (answer ≡ status.Words) ⊎ (answer ≡ status.Memory) }
{}

/// A chain file that is no plan is told, unless it could not be read or memory ran out.
pub fn no_plan()
    ensures { (words guests : List (List ℕ)) (told told_now : Option Entries) (answer : Status)
        → IsTrueStatus words guests told told_now answer
        → OnCommand words told (λ command files. (cause : FileFault)
        → HasFaultyPlan command guests files cause → IsUnlessStopped status.Plan answer) }
{}

/// A bad capture behind a good chain file is told, unless an input failed or memory ran out.
pub fn bad_capture()
    ensures { (words guests : List (List ℕ)) (told told_now : Option Entries) (answer : Status)
        → IsTrueStatus words guests told told_now answer
        → OnCommand words told (λ command files. (plan : Plan) (port : ℕ)
        → HasPlan command guests files plan → IsLowestBad files command.captures.items port
        → IsUnlessStopped status.Capture answer) }
{}

/// No fault is told late: where a take of a capture failed, the bytes before it were sound.
pub fn unread()
    ensures { (captures : List CaptureWord) (files : Entries) (deeds : List Deed) (port : PortId)
        → StopsAtCaptures captures (Some files) deeds (ReadCapture port)
        → CannotOpen captures port.0 deeds
        ⊎ ((name front rest : List ℕ) × IsFileOf captures port.0 name
        × (file_of name files ≡ Some (front ++ rest)) × IsSoundSoFar front) }
{}

/// With a good chain file and good captures, a run that blames neither an input nor the output, as it
/// does only where one of its calls is a fault, is done or memory ran out.
pub fn complete()
    ensures { (words guests : List (List ℕ)) (told told_now : Option Entries) (answer : Status)
        → IsTrueStatus words guests told told_now answer
        → answer ≢ status.Read → answer ≢ status.Write
        → OnCommand words told (λ command files. (plan : Plan) (frames : ℕ → List Frame)
        → HasPlan command guests files plan → AreGood told command.captures.items frames
        → (answer ≡ status.Done) ⊎ (answer ≡ status.Memory)) }
{}

/// Unless a run was done or failed to write, no file has changed.
pub fn none_made()
    ensures { (words guests : List (List ℕ)) (told told_now : Option Entries) (answer : Status)
        → IsTrueStatus words guests told told_now answer → answer ≢ status.Done → answer ≢ status.Write
        → told_now ≡ told }
{}
