//! What the definitions of a plan and of a fault imply, for every tree.
ghost use Rattle.std.specs.Prelude.{◌≡◌, ◌≢◌, ◌≤◌, ℕ, List};
ghost use Rattle.onvm_base.specs.declared.plan.Plan.{Plan};
ghost use Rattle.serde_json.specs.Data.{Data};
ghost use Rattle.chain_file.specs.declared.fault.FileFault.{FileFault};
ghost use Rattle.chain_file.specs.declared.fault.FileFault.TheVariants.{Memory};
ghost use Rattle.chain_file.specs.File.{IsFaultOf, IsPlanOf, IsRead, IsRefused, IsSamePlan};
ghost use Rattle.chain_file.specs.Guests.{HaveGuests};
ghost use Rattle.chain_file.specs.Widths.{PlanFits};
ghost use Rattle.chain_file.specs.Written.{written};

/// A tree that is a plan has no fault but want of memory.
pub fn a_plan_has_no_fault()
    ensures { (captures : ℕ) (guests : List (List ℕ)) (tree : Data) (plan : Plan) (fault : FileFault)
        → IsPlanOf captures guests tree plan → IsFaultOf captures guests tree fault → fault ≡ Memory }
{}

/// A tree has no two faults, want of memory aside: so each is told exactly where it is the first.
pub fn one_fault()
    ensures { (captures : ℕ) (guests : List (List ℕ)) (tree : Data) (fault other : FileFault)
        → IsFaultOf captures guests tree fault → IsFaultOf captures guests tree other
        → fault ≢ Memory → other ≢ Memory → fault ≡ other }
{}

/// A file that is a plan is refused for nothing but want of memory.
pub fn a_read_file_is_not_refused()
    ensures { (bytes : List ℕ) (captures : ℕ) (guests : List (List ℕ)) (plan : Plan) (fault : FileFault)
        → IsRead bytes captures guests plan → IsRefused bytes captures guests fault → fault ≡ Memory }
{}

/// A file is one plan at most.
pub fn one_plan()
    ensures { (bytes : List ℕ) (captures : ℕ) (guests : List (List ℕ)) (plan other : Plan)
        → IsRead bytes captures guests plan → IsRead bytes captures guests other → IsSamePlan plan other }
{}

/// Each guest that a plan's functions name is one of those that were handed in.
pub fn a_plans_guests_are_handed_in()
    ensures { (bytes : List ℕ) (captures : ℕ) (guests : List (List ℕ)) (plan : Plan)
        → IsRead bytes captures guests plan → HaveGuests guests plan.functions }
{}

/// A plan has a port for each capture.
pub fn there_are_no_more_captures_than_ports()
    ensures { (bytes : List ℕ) (captures : ℕ) (guests : List (List ℕ)) (plan : Plan)
        → IsRead bytes captures guests plan → captures ≤ plan.ports }
{}

/// Every plan has a file: its written form is one, and is read as the plan, where there are no more captures
/// than ports and the guests that it names are handed in.
pub fn the_written_form_is_read_back()
    ensures { (plan : Plan) (captures : ℕ) (guests : List (List ℕ))
        → PlanFits plan → captures ≤ plan.ports → HaveGuests guests plan.functions
        → IsRead (written plan) captures guests plan }
{}
