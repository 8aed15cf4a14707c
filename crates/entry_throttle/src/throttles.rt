//! The set of throttled functions.
ghost use Rattle.std.specs.Prelude.{◌≡◌, ◌≢◌, ◌≤◌, ◌⊎◌, false, true, if◌then◌else◌, length};
ghost use Rattle.std.specs.Bool.{OnFalse, OnTrue};
ghost use Rattle.onvm_base.specs.declared.limits.TheConstants.{MAX_FUNCTIONS};
ghost use Rattle.watermark.specs.Marks.{is_throttle};
ghost use Rattle.entry_throttle.specs.Throttles.{set_of};

use watermark::Mark;

// A bit per throttled function: bit f is that of function f.
pub(crate) fn set_of(marks: &[Mark]) -> u32
    requires { length marks.now ≤ MAX_FUNCTIONS }
    ensures { result ≡ set_of marks.now }
{
    let mut set: u32 = 0;
    for back in 0..marks.len() {
        let at = marks.len() - 1 - back;
        set = bit_of(marks[at]) + 2 * set;
    }
    set
}

fn bit_of(mark: Mark) -> u32
    ensures { result ≡ (if is_throttle mark then 1 else 0) }
{
    if is_held(mark) { 1 } else { 0 }
}

// Whether something changed before, or a lane became throttled now or ceased to be.
pub(crate) fn differs_or(changed: bool, old: Mark, new: Mark) -> bool
    ensures other { OnTrue result ((changed ≡ true) ⊎ (is_throttle new ≢ is_throttle old)) }
    ensures same { OnFalse result ((changed ≡ false) × (is_throttle new ≡ is_throttle old)) }
{
    changed || is_held(old) != is_held(new)
}

fn is_held(mark: Mark) -> bool
    ensures { result ≡ is_throttle mark }
{
    match mark {
        Mark::Throttle => true,
        Mark::Watch => false,
        Mark::Calm => false,
    }
}
