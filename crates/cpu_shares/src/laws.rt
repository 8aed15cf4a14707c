//! What the definitions say of a core's shares.
ghost use Rattle.std.specs.Prelude.{ℕ, List, All};
ghost use Rattle.load_estimate.specs.declared.sample.Sample.{Sample};
ghost use Rattle.load_estimate.specs.Windows.{window_of};
ghost use Rattle.cpu_shares.specs.Shares.{IsLoad, IsMailed, load_in};

/// What a window says of samples with counts below 2^24 and times below 2^40 is a load of which
/// shares can be made. A mail ring carries no others.
pub fn a_window_gives_a_load()
    ensures { (span now : ℕ) (logged : List Sample) → All IsMailed logged
        → IsLoad (load_in (window_of span now logged)) }
{}
