//! Mailed numbers.
ghost use Rattle.std.specs.Prelude.{◌≡◌, [], ◌∷◌};
ghost use Rattle.onvm_base.specs.declared.ids.RingId.TheVariants.{Mail};
ghost use Rattle.onvm_core.specs.declared.step.Act.TheVariants.{Pop};
ghost use Rattle.onvm_core.specs.declared.step.Item.TheVariants.{Number};
ghost use Rattle.cpu_shares.specs.Shares.{IsMailed};
ghost use Rattle.onvm_promises.specs.Kept.{samples_by};

use load_estimate::Sample;
use onvm_base::FnId;

// A mailed number has the time in its lower 40 bits, and the count above them.
const TIMES: u64 = 1 << 40;

/// The sample that a function's mailed number tells, with the moment at which it was taken.
pub(crate) fn sample_of(function: FnId, number: u64, moment: u64) -> Sample
    ensures tells { result ∷ [] ≡ samples_by moment (Pop (Mail function) (Number number)) }
    ensures function { result.function ≡ function }
    ensures moment { result.moment ≡ moment }
    ensures mailed { IsMailed result }
{
    Sample {
        function,
        moment,
        count: (number / TIMES) as u32,
        time: number % TIMES,
    }
}
