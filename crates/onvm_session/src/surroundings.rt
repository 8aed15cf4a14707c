//! What a session stands among.

/// The functions and the clock of a session, as far as laws speak of them. `S` is what functions
/// keep between frames.
pub trait Surroundings<S> {
    ghost use Rattle.std.specs.Prelude.{ℕ};
    ghost use Rattle.onvm_core.specs.Journals.{Handling};

    /// How the function of a number may handle a frame, from one state to another.
    ghost acts: { Self → ℕ → S → Handling → S → Type 0 };

    /// The moments that the clock may tell.
    ghost may_tell: { Self → ℕ → Type 0 };

    /// The spans that the clock may tell of a cost.
    ghost cost_may_take: { Self → ℕ → ℕ → Type 0 };
}
