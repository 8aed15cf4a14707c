//! What is said of a step.

/// Whether a step is allowed.
#[derive(Clone, Copy, Debug, PartialEq, Eq)]
pub enum Judged {
    Allowed,
    /// Refused by this part of the rules: 1 roles, 2 take, 3 give, 4 push, 5 pop, 6 look, 7 post.
    Refused(u8),
}
