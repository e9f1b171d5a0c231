//! What is said of groups.

ghost use Rattle.std.specs.Prelude.{◌≡◌};
ghost use Rattle.group_text.specs.Weights.{weighs};

/// What is said of a group that is complete.
#[derive(Clone, Copy, Debug, PartialEq, Eq)]
pub enum Wanted {
    /// Whether each choice holds some list whole.
    Verdicts,
    /// The same, with a proof of each group that is certain.
    Reasons,
    /// The least and the greatest sum of the weights of the lists that a choice holds whole.
    Ranges,
}

/// Whether lists may have weights.
pub fn weighs(wanted: Wanted) -> bool
    ensures { result ≡ weighs wanted }
{
    match wanted {
        Wanted::Ranges => true,
        Wanted::Verdicts | Wanted::Reasons => false,
    }
}
