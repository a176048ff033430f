//! What the checker says of an account or an explanation.

use std::fmt;

/// What is to be said of an account or of an explanation: that it is valid, or its first fault.
///
/// A place counts the entries from 0, and a number is a rule's.
#[derive(Clone, Copy, Debug, PartialEq, Eq, Hash)]
pub enum Verdict {
    Accepted,
    /// No rule has the number at this place.
    UnknownRule(usize),
    /// An earlier entry has the conclusion of the one at this place.
    RepeatedConclusion(usize),
    /// A premise of the entry at this place was not concluded before.
    MissingPremise(usize),
    /// This rule's premises are concluded, and its conclusion is not. Said of accounts alone.
    NotClosed(usize),
    /// There is no entry, or the last does not conclude the feature. Said of explanations alone.
    NotGoal,
    /// What the entry at this place concludes is no premise of a later one. Said of explanations alone.
    Unused(usize),
}

impl fmt::Display for Verdict {
    ghost use Rattle.std.specs.Prelude.{Some};
    ghost use Rattle.feature_account.specs.VerdictTexts.{verdict_text};

    ghost output = { λ verdict. Some (verdict_text verdict) };

    fn fmt<W: fmt::Write>(&self, f: &mut fmt::Formatter<W>) -> fmt::Result {
        match self {
            Verdict::Accepted => f.write_str("accepted"),
            Verdict::UnknownRule(place) => write!(f, "refused: unknown rule at {place}"),
            Verdict::RepeatedConclusion(place) => {
                write!(f, "refused: repeated conclusion at {place}")
            }
            Verdict::MissingPremise(place) => write!(f, "refused: missing premise at {place}"),
            Verdict::NotClosed(number) => write!(f, "refused: not closed at {number}"),
            Verdict::NotGoal => f.write_str("refused: goal not reached"),
            Verdict::Unused(place) => write!(f, "refused: unused at {place}"),
        }
    }
}
