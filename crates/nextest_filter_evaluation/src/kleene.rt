//! Values that may be unknown, as Kleene joins them.

ghost use Rattle.std.specs.Prelude.{◌≡◌};
ghost use Rattle.nextest_filter_evaluation.specs.Kleene as spec;

/// The opposite of what is known.
pub(crate) fn known_not(a: Option<bool>) -> Option<bool>
    ensures { result ≡ spec.known_not a }
{
    match a {
        Some(a) => Some(!a),
        None => None,
    }
}

/// Whether one of two is known to hold.
pub(crate) fn known_either(a: Option<bool>, b: Option<bool>) -> Option<bool>
    ensures { result ≡ spec.known_either a b }
{
    match (a, b) {
        (Some(true), _) | (_, Some(true)) => Some(true),
        (Some(false), b) => b,
        (None, _) => None,
    }
}

/// Whether both are known to hold.
pub(crate) fn known_both(a: Option<bool>, b: Option<bool>) -> Option<bool>
    ensures { result ≡ spec.known_both a b }
{
    match (a, b) {
        (Some(false), _) | (_, Some(false)) => Some(false),
        (Some(true), b) => b,
        (None, _) => None,
    }
}
