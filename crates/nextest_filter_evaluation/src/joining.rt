//! Ready filters joined, where what is known of one may make the other needless.

ghost use Rattle.std.specs.Prelude.{◌≡◌, Bool, IfNone, IfSome};
ghost use Rattle.nextest_filter_evaluation.specs.Formulas.{both, either, leaf, negation};
ghost use Rattle.nextest_filter_evaluation.specs.Ready.{Answered, SayAlike, ready_of};

use crate::ready_expr::ReadyExpr;

impl<'f> ReadyExpr<'f> {
    /// Whether the filter holds of all tests of the binary or of none, if that is known.
    pub fn known(&self) -> Option<bool>
        ensures known { IfSome result (λ v. ready_of self.now ≡ leaf (Answered v)) }
        ensures unknown { (v : Bool) → IfNone result (ready_of self.now ≡ leaf (Answered v) → ⊥) }
    {
        match self {
            ReadyExpr::Known(value) => Some(*value),
            _ => None,
        }
    }
}

pub(crate) fn not_of<'f>(x: Box<ReadyExpr<'f>>) -> ReadyExpr<'f>
    ensures { SayAlike (ready_of result) (negation (ready_of x.entry.value)) }
{
    match x.known() {
        Some(value) => {
            drop(x);
            ReadyExpr::Known(!value)
        }
        None => ReadyExpr::Not(x),
    }
}

pub(crate) fn either_of<'f>(x: Box<ReadyExpr<'f>>, y: Box<ReadyExpr<'f>>) -> ReadyExpr<'f>
    ensures { SayAlike (ready_of result)
        (either (ready_of x.entry.value) (ready_of y.entry.value)) }
{
    match (x.known(), y.known()) {
        (Some(true), _) | (_, Some(true)) => {
            drop((x, y));
            ReadyExpr::Known(true)
        }
        (Some(false), _) => {
            drop(x);
            Box::into_inner(y)
        }
        (_, Some(false)) => {
            drop(y);
            Box::into_inner(x)
        }
        (None, None) => ReadyExpr::Union(x, y),
    }
}

pub(crate) fn both_of<'f>(x: Box<ReadyExpr<'f>>, y: Box<ReadyExpr<'f>>) -> ReadyExpr<'f>
    ensures { SayAlike (ready_of result) (both (ready_of x.entry.value) (ready_of y.entry.value)) }
{
    match (x.known(), y.known()) {
        (Some(false), _) | (_, Some(false)) => {
            drop((x, y));
            ReadyExpr::Known(false)
        }
        (Some(true), _) => {
            drop(x);
            Box::into_inner(y)
        }
        (_, Some(true)) => {
            drop(y);
            Box::into_inner(x)
        }
        (None, None) => ReadyExpr::Intersection(x, y),
    }
}
