//! What is still asked of a test, where its binary is known.

ghost use Rattle.std.specs.Prelude.{◌≡◌, ◌↔◌, IsTrue, Some, map, slice_get, true};
ghost use Rattle.regex.specs.Strings.{matcher_pattern};
ghost use Rattle.nextest_filter_evaluation.specs.Formulas.{Holds};
ghost use Rattle.nextest_filter_evaluation.specs.Ready.{IsFound, SayAlike, Says, ready_of, turned_over};

use crate::joining::{both_of, either_of, not_of};
use nextest_filter_matchers::GenericGlob;
use regex::Matcher;
use std::mem;

/// A filter made ready for the tests of one binary.
pub enum ReadyExpr<'f> {
    /// All tests of the binary, or none.
    Known(bool),
    Not(Box<ReadyExpr<'f>>),
    Union(Box<ReadyExpr<'f>>, Box<ReadyExpr<'f>>),
    Intersection(Box<ReadyExpr<'f>>, Box<ReadyExpr<'f>>),
    /// The test of this name.
    Equal(&'f str),
    /// Tests whose names contain the text.
    Contains(&'f str),
    /// Tests whose names the glob matches.
    Glob(&'f GenericGlob),
    /// Tests in whose names the pattern of the searcher at the place is found.
    Pattern(usize),
    /// Tests of groups, by a flag for each.
    Groups(Vec<bool>),
}

// By a loop along the left side, where long chains lie, without a stack frame for each operand.
impl Drop for ReadyExpr<'_> {
    fn drop(mut self) {
        loop {
            match self {
                ReadyExpr::Not(x) => self = Box::into_inner(x),
                ReadyExpr::Union(x, y) | ReadyExpr::Intersection(x, y) => {
                    drop(y);
                    self = Box::into_inner(x);
                }
                ReadyExpr::Known(_)
                | ReadyExpr::Equal(_)
                | ReadyExpr::Contains(_)
                | ReadyExpr::Glob(_)
                | ReadyExpr::Pattern(_)
                | ReadyExpr::Groups(_) => return,
            }
        }
    }
}

impl<'f> ReadyExpr<'f> {
    /// Whether the filter holds of the test with the name, whose group is at the place. No more is asked
    /// than the answer takes.
    pub fn holds(&self, searchers: &mut [Matcher<'f>], group: usize, name: &str) -> bool
        ensures holds { IsTrue result ↔ Holds (Says (map matcher_pattern searchers.old) group
            name.now) (ready_of self.now) }
        ensures same { map matcher_pattern searchers.new ≡ map matcher_pattern searchers.old }
    {
        let mut negated = false;
        let mut rest = self;
        loop {
            match rest {
                ReadyExpr::Not(x) => {
                    negated = !negated;
                    rest = x;
                }
                ReadyExpr::Union(x, y) => {
                    if y.holds(searchers, group, name) {
                        return !negated;
                    }
                    rest = x;
                }
                ReadyExpr::Intersection(x, y) => {
                    if !y.holds(searchers, group, name) {
                        return negated;
                    }
                    rest = x;
                }
                ReadyExpr::Known(value) => return *value != negated,
                ReadyExpr::Equal(text) => return (*text == name) != negated,
                ReadyExpr::Contains(text) => return name.contains(*text) != negated,
                ReadyExpr::Glob(glob) => return glob.is_match(name) != negated,
                ReadyExpr::Pattern(place) => return is_found(searchers, *place, name) != negated,
                ReadyExpr::Groups(flags) => return is_set(flags, group) != negated,
            }
        }
    }
    /// The filter whose operators these are from the inside out, around what lies innermost.
    pub(crate) fn turned_over(mut self, innermost: ReadyExpr<'f>) -> ReadyExpr<'f>
        ensures { SayAlike (ready_of result) (turned_over self.entry (ready_of innermost.entry)) }
    {
        let mut built = innermost;
        loop {
            match self {
                ReadyExpr::Not(mut x) => {
                    self = mem::replace(&mut *x, built);
                    built = not_of(x);
                }
                ReadyExpr::Union(mut x, y) => {
                    self = mem::replace(&mut *x, built);
                    built = either_of(x, y);
                }
                ReadyExpr::Intersection(mut x, y) => {
                    self = mem::replace(&mut *x, built);
                    built = both_of(x, y);
                }
                ReadyExpr::Known(_) => return built,
                ReadyExpr::Equal(_) => return built,
                ReadyExpr::Contains(_) => return built,
                ReadyExpr::Glob(_) => return built,
                ReadyExpr::Pattern(_) => return built,
                ReadyExpr::Groups(flags) => {
                    drop(flags);
                    return built;
                }
            }
        }
    }
}

fn is_found<'f>(searchers: &mut [Matcher<'f>], place: usize, name: &str) -> bool
    ensures found { IsTrue result ↔ IsFound (map matcher_pattern searchers.old) place name.now }
    ensures same { map matcher_pattern searchers.new ≡ map matcher_pattern searchers.old }
{
    if place >= searchers.len() {
        return false;
    }
    searchers[place].is_match(name)
}

/// Whether the flag at the place is set.
fn is_set(flags: &[bool], place: usize) -> bool
    ensures { IsTrue result ↔ (slice_get flags.now place ≡ Some true) }
{
    match flags.get(place) {
        Some(flag) => *flag,
        None => false,
    }
}
