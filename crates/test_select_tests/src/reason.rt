//! Why a test is chosen or not, and a binary asked or not.

ghost use Rattle.std.specs.Prelude.{◌≡◌};
ghost use Rattle.test_select_tests.specs.Reasons.{says_yes};

use std::fmt;

/// Why a test is chosen or not, or a binary asked or not. Texts are those of the record and of the
/// question.
#[derive(Clone, Copy, Debug, PartialEq, Eq)]
pub enum Reason<'a> {
    /// No test binary has this id.
    NoBinary(&'a str),
    /// The binary is of the package with this id, of which it requires this feature, and that is off.
    Off(&'a str, &'a str),
    /// Of an available binary, this is said of the test.
    Test(TestReason),
    /// An available binary, of which this is said.
    Binary(BinaryReason),
}

/// Why a test of an available binary is chosen or not.
#[derive(Clone, Copy, Debug, PartialEq, Eq)]
pub enum TestReason {
    /// The binary lists no such test.
    NotListed,
    /// The default filter does not hold of it.
    DefaultFilter,
    /// The default filter holds, and no text does.
    NoFilter,
    /// No text is given, and the default filter holds.
    Chosen,
    /// The text at this place is the first that holds, and the default filter does.
    ChosenBy(usize),
}

/// Why an available binary is asked for its tests or not.
#[derive(Clone, Copy, Debug, PartialEq, Eq)]
pub enum BinaryReason {
    /// No answers about its tests let it through the default filter.
    DefaultFilter,
    /// Some do, and none let it through a text.
    NoFilter,
    /// Some tests of it may be chosen.
    Asked,
}

impl Reason<'_> {
    /// Whether the test is chosen, or the binary asked.
    pub fn says_yes(&self) -> bool
        ensures yes { result ≡ says_yes self.now }
    {
        match self {
            Reason::Test(TestReason::Chosen | TestReason::ChosenBy(_)) => true,
            Reason::Binary(BinaryReason::Asked) => true,
            _ => false,
        }
    }
}

/// The words of the reason, without a line feed.
impl fmt::Display for Reason<'_> {
    ghost use Rattle.std.specs.Prelude.{Some};
    ghost use Rattle.test_select_tests.specs.ReasonTexts.{reason_text};

    ghost output = { λ reason. Some (reason_text reason) };

    fn fmt<W: fmt::Write>(&self, f: &mut fmt::Formatter<W>) -> fmt::Result {
        match self {
            Reason::NoBinary(id) => write!(f, "no binary {id}"),
            Reason::Off(owner, feature) => write!(f, "off: needs {owner}/{feature}"),
            Reason::Test(reason) => write!(f, "{reason}"),
            Reason::Binary(reason) => write!(f, "{reason}"),
        }
    }
}

impl fmt::Display for TestReason {
    ghost use Rattle.std.specs.Prelude.{Some};
    ghost use Rattle.test_select_tests.specs.ReasonTexts.{test_text};

    ghost output = { λ reason. Some (test_text reason) };

    fn fmt<W: fmt::Write>(&self, f: &mut fmt::Formatter<W>) -> fmt::Result {
        match self {
            TestReason::NotListed => f.write_str("not listed"),
            TestReason::DefaultFilter => f.write_str("default filter does not hold"),
            TestReason::NoFilter => f.write_str("no filter holds"),
            TestReason::Chosen => f.write_str("chosen"),
            TestReason::ChosenBy(place) => write!(f, "chosen by filter {place}"),
        }
    }
}

impl fmt::Display for BinaryReason {
    ghost use Rattle.std.specs.Prelude.{Some};
    ghost use Rattle.test_select_tests.specs.ReasonTexts.{binary_text};

    ghost output = { λ reason. Some (binary_text reason) };

    fn fmt<W: fmt::Write>(&self, f: &mut fmt::Formatter<W>) -> fmt::Result {
        f.write_str(match self {
            BinaryReason::DefaultFilter => "default filter cannot hold",
            BinaryReason::NoFilter => "no filter can hold",
            BinaryReason::Asked => "asked",
        })
    }
}
