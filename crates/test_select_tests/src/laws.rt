//! Laws of selections.

ghost use Rattle.test_select_tests.specs.SelectionLaws.{ListedBinariesSuffice, ReadingsSayTheSame, ReportsAgree};
ghost use Rattle.test_select_tests.specs.SelectionLaws.{SelectionsAskWhatIsListed, SelectionsReportAlike, UnaskedHaveNoChosenTest};
ghost use Rattle.test_select_tests.specs.ReasonLaws.{ReasonsSayWhatIsSelected};
ghost use Rattle.test_select_tests.specs.Grouping.{GroupsAscend};
ghost use Rattle.test_select_tests.specs.PartLaws.{PartsAreTheWhole, PartsAscend, PartsShareNothing, PlacesAreOfOnePart};

pub use crate::byte_names::{feature_names_are_bytes, record_names_are_bytes};

/// The filters of a question choose the same tests and ask the same binaries in whichever way they are
/// read: what `select` and `select_plain` are proved to answer is one answer.
pub fn readings_say_the_same()
    ensures same { ReadingsSayTheSame }
{}

/// A binary that is not asked has no chosen test: no needed binary is left out.
pub fn unasked_binaries_have_no_chosen_test()
    ensures none { UnaskedHaveNoChosenTest }
{}

/// A question has one report over the same listings, in the same order, whichever available binaries
/// are asked.
pub fn reports_agree()
    ensures agree { ReportsAgree }
{}

/// Where `select` and `select_plain` both answer a question, over the same listings for the binaries that
/// `select` asked, they choose the same tests and their reports are the same bytes. What they answer is
/// all that it takes.
pub fn selections_report_alike()
    ensures alike { SelectionsReportAlike }
{}

/// A selection asks just the binaries that `binaries_to_ask` lists for its question.
pub fn selections_ask_what_is_listed()
    ensures asked { SelectionsAskWhatIsListed }
{}

/// Listings of the binaries that `binaries_to_ask` lists suffice: whatever is listed of others, the
/// selection and its report are the same.
pub fn listed_binaries_suffice()
    ensures suffice { ListedBinariesSuffice }
{}

/// What `why` says is what `select` does: a reason says that a test is chosen exactly where it is chosen,
/// and that a binary is asked exactly where it is let through.
pub fn reasons_say_what_is_selected()
    ensures say { ReasonsSayWhatIsSelected }
{}

/// Each place of a list is one of exactly one of its parts.
pub fn places_are_of_one_part()
    ensures one { PlacesAreOfOnePart }
{}

/// The parts of the chosen tests are together the chosen tests.
pub fn parts_are_the_whole()
    ensures whole { PartsAreTheWhole }
{}

/// No test is chosen in two parts: chosen tests ascend, so that each stands at one place.
pub fn parts_share_nothing()
    ensures nothing { PartsShareNothing }
{}

/// A part of the chosen tests ascends as they do, so that it is reported and grouped in that order.
pub fn parts_ascend()
    ensures ascend { PartsAscend }
{}

/// The chosen tests by binary: the ids ascend, each once, as do the tests of each, and a test is among
/// those of its binary just where it is chosen.
pub fn groups_ascend()
    ensures ascend { GroupsAscend }
{}
