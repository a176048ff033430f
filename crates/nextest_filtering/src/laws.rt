//! Laws that hold of all filters: of those that are compiled, and of matchers, leaves, texts and what is printed.

ghost use Rattle.nextest_filtering.specs.Laws.{CompiledGiveTheSame, CompiledHoldTheSame, PrintedFiltersSayTheSame};

pub use nextest_filter_laws::laws::printed_filters_read_back;
pub use nextest_filter_matchers::laws::matchers_are_lawful;
pub use nextest_filter_syntax::laws::{
    leaves_read_once, patterns_of_one_text_match_alike, texts_read_as_one,
};

/// A compiled filter says of tests and of binaries what the filter says that it is made of.
pub fn compiled_filters_say_the_same()
    ensures holds { CompiledHoldTheSame }
    ensures gives { CompiledGiveTheSame }
{}

/// A printable filter and what is read of its printed text are accepted alike, and say the same of
/// tests and of binaries.
pub fn printed_filters_say_the_same()
    ensures same { PrintedFiltersSayTheSame }
{}
