//! Laws that hold of all filters that are printed.

ghost use Rattle.nextest_filter_laws.specs.Laws.{PrintedFiltersReadBack};

/// What is printed of a printable filter reads as that filter, but for its spans.
pub fn printed_filters_read_back()
    ensures { PrintedFiltersReadBack }
{}
