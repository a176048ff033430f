//! Laws of the filters for changed packages.

ghost use Rattle.test_select_changes.specs.Laws.{ChangedFiltersReadBack, DependentsAreTaken};

/// What is printed of a filter for what depends on packages reads as that filter, but for its spans.
pub fn changed_filters_read_back()
    ensures { ChangedFiltersReadBack }
{}

/// Whatever is read of the text of a filter for what depends on packages takes a test exactly where a
/// path leads from the test's package to one of these packages.
pub fn dependents_are_taken()
    ensures { DependentsAreTaken }
{}
