//! The filters that a record brings.

ghost use Rattle.std.specs.Prelude.{◌≡◌, false};
ghost use Rattle.nextest_filter_evaluation.specs.Compiled.{compiled_of, is_default, is_group};
ghost use Rattle.nextest_filter_evaluation.specs.Formulas.{has_leaf};

use nextest_filtering::CompiledExpr;

/// A group of tests by its name, with its filter.
#[derive(Debug)]
pub struct GroupFilter {
    pub(crate) name: String,
    pub(crate) filter: CompiledExpr,
}

// Written out, so that a function that lets one go takes one step.
impl Drop for GroupFilter {
    fn drop(self) {
        let GroupFilter { name, filter } = self;
        drop(name);
        drop(filter);
    }
}

/// The groups of a record with their filters, in order, and the default filter.
#[derive(Debug)]
pub struct RecordFilters {
    pub(crate) groups: Vec<GroupFilter>,
    pub(crate) default_filter: CompiledExpr,
    ghost no_default: { has_leaf is_default (compiled_of default_filter) ≡ false },
    ghost no_group: { has_leaf is_group (compiled_of default_filter) ≡ false },
}

// Written out, so that a function that lets one go takes one step.
impl Drop for RecordFilters {
    fn drop(self) {
        let RecordFilters {
            groups,
            default_filter,
        } = self;
        drop(groups);
        drop(default_filter);
    }
}
