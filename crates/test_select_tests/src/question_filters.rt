//! The filters of a question.

use nextest_filtering::CompiledExpr;
use test_select_checks::RecordFilters;

/// The filters of a question's texts, and those of its record.
pub struct QuestionFilters {
    pub(crate) texts: Vec<CompiledExpr>,
    pub(crate) filters: RecordFilters,
}

// Written out, so that a function that lets one go takes one step.
impl Drop for QuestionFilters {
    fn drop(self) {
        let QuestionFilters {
            texts: _,
            filters: _,
        } = self;
    }
}
