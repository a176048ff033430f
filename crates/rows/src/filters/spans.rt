//! Places in texts, as they are told behind what stands there.

use nextest_filter_syntax::SourceSpan;
use row_program::Answers;

/// Adds where a part of a text begins, and how many bytes it has.
pub(crate) fn add_span(span: SourceSpan, answers: &mut Answers) {
    answers.add(&"(");
    answers.add(&span.offset);
    answers.add(&", ");
    answers.add(&span.len);
    answers.add(&")");
}
