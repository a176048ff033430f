//! Filters of `syntax.json`, read and printed, compared with what each has to be.

mod filter_rows;

pub(crate) use crate::filters::syntax::filter_rows::FilterRows;
