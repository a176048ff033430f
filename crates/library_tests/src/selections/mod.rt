//! Tests of selections over listers and writers that fail, of what errors print, and of calls that are made
//! by way of others: what no row can say.

mod direct;
mod error_texts;
mod listers;
mod sorts;
mod written;
