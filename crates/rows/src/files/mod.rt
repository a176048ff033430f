//! Files of every kind, compared with what each has to be read as, or why it is refused; what is on by a
//! record, and why, as lines for people; and what Cargo and rustc print, turned into such files.

mod cargo_rows;
mod copies;
mod file_rows;
mod reason_rows;

pub(crate) use crate::files::cargo_rows::CargoRows;
pub(crate) use crate::files::file_rows::FileRows;
pub(crate) use crate::files::reason_rows::ReasonRows;
