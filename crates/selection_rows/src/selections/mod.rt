//! Selections over the records, choices, tables and listings of `selections.json`, compared with what each
//! has to answer and to ask.

mod binaries;
mod selecting;
mod selection_rows;
mod switching;

pub(crate) use crate::selections::selection_rows::SelectionRows;
