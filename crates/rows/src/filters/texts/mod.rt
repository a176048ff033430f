//! Tokens, texts and patterns at places of the texts of `texts.json`, compared with what each has to be.

mod place_rows;

pub(crate) use crate::filters::texts::place_rows::PlaceRows;
