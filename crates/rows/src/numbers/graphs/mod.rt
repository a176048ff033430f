//! Small graphs whose reach, walks, listings, cycles, roots and sets were worked out by hand: each
//! row of `number_graphs.json` is run through the public calls.

mod graph_rows;
mod walked;

pub(crate) use crate::numbers::graphs::graph_rows::GraphRows;
