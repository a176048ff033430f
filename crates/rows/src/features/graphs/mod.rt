//! Feature graphs of the records of `feature_graphs.json`: each row asks one for features and resolves, by
//! visitors that are given as data, through the public calls, against what each has to be.

mod chooser;
mod features;
mod graph_rows;
mod link_texts;
mod lists;
mod packages;
mod resolves;
mod sets;

pub(crate) use crate::features::graphs::graph_rows::GraphRows;
