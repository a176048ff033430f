//! Package graphs of the records of `package_graphs.json`: each row asks one for packages, walks, sets and
//! listings through the public calls, against what each has to be.

mod details;
mod graph_rows;
mod link_texts;
mod members;
mod resolves;
mod set_choices;
mod sets;
mod told_sets;
mod whole_graph;

pub(crate) use crate::packages::graphs::graph_rows::GraphRows;
