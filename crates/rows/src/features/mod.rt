//! Features of records: the nodes and edges of their graphs, resolves and sets of features, rules and
//! accounts.

mod accounts;
mod graphs;
mod nodes;

pub(crate) use crate::features::accounts::AccountRows;
pub(crate) use crate::features::graphs::GraphRows;
pub(crate) use crate::features::nodes::NodeRows;
