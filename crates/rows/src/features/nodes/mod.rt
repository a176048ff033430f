//! Feature graphs of the records of `nodes.json`: the nodes, edges and warnings of each, through the
//! public calls, against what they have to be.

mod node_rows;
mod texts;

pub(crate) use crate::features::nodes::node_rows::NodeRows;
