//! Tests of `numbered_graph` on long graphs.

mod long_graphs;
