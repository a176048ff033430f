//! Tests of what no row can say: of graphs, visitors and filters that keep a state, of selections over
//! listers and writers that fail, what errors print, runs of the program whose streams fail, and calls whose
//! requests for memory are refused.
#![tactic(auto)]

#[cfg(test)]
mod example;
#[cfg(test)]
mod files;
#[cfg(test)]
mod filters;
#[cfg(test)]
mod graphs;
#[cfg(test)]
mod refusals;
#[cfg(test)]
mod runs;
#[cfg(test)]
mod selections;
#[cfg(test)]
mod workspace;
#[cfg(test)]
mod writers;
