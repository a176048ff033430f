//! Calls of the parts of a package graph that take memory, and what they print.

mod tests;
