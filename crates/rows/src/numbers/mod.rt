//! Small graphs over numbers, and graphs of offers, whose answers were worked out by hand.

mod graphs;
mod lists;
mod offers;

pub(crate) use crate::numbers::graphs::GraphRows;
pub(crate) use crate::numbers::offers::OfferRows;
