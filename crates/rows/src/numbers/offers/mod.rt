//! Small graphs of offers whose runs and reached nodes were worked out by hand: each row of
//! `offers.json` is run through the public calls.

mod edge_lists;
mod manner;
mod offer_rows;
mod walked;

pub(crate) use crate::numbers::offers::offer_rows::OfferRows;
