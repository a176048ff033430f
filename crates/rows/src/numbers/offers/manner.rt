//! How offers are answered.

use numbered_offers::{Offer, OfferKind};
use row_program::Row;
use serde_json::Value;

/// How somebody answers who is asked about offers.
#[derive(Clone, Copy)]
pub(crate) enum Manner<'a> {
    All,
    Nothing,
    /// Accepts the first offer alone.
    Once,
    /// Accepts every other offer, beginning with the first.
    Alternate,
    /// Refuses optional halves.
    RequiredHalves,
    /// Refuses required halves.
    OptionalHalves,
    /// Accepts an optional half where `halves` has its edge's flag set, and any other offer where
    /// `others` has.
    Table {
        others: &'a [bool],
        halves: &'a [bool],
    },
}

/// The manner that a row names under `accepts`: all offers if it names none.
pub(crate) fn manner_in(row: Row<'_>) -> Manner<'static> {
    match row.get("accepts").and_then(Value::as_str) {
        Some("nothing") => Manner::Nothing,
        Some("once") => Manner::Once,
        Some("alternate") => Manner::Alternate,
        Some("required halves") => Manner::RequiredHalves,
        Some("optional halves") => Manner::OptionalHalves,
        _ => Manner::All,
    }
}

/// The answer to an offer, after so many others.
pub(crate) fn answer_to(manner: Manner<'_>, offer: Offer, before: usize) -> bool {
    match manner {
        Manner::All => true,
        Manner::Nothing => false,
        Manner::Once => before == 0,
        Manner::Alternate => before % 2 == 0,
        Manner::RequiredHalves => offer.kind != OfferKind::Optional,
        Manner::OptionalHalves => offer.kind != OfferKind::Required,
        Manner::Table { others, halves } => match offer.kind {
            OfferKind::Optional => matches!(halves.get(offer.edge), Some(true)),
            OfferKind::Unsplit | OfferKind::Required => {
                matches!(others.get(offer.edge), Some(true))
            }
        },
    }
}
