//! Offers: conditional edges about which somebody is asked.

/// A conditional edge, or a half of a weak one, about which somebody is asked.
#[derive(Clone, Copy, Debug, PartialEq, Eq)]
pub struct Offer {
    /// The number of the edge.
    pub edge: usize,
    /// What of it is offered.
    pub kind: OfferKind,
}

/// What of an edge is offered.
#[derive(Clone, Copy, Debug, PartialEq, Eq)]
pub enum OfferKind {
    /// A conditional edge.
    Unsplit,
    /// The required half of a weak edge.
    Required,
    /// The optional half of a weak edge.
    Optional,
}
