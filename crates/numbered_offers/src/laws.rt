//! A law that holds of every legal run.

ghost use Rattle.numbered_offers.specs.Least.{IsAlwaysLeast};

/// At the end of a legal run whose answers depend on the offer alone, what is reached is the least set
/// that holds the starts and is closed under the edges that are crossed always and the offers that are
/// accepted.
pub fn least()
    ensures least { IsAlwaysLeast }
{}
