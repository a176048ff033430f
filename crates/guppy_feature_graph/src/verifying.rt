//! Whether a feature graph keeps its own rules.

ghost use Rattle.std.specs.Prelude.{◌≡◌, Ok};

use crate::feature_graph::FeatureGraph;
use guppy_package_graph::Error;

impl FeatureGraph<'_> {
    /// Whether a line stands behind each edge that is not crossed always, as in each graph that was
    /// built.
    pub fn verify(&self) -> Result<(), Error>
        ensures kept { result ≡ Ok tt }
    {
        for number in 0..self.link_count() {
            let edge = &self.built().edge(number).edge;
            if !edge.is_unconditional() && edge.lines().is_empty() {
                return Err(Error::FeatureGraphInternalError);
            }
        }
        Ok(())
    }
}
