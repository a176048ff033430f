//! Names that are like one that is not known.

use std::alloc::{AllocError, Global};
use strsim::levenshtein;

/// Near names so far, as a text to be put behind a fault.
#[derive(Drop)]
pub(crate) struct NearNames<'a> {
    wanted: &'a str,
    text: String,
}

impl<'a> NearNames<'a> {
    pub(crate) fn of(alloc: Global, wanted: &'a str) -> NearNames<'a> {
        let text = String::new(alloc);
        NearNames { wanted, text }
    }

    /// Takes up a name that is known, if two changes, or one part, make the one name of the other.
    pub(crate) fn offer(&mut self, alloc: Global, known: &str) -> Result<(), AllocError> {
        let is_part = !self.wanted.is_empty() && known.contains(self.wanted);
        if is_part || levenshtein(alloc, self.wanted, known)? <= 2 {
            let text = &mut self.text;
            text.push_str(if text.is_empty() {
                ": did you mean `"
            } else {
                ", or `"
            })?;
            text.push_str(known)?;
            text.push_str("`")?;
        }
        Ok(())
    }

    pub(crate) fn into_text(self) -> String {
        self.text
    }
}
