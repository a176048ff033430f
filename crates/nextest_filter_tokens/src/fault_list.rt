//! The faults of a text, as they are found.

ghost use Rattle.std.specs.Prelude.{◌≡◌, ◌<◌, true};
ghost use Rattle.nextest_filter_tokens.specs.FaultLists.{syntax_faults};

use crate::parse_error::ParseSingleError;
use nextest_filter_matchers::SourceSpan;
use std::alloc::{AllocError, Global};

/// Faults in the order in which they were found. Once it is closed, no more are taken.
#[derive(Debug, Drop)]
pub struct FaultList {
    pub list: Vec<ParseSingleError>,
    pub is_closed: bool,
    ghost has_cause: { is_closed ≡ true → 0 < syntax_faults list.items },
}

impl FaultList {
    ghost use Rattle.std.specs.Prelude.{◌≡◌, ◌+◌, ◌≤◌, ◌<◌, ◌++◌, ◌∷◌, ℕ, List, [], false, true, OnOk, vec_len};
    ghost use Rattle.nextest_filter_tokens.specs.Faults.{is_pattern_fault};
    ghost use Rattle.nextest_filter_tokens.specs.declared.parse_error.ParseSingleError.TheVariants.{UnsupportedExpression};
    ghost use Rattle.nextest_filter_tokens.specs.FaultLists.{AreOver, AreWithin, LiesOver, LiesWithin, pattern_spans, syntax_faults};

    /// No faults.
    pub fn new(alloc: Global) -> FaultList
        ensures empty { result.list.items ≡ [] }
        ensures open { result.is_closed ≡ false }
    {
        let list = Vec::new(alloc);
        FaultList {
            list,
            is_closed: false,
        }
    }

    /// Adds a fault at the end, unless the list is closed.
    pub fn report(&mut self, fault: ParseSingleError) -> Result<(), AllocError>
        ensures grows { OnOk result (vec_len self.old.list ≤ vec_len self.new.list) }
        ensures some { OnOk result (0 < vec_len self.new.list) }
        ensures syntax { OnOk result (is_pattern_fault fault ≡ false
            → 0 < syntax_faults self.new.list.items) }
        ensures pattern { OnOk result (is_pattern_fault fault ≡ true
            → syntax_faults self.new.list.items ≡ syntax_faults self.old.list.items) }
        ensures keeps_syntax { OnOk result (syntax_faults self.old.list.items
            ≤ syntax_faults self.new.list.items) }
        ensures keeps_patterns { OnOk result (is_pattern_fault fault ≡ false
            → pattern_spans self.new.list.items ≡ pattern_spans self.old.list.items) }
        ensures within { (n : ℕ) → AreWithin n self.old.list.items → LiesWithin n fault
            → AreWithin n self.new.list.items }
        ensures over { (text : List ℕ) → AreOver text self.old.list.items → LiesOver text fault
            → AreOver text self.new.list.items }
        ensures same_over { (text : List ℕ) → AreOver text self.old.list.items
            → is_pattern_fault fault ≡ false → AreOver text self.new.list.items }
        ensures added { OnOk result (self.old.is_closed ≡ false
            → self.new.list.items ≡ self.old.list.items ++ fault ∷ []) }
        ensures closed { OnOk result (self.old.is_closed ≡ true → self.new ≡ self.old) }
        ensures open { OnOk result (self.new.is_closed ≡ self.old.is_closed) }
    {
        if self.is_closed {
            return Ok(());
        }
        self.list.push(fault)?;
        Ok(())
    }

    // A list is closed by a fault, so a closed list is never empty.
    /// Adds that the text is not supported from there on, unless the list is closed, and takes no more after it.
    pub fn close(&mut self, span: SourceSpan) -> Result<(), AllocError>
        ensures grows { OnOk result (vec_len self.old.list ≤ vec_len self.new.list) }
        ensures syntax { OnOk result (0 < syntax_faults self.new.list.items) }
        ensures keeps_syntax { OnOk result (syntax_faults self.old.list.items
            ≤ syntax_faults self.new.list.items) }
        ensures closed { OnOk result (self.new.is_closed ≡ true) }
        ensures added { OnOk result (self.old.is_closed ≡ false
            → self.new.list.items ≡ self.old.list.items ++ UnsupportedExpression span ∷ []) }
        ensures kept { OnOk result (self.old.is_closed ≡ true → self.new.list ≡ self.old.list) }
        ensures within { (n : ℕ) → AreWithin n self.old.list.items → span.offset + span.len ≤ n
            → AreWithin n self.new.list.items }
        ensures over { (text : List ℕ) → AreOver text self.old.list.items
            → AreOver text self.new.list.items }
    {
        self.report(ParseSingleError::UnsupportedExpression(span))?;
        self.is_closed = true;
        Ok(())
    }
}
