//! The labels of features.

ghost use Rattle.std.specs.Prelude.{◌≡◌, IfOk};
ghost use Rattle.workspace_record.specs.LabelView.{label_view};

use std::alloc::{AllocError, Global};

/// What a feature of a package is: the package itself, a feature that its manifest names, or an
/// optional dependency. In this order, and then by bytes.
#[derive(Debug, Drop, PartialEq, Eq, PartialOrd, Ord, Hash)]
pub enum Label {
    Base,
    Named(String),
    Dep(String),
}

impl Label {
    /// An equal value in memory of its own.
    pub fn copy(&self, alloc: Global) -> Result<Label, AllocError>
        ensures { IfOk result (λ l. label_view l ≡ label_view self.now) }
    {
        match self {
            Label::Base => Ok(Label::Base),
            Label::Named(name) => Ok(Label::Named(String::from_str(alloc, name.as_str())?)),
            Label::Dep(name) => Ok(Label::Dep(String::from_str(alloc, name.as_str())?)),
        }
    }
}
