//! The kinds of targets and lines, and the standard choices.

/// What a target is.
#[derive(Clone, Copy, Debug, PartialEq, Eq, PartialOrd, Ord, Hash)]
pub enum TargetKind {
    Lib,
    ProcMacro,
    Test,
    Bench,
    Bin,
    Example,
    BuildScript,
}

/// Which section of a manifest declares a dependency.
#[derive(Clone, Copy, Debug, PartialEq, Eq, PartialOrd, Ord, Hash)]
pub enum LineKind {
    Normal,
    Build,
    Dev,
}

/// Which features of the workspace's packages are chosen before any extra one.
#[derive(Clone, Copy, Debug, PartialEq, Eq, PartialOrd, Ord, Hash)]
pub enum Standard {
    None,
    Default,
    All,
}
