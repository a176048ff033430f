//! What a lister is told of a binary.

use crate::build_platform::BuildPlatform;
use workspace_record::TargetKind;

/// A test binary, under an id of its own.
#[derive(Clone, Copy, Debug)]
pub struct BinaryInfo<'a> {
    pub id: &'a str,
    pub package_id: &'a str,
    pub name: &'a str,
    pub kind: TargetKind,
    pub platform: BuildPlatform,
}
