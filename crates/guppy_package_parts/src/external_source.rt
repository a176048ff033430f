//! The sources of packages outside the workspace.

ghost use Rattle.std.specs.Prelude.{◌≡◌, ◌++◌, IfSome, codes, option_map};
ghost use Rattle.guppy_package_parts.specs.Sources.{external_of, external_text, git_request, git_source, request_text};
ghost use Rattle.guppy_package_parts.specs.SourceViews.{external_view, request_view};

use std::fmt;

/// Where a package from outside the workspace comes from, as Cargo writes it.
#[derive(Clone, Copy, Debug, PartialEq, Eq)]
pub enum ExternalSource<'g> {
    /// A registry whose index is a git repository.
    Registry(&'g str),
    /// A registry whose index is read over HTTP.
    Sparse(&'g str),
    /// A git repository, what was asked of it, and the commit that this was.
    Git {
        repository: &'g str,
        req: GitReq<'g>,
        resolved: &'g str,
    },
}

/// What is asked of a git repository.
#[derive(Clone, Copy, Debug, PartialEq, Eq)]
pub enum GitReq<'g> {
    /// The head of a branch.
    Branch(&'g str),
    /// A tag.
    Tag(&'g str),
    /// A revision.
    Rev(&'g str),
    /// The head of the default branch.
    Default,
}

impl<'g> ExternalSource<'g> {
    /// What the text of a registry begins with.
    pub const REGISTRY_PLUS: &'static str = "registry+";

    /// What the text of a sparse registry begins with.
    pub const SPARSE_PLUS: &'static str = "sparse+";

    /// What the text of a git repository begins with.
    pub const GIT_PLUS: &'static str = "git+";

    /// What stands before a branch.
    pub const BRANCH_EQ: &'static str = "?branch=";

    /// What stands before a tag.
    pub const TAG_EQ: &'static str = "?tag=";

    /// What stands before a revision.
    pub const REV_EQ: &'static str = "?rev=";

    /// The registry of crates.io.
    pub const CRATES_IO_URL: &'static str = "https://github.com/rust-lang/crates.io-index";

    /// Reads the source that a text writes out, if it begins as one of the three.
    pub fn new(source: &'g str) -> Option<ExternalSource<'g>>
        ensures read { option_map external_view result ≡ external_of source.entry.now }
        ensures printed { IfSome result (λ s. external_text (external_view s) ≡ source.entry.now) }
    {
        if let Some(registry) = source.strip_prefix(Self::REGISTRY_PLUS) {
            return Some(ExternalSource::Registry(registry));
        }
        if let Some(registry) = source.strip_prefix(Self::SPARSE_PLUS) {
            return Some(ExternalSource::Sparse(registry));
        }
        match source.strip_prefix(Self::GIT_PLUS) {
            Some(text) => git_source_of(text),
            None => None,
        }
    }
}

fn git_source_of<'g>(text: &'g str) -> Option<ExternalSource<'g>>
    ensures read { option_map external_view result ≡ git_source text.entry.now }
    ensures printed { IfSome result
        (λ s. external_text (external_view s) ≡ codes "git+" ++ text.entry.now) }
{
    match text.rsplit_once("#") {
        Some((asked, resolved)) => {
            let (repository, req) = git_request_of(asked);
            Some(ExternalSource::Git {
                repository,
                req,
                resolved,
            })
        }
        None => None,
    }
}

fn git_request_of<'g>(text: &'g str) -> (&'g str, GitReq<'g>)
    ensures read { (result.0.now, request_view result.1) ≡ git_request text.entry.now }
    ensures printed { result.0.now ++ request_text (request_view result.1) ≡ text.entry.now }
{
    if let Some((repository, branch)) = text.split_once(ExternalSource::BRANCH_EQ) {
        return (repository, GitReq::Branch(branch));
    }
    if let Some((repository, tag)) = text.split_once(ExternalSource::TAG_EQ) {
        return (repository, GitReq::Tag(tag));
    }
    if let Some((repository, rev)) = text.split_once(ExternalSource::REV_EQ) {
        return (repository, GitReq::Rev(rev));
    }
    (text, GitReq::Default)
}

impl fmt::Display for GitReq<'_> {
    ghost use Rattle.std.specs.Prelude.{Some};
    ghost use Rattle.guppy_package_parts.specs.Sources.{request_text};
    ghost use Rattle.guppy_package_parts.specs.SourceViews.{request_view};

    ghost output = { λ req. Some (request_text (request_view req)) };

    fn fmt<W: fmt::Write>(&self, f: &mut fmt::Formatter<W>) -> fmt::Result {
        match self {
            GitReq::Branch(branch) => write!(f, "?branch={branch}"),
            GitReq::Tag(tag) => write!(f, "?tag={tag}"),
            GitReq::Rev(rev) => write!(f, "?rev={rev}"),
            GitReq::Default => Ok(()),
        }
    }
}

impl fmt::Display for ExternalSource<'_> {
    ghost use Rattle.std.specs.Prelude.{Some};
    ghost use Rattle.guppy_package_parts.specs.Sources.{external_text};
    ghost use Rattle.guppy_package_parts.specs.SourceViews.{external_view};

    ghost output = { λ source. Some (external_text (external_view source)) };

    fn fmt<W: fmt::Write>(&self, f: &mut fmt::Formatter<W>) -> fmt::Result {
        match self {
            ExternalSource::Registry(registry) => write!(f, "registry+{registry}"),
            ExternalSource::Sparse(registry) => write!(f, "sparse+{registry}"),
            ExternalSource::Git {
                repository,
                req,
                resolved,
            } => write!(f, "git+{repository}{req}#{resolved}"),
        }
    }
}
