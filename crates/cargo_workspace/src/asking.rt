//! What the words of a command line ask for.

ghost use Rattle.clap.specs.Words.{found_of, rows_of};
ghost use Rattle.cargo_workspace.specs.Asking.{AsksAbout, AsksForFeatures};

use cargo_files::FeatureWords;
use cargo_record::RequestedMembers;
use clap::ArgMatches;
pub(crate) use test_select_files::is_given;
use test_select_files::values_of;

/// The members that the command line asks about.
pub(crate) fn requested_members<'m, 'a: 'm>(asked: &'m ArgMatches<'a>) -> RequestedMembers<'m>
    ensures asks { AsksAbout (rows_of (found_of asked.now)) result }
{
    match asked.get_strs("package") {
        Some(names) => RequestedMembers::Named(names),
        None if is_given(asked, "workspace") => RequestedMembers::Workspace,
        None => RequestedMembers::Default,
    }
}

/// What the command line asks of features.
pub(crate) fn feature_words<'m, 'a: 'm>(asked: &'m ArgMatches<'a>) -> FeatureWords<'m>
    ensures asks { AsksForFeatures (rows_of (found_of asked.now)) result }
{
    FeatureWords {
        features: values_of(asked, "features"),
        no_default_features: is_given(asked, "no-default-features"),
        all_features: is_given(asked, "all-features"),
    }
}
