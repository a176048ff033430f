//! What a rule comes from, for people.

use std::fmt;

/// What a rule comes from, in Cargo's words. Texts are the record's.
#[derive(Clone, Copy, Debug)]
pub enum RuleSource<'r> {
    /// The choice of features.
    Choice,
    /// Each feature needs its package.
    Package,
    /// An entry of a feature of a package.
    Entry {
        package: &'r str,
        feature: &'r str,
        entry: &'r str,
    },
    /// A line of a dependency of a package, under the name that the package gives it.
    Line {
        package: &'r str,
        name: &'r str,
    },
}

impl fmt::Display for RuleSource<'_> {
    ghost use Rattle.std.specs.Prelude.{Some};
    ghost use Rattle.feature_account_making.specs.RuleLines.{source_text};
    ghost use Rattle.feature_account_making.specs.SourceViews.{source_view};

    ghost output = { λ source. Some (source_text (source_view source)) };

    fn fmt<W: fmt::Write>(&self, f: &mut fmt::Formatter<W>) -> fmt::Result {
        match self {
            RuleSource::Choice => f.write_str("the choice"),
            RuleSource::Package => f.write_str("a feature needs its package"),
            RuleSource::Entry {
                package,
                feature,
                entry,
            } => write!(f, "the entry \"{entry}\" of {package}'s feature {feature}"),
            RuleSource::Line { package, name } => {
                write!(f, "the line of {package}'s dependency {name}")
            }
        }
    }
}
