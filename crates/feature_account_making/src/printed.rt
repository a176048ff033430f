//! Features and rules, as they are printed.

use feature_account::{Premises, Rule};
use std::fmt;
use workspace_record::{Feature, Label};

/// A label, printed as those of features' ids are.
#[derive(Clone, Copy)]
pub(crate) struct PrintedLabel<'f> {
    pub(crate) label: &'f Label,
}

impl fmt::Display for PrintedLabel<'_> {
    ghost use Rattle.std.specs.Prelude.{Some};
    ghost use Rattle.guppy_feature_demands.specs.Printing.{label_text};
    ghost use Rattle.workspace_record.specs.LabelView.{label_view};

    ghost output = { λ p. Some (label_text (label_view p.label.now)) };

    fn fmt<W: fmt::Write>(&self, f: &mut fmt::Formatter<W>) -> fmt::Result {
        match self.label {
            Label::Base => f.write_str("[base]"),
            Label::Named(name) => f.write_str(name.as_str()),
            Label::Dep(name) => {
                f.write_str("dep:")?;
                f.write_str(name.as_str())
            }
        }
    }
}

/// A feature, printed as its id is: `PACKAGE/LABEL`.
#[derive(Clone, Copy)]
pub(crate) struct PrintedFeature<'f> {
    pub(crate) feature: &'f Feature,
}

impl fmt::Display for PrintedFeature<'_> {
    ghost use Rattle.std.specs.Prelude.{Some};
    ghost use Rattle.guppy_feature_demands.specs.Printing.{feature_text};

    ghost output = { λ p. Some (feature_text p.feature.now) };

    fn fmt<W: fmt::Write>(&self, f: &mut fmt::Formatter<W>) -> fmt::Result {
        let feature = self.feature;
        f.write_str(feature.package.as_str())?;
        f.write_str("/")?;
        let label = PrintedLabel {
            label: &feature.label,
        };
        label.fmt(f)
    }
}

/// The premises of a rule, parted by a comma, and a space behind them.
#[derive(Clone, Copy)]
pub(crate) struct PrintedPremises<'f> {
    pub(crate) premises: &'f Premises,
}

impl fmt::Display for PrintedPremises<'_> {
    ghost use Rattle.std.specs.Prelude.{Some};
    ghost use Rattle.feature_account_making.specs.RuleLines.{premises_text};

    ghost output = { λ p. Some (premises_text p.premises.now) };

    fn fmt<W: fmt::Write>(&self, f: &mut fmt::Formatter<W>) -> fmt::Result {
        match self.premises {
            Premises::None => Ok(()),
            Premises::One(feature) => {
                let feature = PrintedFeature { feature };
                write!(f, "{feature} ")
            }
            Premises::Two(first, second) => {
                let first = PrintedFeature { feature: first };
                let second = PrintedFeature { feature: second };
                write!(f, "{first}, {second} ")
            }
        }
    }
}

/// A rule with its number: `9: app/fast, app/dep:util -> util/simd`.
#[derive(Clone, Copy)]
pub(crate) struct PrintedRule<'f> {
    pub(crate) number: usize,
    pub(crate) rule: &'f Rule,
}

impl fmt::Display for PrintedRule<'_> {
    ghost use Rattle.std.specs.Prelude.{Some};
    ghost use Rattle.feature_account_making.specs.RuleLines.{numbered_text};

    ghost output = { λ p. Some (numbered_text p.number p.rule.now) };

    fn fmt<W: fmt::Write>(&self, f: &mut fmt::Formatter<W>) -> fmt::Result {
        let number = self.number;
        let rule = self.rule;
        let premises = PrintedPremises {
            premises: &rule.premises,
        };
        let conclusion = PrintedFeature {
            feature: &rule.conclusion,
        };
        write!(f, "{number}: {premises}-> {conclusion}")
    }
}
