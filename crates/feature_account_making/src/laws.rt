//! Laws that hold of every account.

ghost use Rattle.feature_account_making.specs.AccountLaws.{LooksAreFew, LowestAccountsAgree};
ghost use Rattle.feature_account_making.specs.ReadBackLaws.{AccountsReadBack, ExplanationsReadBack};
ghost use Rattle.feature_account_making.specs.SourcedLaws.{SourcedAsListed};

/// A list of rules has one lowest account only: whoever takes, at each place, the lowest rule that may
/// stand there comes to the same entries.
pub fn lowest_accounts_agree()
    ensures { LowestAccountsAgree }
{}

/// While a lowest account is made, the rules are looked at no more often than the features that are on,
/// and one, times the rules: an account has as many entries as features are on.
pub fn looks_are_few()
    ensures { LooksAreFew }
{}

/// What `write_account` writes is, without its line feed, a file that `read_account` reads as the
/// same rules with no goal. Only where memory runs out is it not read.
pub fn accounts_read_back()
    ensures reads { AccountsReadBack }
{}

/// What `write_explanation` writes is, without its line feed, a file that `read_account` reads as
/// the same rules with the same goal. Only where memory runs out is it not read.
///
/// The goal is one that a choice can name: if it is a feature, its name is not empty and does not
/// begin with `dep:`.
pub fn explanations_read_back()
    ensures reads { ExplanationsReadBack }
{}

/// The rules with their sources are those of the list, each at its number.
pub fn sourced_rules_are_those_listed()
    ensures same { SourcedAsListed }
{}
