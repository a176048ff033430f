//! Laws that hold of every record, choice and table, of what is on, and of every account.

ghost use Rattle.feature_account.specs.Laws.{
  AccountsAgree,
  AccountsCountWhatIsOn,
  ExplanationsAreIrreducible,
  ListsEachRule,
  StaysOnWhenUnknownsCount,
  StaysOnWithAYes,
  StaysOnWithAnExtra,
};

/// A rule stands in the list exactly if it is one of the record's rules.
pub fn lists_each_rule()
    ensures { ListsEachRule }
{}

/// Two valid accounts of one list of rules conclude the same features, and exactly those that are on.
pub fn accounts_agree()
    ensures { AccountsAgree }
{}

/// A valid account has as many entries as features are on: each entry concludes another one of them, and
/// none is left out.
pub fn accounts_count_what_is_on()
    ensures { AccountsCountWhatIsOn }
{}

/// An explanation has no entry to spare: with any of its entries dropped, it is none of the same
/// feature.
pub fn explanations_are_irreducible()
    ensures { ExplanationsAreIrreducible }
{}

/// What is on stays on when an extra is added.
pub fn stays_on_with_an_extra()
    ensures { StaysOnWithAnExtra }
{}

/// What is on stays on when the answer for a spec becomes yes.
pub fn stays_on_with_a_yes()
    ensures { StaysOnWithAYes }
{}

/// What is on stays on when unknown answers are made to count.
pub fn stays_on_when_unknowns_count()
    ensures { StaysOnWhenUnknownsCount }
{}
