//! Accounts, each the numbers of its rules.

/// An account of what is on: rule numbers, each conclusion of which is new and rests on earlier ones.
///
/// `looks` counts how many times a rule was looked at while the account was made: at most the features
/// that are on, and one, times the rules.
#[derive(Debug, Drop)]
pub struct Account {
    pub rules: Vec<usize>,
    pub looks: u128,
}
