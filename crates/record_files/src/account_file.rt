//! What an account's file says.

use std::marker::Model;
use workspace_record::Feature;

/// What the file of an account or of an explanation says: the numbers of its rules, and the feature
/// that it explains. An account has no goal.
#[derive(Debug, Drop)]
pub struct AccountFile {
    pub rules: Vec<usize>,
    pub goal: Option<Feature>,
}

impl Model for AccountFile {
    ghost use Rattle.record_files.specs.Accounts.{AccountValue};

    ghost Value = { AccountValue };

    ghost view = { λ f. record { numbers = f.rules.items; goal = f.goal } };
}
