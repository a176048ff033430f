//! Rows of accounts and explanations.

use crate::features::accounts::rule_texts::{tell_conclusions, tell_rules};
use crate::features::accounts::switching::tell_switching;
use feature_account::{check_account, check_explanation, rules};
use row_program::{Answers, Question, Row, RowFault, RowRunner, account_in, question_in};
use std::alloc::Global;

/// Rows of rules, accounts and explanations. A row's `files` are `record.json`, and where it has them
/// `choice.json`, `table.json` and `account.json`; its `account` is a list of numbers. What comes is
/// `rules`, a line for each rule, `verdict`, what is to be said of the account, or of the explanation
/// where the file of the account has a goal, and `concludes`, what the rules of `account` conclude; and
/// what is on by the rules in the graphs of the record (`tell_switching`).
#[derive(Drop)]
pub(crate) struct AccountRows;

impl RowRunner for AccountRows {
    fn inputs(&self) -> &'static [&'static str] {
        &["files", "account"]
    }

    fn run_row(
        &mut self,
        alloc: Global,
        row: Row<'_>,
        answers: &mut Answers,
    ) -> Result<(), RowFault> {
        let question = question_in(alloc, row)?;
        tell_question(alloc, row, question.lent(), answers)
    }
}

/// Tells the rules, what is on by them, what those of the account conclude, and the verdict on it.
fn tell_question(
    alloc: Global,
    row: Row<'_>,
    question: Question<'_>,
    answers: &mut Answers,
) -> Result<(), RowFault> {
    tell_verdict(alloc, row, question, answers)?;
    let account = row.numbers(alloc, "account")?;
    let rules = rules(alloc, question.record, question.choice, question.table)?;
    tell_rules(&rules, answers);
    tell_conclusions(&rules, &account, answers);
    tell_switching(alloc, question, &rules, answers)
}

/// Tells what is to be said of the account, or of the explanation where it has a goal.
fn tell_verdict(
    alloc: Global,
    row: Row<'_>,
    question: Question<'_>,
    answers: &mut Answers,
) -> Result<(), RowFault> {
    let Question {
        record,
        choice,
        table,
    } = question;
    let account = account_in(alloc, row)?;
    let judged = match &account.goal {
        None => check_account(alloc, record, choice, table, &account.rules),
        Some(goal) => check_explanation(alloc, record, choice, table, goal, &account.rules),
    };
    let verdict = judged?;
    answers.keep("verdict", format!(in alloc; "{verdict:?}"));
    Ok(())
}
