//! Rows of matchers.

use nextest_filter_matchers::{GenericGlob, NameMatcher};
use regex::Regex;
use row_program::{Answers, Row, RowFault, RowRunner};
use serde_json::Value;
use std::alloc::Global;
use std::rc::Rc;

/// Rows of one matcher each, by its sort and its text, over the names of `names`.
#[derive(Drop)]
pub(crate) struct MatcherRows;

impl RowRunner for MatcherRows {
    fn inputs(&self) -> &'static [&'static str] {
        &["equal", "contains", "glob", "regex", "implicit", "names"]
    }

    fn run_row(
        &mut self,
        alloc: Global,
        row: Row<'_>,
        answers: &mut Answers,
    ) -> Result<(), RowFault> {
        let names = row.texts(alloc, "names")?;
        tell_row(alloc, row, &names, answers)
    }
}

fn tell_row(
    alloc: Global,
    row: Row<'_>,
    names: &[&str],
    answers: &mut Answers,
) -> Result<(), RowFault> {
    let implicit = row
        .get("implicit")
        .and_then(Value::as_bool)
        .unwrap_or(false);
    if let Some(text) = row.get("equal").and_then(Value::as_str) {
        let value = String::from_str(alloc, text)?;
        tell_matcher(
            alloc,
            NameMatcher::Equal { value, implicit },
            names,
            answers,
        );
    } else if let Some(text) = row.get("contains").and_then(Value::as_str) {
        let value = String::from_str(alloc, text)?;
        tell_matcher(
            alloc,
            NameMatcher::Contains { value, implicit },
            names,
            answers,
        );
    } else if let Some(text) = row.get("glob").and_then(Value::as_str) {
        match GenericGlob::new(alloc, String::from_str(alloc, text)?)? {
            Ok(glob) => tell_matcher(alloc, NameMatcher::Glob { glob, implicit }, names, answers),
            Err(error) => answers.show("refused", &error),
        }
    } else {
        match Regex::new(alloc, row.text("regex")?) {
            Ok(regex) => {
                let matcher = NameMatcher::Regex(Rc::new(alloc, regex)?);
                tell_matcher(alloc, matcher, names, answers);
            }
            Err(error) => answers.show("refused", &error),
        }
    }
    Ok(())
}

/// Tells the matcher, whether a copy is equal, and the names that it matches, with a bar after each.
fn tell_matcher(alloc: Global, matcher: NameMatcher, names: &[&str], answers: &mut Answers) {
    answers.show("printed", &matcher);
    match matcher.copy(alloc) {
        Ok(copied) => answers.show("copied", &(copied == matcher)),
        Err(refused) => answers.keep("copied", Err(refused)),
    }
    answers.begin("matched");
    for name in names {
        match matcher.is_match(alloc, name) {
            Ok(true) => {
                answers.add(name);
                answers.add(&"|");
            }
            Ok(false) => {}
            Err(refused) => answers.keep("matched", Err(refused)),
        }
    }
}
