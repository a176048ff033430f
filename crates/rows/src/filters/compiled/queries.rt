//! Binaries and tests that rows ask about.

ghost use Rattle.std.specs.Prelude.{◌≡◌, false};
ghost use Rattle.nextest_filter_evaluation.specs.Compiled.{compiled_of, is_group};
ghost use Rattle.nextest_filter_evaluation.specs.Formulas.{has_leaf};

use crate::filters::compiled::row_groups::OneGroup;
use nextest_filtering::{
    BinaryQuery, BuildPlatform, EvalContext, Filterset, PackageId, RustBinaryId,
    RustTestBinaryKind, TestCaseName, TestQuery,
};
use row_program::{Answers, Row, RowFault};
use serde_json::Value;
use std::alloc::{AllocError, Global};

/// The parts of one question.
#[derive(Clone, Copy)]
struct Question<'a> {
    owner: &'a str,
    name: &'a str,
    kind: &'a str,
    platform: &'a str,
    test_name: &'a str,
}

/// What a row says under a key, or what is asked where it says nothing.
fn text_or<'a>(row: Row<'a>, key: &str, default: &'a str) -> &'a str {
    match row.get(key).and_then(Value::as_str) {
        Some(text) => text,
        None => default,
    }
}

/// Asks about each of the packages, names, kinds, platforms or tests that the row lists, and tells of
/// each whether the filter holds, and what is known of its binary.
pub(crate) fn tell_answers(
    alloc: Global,
    row: Row<'_>,
    filter: &Filterset,
    cx: &EvalContext<'_>,
    answers: &mut Answers,
) -> Result<(), RowFault> {
    let asked = asked_in(alloc, row)?;
    let group = text_or(row, "member_of", "@global");
    tell_each(&asked, &OneGroup { alloc, group }, filter, cx, answers)?;
    Ok(())
}

/// Tells whether the filter holds of each test, which is in the group, and what is known of its binary.
fn tell_each(
    asked: &[Asked<'_>],
    group: &OneGroup<'_>,
    filter: &Filterset,
    cx: &EvalContext<'_>,
    answers: &mut Answers,
) -> Result<(), AllocError> {
    answers.begin("holds");
    for one in asked {
        let holds = filter.matches_test_with_groups(group.alloc, &one.test(), cx, group)?;
        answers.part(" ", &holds);
    }
    answers.begin("known");
    for one in asked {
        match filter.matches_binary(group.alloc, &one.binary(), cx)? {
            Some(holds) => answers.part(" ", &holds),
            None => answers.part(" ", &"unknown"),
        }
    }
    if !filter.compiled.has_group_matchers() {
        tell_alone(group.alloc, asked, filter, cx, answers)?;
    }
    Ok(())
}

/// Tells whether the filter holds of each test, asked without groups.
fn tell_alone(
    alloc: Global,
    asked: &[Asked<'_>],
    filter: &Filterset,
    cx: &EvalContext<'_>,
    answers: &mut Answers,
) -> Result<(), AllocError>
    requires groups { has_leaf is_group (compiled_of filter.now.compiled) ≡ false }
{
    answers.begin("alone");
    for one in asked {
        let holds = filter.matches_test(alloc, &one.test(), cx)?;
        answers.part(" ", &holds);
    }
    Ok(())
}

const LISTS: [&str; 5] = [
    "owners",
    "binary_names",
    "binary_kinds",
    "platforms",
    "test_names",
];

/// What is asked: each of the lists of the row goes on from the row's own parts.
fn asked_in<'a>(alloc: Global, row: Row<'a>) -> Result<Vec<Asked<'a>>, RowFault> {
    let base = Question {
        owner: text_or(row, "owner", "crate_a"),
        name: text_or(row, "binary_name", "my-binary"),
        kind: text_or(row, "binary_kind", "lib"),
        platform: text_or(row, "built_for", "target"),
        test_name: text_or(row, "test_name", "test_something"),
    };
    let mut asked = Vec::new(alloc);
    for key in LISTS {
        for text in &row.texts(alloc, key)? {
            asked.push(Asked::of(alloc, base.with(key, *text))?)?;
        }
    }
    if asked.is_empty() {
        asked.push(Asked::of(alloc, base)?)?;
    }
    Ok(asked)
}

impl<'a> Question<'a> {
    /// The same question, but for the part that this list names.
    fn with(self, list: &str, text: &'a str) -> Question<'a> {
        match list {
            "owners" => Question {
                owner: text,
                ..self
            },
            "binary_names" => Question { name: text, ..self },
            "binary_kinds" => Question { kind: text, ..self },
            "platforms" => Question {
                platform: text,
                ..self
            },
            _ => Question {
                test_name: text,
                ..self
            },
        }
    }
}

/// A question, and what its binary's parts own.
#[derive(Drop)]
struct Asked<'a> {
    question: Question<'a>,
    package_id: PackageId,
    kind: RustTestBinaryKind,
    binary_id: RustBinaryId,
    test_name: TestCaseName,
}

impl Asked<'_> {
    fn of<'a>(alloc: Global, question: Question<'a>) -> Result<Asked<'a>, AllocError> {
        let kind = RustTestBinaryKind::new(String::from_str(alloc, question.kind)?);
        let binary_id = RustBinaryId::from_parts(alloc, question.owner, &kind, question.name)?;
        let package_id = PackageId::new(String::from_str(alloc, question.owner)?);
        let test_name = TestCaseName::new(String::from_str(alloc, question.test_name)?);
        Ok(Asked {
            question,
            package_id,
            kind,
            binary_id,
            test_name,
        })
    }

    fn binary(&self) -> BinaryQuery<'_> {
        BinaryQuery {
            package_id: &self.package_id,
            binary_id: &self.binary_id,
            binary_name: self.question.name,
            kind: &self.kind,
            platform: match self.question.platform {
                "host" => BuildPlatform::Host,
                _ => BuildPlatform::Target,
            },
        }
    }

    fn test(&self) -> TestQuery<'_> {
        TestQuery {
            binary_query: self.binary(),
            test_name: &self.test_name,
        }
    }
}
