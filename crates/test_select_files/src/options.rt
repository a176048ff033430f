//! The words of a command line, and those that name the files of a question.

ghost use Rattle.std.specs.Prelude.{◌≡◌, codes, map};
ghost use Rattle.clap.specs.Words.{first_of, found_of, rows_of};
ghost use Rattle.test_select_files.specs.Words.{
  files_named,
  is_given,
  name_in,
  names_of,
  values_of,
  word_or_empty,
};

use crate::command_line::{Shape, Word};
use clap::ArgMatches;

/// What a question is asked of: the names of its files.
#[derive(Clone, Copy)]
pub struct QuestionFiles<'a> {
    pub record: &'a str,
    pub choice: Option<&'a str>,
    pub table: Option<&'a str>,
}

/// The files that the command line names for a question on features.
pub fn named_files<'a>(asked: &ArgMatches<'a>) -> QuestionFiles<'a>
    ensures named { names_of result ≡ files_named (rows_of (found_of asked.now)) }
{
    QuestionFiles {
        record: required(asked, "record"),
        choice: optional(asked, "choice"),
        table: optional(asked, "table"),
    }
}

/// The file that the command line names for the account.
pub fn account_file<'a>(asked: &ArgMatches<'a>) -> &'a str
    ensures named { result.now ≡ word_or_empty (codes "account") (rows_of (found_of asked.now)) }
{
    required(asked, "account")
}

/// The value of a required word, without which `clap` takes no command line.
pub fn required<'a>(asked: &ArgMatches<'a>, name: &str) -> &'a str
    ensures value { result.now ≡ word_or_empty name.now (rows_of (found_of asked.now)) }
{
    optional(asked, name).unwrap_or("")
}

/// The value of a word, if it is given.
pub fn optional<'a>(asked: &ArgMatches<'a>, name: &str) -> Option<&'a str>
    ensures value { name_in result ≡ first_of name.now (rows_of (found_of asked.now)) }
{
    asked.get_str(name)
}

/// All values of a word, in the order of the command line.
pub fn values_of<'m, 'a: 'm>(asked: &'m ArgMatches<'a>, name: &str) -> &'m [&'a str]
    ensures values { map (λ t. t.now) result.now
        ≡ values_of name.now (rows_of (found_of asked.now)) }
{
    asked.get_strs(name).unwrap_or_default()
}

/// Whether the command line gives this flag.
pub fn is_given(asked: &ArgMatches<'_>, flag: &str) -> bool
    ensures given { result ≡ is_given flag.now (rows_of (found_of asked.now)) }
{
    asked.get_str(flag) == Some("true")
}

/// The option that names the record.
pub const RECORD: Word = Word {
    name: "record",
    shape: Shape::Option("FILE"),
    help: "The record of the workspace: its packages, links and members, as JSON made from
the output of `cargo metadata`; docs/FORMATS.md lists its keys",
};

/// The option that names the choice.
pub const CHOICE: Word = Word {
    name: "choice",
    shape: Shape::MaybeOption("FILE"),
    help: "The selected features, as JSON [default: the default features].
Unknown keys are ignored, even a misspelt one",
};

/// The option that names the table.
pub const TABLE: Word = Word {
    name: "table",
    shape: Shape::MaybeOption("FILE"),
    help: "The platform's answers: which `cfg(..)` and target names apply, as JSON
[default: no answers, and dependencies without an answer count]",
};

/// The option that names the account.
pub const ACCOUNT: Word = Word {
    name: "account",
    shape: Shape::Option("FILE"),
    help: "The account or explanation to check, as JSON",
};

/// What a check of an account prints, and with which status it ends.
pub const CHECK_HELP: &str =
    "Output: `accepted`, or `refused: ` and the first fault of the account: `unknown rule at P`,
`repeated conclusion at P` or `missing premise at P`, where P counts its entries from 0; or `not
closed at N`, where N is the lowest rule that is missing. A file with a goal is an explanation.
In place of `not closed` it is refused as `goal not reached`, or as `unused at P` if no later entry
needs what entry P concludes.

Exit status: 0 if the account or explanation is accepted; 1 if it or a file is refused, or the
output cannot be written, with the reasons for the latter two on standard error; 2 for a bad command
line.";
