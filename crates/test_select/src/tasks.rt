//! What the program does, and the words that it takes for it, as `clap` is told of them.

ghost use Rattle.std.specs.Prelude.{◌≡◌, IfOk, codes, false, true};
ghost use Rattle.clap.specs.Words.{app_of, new_app, rule_of as told_of};
ghost use Rattle.clap.specs.declared.builder.Command.TheViews.{out-Command as fields_of};
ghost use Rattle.test_select_files.specs.Apps.{bare_app, word_rule};
ghost use Rattle.test_select.specs.Tasks.{
  command_of,
  IsSelector,
  name_of,
  rule_of,
  selector_by,
  task_named,
  words_of,
};

use clap::{Arg, Command};
use std::alloc::{AllocError, Global};
use test_select_files::{ACCOUNT, CHECK_HELP, CHOICE, RECORD, Shape, TABLE, Word};

/// A thing that the program does.
#[derive(Clone, Copy)]
pub(crate) enum Task {
    Tests,
    Binaries,
    Changed,
    Why,
    Account,
    Check,
    Explain,
    Order,
    Features,
    Rules,
}

/// All tasks, in the order of the help.
const TASKS: [Task; 10] = [
    Task::Tests,
    Task::Binaries,
    Task::Changed,
    Task::Why,
    Task::Account,
    Task::Check,
    Task::Explain,
    Task::Order,
    Task::Features,
    Task::Rules,
];

// Words stand behind names of their own: a value that is written out is gone through wherever it is used.
/// The program's command, with a subcommand for each task.
pub(crate) fn command<'a>(alloc: Global) -> Result<Command<'a>, AllocError>
    ensures app { IfOk result (λ c. IsSelector (app_of c)) }
    ensures local { IfOk result (λ c. (fields_of c).has_globals ≡ false) }
{
    command_by(alloc, FORMAT)
}

fn command_by<'a>(alloc: Global, format: Word) -> Result<Command<'a>, AllocError>
    ensures app { IfOk result (λ c. app_of c ≡ selector_by (word_rule format)) }
    ensures local { IfOk result (λ c. (fields_of c).has_globals ≡ false) }
{
    let mut command = bare(alloc)?;
    for task in &TASKS {
        let below = task.command(alloc, format)?;
        let grown = command.subcommand(below)?;
        command = grown;
    }
    Ok(command)
}

/// The command without its subcommands. Without any word it shows its help.
fn bare<'a>(alloc: Global) -> Result<Command<'a>, AllocError>
    ensures app { IfOk result (λ c. app_of c ≡ bare_app (codes "test_select") true) }
    ensures local { IfOk result (λ c. (fields_of c).has_globals ≡ false) }
{
    let named = Command::new(alloc, "test_select").bin_name("test_select")?;
    Ok(
        named
            .version("0.1.0")
            .about("Select the Rust tests that run with given features and filters")
            .after_help(STATUSES)
            .subcommand_required(true)
            .arg_required_else_help(true),
    )
}

/// The task with this name, if there is one.
pub(crate) fn task_named(name: &str) -> Option<Task>
    ensures task { result ≡ task_named name.now }
{
    for task in &TASKS {
        if task.name() == name {
            return Some(*task);
        }
    }
    None
}

impl Task {
    /// The command of the task, with its words.
    fn command<'a>(self, alloc: Global, format: Word) -> Result<Command<'a>, AllocError>
        ensures app { IfOk result (λ c. app_of c ≡ command_of (word_rule format) self) }
        ensures local { IfOk result (λ c. (fields_of c).has_globals ≡ false) }
    {
        let mut command = self.bare(alloc);
        for word in self.words() {
            let grown = command.arg(word.argument(alloc, format))?;
            command = grown;
        }
        Ok(command)
    }

    /// The command without its words.
    fn bare<'a>(self, alloc: Global) -> Command<'a>
        ensures app { app_of result ≡ new_app (name_of self) }
        ensures local { (fields_of result).has_globals ≡ false }
    {
        Command::new(alloc, self.name())
            .about(self.about())
            .after_help(self.help())
    }

    fn name<'a>(self) -> &'a str
        ensures name { result.now ≡ name_of self }
    {
        match self {
            Task::Tests => "tests",
            Task::Binaries => "binaries",
            Task::Changed => "changed",
            Task::Why => "why",
            Task::Account => "account",
            Task::Check => "check",
            Task::Explain => "explain",
            Task::Order => "order",
            Task::Features => "features",
            Task::Rules => "rules",
        }
    }

    fn about<'a>(self) -> &'a str {
        match self {
            Task::Tests => "Print the tests that run",
            Task::Binaries => "Print the test binaries to build and list",
            Task::Changed => "Print a filter for the tests that changed files can affect",
            Task::Why => "Explain why a test is chosen, or a binary asked for its tests",
            Task::Account => "Print an account: a certificate of the features that are on",
            Task::Check =>
                "Check an account of the features that are on, or the explanation of one feature",
            Task::Explain => "Explain why a feature is on",
            Task::Order => "Print the packages that are on, dependencies first",
            Task::Features => "Print the features that are on",
            Task::Rules => "Print the rules that switch features on",
        }
    }

    fn help<'a>(self) -> &'a str {
        match self {
            Task::Tests => TESTS_HELP,
            Task::Binaries => BINARIES_HELP,
            Task::Changed => CHANGED_HELP,
            Task::Why => WHY_HELP,
            Task::Account => ACCOUNT_HELP,
            Task::Check => CHECK_HELP,
            Task::Explain => EXPLAIN_HELP,
            Task::Order => ORDER_HELP,
            Task::Features => FEATURES_HELP,
            Task::Rules => RULES_HELP,
        }
    }

    fn words(self) -> &'static [Taken]
        ensures words { result.now ≡ words_of self }
    {
        match self {
            Task::Tests => &[
                Taken::Record,
                Taken::Listings,
                Taken::Choice,
                Taken::Table,
                Taken::Declared,
                Taken::Plain,
                Taken::Partition,
                Taken::Format,
                Taken::Filters,
            ],
            Task::Binaries => &[
                Taken::Record,
                Taken::Choice,
                Taken::Table,
                Taken::Declared,
                Taken::Plain,
                Taken::Filters,
            ],
            Task::Changed => &[Taken::Record, Taken::Ignore, Taken::Paths, Taken::Path],
            Task::Why => &[
                Taken::Record,
                Taken::Listings,
                Taken::Choice,
                Taken::Table,
                Taken::Declared,
                Taken::FilterOptions,
                Taken::Binary,
                Taken::Test,
            ],
            Task::Account => &[Taken::Record, Taken::Choice, Taken::Table, Taken::Readable],
            Task::Check => &[Taken::Record, Taken::Choice, Taken::Table, Taken::Account],
            Task::Explain => &[
                Taken::Record,
                Taken::Choice,
                Taken::Table,
                Taken::Readable,
                Taken::Package,
                Taken::Feature,
            ],
            Task::Order => &[Taken::Record, Taken::Choice, Taken::Table],
            Task::Features => &[Taken::Record, Taken::Choice, Taken::Table],
            Task::Rules => &[Taken::Record, Taken::Choice, Taken::Table],
        }
    }
}

/// A word that a task takes.
#[derive(Clone, Copy)]
pub(crate) enum Taken {
    Record,
    Listings,
    Choice,
    Table,
    Declared,
    Plain,
    Partition,
    Format,
    Filters,
    FilterOptions,
    Binary,
    Test,
    Readable,
    Account,
    Package,
    Feature,
    Ignore,
    Paths,
    Path,
}

impl Taken {
    /// The word, as `clap` takes it, where that of the format is this one.
    fn argument<'a>(self, alloc: Global, format: Word) -> Arg<'a>
        ensures rule { told_of result ≡ rule_of (word_rule format) self }
        ensures local { result.global ≡ false }
    {
        match self {
            Taken::Record => RECORD.argument(alloc),
            Taken::Listings => LISTINGS.argument(alloc),
            Taken::Choice => CHOICE.argument(alloc),
            Taken::Table => TABLE.argument(alloc),
            Taken::Declared => DECLARED.argument(alloc),
            Taken::Plain => PLAIN.argument(alloc),
            Taken::Partition => PARTITION.argument(alloc),
            Taken::Format => format.argument(alloc),
            Taken::Filters => FILTERS.argument(alloc),
            Taken::FilterOptions => FILTER_OPTIONS.argument(alloc),
            Taken::Binary => BINARY.argument(alloc),
            Taken::Test => TEST.argument(alloc),
            Taken::Readable => READABLE.argument(alloc),
            Taken::Account => ACCOUNT.argument(alloc),
            Taken::Package => PACKAGE.argument(alloc),
            Taken::Feature => FEATURE.argument(alloc),
            Taken::Ignore => IGNORE.argument(alloc),
            Taken::Paths => PATHS.argument(alloc),
            Taken::Path => PATH.argument(alloc),
        }
    }
}

const LISTINGS: Word = Word {
    name: "listings",
    shape: Shape::Option("FILE"),
    help: "The names of each test binary's tests, under the binary's id, as JSON",
};

const READABLE: Word = Word {
    name: "readable",
    shape: Shape::Flag,
    help: "Print each rule as a readable line",
};

const PACKAGE: Word = Word {
    name: "package",
    shape: Shape::Place("PACKAGE"),
    help: "The id of the feature's package",
};

const FEATURE: Word = Word {
    name: "feature",
    shape: Shape::MaybePlace("FEATURE"),
    help: "The feature's name, or `dep:NAME` for an optional dependency [default: the package]",
};

const DECLARED: Word = Word {
    name: "declared",
    shape: Shape::Flag,
    help: "Let deps and rdeps follow every declared dependency",
};

const PLAIN: Word = Word {
    name: "plain",
    shape: Shape::Flag,
    help: "List every available binary, even if no filter can match it",
};

const IGNORE: Word = Word {
    name: "ignore",
    shape: Shape::Options("GLOB"),
    help: "Ignore paths that match this glob, written as in filters; may be given several times",
};

const PATHS: Word = Word {
    name: "paths",
    shape: Shape::MaybeOption("FILE"),
    help: "A file with one path per line, as `git diff --name-only` prints them",
};

const PATH: Word = Word {
    name: "path",
    shape: Shape::Rest("PATH"),
    help: "A changed file, by its path from the workspace root",
};

const PARTITION: Word = Word {
    name: "partition",
    shape: Shape::MaybeOption("count:M/N"),
    help: "Print only part M of N equal parts, counted from 1 [default: all tests]",
};

const FORMAT: Word = Word {
    name: "format",
    shape: Shape::Choice("FORMAT", &["lines", "json"]),
    help: "Print one line per test, or one JSON object [default: lines]",
};

const FILTERS: Word = Word {
    name: "filter",
    shape: Shape::Rest("FILTER"),
    help: "Tests matched by any of these filters [default: all]",
};

const FILTER_OPTIONS: Word = Word {
    name: "filter",
    shape: Shape::Letters('E', "FILTER"),
    help: "A filter, as for `tests`; may be given several times [default: all tests]",
};

const BINARY: Word = Word {
    name: "binary",
    shape: Shape::Place("ID"),
    help: "The id of the test binary",
};

const TEST: Word = Word {
    name: "test",
    shape: Shape::MaybePlace("TEST"),
    help: "The name of a test in the binary [default: the binary itself]",
};

const TESTS_HELP: &str = "Filters:
  all(), none()    every test; no test
  package(NAME)    tests of packages whose name matches
  deps(NAME)       tests of these packages and of everything they depend on, through dependencies
                   that are on, or through all declared ones with --declared
  rdeps(NAME)      tests of these packages and of everything that depends on them
  binary_id(NAME)  tests of binaries whose id matches
  binary(NAME)     tests of binaries whose target's name matches
  kind(NAME)       tests of lib, proc-macro, test, bench, bin or example targets
  platform(WORD)   tests of binaries built for the `host` or for the `target`
  test(NAME)       tests whose name matches
  feature(NAME)    tests of packages with a matching feature that is on
  group(NAME)      tests of the record's groups whose name matches
  default()        tests that the record's default filter matches

NAME is =TEXT for an exact match, ~TEXT for a substring, #TEXT for a glob, or /TEXT/ for a regex.
A plain TEXT is a substring for test, an exact match for kind, and a glob for the others. Join filters
with `and`, `or`, `not` and `-` (not with `&&` or `||`), and group them with parentheses. The name of
a package, binary, feature or group must match something; a kind that no target has, as in kind(foo),
matches no test. Tests run only in binaries whose required features are on, and only if the default
filter matches them.

Output: one line per test: the id of its binary, a space and its name, sorted by binary and then by
name, without duplicates. If no test runs, nothing is printed. --partition count:M/N prints only the
lines whose place, counted from 0, is M - 1 modulo N, so that N machines run each test once. --format
json prints one object: under each binary's id, in ascending order, the names of its tests, in
ascending order.

Exit status: 0 if the tests are printed, even if there are none; 1 if a file, the record, the choice,
a filter or a listing is refused, or the output cannot be written, with the reasons on standard error,
where `lister: ID` means that the listings have no binary ID; 2 for a bad command line.";

const BINARIES_HELP: &str =
    "Output: one line with the id of each test binary that `tests` would ask for its tests, given the
same files, options and filters, in ascending order and without duplicates. No listings are needed,
so nothing has to be built first. `tests` needs listings of these binaries only, and chooses no test
of any other. --plain prints every binary whose required features are on. The help of `tests` lists
the filters.

Exit status: 0 if the binaries are printed, even if there are none; 1 if a file, the record, the
choice or a filter is refused, or the output cannot be written, with the reasons on standard error;
2 for a bad command line.";

const CHANGED_HELP: &str =
    "Output: one line, a filter for `tests`. A path belongs to the packages with the longest folder that
contains it: members, by their paths in the workspace, and path dependencies below the workspace root
that members reach through declared dependencies. The filter is
  rdeps(=NAME) | ..   for the name of each such package, in ascending order
  all()               if a path lies in no such folder, as Cargo.lock, or its package has no name
  none()              if there is no path, or every path is ignored
Packages with the same name all count. Empty parts of a path, and parts `.`, do not count. A test that
the filter does not match is in a package that does not depend on a changed one.

Exit status: 0 if the filter is printed; 1 if a file, the record, a glob or a path is refused (a path
may not begin with `/` or have a part `..`), or the output cannot be written, with the reasons on
standard error; 2 for a bad command line.";

const WHY_HELP: &str =
    "Output: one line. With TEST it says whether that test of the binary is chosen, and why:
  chosen by filter N           N is the first filter that matches, counted from 0
  chosen                       no filter is given
  no binary ID                 no test binary has this id
  off: needs PACKAGE/FEATURE   the first feature that the binary requires and that is off
  not listed                   the binary's listing has no such test
  default filter does not hold
  no filter holds
Without TEST it says whether the binary is asked for its tests: `asked`; or `no binary` or `off`, as
above; or `default filter cannot hold` or `no filter can hold`, if that is so for every test that the
binary may have. The first of these that applies is printed: no binary, off, not listed, the default
filter, the filters. The help of `tests` lists the filters. Listings are used only for a test of a
binary that is not off, and then only those of this binary.

Exit status: 0 if the test is chosen, or the binary asked; 1 if it is not, or if a file, the record,
the choice, a filter or the listing is refused, or the output cannot be written, with the reasons for
these on standard error; 2 for a bad command line.";

const ACCOUNT_HELP: &str =
    "Output: one line of JSON with the numbers of rules, one for each feature that is on. The premises of
each rule come from earlier rules, and each rule is the lowest that can be in its place. A rule says
that a feature is on, or that it is on if one or two others are. Rules are numbered from 0: first
those of the choice, then those by which a feature needs its package, then those of the features'
entries, then those of the dependencies. `check` checks such a line. --readable prints one line per
rule: the rule as `rules` prints it, and in parentheses where it comes from: the choice, a feature's
package, an entry of a feature, or a dependency.

Exit status: 0 if the account is printed; 1 if a file, the record or the choice is refused, or the
output cannot be written, with the reasons on standard error; 2 for a bad command line.";

const EXPLAIN_HELP: &str =
    "Output: one line of JSON with the feature as goal and the numbers of the rules that switch it on. The
last rule concludes the feature; every other rule concludes something that a later one needs. They are
in the order of the account, and numbered as for `account`. --readable prints one line per rule, as
`account --readable` does. If the feature is off, or there is no such package or feature, the output is
`not on`.

Exit status: 0 if the explanation is printed; 1 if the feature is not on, or if a file, the record or
the choice is refused, or the output cannot be written, with the reasons for these on standard error;
2 for a bad command line.";

const ORDER_HELP: &str =
    "Output: one line with the id of each package that is on, without duplicates. A package comes after
everything that it depends on through dependencies that are on, except for packages that depend on it
in turn.

Exit status: 0 if the order is printed; 1 if a file, the record or the choice is refused, or the
output cannot be written, with the reasons on standard error; 2 for a bad command line.";

const FEATURES_HELP: &str =
    "Output: one line PACKAGE/FEATURE for each feature that is on, with the package's id. FEATURE is the
feature's name, `dep:NAME` for an optional dependency, or `[base]` for the package itself. Lines are
sorted by package. Within a package `[base]` comes first, then features by name, then optional
dependencies.

Exit status: 0 if the features are printed; 1 if a file, the record or the choice is refused, or the
output cannot be written, with the reasons on standard error; 2 for a bad command line.";

const RULES_HELP: &str =
    "Output: one line per rule, such as `9: app/fast, app/dep:util -> util/simd`: its number, what must
be on for it, and what it switches on. Rules are numbered from 0: first those of the choice, then
those by which a feature needs its package, then those of the features' entries, then those of the
dependencies.

Exit status: 0 if the rules are printed; 1 if a file, the record or the choice is refused, or the
output cannot be written, with the reasons on standard error; 2 for a bad command line.";

const STATUSES: &str = "Any FILE may be /dev/stdin.

Exit status: 0 on success; 1 on failure, with the reasons on standard error; 2 for a bad command line.";
