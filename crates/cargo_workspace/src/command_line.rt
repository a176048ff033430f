//! The command line, as `clap` reads it.

ghost use Rattle.std.specs.Prelude.{◌≡◌, IfOk};
ghost use Rattle.clap.specs.Words.{app_of};
ghost use Rattle.cargo_workspace.specs.Maker.{maker};

use clap::Command;
use std::alloc::{AllocError, Global};
use test_select_files::{Program, Shape, Subcommand, Word};

/// The program's command, with a subcommand for each conversion.
pub(crate) fn command<'a>(alloc: Global) -> Result<Command<'a>, AllocError>
    ensures app { IfOk result (λ c. app_of c ≡ maker) }
{
    PROGRAM.command(alloc)
}

/// The program, with a subcommand for each conversion.
const PROGRAM: Program = Program {
    name: "cargo_workspace",
    about: "Make the files for test_select from the output of Cargo, rustc and test programs",
    help: STATUSES,
    words: &[],
    subcommands: &SUBCOMMANDS,
};

/// The subcommands, in the order of the help.
const SUBCOMMANDS: [Subcommand; 4] = [
    Subcommand {
        name: "record",
        about: "Print the record of a workspace",
        help: RECORD_HELP,
        words: &[
            Word {
                name: "package",
                shape: Shape::ShortOptions('p', "NAME"),
                help: "Select this member, by name; may be given several times [default: the default members]",
            },
            Word {
                name: "workspace",
                shape: Shape::Flag,
                help: "Select all members",
            },
            Word {
                name: "metadata",
                shape: Shape::Place("FILE"),
                help: "The output of `cargo metadata --format-version 1 --all-features`",
            },
        ],
    },
    Subcommand {
        name: "table",
        about: "Print the table of a platform",
        help: TABLE_HELP,
        words: &[
            Word {
                name: "triple",
                shape: Shape::Option("VALUE"),
                help: "The target triple; `rustc -vV` prints that of the host",
            },
            Word {
                name: "record",
                shape: Shape::Option("VALUE"),
                help: "The record with the platform specs to answer",
            },
            Word {
                name: "cfg",
                shape: Shape::Place("FILE"),
                help: "The output of `rustc --print cfg` for the target, with the flags of the build",
            },
        ],
    },
    Subcommand {
        name: "choice",
        about: "Print the choice of features that Cargo's options make",
        help: CHOICE_HELP,
        words: &[
            Word {
                name: "record",
                shape: Shape::Option("VALUE"),
                help: "The record of the features' packages",
            },
            Word {
                name: "features",
                shape: Shape::Options("FEATURES"),
                help: "Features, as NAME or PACKAGE/NAME, separated by commas or spaces",
            },
            Word {
                name: "no-default-features",
                shape: Shape::Flag,
                help: "Leave out the default features",
            },
            Word {
                name: "all-features",
                shape: Shape::Flag,
                help: "Select all features of all members",
            },
        ],
    },
    Subcommand {
        name: "listings",
        about: "Print the listings of a record's test binaries",
        help: LISTINGS_HELP,
        words: &[
            Word {
                name: "record",
                shape: Shape::Option("VALUE"),
                help: "The record of the test binaries",
            },
            Word {
                name: "built",
                shape: Shape::Flag,
                help: "Leave out binaries without a list",
            },
            Word {
                name: "nextest",
                shape: Shape::Flag,
                help: "Read FILE as the output of `cargo nextest list --message-format json`",
            },
            Word {
                name: "lists",
                shape: Shape::Place("FILE"),
                help: "A folder with each binary's output of `--list --format terse`",
            },
        ],
    },
];

const RECORD_HELP: &str =
    "Output: the record, as JSON. It has all packages, and a line for each dependency that Cargo
resolved. If a target of a non-member requires a feature of another package, it is left out.

Exit status: 0 if the record is printed; 1 if the file is refused, with the reason and the remedy on
standard error; 2 for a bad command line.";

const TABLE_HELP: &str =
    "Output: the table, as JSON: whether each platform spec of the record applies. A spec is the name of
a target, or `cfg(..)` with all, any, not, names, names with values, true and false. A spec that
cannot be read is refused.

Exit status: 0 if the table is printed; 1 if a file or a spec is refused, with the reason on standard
error; 2 for a bad command line.";

const CHOICE_HELP: &str =
    "Output: the choice, as JSON. NAME selects that feature of every member that has it, PACKAGE/NAME that
of one member.

Exit status: 0 if the choice is printed; 1 if the record or a name is refused, with the reason and
similar names on standard error; 2 for a bad command line.";

const LISTINGS_HELP: &str =
    "Output: the listings, as JSON: under each binary's id the names of its tests, in their order.
Benchmarks are left out. In the folder, the path of a binary's list is the binary's id.

Exit status: 0 if the listings are printed; 1 if the record or a list is refused, with the binary's
id on standard error; 2 for a bad command line.";

const STATUSES: &str = "Any FILE may be /dev/stdin.

Exit status: 0 on success; 1 on failure, with the reason on standard error; 2 for a bad command line.";
