//! Command lines as data: what a program is called, its subcommands, and the words that each takes.

ghost use Rattle.std.specs.Prelude.{◌≡◌, IfOk, false, fold};
ghost use Rattle.clap.specs.Words.{app_of, rule_of};
ghost use Rattle.clap.specs.declared.builder.Command.TheViews.{out-Command as fields_of};
ghost use Rattle.test_select_files.specs.Apps.{
  program_app,
  subcommand_app,
  with_sub,
  with_word,
  word_rule,
};

use clap::{Arg, ArgAction, Command};
use std::alloc::{AllocError, Global};

/// A program: its name, what it does, its help, the words that it takes, and its subcommands. One that has
/// subcommands does nothing without one of them.
#[derive(Clone, Copy)]
pub struct Program {
    pub name: &'static str,
    pub about: &'static str,
    pub help: &'static str,
    pub words: &'static [Word],
    pub subcommands: &'static [Subcommand],
}

/// A thing that a program does: its name, what it does, its help, and the words that it takes.
#[derive(Clone, Copy)]
pub struct Subcommand {
    pub name: &'static str,
    pub about: &'static str,
    pub help: &'static str,
    pub words: &'static [Word],
}

/// A word that a command takes: its name, how it stands there, and what it is for.
#[derive(Clone, Copy)]
pub struct Word {
    pub name: &'static str,
    pub shape: Shape,
    pub help: &'static str,
}

/// How a word stands on the command line, and how its value is called in the help.
#[derive(Clone, Copy)]
pub enum Shape {
    /// `--NAME`.
    Flag,
    /// `--NAME VALUE`, which has to be there.
    Option(&'static str),
    /// `--NAME VALUE`, which may be left out.
    MaybeOption(&'static str),
    /// `--NAME VALUE`, several times.
    Options(&'static str),
    /// `--NAME VALUE` or this letter in place of the name, several times.
    ShortOptions(char, &'static str),
    /// `--NAME VALUE`, which may be left out; the value is one of these.
    Choice(&'static str, &'static [&'static str]),
    /// This letter and a value, several times.
    Letters(char, &'static str),
    /// A value by its place, which has to be there.
    Place(&'static str),
    /// A value by its place, which may be left out.
    MaybePlace(&'static str),
    /// All values that are left.
    Rest(&'static str),
}

impl Program {
    /// The command, as `clap` reads it. Without any word it shows its help.
    pub fn command<'a>(&self, alloc: Global) -> Result<Command<'a>, AllocError>
        ensures app { IfOk result (λ c. app_of c ≡ program_app self.now) }
        ensures local { IfOk result (λ c. (fields_of c).has_globals ≡ false) }
    {
        let named = Command::new(alloc, self.name).bin_name(self.name)?;
        let bare = named
            .version("0.1.0")
            .about(self.about)
            .after_help(self.help)
            .subcommand_required(!self.subcommands.is_empty())
            .arg_required_else_help(true);
        let worded = with_words(alloc, bare, self.words)?;
        with_subcommands(alloc, worded, self.subcommands)
    }
}

fn with_subcommands<'a>(
    alloc: Global,
    command: Command<'a>,
    subcommands: &[Subcommand],
) -> Result<Command<'a>, AllocError>
    ensures app { IfOk result (λ c. app_of c
        ≡ fold with_sub (app_of command.entry) subcommands.now) }
    ensures local { IfOk result (λ c. (fields_of c).has_globals
        ≡ (fields_of command.entry).has_globals) }
{
    let mut command = command;
    for subcommand in subcommands {
        let below = subcommand.command(alloc)?;
        let grown = command.subcommand(below)?;
        command = grown;
    }
    Ok(command)
}

impl Subcommand {
    fn command<'a>(&self, alloc: Global) -> Result<Command<'a>, AllocError>
        ensures app { IfOk result (λ c. app_of c ≡ subcommand_app self.now) }
        ensures local { IfOk result (λ c. (fields_of c).has_globals ≡ false) }
    {
        let bare = Command::new(alloc, self.name)
            .about(self.about)
            .after_help(self.help);
        with_words(alloc, bare, self.words)
    }
}

fn with_words<'a>(
    alloc: Global,
    command: Command<'a>,
    words: &[Word],
) -> Result<Command<'a>, AllocError>
    ensures app { IfOk result (λ c. app_of c ≡ fold with_word (app_of command.entry) words.now) }
    ensures local { IfOk result (λ c. (fields_of c).has_globals
        ≡ (fields_of command.entry).has_globals) }
{
    let mut command = command;
    for word in words {
        let argument = word.argument(alloc);
        let grown = command.arg(argument)?;
        command = grown;
    }
    Ok(command)
}

impl Word {
    /// The word, as `clap` takes it.
    pub fn argument<'a>(&self, alloc: Global) -> Arg<'a>
        ensures rule { rule_of result ≡ word_rule self.now }
        ensures local { result.global ≡ false }
    {
        let named = Arg::new(alloc, self.name).help(self.help);
        match self.shape {
            Shape::Flag => named.long(self.name).action(ArgAction::SetTrue),
            Shape::Option(value) => {
                valued(named.long(self.name).required(true), value, ArgAction::Set)
            }
            Shape::MaybeOption(value) => valued(named.long(self.name), value, ArgAction::Set),
            Shape::Choice(value, values) => {
                valued(
                    named.long(self.name).value_parser(values),
                    value,
                    ArgAction::Set,
                )
            }
            Shape::Options(value) => valued(named.long(self.name), value, ArgAction::Append),
            Shape::ShortOptions(letter, value) => {
                valued(
                    named.long(self.name).short(letter),
                    value,
                    ArgAction::Append,
                )
            }
            Shape::Letters(letter, value) => {
                valued(named.short(letter), value, ArgAction::Append)
            }
            Shape::Place(value) => valued(named.required(true), value, ArgAction::Set),
            Shape::MaybePlace(value) => valued(named, value, ArgAction::Set),
            Shape::Rest(value) => valued(named.num_args(0..), value, ArgAction::Append),
        }
    }
}

/// The argument, which takes values that are called so in the help.
fn valued<'a>(arg: Arg<'a>, value: &'a str, action: ArgAction) -> Arg<'a>
    ensures rule { rule_of result
        ≡ record (rule_of arg.entry) { value_names = 1; action = Some action } }
    ensures local { result.global ≡ arg.entry.global }
{
    arg.value_name(value).action(action)
}
