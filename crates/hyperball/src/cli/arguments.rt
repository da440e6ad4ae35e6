//! Subcommands as `clap` has them, from their texts of help and tables of their arguments.

ghost use Rattle.std.specs.Prelude.{◌≡◌, IfOk, codes, false};
ghost use Rattle.clap.specs.Words.{App, new_app, rule_of};
ghost use Rattle.hyperball.specs.CommandLine.{IsApp, flag_rule, option_rule, rule_in};
ghost use Rattle.hyperball.specs.CommandLine.{thread_number, with_arguments};

use clap::builder::ValueParser;
use clap::{Arg, ArgAction, Command};
use std::alloc::{AllocError, Global};

const PROGRESS_HELP: &str =
    "Tell how it gets on, in lines on standard error: what was read, each superstep, close or checkpoint, the end";

const LARGE_HELP: &str =
    "Take up to 2^31 vertices and 2^32 - 1 records; without it more than 2^24 and 2^26 are too many";

/// An argument of a command: an option whose value is read by a parser, or a flag, which has no value.
#[derive(Clone, Copy)]
pub(crate) struct Argument<'a> {
    name: &'a str,
    help: &'a str,
    parser: Option<ValueParser<'a>>,
}

/// The name of a subcommand, and its texts of help.
#[derive(Clone, Copy)]
pub(crate) struct Texts<'a> {
    /// Its name.
    pub(crate) name: &'a str,
    /// What it does, in a line.
    pub(crate) about: &'a str,
    /// What it does, at length.
    pub(crate) long_about: &'a str,
    /// What its help says after its arguments.
    pub(crate) after_help: &'a str,
}

/// An option that takes a value.
pub(crate) fn option<'a>(name: &'a str, help: &'a str, parser: ValueParser<'a>) -> Argument<'a>
    ensures { rule_in result ≡ option_rule name.entry.now parser.entry }
{
    Argument {
        name,
        help,
        parser: Some(parser),
    }
}

/// An option that takes none.
pub(crate) fn flag<'a>(name: &'a str, help: &'a str) -> Argument<'a>
    ensures { rule_in result ≡ flag_rule name.entry.now }
{
    Argument {
        name,
        help,
        parser: None,
    }
}

/// The option of a number of threads, with its help.
pub(crate) fn threads<'a>(help: &'a str) -> Argument<'a>
    ensures { rule_in result ≡ option_rule (codes "threads") thread_number }
{
    option("threads", help, ValueParser::Signed(0, 1024))
}

/// The flag of large edge lists.
pub(crate) fn large<'a>() -> Argument<'a>
    ensures { rule_in result ≡ flag_rule (codes "large") }
{
    flag("large", LARGE_HELP)
}

/// The flag of progress.
pub(crate) fn progress<'a>() -> Argument<'a>
    ensures { rule_in result ≡ flag_rule (codes "progress") }
{
    flag("progress", PROGRESS_HELP)
}

// The argument, as `clap` has it.
fn arg_of<'a>(alloc: Global, argument: &Argument<'a>) -> Arg<'a>
    ensures rule { rule_of result ≡ rule_in argument.entry.now }
    ensures local { result.global ≡ false }
{
    let arg = Arg::new(alloc, argument.name)
        .long(argument.name)
        .help(argument.help);
    match argument.parser {
        Some(parser) => arg.value_parser(parser),
        None => arg.action(ArgAction::SetTrue),
    }
}

// Adds arguments to a command, one after the other.
fn add_arguments<'a>(
    alloc: Global,
    mut command: Command<'a>,
    arguments: &[Argument<'a>],
) -> Result<Command<'a>, AllocError>
    ensures { (app : App) → IsApp app command.entry →
        IfOk result (IsApp (with_arguments arguments.entry.now app)) }
{
    for argument in arguments {
        command = command.arg(arg_of(alloc, argument))?;
    }
    Ok(command)
}

// A subcommand of these texts, before it has arguments.
fn bare<'a>(alloc: Global, texts: &Texts<'a>) -> Command<'a>
    ensures { IsApp (new_app texts.entry.now.name.now) result }
{
    Command::new(alloc, texts.name)
        .about(texts.about)
        .long_about(texts.long_about)
        .after_long_help(texts.after_help)
}

/// The subcommand of these texts, with some arguments and with others after them.
pub(crate) fn subcommand_of<'a>(
    alloc: Global,
    texts: &Texts<'a>,
    first: &[Argument<'a>],
    others: &[Argument<'a>],
) -> Result<Command<'a>, AllocError>
    ensures { IfOk result (IsApp (with_arguments others.entry.now
        (with_arguments first.entry.now (new_app texts.entry.now.name.now)))) }
{
    let command = add_arguments(alloc, bare(alloc, texts), first)?;
    add_arguments(alloc, command, others)
}
