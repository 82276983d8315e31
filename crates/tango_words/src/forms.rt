//! The forms, and the words that each is.

ghost use Rattle.std.specs.Prelude.{◌≡◌, ◌↔◌, None, codes, false, map, string_bytes, IfOk, IsErr};
ghost use Rattle.std.specs.List.{list_any};
ghost use Rattle.clap.specs.Words.{app_of, first_value, found_of, kind_of, rows_of, subcommand_rows_of};
ghost use Rattle.clap.specs.declared.builder.command.Command.TheViews.{out-Command as fields_of};
ghost use Rattle.clap.specs.declared.error.kind.ErrorKind.TheVariants.{OutOfMemory};
ghost use Rattle.tango_words.specs.Commands.{begins_with_dash, bench_app, command_app, form_in, form_named, form_with, node_app, of_both, of_id, top_app};
ghost use Rattle.tango_words.specs.Forms.{form_of};

use crate::numbers::{bench, node};
use clap::error::ErrorKind;
use clap::{Arg, ArgMatches, Command, Error};
use std::alloc::Global;
use tg_base::{NoMemory, NodeId};

/// What the program is asked to do.
#[derive(Clone, Copy, PartialEq, Eq)]
pub enum Form {
    /// Reads a script and writes its transcript.
    Replay,
    /// Runs a script over the link, and writes the recording and its transcript.
    Live,
    /// Runs this node over the link.
    Node(NodeId),
    /// Runs a made load of 1 to 2,000 rounds, and writes its summary.
    Bench { start: u64, count: u32 },
    /// Judges a transcript.
    Audit,
}

/// The form that the words after the program's name are, if they are one. They are read with
/// `clap`, as one level of subcommands without a help subcommand. An `Err` is want of memory.
pub fn read_form(alloc: Global, words: &[String]) -> Result<Option<Form>, NoMemory>
    ensures { IfOk result (λ form. form ≡ form_of (map string_bytes words.now)) }
{
    // No form has a flag, and `clap` would take `replay --` as `replay`.
    if has_flag(words) {
        return Ok(None);
    }
    match command(alloc)?.try_get_matches_from(words) {
        Ok(matches) => Ok(form_met(&matches)),
        Err(error) => refused(&error),
    }
}

/// Whether one of the words begins with `-`.
fn has_flag(words: &[String]) -> bool
    ensures { result ≡ list_any begins_with_dash (map string_bytes words.now) }
{
    for word in words {
        if is_flag(word.as_str()) {
            return true;
        }
    }
    false
}

/// Whether the word begins with `-`.
fn is_flag(word: &str) -> bool
    ensures { result ≡ begins_with_dash word.now }
{
    word.as_bytes().first() == Some(&b'-')
}

/// The program's command line: a level of subcommands, with no help and no flags.
fn command<'a>(alloc: Global) -> Result<Command<'a>, NoMemory>
    ensures { IfOk result (λ c. app_of c ≡ command_app) }
{
    let command = top(alloc)
        .subcommand(Command::new(alloc, "replay"))?
        .subcommand(Command::new(alloc, "live"))?
        .subcommand(node_command(alloc)?)?
        .subcommand(bench_command(alloc)?)?
        .subcommand(Command::new(alloc, "audit"))?;
    Ok(command)
}

fn top<'a>(alloc: Global) -> Command<'a>
    ensures { app_of result ≡ top_app }
{
    Command::new(alloc, "tango")
        .no_binary_name(true)
        .disable_help_flag(true)
        .disable_help_subcommand(true)
        .subcommand_required(true)
}

fn node_command<'a>(alloc: Global) -> Result<Command<'a>, NoMemory>
    ensures app { IfOk result (λ c. app_of c ≡ node_app) }
    ensures local { IfOk result (λ c. (fields_of c).has_globals ≡ false) }
{
    let command = Command::new(alloc, "node").arg(Arg::new(alloc, "ID").required(true))?;
    Ok(command)
}

fn bench_command<'a>(alloc: Global) -> Result<Command<'a>, NoMemory>
    ensures app { IfOk result (λ c. app_of c ≡ bench_app) }
    ensures local { IfOk result (λ c. (fields_of c).has_globals ≡ false) }
{
    let command = Command::new(alloc, "bench")
        .arg(Arg::new(alloc, "START").required(true))?
        .arg(Arg::new(alloc, "COUNT").required(true))?;
    Ok(command)
}

/// The form of the subcommand that was met.
fn form_met(matches: &ArgMatches<'_>) -> Option<Form>
    ensures { result ≡ form_named (subcommand_rows_of matches.now) }
{
    let (name, own) = matches.subcommand()?;
    form_called(name, own)
}

/// The form of a subcommand by its name and its own words.
fn form_called(name: &str, own: &ArgMatches<'_>) -> Option<Form>
    ensures { result ≡ form_in name.now (rows_of (found_of own.now)) }
{
    form_of_words(name, own)
}

/// The same, by the values that `clap` found.
fn form_of_words(name: &str, own: &ArgMatches<'_>) -> Option<Form>
    ensures { result ≡ form_with name.now (first_value (found_of own.now)) }
{
    match name {
        "replay" => Some(Form::Replay),
        "live" => Some(Form::Live),
        "node" => node_form(own),
        "bench" => bench_form(own),
        "audit" => Some(Form::Audit),
        _ => None,
    }
}

fn node_form(own: &ArgMatches<'_>) -> Option<Form>
    ensures { result ≡ of_id (first_value (found_of own.now) (codes "ID")) }
{
    Some(Form::Node(node(own.get_str("ID")?)?))
}

fn bench_form(own: &ArgMatches<'_>) -> Option<Form>
    ensures { result ≡ of_both (first_value (found_of own.now) (codes "START")) (first_value (found_of own.now) (codes "COUNT")) }
{
    bench(own.get_str("START")?, own.get_str("COUNT")?)
}

/// No form, unless memory ran out while the words were read.
fn refused(error: &Error) -> Result<Option<Form>, NoMemory>
    ensures none { IfOk result (λ form. form ≡ None) }
    ensures memory { IsErr result ↔ (kind_of error.now ≡ OutOfMemory) }
{
    if error.kind() == ErrorKind::OutOfMemory {
        return Err(NoMemory);
    }
    Ok(None)
}
