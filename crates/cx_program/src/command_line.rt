//! What the words after the program's name are, as the command line's parser reads them.

ghost use Rattle.std.specs.Prelude.{◌≡◌, ◌↔◌, [], ◌∷◌, map, string_bytes, All, Any, IfOk, IsTrue, true, false};
ghost use Rattle.clap.specs.Faults.{fault_of};
ghost use Rattle.clap.specs.Kinds.{FailsBy};
ghost use Rattle.clap.specs.Simple.{new_shape, with_subcommand};
ghost use Rattle.clap.specs.Words.{app_of, rule_of};
ghost use Rattle.clap.specs.declared.builder.command.Command.TheViews.{out-Command as fields_of};
ghost use Rattle.cx_program.specs.CommandLine.{HasForm, IsJudged, begins_with_hyphen, load_app, number_rule, pool_app, program};
ghost use Rattle.cx_program.specs.Commands.{command_asked};

use crate::asked::{AskedCommand, Load, Seats};
use clap::error::ErrorKind;
use clap::{Arg, ArgAction, ArgMatches, Command, Error};
use std::alloc::{AllocError, Global};

/// What words ask for, if anything. `Err` means out of memory.
pub(crate) fn read_words(
    alloc: Global,
    words: &[String],
) -> Result<Option<AskedCommand>, AllocError>
    ensures { IfOk result (λ asked. (command_asked asked).asked (map string_bytes words.now)) }
{
    if have_form(alloc, words)? {
        Ok(asked_by(words))
    } else {
        Ok(None)
    }
}

/// What words ask for that have the form of a command: one word alone, `pool` and one more, or `load` and three more.
fn asked_by(words: &[String]) -> Option<AskedCommand>
    requires { HasForm (map string_bytes words.now) }
    ensures { (command_asked result).asked (map string_bytes words.now) }
{
    match words {
        [_load, from, clients, ops] => match Load::read(from, clients, ops) {
            Some(load) => Some(AskedCommand::Load(load)),
            None => None,
        },
        [_pool, seats] => match Seats::read(seats) {
            Some(seats) => Some(AskedCommand::Pool(seats)),
            None => None,
        },
        [word] => asked_alone(word.as_str()),
        _ => None,
    }
}

/// What a word alone asks for, if anything.
fn asked_alone(word: &str) -> Option<AskedCommand>
    ensures { (command_asked result).asked (word.now ∷ []) }
{
    match word {
        "run" => Some(AskedCommand::Run),
        "image" => Some(AskedCommand::Image),
        "recover" => Some(AskedCommand::Recover),
        "fifo" => Some(AskedCommand::Fifo),
        "trace" => Some(AskedCommand::Trace),
        _ => None,
    }
}

/// Whether the words have the form of a command. A word that begins with a hyphen is in none. `Err` means out
/// of memory.
fn have_form(alloc: Global, words: &[String]) -> Result<bool, AllocError>
    ensures { IfOk result (λ is. IsTrue is ↔ HasForm (map string_bytes words.now)) }
{
    if has_option(words) {
        return Ok(false);
    }
    match parse(alloc, words) {
        Ok(()) => Ok(true),
        Err(ErrorKind::OutOfMemory) => Err(AllocError),
        Err(_) => Ok(false),
    }
}

/// Whether a word begins with a hyphen.
fn is_option(word: &String) -> bool
    ensures { result ≡ begins_with_hyphen (string_bytes word.now) }
{
    match word.as_str().as_bytes() {
        [first, ..] => *first == b'-',
        [] => false,
    }
}

/// Whether one of the words begins with a hyphen.
fn has_option(words: &[String]) -> bool
    ensures some { result ≡ true → Any (λ word. begins_with_hyphen (string_bytes word) ≡ true) words.now }
    ensures none { result ≡ false → All (λ word. begins_with_hyphen (string_bytes word) ≡ false) words.now }
{
    for word in words {
        if is_option(word) {
            return true;
        }
    }
    false
}

/// Whether the words are those of a command; with the kind of the fault where they are not.
fn parse(alloc: Global, words: &[String]) -> Result<(), ErrorKind>
    ensures { IsJudged (fault_of program (map string_bytes words.now)) result }
{
    match matches(alloc, words) {
        Ok(_matches) => Ok(()),
        Err(error) => Err(error.kind()),
    }
}

/// A number that a command wants.
fn number(alloc: Global, name: &str) -> Arg<'_>
    ensures rule { rule_of result ≡ number_rule name.entry.now }
    ensures local { result.global ≡ false }
{
    Arg::new(alloc, name).required(true).action(ArgAction::Set)
}

/// The command `load` with its three numbers.
fn load_command<'a>(alloc: Global) -> Result<Command<'a>, AllocError>
    ensures app { IfOk result (λ command. app_of command ≡ load_app) }
    ensures local { IfOk result (λ command. (fields_of command).has_globals ≡ false) }
{
    Command::new(alloc, "load")
        .arg(number(alloc, "from"))?
        .arg(number(alloc, "clients"))?
        .arg(number(alloc, "ops"))
}

/// The command `pool` with its number.
fn pool_command<'a>(alloc: Global) -> Result<Command<'a>, AllocError>
    ensures app { IfOk result (λ command. app_of command ≡ pool_app) }
    ensures local { IfOk result (λ command. (fields_of command).has_globals ≡ false) }
{
    Command::new(alloc, "pool").arg(number(alloc, "seats"))
}

/// The command line with the commands that want numbers.
fn with_numbers<'a>(alloc: Global, line: Command<'a>) -> Result<Command<'a>, AllocError>
    ensures { IfOk result (λ command. app_of command ≡ with_subcommand (with_subcommand (app_of line.entry) load_app.top) pool_app.top) }
{
    let load = load_command(alloc)?;
    let with_load = line.subcommand(load)?;
    let pool = pool_command(alloc)?;
    let command = with_load.subcommand(pool)?;
    Ok(command)
}

/// The command line with one command more, which is a word alone. So one value of the parser lives at a time.
fn with_lone<'a>(alloc: Global, line: Command<'a>, name: &'a str) -> Result<Command<'a>, AllocError>
    ensures { IfOk result (λ command. app_of command ≡ with_subcommand (app_of line.entry) (new_shape name.entry.now)) }
{
    let command = line.subcommand(Command::new(alloc, name))?;
    Ok(command)
}

/// Reads the words as those of a command.
fn matches<'a>(alloc: Global, words: &'a [String]) -> Result<ArgMatches<'a>, Error>
    ensures { FailsBy (fault_of program (map string_bytes words.entry.now)) result }
{
    let bare = Command::new(alloc, "cx_tool")
        .no_binary_name(true)
        .disable_help_flag(true)
        .disable_help_subcommand(true)
        .subcommand_required(true);
    let with_run = with_lone(alloc, bare, "run")?;
    let with_image = with_lone(alloc, with_run, "image")?;
    let with_recover = with_lone(alloc, with_image, "recover")?;
    let with_fifo = with_lone(alloc, with_recover, "fifo")?;
    let with_trace = with_lone(alloc, with_fifo, "trace")?;
    with_numbers(alloc, with_trace)?.try_get_matches_from(words)
}
