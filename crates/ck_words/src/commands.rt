//! The command that the words of the command line are.
ghost use Rattle.std.specs.Prelude.{◌≡◌, map, string_bytes, option_map, IfOk, Some, Err};
ghost use Rattle.clap.specs.Words.{found_of};
ghost use Rattle.ck_words.specs.Commands.{HasNoCommand, IsCommand, Words};
ghost use Rattle.ck_words.specs.declared.commands.Command.{Command};
ghost use Rattle.ck_words.specs.Matched.{AreMatches, IsNamed};

use crate::spellings::is_command;
use ck_base::OutOfMemory;
use clap::error::ErrorKind;
use clap::{Arg, ArgAction, ArgMatches};
use std::alloc::{AllocError, Global};

/// What the program is to do.
#[derive(Clone, Copy, Debug, PartialEq, Eq)]
pub enum Command {
    /// Checks the project in the folder.
    Check,
    /// Checks the text of the benchmark for a number, 1 to 8000.
    Bench { number: u32 },
    /// Writes the settings in the newest version.
    Upgrade,
}

/// Why there is no command: the words aren't one, or memory ran out.
#[derive(Clone, Copy, Debug, PartialEq, Eq)]
pub enum WordsError {
    Usage,
    Memory,
}

impl From<OutOfMemory> for WordsError {
    ghost use Rattle.ck_words.specs.declared.commands.WordsError.TheVariants.{Memory};

    ghost from_gives = { λ _ error. error ≡ Memory };

    fn from(_error: OutOfMemory) -> WordsError {
        WordsError::Memory
    }
}

impl From<AllocError> for WordsError {
    ghost use Rattle.ck_words.specs.declared.commands.WordsError.TheVariants.{Memory};

    ghost from_gives = { λ _ error. error ≡ Memory };

    fn from(_error: AllocError) -> WordsError {
        WordsError::Memory
    }
}

impl From<clap::Error> for WordsError {
    ghost use Rattle.std.specs.Prelude.{◌≡◌, ◌↔◌};
    ghost use Rattle.clap.specs.Words.{kind_of};
    ghost use Rattle.clap.specs.declared.error.kind.ErrorKind.TheVariants as kind;
    ghost use Rattle.ck_words.specs.declared.commands.WordsError.TheVariants.{Memory};

    ghost from_gives = { λ refusal error. (error ≡ Memory) ↔ (kind_of refusal ≡ kind.OutOfMemory) };

    fn from(refusal: clap::Error) -> WordsError {
        match refusal.kind() {
            ErrorKind::OutOfMemory => WordsError::Memory,
            _ => WordsError::Usage,
        }
    }
}

/// The command that these words are; the first is the program's name, and isn't looked at
/// (docs/COMMANDS.md, "The words").
///
/// Refused as `Usage` exactly where they aren't a command; `Memory` is want of memory.
pub fn command_of(alloc: Global, words: &[String]) -> Result<Command, WordsError>
    ensures command { IfOk result (IsCommand (map string_bytes words.now)) }
    ensures usage { result ≡ Err WordsError.Usage → HasNoCommand (map string_bytes words.now) }
{
    let matches = matches_of(alloc, words)?;
    let Some(command) = matched_command(&matches) else {
        return Err(WordsError::Usage);
    };
    if is_command(alloc, words, command)? {
        Ok(command)
    } else {
        Err(WordsError::Usage)
    }
}

/// What `clap` makes of the words: the mode as a positional argument, and the option for the number.
/// It takes words that aren't a command, too.
fn matches_of<'a>(alloc: Global, words: &'a [String]) -> Result<ArgMatches<'a>, WordsError>
    ensures matches { IfOk result (λ m. AreMatches (map string_bytes words.now) (found_of m)) }
    ensures usage { result ≡ Err WordsError.Usage → HasNoCommand (map string_bytes words.now) }
{
    let mode = Arg::new(alloc, "mode")
        .required(true)
        .action(ArgAction::Set);
    let number = Arg::new(alloc, "number")
        .long("number")
        .action(ArgAction::Set);
    let command = clap::Command::new(alloc, "rtcheck").arg(mode)?.arg(number)?;
    Ok(command.try_get_matches_from(words)?)
}

/// The one command that words with these matches can be, if they can be one.
fn matched_command(matches: &ArgMatches<'_>) -> Option<Command>
    ensures { (words : Words) (command : Command) → AreMatches words (found_of matches.now)
        → IsCommand words command → result ≡ Some command }
{
    let mode = matches.get_str("mode")?;
    command_named(mode, matches.get_str("number"))
}

/// The one command that a mode and the text of a number can be, if they can be one.
fn command_named(mode: &str, number: Option<&str>) -> Option<Command>
    ensures { (command : Command) → IsNamed mode.now (option_map (λ text. text.now) number.entry) command
        → result ≡ Some command }
{
    if mode == "check" {
        Some(Command::Check)
    } else if mode == "upgrade" {
        Some(Command::Upgrade)
    } else if mode == "bench" {
        let number = number?.parse::<u32>().ok()?;
        Some(Command::Bench { number })
    } else {
        None
    }
}
