//! Whether words spell a command.
ghost use Rattle.std.specs.Prelude.{◌≡◌, ◌↔◌, map, string_bytes, IfOk, IsTrue};
ghost use Rattle.ck_words.specs.Commands.{IsBench, IsCommand};

use crate::commands::Command;
use ck_base::OutOfMemory;
use std::alloc::Global;

/// The greatest number of a benchmark.
const MOST_NUMBER: u32 = 8000;

/// Whether the words are this command.
pub(crate) fn is_command(
    alloc: Global,
    words: &[String],
    command: Command,
) -> Result<bool, OutOfMemory>
    ensures { IfOk result (λ yes. IsTrue yes ↔ IsCommand (map string_bytes words.now) command) }
{
    let [_, rest @ ..] = words else {
        return Ok(false);
    };
    match command {
        Command::Check => Ok(are_texts(rest, &["check"])),
        Command::Upgrade => Ok(are_texts(rest, &["upgrade"])),
        Command::Bench { number } => is_bench(alloc, rest, number),
    }
}

/// Whether the words after the program's name are the benchmark of this number.
fn is_bench(alloc: Global, rest: &[String], number: u32) -> Result<bool, OutOfMemory>
    ensures { IfOk result (λ yes. IsTrue yes ↔ IsBench (map string_bytes rest.now) number) }
{
    let digits = format!(in alloc; "{number}")?;
    let option = format!(in alloc; "--number={number}")?;
    let digits = digits.as_str();
    let option = option.as_str();
    Ok(
        (1..=MOST_NUMBER).contains(&number)
            && (are_texts(rest, &["bench", "--number", digits])
                || are_texts(rest, &["--number", digits, "bench"])
                || are_texts(rest, &["bench", option])
                || are_texts(rest, &[option, "bench"])),
    )
}

/// Whether the words are these texts.
fn are_texts(words: &[String], texts: &[&str]) -> bool
    ensures { IsTrue result ↔ (map string_bytes words.now ≡ map (λ text. text.now) texts.now) }
{
    words.len() == texts.len()
        && words
            .iter()
            .zip(texts)
            .all(|(word, text)| word.as_str() == *text)
}
