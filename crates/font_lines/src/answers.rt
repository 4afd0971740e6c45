//! The answers to the lines of an input.

ghost use Rattle.std.specs.Prelude.{◌≡◌, ℕ, List, ◌++◌, OnOk};
ghost use Rattle.font_lines.specs.Answers.{AppendsAnswer, AppendsAnswers, Answers};
ghost use Rattle.font_lines.specs.{Command.IsAnswer, Error.GivesAnswer, Text.words_of};

use crate::command::Command;
use crate::error::{CommandError, LineError};
use crate::text::{Lines, Words};
use std::alloc::{AllocError, Allocator};

/// Appends the answers to the lines of an input, each followed by a line feed.
#[tactic(auto, using(crate::proofs::Commands::answer_steps))]
pub fn append_answers<A: Allocator + Copy>(
    alloc: A,
    input: &[u8],
    output: &mut Vec<u8, A>,
) -> Result<(), AllocError>
    ensures answers { OnOk result
        (AppendsAnswers input.now output.old.items output.new.items) }
    ensures only { OnOk result ((other : List ℕ)
        → Answers input.now other → output.new.items ≡ output.old.items ++ other) }
{
    for line in Lines::new(input) {
        append_answer(alloc, line, output)?;
        output.push(b'\n')?;
    }
    Ok(())
}

// Appends the answer to a line.
#[inline(always)]
fn append_answer<A: Allocator>(
    alloc: A,
    line: &[u8],
    output: &mut Vec<u8, A>,
) -> Result<(), AllocError>
    ensures { OnOk result
        (AppendsAnswer line.now output.old.items output.new.items) }
{
    match append_text(alloc, line, output) {
        Ok(()) => Ok(()),
        Err(CommandError::Memory(error)) => Err(error),
        Err(CommandError::Line(error)) => output.extend_from_slice(error.answer()),
    }
}

// Appends the answer to a line, unless it is an error.
#[inline(always)]
fn append_text<A: Allocator>(
    alloc: A,
    line: &[u8],
    output: &mut Vec<u8, A>,
) -> Result<(), CommandError>
    ensures { GivesAnswer (IsAnswer (words_of line.now))
        output.old.items output.new.items result }
{
    let mut words = Words::new(line);
    let name = words.next().ok_or(LineError::UnknownCommand)?;
    Command::named(name)?.answer(alloc, words, output)
}
