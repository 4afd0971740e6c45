//! A run: answers each line once it is read, and writes the answers when the input ends.

ghost use Rattle.std.specs.Prelude.{◌≡◌, ◌++◌, Ok, Err, None, true, false, IfOk, IfErr, OnOk};
ghost use Rattle.std.specs.Prelude.{OnErr, IfSome};
ghost use Rattle.std.specs.Io.KnownBytes.{Appends, Keeps};
ghost use Rattle.font_lines.specs.declared.serve.ServeFault.{ServeFault};
ghost use Rattle.font_lines.specs.Serve.{Serves, ServesInPart, AnswersAll, WritesInPart, ReadFails};
ghost use Rattle.font_lines.specs.Serve.{AnswersEnded, HasNoEnd, IsLastEnd};

use crate::answers::append_answers;
use crate::device::{Sink, Source};
use std::alloc::{AllocError, Allocator};
use thiserror::Error;

/// Why a run failed.
#[derive(Debug, Drop, Error)]
pub enum ServeFault {
    /// Out of memory for a line or for the answers.
    #[error("memory")]
    Memory = 1,
    /// A read failed.
    #[error("read")]
    Read = 2,
    /// A write failed.
    #[error("write")]
    Write = 3,
}

impl From<AllocError> for ServeFault {
    ghost from_gives = { λ _ fault. fault ≡ ServeFault.Memory };

    fn from(_error: AllocError) -> ServeFault {
        ServeFault::Memory
    }
}

// The size of a read.
const READ_SIZE: usize = 16384;

/// Reads a source to its end, and writes the answers to its lines to a sink.
///
/// Nothing is written before all answers are made, and nothing that failed is tried again. If the
/// bytes of the source are not known, the clauses only say that the answers are those to some
/// input.
pub fn serve<A: Allocator + Copy, S: Source, K: Sink>(
    alloc: A,
    source: &mut S,
    sink: &mut K,
) -> Result<(), ServeFault>
    requires source_works { S.failed source.old ≡ false }
    requires sink_works { K.failed sink.old ≡ false }

    // Everything was read and written, and nothing has failed.
    ensures ok { OnOk result (Serves
        (S.left source.old) (S.left source.new) (K.taken sink.old) (K.taken sink.new)) }
    ensures ok_works { OnOk result ((S.failed source.new ≡ false) × (K.failed sink.new ≡ false)) }

    // If an allocation or a read fails, nothing was written.
    ensures memory { result ≡ Err ServeFault.Memory → Keeps (K.taken sink.old) (K.taken sink.new) }
    ensures memory_works { result ≡ Err ServeFault.Memory
        → (S.failed source.new ≡ false) × (K.failed sink.new ≡ false) }
    ensures read { result ≡ Err ServeFault.Read → Keeps (K.taken sink.old) (K.taken sink.new) }
    ensures read_failed { result ≡ Err ServeFault.Read
        → (S.failed source.new ≡ true) × (K.failed sink.new ≡ false) }

    // If a write fails, a beginning of the answers was written, and not all.
    ensures write { result ≡ Err ServeFault.Write
        → ServesInPart
        (S.left source.old) (S.left source.new) (K.taken sink.old) (K.taken sink.new) }
    ensures write_failed { result ≡ Err ServeFault.Write
        → (S.failed source.new ≡ false) × (K.failed sink.new ≡ true) }
{
    let output = answer_all(alloc, source)?;
    write_all(sink, &output)
}

// Reads a source to its end, and returns the answers to its lines. Of what it has read, it keeps
// one block and the line that has begun.
#[tactic(auto, using(crate::proofs::InTurn::steps_of_blocks))]
fn answer_all<A: Allocator + Copy, S: Source>(
    alloc: A,
    source: &mut S,
) -> Result<Vec<u8, A>, ServeFault>
    requires { S.failed source.old ≡ false }
    ensures ok { IfOk result (λ output.
        AnswersAll (S.left source.old) (S.left source.new) output.items) }
    ensures ok_works { OnOk result (S.failed source.new ≡ false) }
    ensures err { IfErr result (λ fault. ReadFails fault (S.failed source.new)) }
{
    let mut output = Vec::new(alloc);
    let mut begun = Vec::new(alloc);
    let mut block = [0; READ_SIZE];
    loop {
        let Ok(count) = source.read(&mut block) else {
            return Err(ServeFault::Read);
        };
        if count == 0 {
            append_answers(alloc, &begun, &mut output)?;
            return Ok(output);
        }
        append_ended(alloc, &block[..count], &mut begun, &mut output)?;
    }
}

// Appends the answers to the lines that end in a block, and keeps the line that has begun and not
// ended.
#[tactic(auto, using(crate::proofs::InTurn::steps_of_one_block))]
fn append_ended<A: Allocator + Copy>(
    alloc: A,
    block: &[u8],
    begun: &mut Vec<u8, A>,
    output: &mut Vec<u8, A>,
) -> Result<(), AllocError>
    requires begun { HasNoEnd begun.old.items }
    ensures { OnOk result (AnswersEnded (begun.old.items ++ block.now) begun.new.items
        output.old.items output.new.items) }
{
    let Some(last) = last_line_feed_at(block) else {
        return begun.extend_from_slice(block);
    };
    let (ended, rest) = block.split_at(last + 1);
    begun.extend_from_slice(ended)?;
    append_answers(alloc, begun, output)?;
    begun.clear();
    begun.extend_from_slice(rest)
}

// Returns the index of the last line feed.
fn last_line_feed_at(bytes: &[u8]) -> Option<usize>
    ensures some { IfSome result (IsLastEnd bytes.now) }
    ensures none { result ≡ None → HasNoEnd bytes.now }
{
    // In a block of a long line, std searches many bytes at a time.
    let line_feed = b'\n';
    if !bytes.contains(&line_feed) {
        return None;
    }
    bytes.iter().rposition(|byte| *byte == b'\n')
}

// Writes all bytes.
#[tactic(auto, using(crate::proofs::Writes::written_more))]
fn write_all<K: Sink>(sink: &mut K, bytes: &[u8]) -> Result<(), ServeFault>
    requires { K.failed sink.old ≡ false }
    ensures ok { OnOk result (Appends (K.taken sink.old) (K.taken sink.new) bytes.now) }
    ensures ok_works { OnOk result (K.failed sink.new ≡ false) }
    ensures err { IfErr result (λ fault. fault ≡ ServeFault.Write) }
    ensures err_failed { OnErr result (K.failed sink.new ≡ true) }
    ensures part { OnErr result (WritesInPart (K.taken sink.old) (K.taken sink.new) bytes.now) }
{
    let mut rest = bytes;
    while !rest.is_empty() {
        let Ok(count) = sink.write(rest) else {
            return Err(ServeFault::Write);
        };
        rest = &rest[count..];
    }
    Ok(())
}
