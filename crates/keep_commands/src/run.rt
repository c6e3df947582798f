//! Reads the input to its end, and writes the answer.
ghost use Rattle.std.specs.Prelude.{◌≡◌, ◌+◌, ◌≤◌, ◌<◌, ◌⊎◌, ◌↔◌, false, true, length, IfErr, IfOk, MatchResult};
ghost use Rattle.std.specs.Prelude.{IsErrAnd, IsErrOf};
ghost use Rattle.std.specs.Io.KnownBytes.{prepend_known};
ghost use Rattle.keep_commands.specs.Counted.{IsFresh, has_failed, inner_of, calls_of};
ghost use Rattle.keep_commands.specs.Answer.{IsProfileFault};
ghost use Rattle.keep_commands.specs.OwnValues.{HasOwnValues};
ghost use Rattle.keep_commands.specs.Run.{HasWritten, IsWithinLimit, LosesAtMost, ReadsAll, ReadsUpTo, StopsRun};
ghost use Rattle.keep_commands.specs.Run.{is_write};

use crate::answer::answer_to;
use crate::command::Command;
use crate::counted::Counted;
use crate::fault::RunFault;
use crate::write::write_answer;
use std::alloc::Global;
use std::io::{Read, Write};
use std::mem;

// The most bytes that the first calls ask for. Few inputs are longer.
const FIRST_BLOCK: usize = 8_192;

// The most bytes that a later call asks for.
const BLOCK: usize = 65_536;

/// The length in bytes of the longest input that is accepted. The definitions cite it too.
pub const LONGEST_INPUT: usize = 16_777_216;

/// What a run did.
#[derive(Debug, Drop)]
pub struct Done {
    /// The length of the answer in bytes.
    pub written: usize,
}

/// Reads all of the input, decides, and then writes the answer to the command.
///
/// The input is asked for at most `LONGEST_INPUT` and one bytes, in at most so many calls. A reader that answers more
/// than it was given room for, or a writer that takes more than it was given, can't be: the traits' own contracts
/// refuse it. An answer of no bytes makes no write.
///
/// # Errors
///
/// `Read` exactly where the input failed, with an error of any kind; `TooLong` where it is longer than `LONGEST_INPUT`:
/// all below, and `Ok`, is about an input that is no longer. `Document` and `Edit` where that is the answer; `Write`
/// exactly where the output failed or took nothing, with the bytes that it took before. `Memory` where a growth was
/// refused, whatever the input. Only `Write` comes after a byte was written. The fault of an edit is never `Profile`
/// where the edits' values are of the profile that the command reads in, as those of `command_of` are.
pub fn run<R: Read, W: Write>(
    alloc: Global,
    command: &Command,
    input: &mut Counted<R>,
    output: &mut Counted<W>,
) -> Result<Done, RunFault>
    requires { IsFresh input.old × IsFresh output.old }
    ensures asked { (calls_of input.new ≤ LONGEST_INPUT + 1)
        × LosesAtMost (LONGEST_INPUT + 1) (R.remaining (inner_of input.old)) (R.remaining (inner_of input.new)) }
    ensures answers { MatchResult result
        (λ done. HasWritten command.now (R.remaining (inner_of input.old)) (W.contents (inner_of output.old))
        (W.contents (inner_of output.new)) done.written)
        (StopsRun command.now (R.remaining (inner_of input.old)) (W.contents (inner_of output.old))
        (W.contents (inner_of output.new))) }
    ensures decided { IfErr result (λ fault. is_write fault ⊎ (calls_of output.new ≡ 0))
        × IfOk result (λ done. done.written ≡ 0 → calls_of output.new ≡ 0) }
    ensures profile { HasOwnValues command.now → IfErr result (λ fault. IsProfileFault fault → ⊥) }
    ensures failed { (IsErrOf result RunFault.Read ↔ (has_failed input.new ≡ true))
        × (IsErrAnd result is_write ↔ (has_failed output.new ≡ true)) }
{
    let bytes = read_all(alloc, input)?;
    let mut answer = answer_to(alloc, command, bytes)?;
    let written = write_answer(output, &mut answer);
    // The program ends with its answer: to take a document apart piece by piece would only cost time.
    mem::forget(answer);
    written
}

// All bytes of the input.
fn read_all<R: Read>(alloc: Global, input: &mut Counted<R>) -> Result<Vec<u8>, RunFault>
    requires { IsFresh input.old }
    ensures reads { ReadsAll (R.remaining (inner_of input.old)) result (has_failed input.new) }
    ensures calls { calls_of input.new ≤ LONGEST_INPUT + 1 }
    ensures taken { LosesAtMost (LONGEST_INPUT + 1) (R.remaining (inner_of input.old))
        (R.remaining (inner_of input.new)) }
{
    let mut buffer = [0u8; FIRST_BLOCK];
    let bytes = read_up_to(FIRST_BLOCK, Vec::new(alloc), &mut buffer, input)?;
    if bytes.len() < FIRST_BLOCK {
        return Ok(bytes);
    }
    read_rest(bytes, input)
}

// The bytes that were read, and then all others of the input. A function of its own, so that a short input does not
// wait until its buffer is zeroed.
#[inline(never)]
fn read_rest<R: Read>(bytes: Vec<u8>, input: &mut Counted<R>) -> Result<Vec<u8>, RunFault>
    requires going { has_failed input.old ≡ false }
    requires calls { calls_of input.old ≤ length bytes.items }
    requires within { IsWithinLimit bytes.items }
    ensures reads { ReadsAll (prepend_known bytes.items (R.remaining (inner_of input.old))) result
        (has_failed input.new) }
    ensures calls { calls_of input.new ≤ LONGEST_INPUT + 1 }
    ensures taken { LosesAtMost (LONGEST_INPUT + 1) (prepend_known bytes.items (R.remaining (inner_of input.old)))
        (R.remaining (inner_of input.new)) }
{
    let mut buffer = [0u8; BLOCK];
    let bytes = read_up_to(LONGEST_INPUT + 1, bytes, &mut buffer, input)?;
    if bytes.len() > LONGEST_INPUT {
        return Err(RunFault::TooLong);
    }
    Ok(bytes)
}

// The bytes that were read, and then those of the input, but no more than so many in all.
fn read_up_to<R: Read>(
    most: usize,
    mut bytes: Vec<u8>,
    buffer: &mut [u8],
    input: &mut Counted<R>,
) -> Result<Vec<u8>, RunFault>
    requires going { has_failed input.old ≡ false }
    requires calls { calls_of input.old ≤ length bytes.items }
    requires within { length bytes.items ≤ most }
    requires holds { 0 < length buffer.old }
    ensures reads { ReadsUpTo most (prepend_known bytes.items (R.remaining (inner_of input.old)))
        (R.remaining (inner_of input.new)) result (has_failed input.new) }
    ensures calls { calls_of input.new ≤ most }
{
    while bytes.len() < most {
        let room = (most - bytes.len()).min(buffer.len());
        let Ok(count) = input.read(&mut buffer[..room]) else {
            return Err(RunFault::Read);
        };
        if count == 0 {
            return Ok(bytes);
        }
        if bytes.extend_from_slice(&buffer[..count]).is_err() {
            return Err(RunFault::Memory);
        }
    }
    Ok(bytes)
}
