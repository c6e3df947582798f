//! Writes an answer.
ghost use Rattle.std.specs.Prelude.{◌≡◌, ◌+◌, ◌≤◌, List, ℕ, false, length, IfOk};
ghost use Rattle.keep_syntax.specs.Tree as tree;
ghost use Rattle.keep_edit.specs.Answers.{entries_of};
ghost use Rattle.keep_edit.specs.Reading.{IsAccepted, IsTextOfTree};
ghost use Rattle.keep_commands.specs.Answer.{lines_of};
ghost use Rattle.keep_commands.specs.Counted.{has_failed, inner_of, calls_of, IsFresh};
ghost use Rattle.keep_commands.specs.Written.{AreBytesOf, WritesAll, WritesAfter};

use crate::answer::Answer;
use crate::counted::Counted;
use crate::edited::Edited;
use crate::fault::RunFault;
use crate::lines::Lines;
use crate::run::Done;
use std::alloc::Global;
use std::io::Write;

/// Writes an answer, or a prefix of it.
pub(crate) fn write_answer<W: Write>(
    output: &mut Counted<W>,
    answer: &mut Answer,
) -> Result<Done, RunFault>
    requires { IsFresh output.old }
    ensures writes { (bytes : List ℕ) × AreBytesOf answer.old bytes
        × WritesAll (W.contents (inner_of output.old)) (W.contents (inner_of output.new)) bytes result
        (has_failed output.new) }
    ensures silent { IfOk result (λ done. done.written ≡ 0 → calls_of output.new ≡ 0) }
{
    match answer {
        Answer::Text(text) => write_after(output, 0, text.as_bytes()),
        Answer::Lines(lines) => write_lines(output, lines),
        Answer::Edited(edited) => write_edited(output, edited),
    }
}

/// Writes the lines of all nodes of a document but the root, or a prefix of them, block by block.
fn write_lines<W: Write>(output: &mut Counted<W>, lines: &mut Lines) -> Result<Done, RunFault>
    requires { has_failed output.old ≡ false }
    ensures writes { (s : tree.Document) → IsTextOfTree lines.old.document s
        → WritesAll (W.contents (inner_of output.old)) (W.contents (inner_of output.new)) (lines_of (entries_of s))
        result (has_failed output.new) }
    ensures silent { IfOk result (λ done. done.written ≡ 0 → calls_of output.new ≡ calls_of output.old) }
    ensures accepted { IsAccepted lines.old.document }
{
    let count = lines.count();
    let mut number = 0;
    let mut written = 0;
    while number < count {
        number = lines.fill(number);
        written = write_after(output, written, lines.block().as_bytes())?.written;
    }
    Ok(Done { written })
}

/// Writes the text of a document after an edit, or a prefix of it.
fn write_edited<W: Write>(output: &mut Counted<W>, edited: &Edited) -> Result<Done, RunFault>
    requires { has_failed output.old ≡ false }
    ensures writes { WritesAll (W.contents (inner_of output.old)) (W.contents (inner_of output.new)) edited.now result
        (has_failed output.new) }
    ensures silent { IfOk result (λ done. done.written ≡ 0 → calls_of output.new ≡ calls_of output.old) }
{
    let (before, new, after) = edited.pieces();
    let first = write_after(output, 0, before.as_bytes())?;
    let second = write_after(output, first.written, new.as_bytes())?;
    write_after(output, second.written, after.as_bytes())
}

/// Writes all of the bytes, or a prefix of them, where so many of the answer were written before.
fn write_after<W: Write>(
    output: &mut Counted<W>,
    before: usize,
    bytes: &[u8],
) -> Result<Done, RunFault>
    requires going { has_failed output.old ≡ false }
    requires fits { before + length bytes.now ≤ usize.MAX }
    ensures writes { WritesAfter before (W.contents (inner_of output.old)) (W.contents (inner_of output.new)) bytes.now
        result (has_failed output.new) }
    ensures silent { IfOk result (λ done. done.written ≡ before → calls_of output.new ≡ calls_of output.old) }
{
    let mut at = 0;
    while at < bytes.len() {
        match output.write(&bytes[at..]) {
            Ok(0) => {
                return Err(RunFault::Write {
                    written: before + at,
                });
            }
            Ok(count) => at += count,
            Err(_) => {
                return Err(RunFault::Write {
                    written: before + at,
                });
            }
        }
    }
    Ok(Done {
        written: before + at,
    })
}
