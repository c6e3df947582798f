//! Reading lines that are put in the place of others.
ghost use Rattle.std.specs.Prelude.{IfOk};
ghost use Rattle.keep_syntax.specs.NewLines.{AreNewLines};

use crate::fault::ReadFault;
use crate::info::Limits;
use crate::whole::read_lines;
use keep_syntax_store::{Parts, Starts, moved, replaced_starts};
use keep_types::Span;
use std::alloc::Global;

/// Lines that are put in the place of others, and what the text has then.
#[derive(Drop)]
pub struct NewLines {
    /// What was read of them.
    pub parts: Parts,
    /// How many bytes they have.
    pub size: usize,
    /// Where they end in the text.
    pub end: usize,
    /// Where each line of the text begins.
    pub starts: Starts,
    /// How many bytes the text has.
    pub len: usize,
}

/// Reads lines that are to be put in the place of whole lines, in a text of `len` bytes in which lines begin at
/// `starts`. A number that no machine word holds is answered as out of memory: a text that memory holds has none.
pub fn new_lines(
    alloc: Global,
    starts: &Starts,
    len: usize,
    whole: Span,
    lines: &str,
    limits: Limits,
) -> Result<NewLines, ReadFault>
    ensures { IfOk result (AreNewLines limits.profile limits.depth lines.now starts.now len whole) }
{
    let (parts, begins) = read_lines(alloc, lines, limits)?;
    let size = lines.len();
    let Some(end) = whole.start.checked_add(size) else {
        return Err(ReadFault::Memory);
    };
    let Some(new_len) = moved(len, whole.end, end) else {
        return Err(ReadFault::Memory);
    };
    let starts = replaced_starts(alloc, starts, whole, len, &begins, size, end)?;
    Ok(NewLines {
        parts,
        size,
        end,
        starts,
        len: new_len,
    })
}
