//! Whole texts: a document, or one value, and nothing else. (toml.abnf: `toml`, `val`)
ghost use Rattle.std.specs.Prelude.{◌≡◌};
ghost use Rattle.keep_syntax_store.specs.Flat as spec;
ghost use Rattle.keep_syntax.specs.FlatLines as lines_spec;
ghost use Rattle.keep_syntax.specs.Reading.{has_bom};

use crate::fault::ReadFault;
use crate::info::Limits;
use crate::line::lines;
use crate::text::{byte_at, syntax_fault_at};
use crate::value::value;
use keep_syntax_store::{Parts, Starts};
use keep_token::Leaf;
use keep_types::{Owner, Start};
use std::alloc::Global;

/// Whether the text begins with a byte order mark: U+FEFF in UTF-8.
fn has_bom(text: &str) -> bool
    ensures { result ≡ has_bom text.now }
{
    byte_at(text, 0) == 0xEF && byte_at(text, 1) == 0xBB && byte_at(text, 2) == 0xBF
}

/// A byte order mark, if the text begins with one, and where it ends.
fn bom(text: &str, out: &mut Parts) -> Result<usize, ReadFault>
    ensures { lines_spec.BomRead text.now (spec.flat out.old) (spec.flat out.new) result }
{
    if has_bom(text) {
        out.push_token(Leaf::Bom, 0)?;
        Ok(3)
    } else {
        Ok(0)
    }
}

/// The parts of a document, and where its lines begin.
pub fn read_lines(alloc: Global, text: &str, limits: Limits) -> Result<(Parts, Starts), ReadFault>
    ensures { lines_spec.DocumentRead limits.profile limits.depth text.now result }
{
    let mut out = Parts::new(alloc);
    let begin = bom(text, &mut out)?;
    let mut starts = Starts::new(alloc);
    lines(text, begin, limits, &mut out, &mut starts)?;
    Ok((out, starts))
}

/// The parts of one value.
pub fn read_one(alloc: Global, text: &str, limits: Limits) -> Result<Parts, ReadFault>
    ensures { lines_spec.OneRead limits.profile limits.depth text.now result }
{
    let mut out = Parts::new(alloc);
    let start = Start {
        at: 0,
        values: 0,
        parts: 0,
        owner: Owner::Line(0),
        depth: 0,
        comma: None,
    };
    let end = value(text, 0, limits, 0, &start, &mut out)?;
    if end < text.len() {
        return Err(syntax_fault_at(text, end));
    }
    Ok(out)
}
