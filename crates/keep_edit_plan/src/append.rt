//! Appending headers.
ghost use Rattle.std.specs.Prelude.{◌≡◌, ◌+◌, ◌^◌, ◌<◌, ◌++◌, [], IfOk, OnOk, length, string_bytes};
ghost use Rattle.keep_syntax.specs.Tree as tree;
ghost use Rattle.keep_edit_spec.specs.TextEnds as text_ends;
ghost use Rattle.keep_edit_plan.specs.Headers.{edit_of, key_texts, keys_text, header_text, opening, closing};
ghost use Rattle.keep_edit_plan.specs.Plans.{EditPlanned, IsPlanOf};
ghost use Rattle.keep_edit_plan.specs.Reading.{IsAccepted, IsTextOfTree};

use crate::document::DocumentRef;
use crate::header::{Header, check_header};
use crate::plan::{IndexChange, Plan};
use crate::text_edit::TextEdit;
use keep_edit_spec::EditFault;
use keep_syntax::Span;
use keep_token::push_key;
use std::alloc::{AllocError, Global};

/// Room for a header with its newlines, in bytes. Most headers need less, so that they are written into one allocation.
pub(crate) const HEADER_ROOM: usize = 64;

impl<'a> DocumentRef<'a> {
    /// The plan by which a header comes at the end of the text.
    ///
    /// # Errors
    ///
    /// The refusal of the edit, whatever memory there is; else `Memory` if memory was refused.
    pub fn append_plan<'p>(
        &self,
        alloc: Global,
        keys: &'p [String],
        header: Header,
    ) -> Result<Plan<'p>, EditFault>
        ensures planned { (s : tree.Document) → IsTextOfTree self.now s
            → EditPlanned s (edit_of header (key_texts keys.now)) self.now result }
        ensures of_edit { IfOk result (IsPlanOf self.now) }
        ensures of { IsAccepted self.now }
    {
        let text = self.text;
        if keys.is_empty() {
            return Err(EditFault::NotKey);
        }
        if let Err(why) = check_header(self.index, keys, header) {
            return Err(EditFault::Conflict { why });
        }
        let Ok(new) = header_at_end(alloc, text, self.newline(), keys, header) else {
            return Err(EditFault::Memory);
        };
        let end = text.len();
        let place = Span { start: end, end };
        Ok(Plan {
            text_edit: TextEdit { place, new },
            index_change: Some(IndexChange::AppendedHeader {
                header,
                keys,
                statement: self.syntax.statement_count(),
                key: self.syntax.key_count(),
            }),
        })
    }
}

/// What is written for a header at the end of a text: a blank line, unless it is the first line, and the header's own
/// line. A machine word counts the bytes of both texts.
fn header_at_end(
    alloc: Global,
    text: &str,
    newline: &str,
    keys: &[String],
    header: Header,
) -> Result<String, AllocError>
    ensures written { IfOk result (λ out. string_bytes out
        ≡ text_ends.header_at_end text.now newline.now (header_text header (key_texts keys.now))) }
    ensures counted { IfOk result (λ out. length text.now + length (string_bytes out) < 2 ^ 64) }
{
    let mut out = String::with_capacity(alloc, HEADER_ROOM)?;
    push_blank_line(&mut out, text, newline)?;
    push_header(&mut out, keys, header)?;
    out.push_str(newline)?;
    Ok(out)
}

/// Adds what ends the last line of a text, if it has no newline, and leaves a line blank.
fn push_blank_line(out: &mut String, text: &str, newline: &str) -> Result<(), AllocError>
    ensures { OnOk result (string_bytes out.new ≡ string_bytes out.old ++ text_ends.blank_line text.now newline.now) }
{
    if is_bare_start(text) {
        return Ok(());
    }
    if !ends_in_newline(text) {
        out.push_str(newline)?;
    }
    out.push_str(newline)
}

/// Adds a header as it is written.
fn push_header(out: &mut String, keys: &[String], header: Header) -> Result<(), AllocError>
    ensures { OnOk result (string_bytes out.new ≡ string_bytes out.old ++ header_text header (key_texts keys.now)) }
{
    out.push_str(header.opening())?;
    push_keys(out, keys)?;
    out.push_str(header.closing())
}

/// Adds keys with dots between them.
fn push_keys(out: &mut String, keys: &[String]) -> Result<(), AllocError>
    ensures { OnOk result (string_bytes out.new ≡ string_bytes out.old ++ keys_text (key_texts keys.now)) }
{
    let Some((first, further)) = keys.split_first() else {
        return Ok(());
    };
    push_key(out, first.as_str())?;
    for name in further {
        out.push_str(".")?;
        push_key(out, name.as_str())?;
    }
    Ok(())
}

/// Whether a text is empty but for a byte order mark.
fn is_bare_start(text: &str) -> bool
    ensures { result ≡ text_ends.is_bare_start text.now }
{
    matches!(text.as_bytes(), [] | [0xEF, 0xBB, 0xBF])
}

/// Whether a text ends in a line feed, as each newline does, and no line without one.
pub(crate) fn ends_in_newline(text: &str) -> bool
    ensures { result ≡ text_ends.ends_in_newline text.now }
{
    match text.as_bytes().last() {
        Some(last) => *last == b'\n',
        None => false,
    }
}
