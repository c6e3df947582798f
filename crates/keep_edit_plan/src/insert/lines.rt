//! Lines that are put in: after which line, and with what around the keyval.
ghost use Rattle.std.specs.Prelude.{◌≡◌, ◌++◌, ◌∷◌, ◌≤◌, ◌<◌, ℕ, List, Some, false, length, take, drop, OnOk};
ghost use Rattle.std.specs.Prelude.{string_bytes};
ghost use Rattle.std.specs.List.{list_any};
ghost use Rattle.keep_syntax.specs.Numbered as numbered;
ghost use Rattle.keep_syntax.specs.Tree as tree;
ghost use Rattle.keep_edit_spec.specs.Insertion as insertion;
ghost use Rattle.keep_edit_spec.specs.Look.{is_index, keys_in};
ghost use Rattle.keep_edit_plan.specs.Inserting.{lines_start, new_line_at};
ghost use Rattle.keep_edit_plan.specs.PutLines.{body_end_of, keyval_end_of, new_section_at};
ghost use Rattle.keep_edit_plan.specs.Reading.{IsAccepted, IsTextOfTree, IsTextOfValue};

use crate::document::DocumentRef;
use crate::insert::keys::{push_keyed, push_keys};
use crate::remove::{body_end, section_end};
use keep_rules::{Path, ValueText};
use keep_syntax::Owner;
use std::alloc::AllocError;

impl<'a> DocumentRef<'a> {
    /// Where the body ends, as a byte offset, of the header with this statement number, or of the root: at the end of
    /// the line of its last keyval, else of the header's line, else where the first line begins.
    pub(crate) fn body_end(&self, header: Option<usize>) -> usize
        requires { (s : tree.Document) × IsTextOfTree self.now s
            × ((h : ℕ) → header ≡ Some h → h < length (numbered.statements s)) }
        ensures { (s : tree.Document) → IsTextOfTree self.now s → result ≡ body_end_of s header }
    {
        match header {
            Some(number) => section_end(self.syntax, number),
            None => body_end(self.syntax, 0, self.lines_start()),
        }
    }

    /// Where the line ends, as a byte offset, of the keyval on a line with this value number.
    pub(crate) fn keyval_end(&self, value: usize) -> usize
        requires { (s : tree.Document) × IsTextOfTree self.now s × ((at : ℕ) × (keyval_end_of s value ≡ Some at)) }
        ensures { (s : tree.Document) → IsTextOfTree self.now s → keyval_end_of s value ≡ Some result }
    {
        match self.syntax.value(value).owner {
            Owner::Line(number) => self.syntax.statement(number).line.end,
            _ => unreachable!(),
        }
    }

    /// Adds a line with a keyval, to be put in at a byte offset at which a line ends: a newline comes first if that
    /// line has none. The steps of the path from number `from` on are the keys. The only error is out of memory.
    pub(crate) fn push_line(
        &self,
        out: &mut String,
        at: usize,
        path: &Path,
        from: usize,
        value: &ValueText,
    ) -> Result<(), AllocError>
        requires accepted { IsAccepted self.now }
        requires within { at ≤ length self.now.text }
        requires keys { list_any is_index (drop from path.now) ≡ false }
        ensures { (s : tree.Document) → IsTextOfTree self.now s → (v : tree.Value) → IsTextOfValue value.now v
            → OnOk result (string_bytes out.new ≡ string_bytes out.old
            ++ (new_line_at s at (keys_in (drop from path.now)) v).new) }
    {
        let newline = self.newline();
        self.push_missing(out, at, newline)?;
        push_keyed(out, path, from, value)?;
        out.push_str(newline)?;
        Ok(())
    }

    /// Adds an empty line, a header and a line with a keyval, to be put in at a byte offset at which a line ends: a
    /// newline comes first if that line has none. The keys before step number `from` of the path are the header's,
    /// those after it the keyval's. The only error is out of memory.
    pub(crate) fn push_section(
        &self,
        out: &mut String,
        at: usize,
        path: &Path,
        from: usize,
        value: &ValueText,
    ) -> Result<(), AllocError>
        requires accepted { IsAccepted self.now }
        requires within { at ≤ length self.now.text }
        requires table { (k : List ℕ) × (ks : List (List ℕ)) × (keys_in (take from path.now) ≡ k ∷ ks) }
        requires keys { list_any is_index (drop from path.now) ≡ false }
        ensures { (s : tree.Document) → IsTextOfTree self.now s → (v : tree.Value) → IsTextOfValue value.now v
            → OnOk result (string_bytes out.new ≡ string_bytes out.old
            ++ (new_section_at s at (keys_in (take from path.now)) (keys_in (drop from path.now)) v).new) }
    {
        let newline = self.newline();
        self.push_missing(out, at, newline)?;
        out.push_str(newline)?;
        out.push_str("[")?;
        push_keys(out, path, 0, from)?;
        out.push_str("]")?;
        out.push_str(newline)?;
        push_keyed(out, path, from, value)?;
        out.push_str(newline)?;
        Ok(())
    }

    /// Adds the newline that the line lacks, if it has bytes, that ends at a byte offset.
    fn push_missing(&self, out: &mut String, at: usize, newline: &str) -> Result<(), AllocError>
        requires accepted { IsAccepted self.now }
        requires within { at ≤ length self.now.text }
        ensures { (s : tree.Document) → IsTextOfTree self.now s
            → OnOk result (string_bytes out.new ≡ string_bytes out.old
            ++ insertion.missing_newline self.now.text newline.now (lines_start s) at) }
    {
        if self.is_open(at) {
            out.push_str(newline)?;
        }
        Ok(())
    }

    /// Whether the text up to a byte offset ends in the midst of a line that has bytes.
    pub(crate) fn is_open(&self, at: usize) -> bool
        requires accepted { IsAccepted self.now }
        requires within { at ≤ length self.now.text }
        ensures { (s : tree.Document) → IsTextOfTree self.now s
            → result ≡ insertion.is_open (drop (lines_start s) (take at self.now.text)) }
    {
        at > self.lines_start() && self.text.as_bytes()[at - 1] != b'\n'
    }

    /// The byte offset at which the first line begins: after a byte order mark.
    pub(crate) fn lines_start(&self) -> usize
        requires { IsAccepted self.now }
        ensures { (s : tree.Document) → IsTextOfTree self.now s → result ≡ lines_start s }
    {
        if self.text.as_bytes().starts_with(b"\xEF\xBB\xBF") {
            3
        } else {
            0
        }
    }
}
