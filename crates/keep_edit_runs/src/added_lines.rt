//! The lines that edits of a list add which are made at once, and the headers that they append: which lines come at a
//! byte, and the tables whose headers come.
//!
//! Of lines that come at one byte those of a table that dotted keys make come first, then those that end a body, then
//! one with a header, and lines of the header's table behind it; and all come before headers that are appended at the
//! end of the text. A line that comes later than others there comes behind those of its kind and before the next kind.
//! Of tables that dotted keys make lines of those with more steps come first; each is on the way to the longest there.
//! Two headers don't come to one byte. A header that is appended is none of a table whose header came with a line, and
//! goes through no table whose header comes later.
ghost use Rattle.std.specs.Prelude.{◌≡◌, ℕ, [], IfSome, IsTrue, List, None, false, length};
ghost use Rattle.keep_edit_plan.specs.Headers.{key_texts};
ghost use Rattle.keep_edit_plan.specs.TextEdits.{change_of};
ghost use Rattle.keep_edit_runs.specs.AddedLines.{IsAppendedKept, IsCountBehind, IsCounted, IsEndKept, IsHeaderKept};
ghost use Rattle.keep_edit_runs.specs.AddedLines.{IsHeaderLast, IsKnownAt, IsTableBelow, IsTableKept, PassesHeaderAt};
ghost use Rattle.keep_edit_runs.specs.AddedLines.{brought_at, table_by};
ghost use Rattle.keep_edit_runs.specs.Counts.{shorter_at};
ghost use Rattle.keep_edit_runs.specs.Runs.{IsKeptAhead, IsKeptBehind, IsLineKept, IsOfBrought, outlined};
ghost use Rattle.keep_edit_runs.specs.SeenHeaders.{HasAppended};
ghost use Rattle.keep_path.specs.Path.{Part};
ghost use Rattle.keep_edit_spec.specs.InsertKinds.{Added};

use crate::alike::is_same;
use crate::at_once::{AtOnce, RunEdit};
use crate::counts::Counts;
use crate::dotted_tables::DottedTables;
use crate::outline::{Outline, Steps};
use crate::seen::number_of;
use crate::seen_headers::SeenHeaders;
use keep_edit_spec::LineKind;
use std::alloc::Global;
use std::collections::{HashMap, HashSet};

/// The lines that edits add, and the headers that they append.
#[derive(Drop)]
pub struct AddedLines<'a> {
    /// The tables of lines that dotted keys make.
    dotted: DottedTables<'a>,
    /// How many lines at a byte end a body.
    ends: Counts,
    /// The table whose header comes at a byte, with its line, behind the lines there.
    brought: HashMap<usize, Steps<'a>>,
    /// How many lines come at a byte with such a header and behind it.
    headed: Counts,
    /// Whether a line comes behind such a header's.
    has_follower: bool,
    /// The tables whose headers come, each by a number that stands for its path.
    tables: HashSet<u64>,
    headers: SeenHeaders,
    /// How many headers are appended.
    appended: usize,
}

impl<'a> AddedLines<'a> {
    /// No lines and no headers yet. It takes no memory.
    pub fn new(alloc: Global) -> AddedLines<'a>
        ensures lines { (line : Added) → ¬ IsKnownAt result line }
        ensures brought { (at : ℕ) → brought_at result at ≡ None }
        ensures counts { IsCounted result [] [] }
        ensures followed { result.has_follower ≡ false }
        ensures headers { (path : List Part) → ¬ HasAppended result.headers path }
    {
        AddedLines {
            dotted: DottedTables::new(alloc),
            ends: Counts::new(alloc),
            brought: HashMap::new(alloc),
            headed: Counts::new(alloc),
            has_follower: false,
            tables: HashSet::new(alloc),
            headers: SeenHeaders::new(alloc),
            appended: 0,
        }
    }

    /// Keeps the line that an edit adds, after these edits and behind all at its byte, or the header that it appends.
    /// Returns whether it is kept: not a line that is not known to come after those at its byte; nor one that does not
    /// end a body, if the edits take the byte before it; nor one with a header, if an appended header is of its table
    /// or goes through that; nor an appended header of the table of a line with one; nor any where memory was refused.
    pub fn keep_line(&mut self, so_far: &AtOnce, outline: &Outline<'a>, edit: &RunEdit) -> bool
        ensures { IsTrue result → IsLineKept self.old so_far.now.changes outline.now (change_of edit.now.change).at
            edit.now.line self.new }
    {
        let at = edit.change.place.start;
        match (outline, edit.line) {
            (Outline::Insert(_), Some(LineKind::LastInBody)) => self.keep_end(at),
            (Outline::Insert(first), Some(LineKind::OfDotted)) => {
                !so_far.changes.take_up_to(at) && self.keep_table(at, first.parent())
            }
            (Outline::Insert(first), Some(LineKind::WithHeader)) => {
                !so_far.changes.take_up_to(at) && self.keep_header(at, first.parent())
            }
            (Outline::Table(keys) | Outline::Element(keys), _) => self.keep_appended(keys),
            _ => true,
        }
    }

    /// Keeps the line that an edit adds where lines and headers come that have to come behind it, after these edits, so
    /// that it comes before them. Returns whether it is kept: not if the edits take the byte before it; nor where a
    /// header appended among them is of the table of a header that comes there with a line, or goes through it, unless
    /// all come at the end of the text; nor one of a table that dotted keys make which is neither the longest of lines
    /// there, nor on the way to that, nor below it; nor one with a header, by the same as in `keep_line`; nor any where
    /// memory was refused.
    pub fn keep_ahead(
        &mut self,
        so_far: &AtOnce,
        outline: &Outline<'a>,
        edit: &RunEdit,
        is_at_end: bool,
    ) -> bool
        ensures { IsTrue result → IsKeptAhead self.old so_far.now.changes outline.now (change_of edit.now.change).at
            edit.now.line is_at_end self.new }
    {
        let at = edit.change.place.start;
        if so_far.changes.take_up_to(at) || !(is_at_end || self.passes_header_at(at)) {
            return false;
        }
        match (outline, edit.line) {
            (Outline::Insert(_), Some(LineKind::LastInBody)) => self.ends.add(at),
            (Outline::Insert(first), Some(LineKind::OfDotted)) => {
                self.dotted.add(at, first.parent())
            }
            (Outline::Insert(first), Some(LineKind::WithHeader)) => {
                self.keep_header(at, first.parent())
            }
            _ => false,
        }
    }

    /// Whether an appended header may be of a table or go through it; if not, none is or does.
    pub fn has_header_through(&self, table: &Steps) -> bool
        ensures { result ≡ false → ¬ HasAppended self.now.headers table.now }
    {
        self.headers.has_appended_table(table)
    }

    /// Keeps the keys of a header that comes at the end of the text, behind all others. Returns whether they are kept:
    /// not those of a table whose header comes with a line, nor any where memory was refused.
    pub fn keep_last(&mut self, header: &[String]) -> bool
        ensures { IsTrue result → IsHeaderLast self.old (key_texts header.now) self.new }
    {
        self.headers.append_later(header)
    }

    /// Keeps the keys of a table whose header comes with a line below one that was appended, and would come at this
    /// byte without that. Returns whether they are kept: not where a header comes at the byte, or that of the table
    /// comes elsewhere, nor where memory was refused.
    pub fn keep_below(&mut self, at: usize, table: &Steps) -> bool
        ensures { IsTrue result → IsTableBelow self.old at table.now self.new }
    {
        !self.has_header_at(at)
            && !self.tables.contains(&number_of(table))
            && self.headers.bring_below(table)
    }

    /// Keeps that a line comes behind a header's, of whose table it is, after these edits. Returns whether it is kept:
    /// not where no such header comes, or the edits take the byte before it, nor where memory was refused.
    pub fn keep_behind(&mut self, so_far: &AtOnce, outline: &Outline<'a>, at: usize) -> bool
        ensures { IsTrue result → IsKeptBehind self.old so_far.now.changes outline.now at self.new }
    {
        if !self.brings_table(outline, at) || so_far.changes.take_up_to(at) {
            return false;
        }
        self.has_follower = true;
        self.headed.add(at)
    }

    /// Whether an insert is of a new key of the table whose header comes at a byte.
    pub fn brings_table(&self, outline: &Outline<'a>, at: usize) -> bool
        ensures { IsTrue result → IsOfBrought self.now outline.now at }
    {
        match (outline, self.brought.get(&at)) {
            (Outline::Insert(first), Some(table)) => is_same(table, &first.parent()),
            _ => false,
        }
    }

    /// Whether no line comes behind a header's.
    pub fn has_no_follower(&self) -> bool
        ensures { IsTrue result → self.now.has_follower ≡ false }
    {
        !self.has_follower
    }

    /// Whether headers are appended.
    pub fn has_appended(&self) -> bool
        ensures { result ≡ false → self.now.appended ≡ 0 }
    {
        self.appended > 0
    }

    /// How many lines and headers have to come behind the line that an edit adds, at its byte; 0 if it adds none. None
    /// where they are too many to be counted.
    pub fn count_behind(
        &self,
        outline: &Outline<'a>,
        edit: &RunEdit,
        is_at_end: bool,
    ) -> Option<usize>
        ensures { IfSome result (IsCountBehind self.now (table_by (outlined outline.now)) edit.now.line
            (change_of edit.now.change).at is_at_end) }
    {
        let at = edit.change.place.start;
        let lines = match edit.line {
            Some(LineKind::OfDotted) => self
                .count_above(outline, at)?
                .checked_add(self.ends.at(at))?
                .checked_add(self.headed.at(at))?,
            Some(LineKind::LastInBody) => self.headed.at(at),
            Some(LineKind::WithHeader) => 0,
            None => return Some(0),
        };
        lines.checked_add(if is_at_end { self.appended } else { 0 })
    }

    /// How many lines at a byte are of tables with fewer steps than that into which an insert adds a line.
    fn count_above(&self, outline: &Outline<'a>, at: usize) -> Option<usize>
        ensures { IfSome result (λ count. count ≡ shorter_at self.now.dotted.lengths
            (length (table_by (outlined outline.now))) at) }
    {
        match outline {
            Outline::Insert(first) => self.dotted.count_shorter(at, &first.parent()),
            _ => None,
        }
    }

    /// Whether no header comes with a line at a byte, or no header that is appended among these edits is of its table
    /// or goes through that.
    fn passes_header_at(&self, at: usize) -> bool
        ensures { IsTrue result → PassesHeaderAt self.now at }
    {
        if !self.has_appended() {
            return true;
        }
        match self.brought.get(&at) {
            Some(table) => !self.headers.has_appended_table(table),
            None => true,
        }
    }

    /// Keeps the keys of an appended header. Returns whether they are kept: not those of a table whose header came with
    /// a line, nor any where memory was refused.
    fn keep_appended(&mut self, keys: &[String]) -> bool
        ensures { IsTrue result → IsAppendedKept self.old (key_texts keys.now) self.new }
    {
        let Some(appended) = self.appended.checked_add(1) else {
            return false;
        };
        self.appended = appended;
        self.headers.append_later(keys)
    }

    /// Keeps that a line at a byte ends a body. Returns whether it is kept: it is not behind a header, nor where memory
    /// was refused.
    fn keep_end(&mut self, at: usize) -> bool
        ensures { IsTrue result → IsEndKept self.old at self.new }
    {
        !self.has_header_at(at) && self.ends.add(at)
    }

    /// Keeps a line of a table that dotted keys make, behind all at a byte. Returns whether it is kept: it is not where
    /// there are lines of tables with fewer steps, or of any that is neither on the way to its own nor below it, or
    /// lines that end a body, or a header, nor where memory was refused.
    fn keep_table(&mut self, at: usize, table: Steps<'a>) -> bool
        ensures { IsTrue result → IsTableKept self.old at table.entry self.new }
    {
        let is_last = matches!(self.dotted.count_shorter(at, &table), Some(0));
        is_last && !self.has_header_at(at) && self.ends.at(at) == 0 && self.dotted.add(at, table)
    }

    /// Keeps that the header of a table comes at a byte. Returns whether it is kept: a second one there, or of that
    /// table, is not, nor one whose table an appended header is of or goes through, nor any where memory was refused.
    fn keep_header(&mut self, at: usize, table: Steps<'a>) -> bool
        ensures { IsTrue result → IsHeaderKept self.old at table.entry self.new }
    {
        let number = number_of(&table);
        if self.has_header_at(at) || self.tables.contains(&number) {
            return false;
        }
        if !self.headers.bring(&table) || self.brought.insert(at, table).is_err() {
            return false;
        }
        self.tables.insert(number).is_ok() && self.headed.add(at)
    }

    /// Whether a line with a header comes at a byte.
    fn has_header_at(&self, at: usize) -> bool
        ensures { result ≡ false → brought_at self.now at ≡ None }
    {
        self.brought.contains_key(&at)
    }
}
