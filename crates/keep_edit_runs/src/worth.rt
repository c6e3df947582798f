//! What edits of a list take one by one, beside a reading of the text after all of them. It tells whether they are made
//! at once, and no answer.
ghost use Rattle.std.specs.Prelude.{◌<◌, ◌≤◌, IfSome, length};

use crate::alike::{agree, is_same};
use crate::before::Before;
use crate::filled::key_after_headers;
use crate::filled_tables::is_key_below;
use crate::outline::{SeenAs, Steps};
use crate::runs::MOST_AT_ONCE;
use keep_edit_plan::Edit;
use keep_rules::{Origin, Path, Step};
use keep_syntax::{Owner, STANDARD_DEPTH, Span};

/// What it takes to read a text anew, in parts of it.
const READING: usize = 100_000;
/// Of no more edits it is looked up whether they are too few to be made at once, before that is tried.
const FEW: usize = 32;

/// So many edits of several kinds are often made at once, and one more for each 500 bytes of the text.
const SOON: usize = 70;

/// Whether the keys of a path begin with those of a header, so that it may be of what the header makes.
fn begins_with(path: &Path, keys: &[String]) -> bool {
    let mut next = 0;
    for number in 0..path.len() {
        if next == keys.len() {
            return true;
        }
        if let Some(Step::Key(key)) = path.step(number) {
            if key.as_str() != keys[next].as_str() {
                return false;
            }
            next += 1;
        }
    }
    next == keys.len()
}

/// Whether an edit is of what one that appends a header of these keys makes.
fn is_of_header(edit: &Edit, keys: &[String]) -> bool {
    match edit {
        Edit::Insert(path, _) | Edit::Remove(path) | Edit::Set(path, _) | Edit::Rename(path, _) =>
            begins_with(path, keys),
        Edit::Table(_) | Edit::Element(_) => false,
    }
}

/// How many of these edits come before the first that neither appends a header nor inserts a key into what the last one
/// makes, or all if there is none. None where these are more than `most`.
fn up_to_other(edits: &[Edit], most: usize) -> Option<usize>
    requires { 0 < length edits.now }
    ensures { IfSome result (λ count. (0 < count) × (count ≤ length edits.now)) }
{
    let mut header: Option<&Edit> = None;
    for number in 0..edits.len().min(most) {
        let edit = &edits[number];
        match (edit, header) {
            (Edit::Table(_) | Edit::Element(_), _) => header = Some(edit),
            (_, Some(last)) if is_key_below(edit, last) => {}
            _ => return Some(number.max(1)),
        }
    }
    let count = edits.len();
    if count > most { None } else { Some(count) }
}

/// Whether an edit is there and inserts what is below a table.
fn is_insert_below(edit: Option<&Edit>, table: &Steps) -> bool {
    let Some(Edit::Insert(path, _)) = edit else {
        return false;
    };
    path.len() > table.len() && agree(&Steps::of(path), table, table.len())
}

/// Whether an edit comes back to what the one before it inserted, set, renamed or removed, and does another thing to
/// it.
fn comes_back(before: &Edit, edit: &Edit) -> bool {
    match (before, edit) {
        (Edit::Insert(path, _) | Edit::Set(path, _), Edit::Rename(other, _) | Edit::Remove(other))
        | (Edit::Remove(path), Edit::Insert(other, _)) => is_same(
            &Steps::of(path),
            &Steps::of(other),
        ),
        (Edit::Rename(path, name), Edit::Set(other, _) | Edit::Remove(other)) => is_renamed(
            path,
            name.as_str(),
            other,
        ),
        _ => false,
    }
}

/// Whether a path is another one with this key as the last.
fn is_renamed(path: &Path, name: &str, other: &Path) -> bool {
    let len = path.len();
    if len == 0 || other.len() != len {
        return false;
    }
    let Some(Step::Key(key)) = other.step(len - 1) else {
        return false;
    };
    key.as_str() == name && agree(&Steps::of(path), &Steps::of(other), len - 1)
}

impl Before<'_> {
    /// How many of these edits come before one that ends their row in any case, or all if there is none. Where they
    /// begin with headers and a key of what the last one makes, that is one which neither appends a header nor inserts
    /// such a key. Else it is a header below which a key comes next, with which another row begins; one of what the
    /// last header before it makes, which one of them appends; or one that comes back to what the one before it did.
    /// None where these are many.
    fn up_to_end(&self, edits: &[Edit]) -> Option<usize>
        requires { 0 < length edits.now }
        ensures { IfSome result (λ count. (0 < count) × (count ≤ length edits.now)) }
    {
        if key_after_headers(edits, 0).is_some() {
            return up_to_other(edits, self.looked_at(edits.len()));
        }
        let mut keys: &[String] = &[];
        for number in 0..edits.len().min(FEW) {
            let edit = &edits[number];
            if number > 0
                && (self.is_filled_next(edit, edits.get(number + 1))
                    || self.ends_row(&edits[number - 1], edit, keys))
            {
                return Some(number);
            }
            if let Edit::Table(own) | Edit::Element(own) = edit {
                keys = own.as_slice();
            }
        }
        if edits.len() > FEW {
            return None;
        }
        Some(edits.len())
    }

    /// How many of so many edits are looked at, if they begin with headers and a key: all of them where even they are
    /// not worth a run at the end of the text.
    fn looked_at(&self, count: usize) -> usize {
        if count.saturating_mul(self.part_at_end()) > READING {
            FEW
        } else {
            count
        }
    }

    /// Whether an edit is of what a header of these keys makes, or comes back to what the one before it did. Edits of
    /// entries of a value go on, and so does the rename of the key of a line that was added at the end of a body.
    fn ends_row(&self, before: &Edit, edit: &Edit, keys: &[String]) -> bool {
        if !keys.is_empty() && is_of_header(edit, keys) {
            return true;
        }
        comes_back(before, edit)
            && !matches!(self.seen_as(before), SeenAs::Entry)
            && !self.renames_line(before, edit)
    }

    /// Whether the second of two edits of one path renames the only new key of a line that the first adds at the end of
    /// a body.
    fn renames_line(&self, before: &Edit, edit: &Edit) -> bool {
        let (Edit::Insert(path, _), Edit::Rename(_, _)) = (before, edit) else {
            return false;
        };
        let steps = self.as_ref().reach(path).steps;
        let Some(parent) = self.index.find_first(path, steps) else {
            return false;
        };
        path.len().checked_sub(1) == Some(steps)
            && matches!(
                self.index.node(parent).origin,
                Origin::Root | Origin::Header(_) | Origin::Element(_)
            )
    }

    /// How many of these edits are made one by one in any case: none of them can be made at once with the one after
    /// them, or there is none, and they take less one by one than to read the text anew. None where more may be made at
    /// once.
    pub(crate) fn too_few(&self, edits: &[Edit]) -> Option<usize>
        requires { 0 < length edits.now }
        ensures { IfSome result (λ few. (0 < few) × (few ≤ length edits.now)) }
    {
        if let Some(few) = self.up_to_end(edits) {
            if !self.is_worth_reading(&edits[..few]) {
                return Some(few);
            }
        }
        if self.opens_run(edits) { Some(1) } else { None }
    }

    /// Whether edits take longer one by one than to read the text anew after all of them. It looks at no more of them
    /// than that takes.
    pub(crate) fn is_worth_reading(&self, edits: &[Edit]) -> bool {
        let mut taken = 0usize;
        let mut header: Option<&Edit> = None;
        for edit in edits {
            taken = taken.saturating_add(self.part_of_reading(edit, header));
            if taken > READING {
                return true;
            }
            if let Edit::Table(_) | Edit::Element(_) = edit {
                header = Some(edit);
            }
        }
        false
    }

    /// Whether the first of these edits takes less time alone: it makes a table by its dotted keys, below which a later
    /// one soon inserts more, which would end the run that this one begins. The sooner the later one comes, the less
    /// likely is it that another edit ends the run before it. Where the second edit makes such a table too, there may
    /// be many, so they are not made one by one.
    fn opens_run(&self, edits: &[Edit]) -> bool
        requires { 0 < length edits.now }
    {
        if self.part_of_reading(&edits[0], None) > READING / 10 {
            return false;
        }
        let soon = (SOON + self.text.len() / 500).min(MOST_AT_ONCE);
        self.opens_table(edits, 0, soon) && !(edits.len() > 1 && self.opens_table(edits, 1, soon))
    }

    /// Whether the edit with that number makes a table by its dotted keys, below which one of so many after it inserts
    /// more, and not the next one: those that come next are made at once with it.
    fn opens_table(&self, edits: &[Edit], number: usize, count: usize) -> bool
        requires { number < length edits.now }
    {
        let edit = &edits[number];
        let (Edit::Insert(path, _), SeenAs::FirstKey(first)) = (edit, self.seen_as(edit)) else {
            return false;
        };
        let table = Steps::first(path, first);
        if first >= path.len() || is_insert_below(edits.get(number + 1), &table) {
            return false;
        }
        for later in number + 1..edits.len().min(number.saturating_add(count)) {
            if is_insert_below(edits.get(later), &table) {
                return true;
            }
        }
        false
    }

    /// What it takes to make an edit alone, in parts of what it takes to read the text anew, if the lines that it
    /// changes are short: of sets of a list 23 take as long, of renames or sets of a scalar 27 at 10 KB, 88 at 100 KB
    /// and some 190 from 256 KB on. What a long line takes comes beside that. What comes at the end of the text takes
    /// less: a header, or a key of what `header` makes, the last edit of the list before this one that appends one.
    fn part_of_reading(&self, edit: &Edit, header: Option<&Edit>) -> usize {
        let len = self.text.len();
        match edit {
            Edit::Table(_) | Edit::Element(_) => self.part_at_end(),
            Edit::Insert(_, _) if header.is_some_and(|header| is_key_below(edit, header)) => {
                self.part_at_end()
            }
            Edit::Insert(path, value) => self.part_of_insert(path, value.depth() > 0),
            Edit::Remove(path) => self.part_of_remove(path),
            Edit::Set(path, value) if value.depth() > 0 => self
                .part_of_value(path)
                .saturating_add(READING / 23),
            Edit::Set(path, _) | Edit::Rename(path, _) => self
                .part_of_value(path)
                .saturating_add(READING / (20 + (len / 1500).min(170))),
        }
    }

    /// The same of a line or a header at the end of the text: it moves nothing, so some 100 take as long at 10 KB, 600
    /// at 100 KB, and 1,200 at 300 KB.
    fn part_at_end(&self) -> usize {
        let len = self.text.len();
        READING / (20 + len / 120).min(300 + len / 340)
    }

    /// The same of an insert: two take as long below a table that only other headers go through, and into a table of
    /// dotted keys with a value that `holds` items or pairs, since the index is built anew for them; else 23.
    fn part_of_insert(&self, path: &Path, holds: bool) -> usize {
        let steps = self.as_ref().reach(path).steps;
        let Some(parent) = self.index.find_first(path, steps) else {
            return READING / 2;
        };
        match self.index.node(parent).origin {
            Origin::Value(number) => self.part_of_line(number).saturating_add(READING / 23),
            Origin::Through(_) => READING / 2,
            Origin::Dotted(_) if holds => READING / 2,
            _ => READING / 23,
        }
    }

    /// The same of a remove: two take as long of tables, of elements, and of lines that are the first to make a table
    /// of dotted keys which others make, too, since the index is built anew for them; else 23.
    fn part_of_remove(&self, path: &Path) -> usize {
        match self.origin_of(path) {
            Some(Origin::Header(_) | Origin::Element(_)) => READING / 2,
            Some(Origin::Value(number)) if self.comes_first_in_table(path, number) => self
                .part_of_line(number)
                .saturating_add(READING / 2),
            Some(Origin::Value(number)) => self.part_of_line(number).saturating_add(READING / 23),
            _ => READING / 23,
        }
    }

    /// What it takes to read the line again in which the value at a path is, in parts of what it takes to read the
    /// text.
    fn part_of_value(&self, path: &Path) -> usize {
        match self.origin_of(path) {
            Some(Origin::Value(number)) => self.part_of_line(number),
            _ => 0,
        }
    }

    /// What makes the node at a path; None if there is none.
    pub(crate) fn origin_of(&self, path: &Path) -> Option<Origin> {
        let id = self.index.find(path)?;
        Some(self.index.node(id).origin)
    }

    /// Whether the value at a path has a line of its own, with several keys, of which another line names the first, and
    /// none before it makes the table that the value is in.
    fn comes_first_in_table(&self, path: &Path, number: usize) -> bool {
        if number >= self.syntax.value_count() {
            return false;
        }
        let further = self.syntax.value(number).keys.saturating_sub(1);
        if further == 0 {
            return false;
        }
        match self
            .index
            .find_first(path, path.len().saturating_sub(further))
        {
            Some(first) => self.index.node(first).marks != 1 && !self.follows_in_table(path),
            None => true,
        }
    }

    /// Whether several lines make the table that the value at a path is in, and another comes first.
    fn follows_in_table(&self, path: &Path) -> bool {
        let Some(table) = self.index.find_first(path, path.len().saturating_sub(1)) else {
            return false;
        };
        self.index.node(table).marks > 1 && self.index.child_at(table, 0) != self.index.find(path)
    }

    /// What it takes to read the line again in which a value is, by its number, in parts of what it takes to read the
    /// text.
    fn part_of_line(&self, number: usize) -> usize {
        let Some(line) = self.line_of(number) else {
            return 0;
        };
        let bytes = line.end.saturating_sub(line.start);
        bytes.saturating_mul(READING) / self.text.len().max(1)
    }

    /// The line in which a value is, by its number; None if it is in none.
    fn line_of(&self, number: usize) -> Option<Span> {
        let mut number = number;
        for _ in 0..=STANDARD_DEPTH {
            if number >= self.syntax.value_count() {
                return None;
            }
            match self.syntax.value(number).owner {
                Owner::Line(statement) if statement < self.syntax.statement_count() => {
                    return Some(self.syntax.statement(statement).line);
                }
                Owner::Line(_) => return None,
                Owner::Inline(round) | Owner::Item(round) => number = round,
            }
        }
        None
    }
}
