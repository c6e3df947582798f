//! The lines of all nodes of a document but the root.
ghost use Rattle.std.specs.Prelude.{◌≡◌, ◌+◌, ◌^◌, ◌<◌, ◌≤◌, ◌++◌, codes, length, slice_get, string_bytes};
ghost use Rattle.std.specs.Prelude.{string_capacity, take, IfOk, IfSome, IsOk, OnErr, OnOk};
ghost use Rattle.keep_syntax.specs.Tree as tree;
ghost use Rattle.keep_edit.specs.Answers.{counts_of, entries_of};
ghost use Rattle.keep_edit.specs.Reading.{IsAccepted, IsTextOfTree};
ghost use Rattle.keep_commands.specs.Answer.{kind_word, lines_of};
ghost use Rattle.keep_commands.specs.Lines.{line_at, HasLineRoom, HaveLineRoom};

use keep_edit::{Document, Kind, PathRoom};
use std::alloc::{AllocError, Global};
use std::marker::Model;

/// A block of lines ends with the line that reaches this length.
pub const BLOCK: usize = 65_536;

/// The lines of all nodes of a document but the root, block after block. All memory is taken before the first: room for
/// a block and the longest line.
#[derive(Drop)]
pub struct Lines {
    document: Document,
    room: PathRoom,
    block: String,
}

impl Model for Lines {
    ghost use Rattle.std.specs.Prelude.{string_bytes, string_capacity};
    ghost use Rattle.keep_syntax.specs.Tree as tree;
    ghost use Rattle.keep_edit.specs.Reading.{IsTextOfTree};
    ghost use Rattle.keep_commands.specs.Lines.{HasBlockRoom, ListState};

    ghost Value = { ListState };

    ghost view = { λ l. record { document = l.document; block = string_bytes l.block } };

    ghost invariant = { λ l. (s : tree.Document) → IsTextOfTree l.document s
        → HasBlockRoom s l.room (string_capacity l.block) };
}

impl Lines {
    /// The lines of a document, of which none is in the block yet. The only error is out of memory.
    pub fn new(alloc: Global, document: Document) -> Result<Lines, AllocError>
        ensures { IfOk result (λ lines. lines.document ≡ document) }
    {
        let mut room = PathRoom::new(alloc);
        let mut block = String::new(alloc);
        let longest = longest_line(&document, &mut room, &mut block)?;
        let Some(most) = BLOCK.checked_add(longest) else {
            return Err(AllocError);
        };
        block.clear();
        block.reserve(most)?;
        Ok(Lines {
            document,
            room,
            block,
        })
    }

    /// How many nodes the document has. The numbers of the lines are less.
    pub fn count(&self) -> usize
        ensures counts { (s : tree.Document) → IsTextOfTree self.now.document s → result ≡ (counts_of s).nodes }
        ensures few { (s : tree.Document) → IsTextOfTree self.now.document s → length (entries_of s) ≤ result }
        ensures fits { (s : tree.Document) → IsTextOfTree self.now.document s
            → length (lines_of (entries_of s)) < 2 ^ 64 }
        ensures accepted { IsAccepted self.now.document }
    {
        self.document.counts().nodes
    }

    /// The lines that are in the block.
    pub fn block(&self) -> &str
        ensures { result.now ≡ self.now.block }
    {
        self.block.as_str()
    }

    /// Puts the lines from a number on into the block, in the place of those that are there, until it is full or there
    /// is no further line. Returns the number after the last of them. It takes no memory.
    pub fn fill(&mut self, number: usize) -> usize
        ensures document { self.new.document ≡ self.old.document }
        ensures block { (s : tree.Document) → IsTextOfTree self.old.document s
            → lines_of (take number (entries_of s)) ++ self.new.block ≡ lines_of (take result (entries_of s)) }
        ensures later { (s : tree.Document) → IsTextOfTree self.old.document s
            → number < (counts_of s).nodes → number < result }
    {
        let count = self.document.counts().nodes;
        self.block.clear();
        let mut next = number;
        while next < count && self.block.len() < BLOCK {
            if push_line(&self.document, next, &mut self.room, &mut self.block).is_err() {
                unreachable!();
            }
            next += 1;
        }
        next
    }

    /// All lines as one text. The only error is out of memory.
    pub fn text(&mut self, alloc: Global) -> Result<String, AllocError>
        ensures lines { (s : tree.Document) → IsTextOfTree self.old.document s
            → IfOk result (λ text. string_bytes text ≡ lines_of (entries_of s)) }
        ensures accepted { IsAccepted self.old.document }
    {
        let count = self.count();
        let mut text = String::new(alloc);
        let mut number = 0;
        while number < count {
            number = self.fill(number);
            text.push_str(self.block())?;
        }
        Ok(text)
    }
}

// The length of the longest line, for which, as for all others, `room` then has room. Each line is composed once, in
// the place of the one before it. Lines that come to more bytes than a number counts are out of memory too.
fn longest_line(
    document: &Document,
    room: &mut PathRoom,
    line: &mut String,
) -> Result<usize, AllocError>
    ensures { (s : tree.Document) → IsTextOfTree document.now s
        → IfOk result (λ longest. HaveLineRoom s room.new longest) }
{
    let mut longest = 0;
    let mut total: usize = 0;
    for number in 0..document.counts().nodes {
        line.clear();
        push_line(document, number, room, line)?;
        let Some(sum) = total.checked_add(line.len()) else {
            return Err(AllocError);
        };
        total = sum;
        if longest < line.len() {
            longest = line.len();
        }
    }
    Ok(longest)
}

// Adds the line of a node: its path, and what comes after it. Where there is no node with that number it adds nothing.
// It takes memory only where `room` and `out` have no room for the line.
fn push_line(
    document: &Document,
    number: usize,
    room: &mut PathRoom,
    out: &mut String,
) -> Result<(), AllocError>
    ensures line { (s : tree.Document) → IsTextOfTree document.now s
        → OnOk result (string_bytes out.new ≡ string_bytes out.old ++ line_at (entries_of s) number) }
    ensures grown { (string_capacity out.old ≤ string_capacity out.new) × (room.old ≤ room.new) }
    ensures enough { (s : tree.Document) → IsTextOfTree document.now s
        → IfSome (slice_get (entries_of s) number) (λ e. OnOk result (length e.path ≤ room.new)) }
    ensures fits { (s : tree.Document) → IsTextOfTree document.now s
        → HasLineRoom room.old out.old (slice_get (entries_of s) number) → IsOk result }
    ensures accepted { IsAccepted document.now }
{
    match document.push_entry_path_within(number, room, out)? {
        Some(kind) => push_kind(out, kind),
        None => Ok(()),
    }
}

// What comes after the path in a node's line.
fn push_kind(out: &mut String, kind: Kind) -> Result<(), AllocError>
    ensures pushed { OnOk result (string_bytes out.new
        ≡ string_bytes out.old ++ (codes "\t" ++ (kind_word kind ++ codes "\n"))) }
    ensures room { string_capacity out.old ≤ string_capacity out.new }
    ensures full { OnErr result (string_capacity out.old
        < length (string_bytes out.old) + length (codes "\t" ++ (kind_word kind ++ codes "\n"))) }
{
    out.push_str("\t")?;
    out.push_str(word_of(kind))?;
    out.push_str("\n")
}

// The word of a kind.
fn word_of(kind: Kind) -> &'static str
    ensures { result.now ≡ kind_word kind }
{
    match kind {
        Kind::Str => "string",
        Kind::Integer => "integer",
        Kind::Float => "float",
        Kind::Boolean => "boolean",
        Kind::OffsetDateTime => "offset-date-time",
        Kind::LocalDateTime => "local-date-time",
        Kind::LocalDate => "local-date",
        Kind::LocalTime => "local-time",
        Kind::Array => "array",
        Kind::Inline => "inline-table",
        Kind::Table => "table",
        Kind::Tables => "array-of-tables",
    }
}
