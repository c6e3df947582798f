//! A document's first newline, in which new lines and headers end: what leaves it as it is.
ghost use Rattle.std.specs.Prelude.{IsTrue};
ghost use Rattle.std.specs.Bool.{Decides};
ghost use Rattle.keep_edit_spec.specs.FirstNewline.{IsPlain};
ghost use Rattle.keep_edit_plan.specs.TextEdits.{change_of};
ghost use Rattle.keep_edit_runs.specs.Newlines.{LeavesBy, LeavesEndBy};

use keep_edit_plan::TextEdit;
use memchr::memchr;

/// What a change of a document's text has to be like to leave the document's first newline.
#[derive(Clone, Copy)]
pub enum Newline {
    /// The text has no carriage return: the change writes none.
    LineFeed,
    /// The first line ends at this byte: the change begins there or behind it.
    After(usize),
    /// That is not known.
    Unknown,
}

/// Whether a text has no carriage return.
pub fn is_plain(text: &str) -> bool
    ensures { Decides result (IsPlain text.now) }
{
    memchr(b'\r', text.as_bytes()).is_none()
}

impl Newline {
    /// Whether a change is known to leave it.
    pub fn is_left_by(self, change: &TextEdit) -> bool
        ensures { IsTrue result → LeavesBy self (change_of change.now) }
    {
        match self {
            Newline::LineFeed => is_plain(change.new.as_str()),
            Newline::After(end) => end <= change.place.start,
            Newline::Unknown => false,
        }
    }

    /// Whether a text that is appended to the document's is known to leave it.
    pub fn is_left_at_end(self, new: &str) -> bool
        ensures { IsTrue result → LeavesEndBy self new.now }
    {
        match self {
            Newline::LineFeed => is_plain(new),
            Newline::After(_) => true,
            Newline::Unknown => false,
        }
    }
}
