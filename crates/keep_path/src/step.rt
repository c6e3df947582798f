//! The steps of paths, and their texts.
ghost use Rattle.std.specs.Prelude.{◌≡◌, ◌+◌, ◌++◌, ◌<◌, ◌≤◌, ◌↔◌, IsTrue, OnErr, OnOk, length, map, min, string_bytes};
ghost use Rattle.std.specs.Prelude.{string_capacity};
ghost use Rattle.std.specs.List.{flat_map};
ghost use Rattle.keep_path.specs.Path.{key};
ghost use Rattle.keep_path.specs.PathText.{first_text, index_text, part_text};
ghost use Rattle.keep_path.specs.Step.{part_of};

use keep_token::{encode_key, encoded_key_len};
use std::alloc::{AllocError, Global};

/// One step of a path.
#[derive(Debug, Drop)]
pub enum Step {
    /// A key, decoded.
    Key(String),
    /// The number of an array's item or of an element of an array of tables, from 0.
    Index(usize),
}

impl Step {
    /// Whether this is the same step.
    pub fn is(&self, other: &Step) -> bool
        ensures { IsTrue result ↔ (part_of self.now ≡ part_of other.now) }
    {
        match (self, other) {
            (Step::Key(own), Step::Key(text)) => own.as_str() == text.as_str(),
            (Step::Index(own), Step::Index(n)) => own == n,
            _ => false,
        }
    }

    /// Whether this is the key of that text.
    pub fn is_key(&self, text: &str) -> bool
        ensures { IsTrue result ↔ (part_of self.now ≡ key text.now) }
    {
        match self {
            Step::Key(own) => own.as_str() == text,
            Step::Index(_) => false,
        }
    }

    /// Adds the step as the first of a path's text: a key, or an index in brackets. If memory runs out, the only error,
    /// the text is unchanged.
    pub fn push_first(&self, alloc: Global, out: &mut String) -> Result<(), AllocError>
        ensures pushed { OnOk result (string_bytes out.new ≡ string_bytes out.old ++ first_text (part_of self.now)) }
        ensures preserved { OnErr result (string_bytes out.new ≡ string_bytes out.old) }
    {
        match self {
            Step::Key(text) => {
                let key = encode_key(alloc, text.as_str())?;
                out.push_str(key.as_str())
            }
            Step::Index(index) => push_index(out, *index),
        }
    }

    /// Adds the step after other steps: a key after a dot, or an index in brackets.
    pub(crate) fn push_further(&self, alloc: Global, out: &mut String) -> Result<(), AllocError>
        ensures { OnOk result (string_bytes out.new ≡ string_bytes out.old ++ part_text (part_of self.now)) }
    {
        if let Step::Key(_) = self {
            out.push_str(".")?;
        }
        self.push_first(alloc, out)
    }

    /// The length of the step as the first of a path's text, or `usize::MAX`, whichever is less.
    pub(crate) fn first_len(&self) -> usize
        ensures { result ≡ min (length (first_text (part_of self.now))) usize.MAX }
    {
        match self {
            Step::Key(text) => encoded_key_len(text.as_str()),
            Step::Index(index) => itoa::Buffer::new().format(*index).len() + 2,
        }
    }

    /// The length of the step after other steps, or `usize::MAX`, whichever is less.
    pub(crate) fn further_len(&self) -> usize
        ensures { result ≡ min (length (part_text (part_of self.now))) usize.MAX }
    {
        match self {
            Step::Key(_) => self.first_len().saturating_add(1),
            Step::Index(_) => self.first_len(),
        }
    }
}

/// Adds an index in brackets, as the text of a path has it, and takes no memory but for the room of `out`. All of it is
/// taken before the text changes: if it runs out, the text is unchanged.
pub fn push_index(out: &mut String, index: usize) -> Result<(), AllocError>
    ensures pushed { OnOk result (string_bytes out.new ≡ string_bytes out.old ++ index_text index) }
    ensures preserved { OnErr result (string_bytes out.new ≡ string_bytes out.old) }
    ensures room { string_capacity out.old ≤ string_capacity out.new }
    ensures full { OnErr result
        (string_capacity out.old < length (string_bytes out.old) + length (index_text index)) }
{
    let mut buffer = itoa::Buffer::new();
    let digits = buffer.format(index);
    out.reserve(digits.len() + 2)?;
    out.push_str("[")?;
    out.push_str(digits)?;
    out.push_str("]")
}

/// Adds steps that come after others.
pub(crate) fn push_all_further(
    alloc: Global,
    out: &mut String,
    steps: &[Step],
) -> Result<(), AllocError>
    ensures { OnOk result (string_bytes out.new ≡ string_bytes out.old ++ flat_map part_text (map part_of steps.now)) }
{
    for step in steps {
        step.push_further(alloc, out)?;
    }
    Ok(())
}

/// The length of steps that come after others, or `usize::MAX`, whichever is less.
pub(crate) fn all_further_len(steps: &[Step]) -> usize
    ensures { result ≡ min (length (flat_map part_text (map part_of steps.now))) usize.MAX }
{
    let mut len: usize = 0;
    for step in steps {
        len = len.saturating_add(step.further_len());
    }
    len
}
