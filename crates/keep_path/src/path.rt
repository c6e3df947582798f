//! Paths.
ghost use Rattle.std.specs.Prelude.{◌≡◌, ◌++◌, ◌≢◌, ℕ, List, [], ◌∷◌, IfOk, IfSome, IsNone, IsOkUnless, OnOk, OnErr};
ghost use Rattle.std.specs.Prelude.{length, map, min, option_copied, option_map, slice_get, string_bytes};
ghost use Rattle.keep_path.specs.declared.fault.PathFault.TheVariants.{BadPath, Memory};
ghost use Rattle.keep_path.specs.Path.{Part, key, index, AreUtf8, IsRooted};
ghost use Rattle.keep_path.specs.PathText.{encoded_path, AreKeys, FirstIndex, HasSmallIndexes, IsPathText, StopsAt};
ghost use Rattle.keep_path.specs.Step.{part_of};

use crate::fault::PathFault;
use crate::index_text::byte_or_zero;
use crate::reading::{key_len, read_key, read_step};
use crate::step::{Step, all_further_len, push_all_further};
use std::alloc::{AllocError, Global};
use std::marker::Model;

/// A way from the root of a document to one of its values or tables: a list of steps, of which the first is a key. The
/// root's own path has none.
#[derive(Debug, Drop)]
pub struct Path {
    alloc: Global,
    steps: Vec<Step>,
}

impl Model for Path {
    ghost Value = { List Part };

    ghost view = { λ p. map part_of p.steps.items };

    ghost invariant = { λ p. IsRooted (map part_of p.steps.items) };
}

impl Path {
    /// The path of the root. It takes no memory yet.
    pub fn new(alloc: Global) -> Path
        ensures { result ≡ [] }
    {
        Path {
            alloc,
            steps: Vec::new(alloc),
        }
    }

    /// The path of that text: a key part, bare, basic or literal as in TOML, then dots with key parts and indexes in
    /// brackets, with no spaces. The empty text is the root's. What `encode` gave is read as the path that it was
    /// given for.
    ///
    /// # Errors
    ///
    /// `BadPath` where the text is no path's: with the start of the first step that cannot be read, its dot or bracket
    /// included, in bytes from the start of the text. It is the length of the longest prefix that is a path's text.
    /// `Memory` where memory was refused.
    pub fn read(alloc: Global, text: &str) -> Result<Path, PathFault>
        ensures stated { IfOk result (λ path. IsPathText text.now path) }
        ensures one { (path : List Part) → IsPathText text.now path → IfOk result (λ read. read ≡ path) }
        ensures read { (path : List Part) → IsPathText text.now path → IsOkUnless result Memory }
        ensures place { (at : ℕ) → result ≡ Err (BadPath at) → StopsAt text.now at }
    {
        let mut steps = Vec::new(alloc);
        if text.is_empty() {
            return Ok(Path { alloc, steps });
        }
        let Some((key, mut at)) = read_key(alloc, text)? else {
            return Err(PathFault::BadPath { at: 0 });
        };
        steps.push(Step::Key(key))?;
        while at < text.len() {
            let Some((step, len)) = read_step(alloc, &text[at..])? else {
                return Err(PathFault::BadPath { at });
            };
            steps.push(step)?;
            at += len;
        }
        Ok(Path { alloc, steps })
    }

    /// The byte of a path's text at which the bracket of its first index is; None where it has no index. It takes no
    /// memory.
    pub fn first_index(text: &str) -> Option<usize>
        requires { (path : List Part) × IsPathText text.now path }
        ensures found { IfSome result (λ at. FirstIndex text.now at) }
        ensures none { IsNone result → (path : List Part) → IsPathText text.now path → AreKeys path }
    {
        let mut at = key_len(text)?;
        while byte_or_zero(text.as_bytes(), at) == b'.' {
            at += 1 + key_len(&text[at + 1..])?;
        }
        if at < text.len() { Some(at) } else { None }
    }

    /// Adds a key, decoded, at the end. If memory runs out, the only error, the path is unchanged.
    pub fn push_key(&mut self, text: &str) -> Result<(), AllocError>
        ensures pushed { OnOk result (self.new ≡ self.old ++ key text.now ∷ []) }
        ensures preserved { OnErr result (self.new ≡ self.old) }
    {
        let owned = String::from_str(self.alloc, text)?;
        self.steps.push(Step::Key(owned))?;
        Ok(())
    }

    /// Adds an index at the end. If memory runs out, the only error, the path is unchanged.
    pub fn push_index(&mut self, number: usize) -> Result<(), AllocError>
        requires { self.old ≢ [] }
        ensures pushed { OnOk result (self.new ≡ self.old ++ index number ∷ []) }
        ensures preserved { OnErr result (self.new ≡ self.old) }
    {
        self.steps.push(Step::Index(number))?;
        Ok(())
    }

    /// The number of steps.
    pub fn len(&self) -> usize
        ensures count { result ≡ length self.now }
        ensures rooted { IsRooted self.now }
        ensures utf8 { AreUtf8 self.now }
    {
        self.steps.len()
    }

    /// The step with that number, from 0; None from `len()` on.
    pub fn step(&self, number: usize) -> Option<&Step>
        ensures { option_map part_of (option_copied result) ≡ slice_get self.now number }
    {
        self.steps.get(number)
    }

    /// The steps, from the first to the last. It takes no memory.
    pub fn into_steps(self) -> Vec<Step>
        ensures steps { map part_of result.items ≡ self }
        ensures rooted { IsRooted self }
    {
        let Path { steps, .. } = self;
        steps
    }

    /// The path's text. Where no index is above 999,999,999, it reads back as the path. The only error is out of
    /// memory.
    pub fn encode(&self, alloc: Global) -> Result<String, AllocError>
        ensures text { IfOk result (λ s. string_bytes s ≡ encoded_path self.now) }
        ensures reads_back { HasSmallIndexes self.now → IfOk result (λ s. IsPathText (string_bytes s) self.now) }
    {
        let mut out = String::new(alloc);
        if let [first, further @ ..] = self.steps.as_slice() {
            first.push_first(alloc, &mut out)?;
            push_all_further(alloc, &mut out, further)?;
        }
        Ok(out)
    }

    /// The length of the path's text in bytes, or `usize::MAX`, whichever is less. It takes no memory.
    pub fn encoded_len(&self) -> usize
        ensures { result ≡ min (length (encoded_path self.now)) usize.MAX }
    {
        match self.steps.as_slice() {
            [] => 0,
            [first, further @ ..] => first.first_len().saturating_add(all_further_len(further)),
        }
    }
}
