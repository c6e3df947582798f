//! The keys of a document, as they are written in it.
ghost use Rattle.std.specs.Prelude.{◌≡◌, ◌+◌, ◌<◌, IfOk, length};
ghost use Rattle.keep_meaning.specs.KeyText.{text_of_key};
ghost use Rattle.keep_rules.specs.Keys.{key_text_at};

use keep_meaning::key_text::{KeyText, key_text};
use keep_syntax::Parts;
use std::alloc::{AllocError, Global};
use std::marker::Model;

/// A key as it is written in the document: `count` of its key parts, from the one number `first` on. Contracts see the
/// decoded texts of these, and the number of the first.
#[derive(Drop)]
pub struct Keys<'a> {
    pub text: &'a str,
    pub parts: &'a Parts,
    pub first: usize,
    pub count: usize,
}

impl<'a> Model for Keys<'a> {
    ghost use Rattle.keep_rules.specs.Keys.{Key, key_of, AreKeysAt};
    ghost use Rattle.keep_syntax_store.specs.Flat.{flat};

    ghost Value = { Key };

    ghost view = { λ k. key_of k.text.now (flat k.parts.now).keys k.first k.count };

    ghost invariant = { λ k. AreKeysAt k.text.now (flat k.parts.now).keys k.first k.count };
}

impl<'a> Keys<'a> {
    /// How many key parts it has: one at least.
    pub fn count(&self) -> usize
        ensures many { result ≡ length self.now.texts }
        ensures some { 0 < result }
    {
        self.count
    }

    /// The number in the document of the key part with that number within the key, from 0.
    pub fn part_number(&self, number: usize) -> usize
        requires { number < length self.now.texts }
        ensures { result ≡ self.now.first + number }
    {
        self.first + number
    }

    /// The key part with that number within the key, decoded. The only error is out of memory.
    #[inline(always)]
    pub fn part_text(&self, alloc: Global, number: usize) -> Result<KeyText<'a>, AllocError>
        requires { number < length self.now.texts }
        ensures { IfOk result (λ text. text_of_key text ≡ key_text_at self.now number) }
    {
        key_text(alloc, self.text, self.parts.key_part(self.first + number))
    }
}
