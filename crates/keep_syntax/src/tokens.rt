//! The tokens of a document one after another.
ghost use Rattle.std.specs.Prelude.{◌≡◌, ℕ, ◌+◌, ◌<◌, ◌≤◌, ◌^◌, drop, slice_get, IfSome, IsCharBoundary};
ghost use Rattle.keep_syntax_store.specs.Left.{places_left};
ghost use Rattle.keep_syntax.specs.Cut.{start_in, all_kinds};
ghost use Rattle.keep_syntax_store.specs.Flat.{flat};

use crate::info::Token;
use keep_syntax_store::{Parts, Places};
use keep_token::Leaf;

/// The tokens of a document in text order, `End` the last. The result of [`crate::Syntax::tokens`].
#[derive(Clone, Copy)]
pub struct Tokens<'a> {
    parts: &'a Parts,
    text: &'a str,
    next: usize,
    /// Where the token `next` begins.
    start: usize,
    /// Where those after it begin.
    after: Places<'a>,
    ghost cuts: { (n : ℕ) → IsCharBoundary text.now (start_in text.now (flat parts.now).starts n) },
    ghost forward: { (n : ℕ) → start_in text.now (flat parts.now).starts n
        ≤ start_in text.now (flat parts.now).starts (n + 1) },
    ghost starts: { start ≡ start_in text.now (flat parts.now).starts next },
    ghost rest: { places_left after ≡ drop (next + 1) (flat parts.now).starts },
}

// the kind of the token with this number, `End` after those that are stored
fn kind_of(parts: &Parts, number: usize) -> Option<Leaf>
    ensures value { result ≡ slice_get (all_kinds (flat parts.now)) number }
    ensures small { IfSome result (λ _. number < 2 ^ 63) }
{
    let count = parts.stored_token_count();
    if number < count {
        Some(parts.token_at(number))
    } else if number == count {
        Some(Leaf::End)
    } else {
        None
    }
}

impl<'a> Iterator for Tokens<'a> {
    ghost use Rattle.std.specs.Iterator.{YieldsFirstBy, item_count};
    ghost use Rattle.keep_syntax.specs.Contract.{placed_token, left};

    type Item = Token<'a>;

    ghost next_gives = { YieldsFirstBy placed_token left };

    ghost remaining = { item_count left };

    fn next(&mut self) -> Option<Token<'a>> {
        let leaf = kind_of(self.parts, self.next)?;
        let text = self.text;
        let at = self.start;
        let end = self.after.next().unwrap_or(text.len());
        self.next += 1;
        self.start = end;
        Some(Token {
            leaf,
            at,
            text: &text[at..end],
        })
    }
}

impl<'a> Tokens<'a> {
    ghost use Rattle.keep_syntax.specs.Cut.{cut_by};
    ghost use Rattle.keep_syntax.specs.Contract.{left};

    /// All tokens that are stored of this text.
    pub(crate) fn new(parts: &'a Parts, text: &'a str) -> Tokens<'a>
        requires cuts { (n : ℕ) → IsCharBoundary text.now (start_in text.now (flat parts.now).starts n) }
        requires forward { (n : ℕ) → start_in text.now (flat parts.now).starts n
            ≤ start_in text.now (flat parts.now).starts (n + 1) }
        ensures { left result ≡ cut_by (flat parts.now) text.now }
    {
        let mut after = parts.token_starts();
        let start = after.next().unwrap_or(text.len());
        Tokens {
            parts,
            text,
            next: 0,
            start,
            after,
        }
    }
}
