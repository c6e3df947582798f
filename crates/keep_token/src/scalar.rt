//! Scalars: the four kinds of strings, and words. (toml.abnf: `val` but for `array` and `inline-table`)
ghost use Rattle.std.specs.Prelude.{◌≡◌, ℕ, ◌+◌, ◌-◌, ◌<◌, ◌≤◌, length, drop, IfOk, IfErr, IsCharBoundary, MatchResult};
ghost use Rattle.std.specs.Prelude.{Some, None, Ok, Err};
ghost use Rattle.keep_types.specs.declared.leaf.Leaf.{Leaf};
ghost use Rattle.keep_token.specs.Leaves.{ScalarLeaf};
ghost use Rattle.keep_token.specs.Scanning.{Scans, scalar_at, moved, are_three};

use crate::basic::{basic_len, ml_basic_len};
use crate::bytes::byte_at;
use crate::fault::LeafFault;
use crate::literal::{literal_len, ml_literal_len};
use crate::strings::fault_here;
use crate::word::{word_fault, word_leaf, word_len};
use keep_types::{Leaf, Profile};

// Whether three of the quotation mark come first.
fn begins_with_three(bytes: &[u8], mark: u8) -> bool
    ensures { result ≡ are_three mark bytes.now }
{
    byte_at(bytes, 0) == mark && byte_at(bytes, 1) == mark && byte_at(bytes, 2) == mark
}

// A string of this kind, where its length is found.
#[inline(always)]
fn string_of(leaf: Leaf, found: Result<usize, LeafFault>) -> Result<(Leaf, usize), LeafFault>
    ensures { MatchResult found (λ len. result ≡ Ok (leaf, len)) (λ fault. result ≡ Err fault) }
{
    Ok((leaf, found?))
}

// The scalar at the start, and its length.
#[tactic(auto, unfolding(crate::specs::Scanning::scalar_at))]
fn scalar_of(bytes: &[u8], profile: Profile) -> Result<(Leaf, usize), LeafFault>
    ensures value { MatchResult result
        (λ found. scalar_at profile bytes.now ≡ Some found)
        (λ fault. scalar_at profile bytes.now ≡ None) }
    ensures within { IfOk result (λ found. found.1 ≤ length bytes.now) }
    ensures place { IfErr result (λ fault. fault.at ≤ length bytes.now) }
{
    if begins_with_three(bytes, b'"') {
        return string_of(Leaf::MlBasic, ml_basic_len(bytes, profile));
    }
    if begins_with_three(bytes, b'\'') {
        return string_of(Leaf::MlLiteral, ml_literal_len(bytes));
    }
    let first = byte_at(bytes, 0);
    if first == b'"' {
        return string_of(Leaf::Basic, basic_len(bytes, profile));
    }
    if first == b'\'' {
        return string_of(Leaf::Literal, literal_len(bytes));
    }
    let len = word_len(bytes);
    match word_leaf(&bytes[..len], profile) {
        Some(leaf) => Ok((leaf, len)),
        None => Err(fault_here(bytes, word_fault(&bytes[..len]))),
    }
}

/// The scalar that begins at the byte `at`, with the byte at which it ends: a string, or the whole word.
///
/// # Errors
///
/// The first fault from left to right where there is none, with its place in the text.
pub fn scan_scalar(text: &str, at: usize, profile: Profile) -> Result<(Leaf, usize), LeafFault>
    requires { IsCharBoundary text.now at }
    ensures found { IfOk result (λ found. (at < found.1)
        × ScalarLeaf profile (drop at text.now) found.0 (found.1 - at)) }
    ensures only { (leaf : Leaf) → (n : ℕ) → ScalarLeaf profile (drop at text.now) leaf n → result ≡ Ok (leaf, at + n) }
    ensures ends { IfOk result (λ found. IsCharBoundary text.now found.1) }
    // the result by the function on lists, for proofs above
    ensures value { Scans result (moved at (scalar_at profile (drop at text.now))) }
    ensures place { IfErr result (λ fault. fault.at ≤ length text.now) }
{
    match scalar_of(&text.as_bytes()[at..], profile) {
        Ok((leaf, len)) => Ok((leaf, at + len)),
        Err(fault) => Err(LeafFault {
            at: at + fault.at,
            what: fault.what,
        }),
    }
}
