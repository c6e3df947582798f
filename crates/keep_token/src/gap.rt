//! What is between the parts: white space, newlines and comments. (TOML v1.0.0, "Comment"; toml.abnf: `ws`,
//! `newline`, `comment`)
ghost use Rattle.std.specs.Prelude.{◌≡◌, ℕ, ◌+◌, ◌-◌, ◌<◌, ◌≤◌, true, length, drop, slice_index, Some, IfSome};
ghost use Rattle.std.specs.Prelude.{IsCharBoundary};
ghost use Rattle.keep_types.specs.declared.leaf.Leaf.{Leaf};
ghost use Rattle.keep_types.specs.declared.leaf.Leaf.TheVariants as leaf;
ghost use Rattle.keep_token.specs.Abnf as abnf;
ghost use Rattle.keep_token.specs.Leaves.{GapLeaf};
ghost use Rattle.keep_token.specs.Scanning.{gap_at, moved};

use crate::bytes::{byte_at, is_ws, ws_run};
use crate::comment::comment_len;
use keep_types::Leaf;

// The leaf at the start, and its length.
#[inline(always)]
#[tactic(auto, unfolding(crate::specs::Scanning::gap_at))]
fn gap_of(bytes: &[u8]) -> Option<(Leaf, usize)>
    ensures value { result ≡ gap_at bytes.now }
    ensures within { IfSome result (λ found. found.1 ≤ length bytes.now) }
{
    match bytes {
        [] => None,
        [first, rest @ ..] => {
            if is_ws(*first) {
                Some((Leaf::Ws, ws_run(bytes)))
            } else if *first == b'\n' {
                Some((Leaf::Newline, 1))
            } else if *first == b'\r' && rest.first() == Some(&b'\n') {
                Some((Leaf::Newline, 2))
            } else if *first == b'#' {
                Some((Leaf::Comment, 1 + comment_len(rest)))
            } else {
                None
            }
        }
    }
}

/// The longest white space, the newline or the longest comment that begins at the byte `at`, with the byte at which
/// it ends, or nothing where none begins.
#[inline(always)]
pub fn scan_gap(text: &str, at: usize) -> Option<(Leaf, usize)>
    requires { IsCharBoundary text.now at }
    ensures found { IfSome result (λ found. (at < found.1) × GapLeaf (drop at text.now) found.0 (found.1 - at)) }
    ensures only { (leaf : Leaf) → (n : ℕ) → GapLeaf (drop at text.now) leaf n → result ≡ Some (leaf, at + n) }
    ensures ends { IfSome result (λ found. IsCharBoundary text.now found.1) }
    // the result by the function on lists, for proofs above
    ensures value { result ≡ moved at (gap_at (drop at text.now)) }
{
    let (leaf, len) = gap_of(&text.as_bytes()[at..])?;
    Some((leaf, at + len))
}

/// The byte at which white space ends that begins at the byte `at`. The first byte is white space, and mostly the only
/// one, so the next is looked at before a run is counted.
#[inline(always)]
pub fn ws_end(text: &str, at: usize) -> usize
    requires bound { IsCharBoundary text.now at }
    requires begins { abnf.is_ws (slice_index text.now at) ≡ true }
    ensures leaf { GapLeaf (drop at text.now) leaf.Ws (result - at) }
    ensures ends { IsCharBoundary text.now result }
    // the result by the function on lists, for proofs above
    ensures value { moved at (gap_at (drop at text.now)) ≡ Some (leaf.Ws, result) }
{
    let bytes = text.as_bytes();
    let next = at + 1;
    if !is_ws(byte_at(bytes, next)) {
        return next;
    }
    next + ws_run(&bytes[next..])
}
