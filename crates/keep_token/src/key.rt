//! Key parts. (TOML v1.0.0, "Keys"; toml.abnf: `simple-key`)
ghost use Rattle.std.specs.Prelude.{◌≡◌, ℕ, ◌+◌, ◌-◌, ◌<◌, ◌≤◌, length, drop, IfOk, IfErr, IsCharBoundary, MatchResult};
ghost use Rattle.std.specs.Prelude.{Some, None};
ghost use Rattle.keep_types.specs.declared.leaf.Leaf.{Leaf};
ghost use Rattle.keep_token.specs.Leaves.{KeyLeaf};
ghost use Rattle.keep_token.specs.Scanning.{Scans, key_at, moved};

use crate::basic::basic_len;
use crate::bytes::{bare_run, byte_at};
use crate::fault::{LeafFault, What};
use crate::literal::literal_len;
use crate::strings::fault_here;
use keep_types::{Leaf, Profile};

// The key part at the start, and its length.
#[tactic(auto, unfolding(crate::specs::Scanning::key_at))]
fn key_of(bytes: &[u8], profile: Profile) -> Result<(Leaf, usize), LeafFault>
    ensures value { MatchResult result
        (λ found. key_at profile bytes.now ≡ Some found)
        (λ fault. key_at profile bytes.now ≡ None) }
    ensures within { IfOk result (λ found. found.1 ≤ length bytes.now) }
    ensures place { IfErr result (λ fault. fault.at ≤ length bytes.now) }
{
    let first = byte_at(bytes, 0);
    let bare = bare_run(bytes);
    if bare > 0 {
        return Ok((Leaf::BareKey, bare));
    }
    if first == b'"' {
        let len = basic_len(bytes, profile)?;
        return Ok((Leaf::Basic, len));
    }
    if first == b'\'' {
        let len = literal_len(bytes)?;
        return Ok((Leaf::Literal, len));
    }
    Err(fault_here(bytes, What::KeyPart))
}

/// The key part that begins at the byte `at`, with the byte at which it ends: a bare key as long as it goes, a basic
/// or a literal string.
///
/// # Errors
///
/// The first fault from left to right where there is none, with its place in the text.
pub fn scan_key(text: &str, at: usize, profile: Profile) -> Result<(Leaf, usize), LeafFault>
    requires { IsCharBoundary text.now at }
    ensures found { IfOk result (λ found. (at < found.1) × KeyLeaf profile (drop at text.now) found.0 (found.1 - at)) }
    ensures only { (leaf : Leaf) → (n : ℕ) → KeyLeaf profile (drop at text.now) leaf n → result ≡ Ok (leaf, at + n) }
    ensures ends { IfOk result (λ found. IsCharBoundary text.now found.1) }
    // the result by the function on lists, for proofs above
    ensures value { Scans result (moved at (key_at profile (drop at text.now))) }
    ensures place { IfErr result (λ fault. fault.at ≤ length text.now) }
{
    match key_of(&text.as_bytes()[at..], profile) {
        Ok((leaf, len)) => Ok((leaf, at + len)),
        Err(fault) => Err(LeafFault {
            at: at + fault.at,
            what: fault.what,
        }),
    }
}
