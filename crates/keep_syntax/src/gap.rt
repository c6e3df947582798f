//! Gaps: what is between the parts. (TOML v1.0.0, "Comment"; toml.abnf: `ws`, `ws-comment-newline`)
ghost use Rattle.std.specs.Prelude.{◌≡◌, IsCharBoundary};
ghost use Rattle.keep_token.specs.Abnf as abnf;
ghost use Rattle.keep_syntax.specs.Growth as spec;
ghost use Rattle.keep_syntax.specs.Reading.{begins_gap, is_free};

use crate::fault::ReadFault;
use crate::info::Brackets;
use crate::text::byte_at;
use keep_syntax_store::Parts;
use keep_token::{Leaf, Profile, scan_gap, ws_end};

/// `wschar`
fn is_ws(byte: u8) -> bool
    ensures { result ≡ abnf.is_ws byte }
{
    byte == b' ' || byte == b'\t'
}

/// `ws`: white space from the byte `at` on, if there is some, and where it ends.
#[inline(always)]
pub fn space(text: &str, at: usize, out: &mut Parts) -> Result<usize, ReadFault>
    requires { IsCharBoundary text.now at }
    ensures { spec.SpaceRead text.now at (spec.flat out.old) (spec.flat out.new) result }
{
    if !is_ws(byte_at(text, at)) {
        return Ok(at);
    }
    out.push_token(Leaf::Ws, at)?;
    Ok(ws_end(text, at))
}

/// `ws-comment-newline`: white space, newlines and comments from the byte `at` on, and where they end.
fn blank(text: &str, at: usize, out: &mut Parts) -> Result<usize, ReadFault>
    requires { IsCharBoundary text.now at }
    ensures { spec.BlankRead text.now at (spec.flat out.old) (spec.flat out.new) result }
{
    let mut here = at;
    'leaves: while let Some((leaf, end)) = scan_gap(text, here) {
        out.push_token(leaf, here)?;
        here = end;
    }
    Ok(here)
}

/// Whether newlines and comments may be between the parts, and a comma after the last.
pub fn is_free(profile: Profile, brackets: Brackets) -> bool
    ensures { result ≡ is_free profile brackets }
{
    match brackets {
        Brackets::Array => true,
        Brackets::Inline => match profile {
            Profile::Strict => false,
            Profile::Wide => true,
        },
    }
}

/// Whether white space, a newline or a comment may begin with this byte.
fn begins_gap(byte: u8) -> bool
    ensures { result ≡ begins_gap byte }
{
    is_ws(byte) || byte == b'\n' || byte == b'\r' || byte == b'#'
}

/// The gap between two parts of an array or an inline table, from the byte `at` on, and where it ends.
#[inline(always)]
pub fn gap_in(
    text: &str,
    at: usize,
    profile: Profile,
    brackets: Brackets,
    out: &mut Parts,
) -> Result<usize, ReadFault>
    requires { IsCharBoundary text.now at }
    ensures { spec.GapRead profile brackets text.now at (spec.flat out.old) (spec.flat out.new) result }
{
    if !begins_gap(byte_at(text, at)) {
        return Ok(at);
    }
    if is_free(profile, brackets) {
        blank(text, at, out)
    } else {
        space(text, at, out)
    }
}
