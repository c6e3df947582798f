//! How far a comment goes. (TOML v1.0.0, "Comment"; toml.abnf: `non-eol`)
ghost use Rattle.std.specs.Prelude.{◌≡◌, ◌≤◌, length};
ghost use Rattle.std.specs.List.{prefix_len};
ghost use Rattle.keep_token.specs.Abnf.{is_comment};

use crate::blocks::run_by_blocks;
use crate::bytes::{byte_at, comment_run};

/// How many bytes of a comment come first. A line feed is looked for before a block is read: comments that only set
/// others apart are empty.
#[inline(always)]
pub(crate) fn comment_len(bytes: &[u8]) -> usize
    ensures len { result ≡ prefix_len is_comment bytes.now }
    ensures within { result ≤ length bytes.now }
{
    if byte_at(bytes, 0) == b'\n' {
        0
    } else {
        long_comment_len(bytes)
    }
}

/// How many bytes of a comment come first, found sixteen at a time.
#[inline(never)]
fn long_comment_len(bytes: &[u8]) -> usize
    ensures len { result ≡ prefix_len is_comment bytes.now }
    ensures within { result ≤ length bytes.now }
{
    // 0x7F ends a comment too
    match run_by_blocks(bytes, b'\t', 0x7F, 0x7F) {
        Ok(len) => len,
        Err(at) => at + comment_run(&bytes[at..]),
    }
}
