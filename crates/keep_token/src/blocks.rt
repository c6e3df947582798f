//! How far a run of bytes goes, sixteen bytes at a time.
ghost use Rattle.std.specs.Prelude.{◌≡◌, ◌+◌, ◌≤◌, true, drop, length, map, take, MatchResult};
ghost use Rattle.std.specs.Char.{is_ascii_digit};
ghost use Rattle.std.specs.List.{list_all, prefix_len};
ghost use Rattle.std.specs.Simd.Lanes.{mask_l};
ghost use Rattle.keep_token.specs.Abnf.{is_ws};
ghost use Rattle.keep_token.specs.Blocks.{ends_run, is_non_digit, is_non_ws, is_plain};

use std::simd::prelude::*;

/// How many bytes are looked at together.
pub(crate) const BLOCK: usize = 16;

/// A bit for each byte that ends a run: a control character but for the tab and `also`, or one of two marks.
#[inline(always)]
fn ends(block: u8x16, also: u8, a: u8, b: u8) -> u64
    ensures { result ≡ mask_l (map (ends_run also a b) block) }
{
    let low = block.simd_lt(u8x16::splat(0x20)) & block.simd_ne(u8x16::splat(b'\t'));
    let control = (low | block.simd_eq(u8x16::splat(0x7F))) & block.simd_ne(u8x16::splat(also));
    let marks = block.simd_eq(u8x16::splat(a)) | block.simd_eq(u8x16::splat(b));
    (control | marks).to_bitmask()
}

/// How many bytes come before a control character but for the tab and `also`, or before one of two marks: `Ok` where a
/// block has that byte, and else `Err` with how far whole blocks go, as a search says where it would go on.
#[inline(always)]
pub(crate) fn run_by_blocks(bytes: &[u8], also: u8, a: u8, b: u8) -> Result<usize, usize>
    ensures run { MatchResult result
        (λ len. prefix_len (is_plain also a b) bytes.now ≡ len)
        (λ at. prefix_len (is_plain also a b) bytes.now
        ≡ at + prefix_len (is_plain also a b) (drop at bytes.now)) }
    ensures within { MatchResult result (λ len. len ≤ length bytes.now) (λ at. at ≤ length bytes.now) }
{
    let mut at = 0;
    while bytes.len() - at >= BLOCK {
        let found = ends(u8x16::from_slice(&bytes[at..]), also, a, b);
        if found != 0 {
            return Ok(at + found.trailing_zeros() as usize);
        }
        at += BLOCK;
    }
    Err(at)
}

/// How many bytes come before a control character but for the tab and `also`, or before one of two marks, as far as
/// whole blocks go.
#[inline(always)]
pub(crate) fn run_in_blocks(bytes: &[u8], also: u8, a: u8, b: u8) -> usize
    ensures run { prefix_len (is_plain also a b) bytes.now
        ≡ result + prefix_len (is_plain also a b) (drop result bytes.now) }
    ensures within { result ≤ length bytes.now }
{
    match run_by_blocks(bytes, also, a, b) {
        Ok(len) => len,
        Err(at) => at,
    }
}

/// A bit for each byte that is no digit.
#[inline(always)]
fn non_digits(block: u8x16) -> u64
    ensures { result ≡ mask_l (map is_non_digit block) }
{
    let others = block.simd_lt(u8x16::splat(b'0')) | block.simd_gt(u8x16::splat(b'9'));
    others.to_bitmask()
}

/// How many digits come first, as far as whole blocks of digits go.
#[inline(never)]
pub(crate) fn digits_in_blocks(bytes: &[u8]) -> usize
    ensures digits { list_all is_ascii_digit (take result bytes.now) ≡ true }
    ensures within { result ≤ length bytes.now }
{
    let mut digits = 0;
    while bytes.len() - digits >= BLOCK && non_digits(u8x16::from_slice(&bytes[digits..])) == 0 {
        digits += BLOCK;
    }
    digits
}

/// A bit for each byte that is no white space.
#[inline(always)]
fn non_ws(block: u8x16) -> u64
    ensures { result ≡ mask_l (map is_non_ws block) }
{
    let others = block.simd_ne(u8x16::splat(b' ')) & block.simd_ne(u8x16::splat(b'\t'));
    others.to_bitmask()
}

/// How many bytes of white space come first: `Ok` where a block has the byte after them, and else `Err` with how far
/// whole blocks go.
#[inline(always)]
pub(crate) fn ws_by_blocks(bytes: &[u8]) -> Result<usize, usize>
    ensures run { MatchResult result
        (λ len. prefix_len is_ws bytes.now ≡ len)
        (λ at. prefix_len is_ws bytes.now ≡ at + prefix_len is_ws (drop at bytes.now)) }
    ensures within { MatchResult result (λ len. len ≤ length bytes.now) (λ at. at ≤ length bytes.now) }
{
    let mut end = 0;
    while bytes.len() - end >= BLOCK {
        let found = non_ws(u8x16::from_slice(&bytes[end..]));
        if found != 0 {
            return Ok(end + found.trailing_zeros() as usize);
        }
        end += BLOCK;
    }
    Err(end)
}
