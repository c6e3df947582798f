//! Whether numbers fit into fewer bits, by few tests.
ghost use Rattle.std.specs.Prelude.{◌≡◌, ◌+◌, ◌<◌, ◌≤◌, ◌^◌, max};
ghost use Rattle.keep_syntax_store.specs.Fits.{IsNear};

/// The largest number of 16 bits.
pub const SHORT: usize = 0xffff;

/// The largest number of 32 bits.
pub const LONG: usize = 0xffff_ffff;

/// The largest number of 31 bits.
pub const SMALL: u32 = 0x7fff_ffff;

/// A number that has 31 bits exactly if both have.
#[inline(always)]
pub fn either_u32(a: u32, b: u32) -> u32
    ensures most { max a b ≤ result }
    ensures small { max a b < 2 ^ 31 → result < 2 ^ 31 }
{
    a | b
}

/// A number that has 16 bits, or 32, exactly if both have.
#[inline(always)]
pub fn either(a: usize, b: usize) -> usize
    ensures most { max a b ≤ result }
    ensures short { max a b < 2 ^ 16 → result < 2 ^ 16 }
    ensures long { max a b < 2 ^ 32 → result < 2 ^ 32 }
{
    a | b
}

/// How many bytes a place comes after another; a number of more than 16 bits if it comes before it.
#[inline(always)]
pub fn distance(from: usize, to: usize) -> usize
    ensures near { result < 2 ^ 16 → from + result ≡ to }
    ensures far { 2 ^ 16 ≤ result → IsNear from to → ⊥ }
{
    if from <= to { to - from } else { usize::MAX }
}
