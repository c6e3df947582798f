//! Indexes in the texts of paths.
ghost use Rattle.std.specs.Prelude.{◌≡◌, ◌<◌, ◌++◌, [], ◌∷◌, ℕ, List, length, drop, decimal, slice_index, IfSome};
ghost use Rattle.std.specs.Prelude.{IsNone, IsCharBoundary};
ghost use Rattle.keep_path.specs.IndexText.{closes};
ghost use Rattle.std.specs.List.{prefix_len};
ghost use Rattle.std.specs.Char.{is_ascii_digit};

/// The most digits that an index in a path text has.
const MOST_DIGITS: usize = 9;

/// The index that begins the text after its opening bracket, and how many bytes it has with the closing one. It has
/// one to nine digits, and no zero before another digit.
pub(crate) fn read_index(text: &str) -> Option<(usize, usize)>
    ensures small { IfSome result (λ found. found.0 < 1_000_000_000) }
    ensures found { IfSome result (λ found.
        text.now ≡ (decimal found.0 ++ 0x5D ∷ []) ++ drop found.1 text.now) }
    ensures len { IfSome result (λ found. found.1 ≡ length (decimal found.0 ++ 0x5D ∷ [])) }
    ensures ends { IfSome result (λ found. IsCharBoundary text.now found.1) }
    ensures none { IsNone result → (n : ℕ) → (rest : List ℕ) → n < 1_000_000_000
        → text.now ≡ decimal n ++ 0x5D ∷ rest → ⊥ }
{
    let digits = digits_len(text.as_bytes());
    if !closes(text.as_bytes(), digits) {
        return None;
    }
    match text[..digits].parse::<usize>() {
        Ok(number) => Some((number, digits + 1)),
        Err(_) => None,
    }
}

/// Whether so many digits may be an index: there are not too many, no zero comes before another digit, and the closing
/// bracket follows.
fn closes(bytes: &[u8], digits: usize) -> bool
    ensures { result ≡ closes bytes.now digits }
{
    digits <= MOST_DIGITS
        && byte_or_zero(bytes, digits) == b']'
        && (digits <= 1 || byte_or_zero(bytes, 0) != b'0')
}

/// The byte at a place, or 0 past the end.
pub(crate) fn byte_or_zero(bytes: &[u8], at: usize) -> u8
    ensures { result ≡ slice_index bytes.now at }
{
    bytes.get(at).copied().unwrap_or(0)
}

/// The number of digits at the start.
fn digits_len(bytes: &[u8]) -> usize
    ensures { result ≡ prefix_len is_ascii_digit bytes.now }
{
    bytes
        .iter()
        .take_while(|byte| byte.is_ascii_digit())
        .count()
}
