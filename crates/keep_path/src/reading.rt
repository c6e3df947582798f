//! The key parts and the steps that begin texts of paths.
ghost use Rattle.std.specs.Prelude.{◌≡◌, IfOk, IfSome, IsNone, None, IsCharBoundary, string_bytes};
ghost use Rattle.keep_types.specs.declared.leaf.Profile.TheVariants.{Strict};
ghost use Rattle.keep_token.specs.Scanning.{key_at};
ghost use Rattle.keep_path.specs.PathReading.{KeyFound, KeyRead, KeysWithin, NoSteps, StepRead, StepsGoOn};
ghost use Rattle.keep_path.specs.Step.{part_of};

use crate::index_text::{byte_or_zero, read_index};
use crate::step::Step;
use keep_token::{Profile, decode_string, scan_key};
use std::alloc::{AllocError, Global};

/// The key part at the start, decoded, and its length; None where no key part is there. The only error is out of
/// memory.
pub(crate) fn read_key(alloc: Global, text: &str) -> Result<Option<(String, usize)>, AllocError>
    ensures found { IfOk result (λ read. IfSome read (λ found. KeyRead text.now (string_bytes found.0) found.1)) }
    ensures ends { IfOk result (λ read. IfSome read (λ found. IsCharBoundary text.now found.1)) }
    ensures longest { IfOk result (λ read. IfSome read (λ found. KeysWithin text.now found.1)) }
    ensures none { IfOk result (λ read. IsNone read → KeysWithin text.now 0) }
{
    let Ok((leaf, len)) = scan_key(text, 0, Profile::Strict) else {
        return Ok(None);
    };
    let key = decode_string(alloc, leaf, &text[..len])?;
    Ok(Some((key, len)))
}

/// The length of the key part at the start; None where no key part is there. It takes no memory.
pub(crate) fn key_len(text: &str) -> Option<usize>
    ensures found { IfSome result (λ len. KeyFound text.now len) }
    ensures ends { IfSome result (λ len. IsCharBoundary text.now len) }
    ensures none { IsNone result → key_at Strict text.now ≡ None }
{
    match scan_key(text, 0, Profile::Strict) {
        Ok((_, len)) => Some(len),
        Err(_) => None,
    }
}

/// The step at the start, as it is written after other steps, and its length: a dot and a key part, or an index in
/// brackets. None where neither is there. The only error is out of memory.
pub(crate) fn read_step(alloc: Global, text: &str) -> Result<Option<(Step, usize)>, AllocError>
    ensures found { IfOk result (λ read. IfSome read (λ found. StepRead text.now (part_of found.0) found.1)) }
    ensures ends { IfOk result (λ read. IfSome read (λ found. IsCharBoundary text.now found.1)) }
    ensures on { IfOk result (λ read. IfSome read (λ found. StepsGoOn text.now found.1)) }
    ensures none { IfOk result (λ read. IsNone read → NoSteps text.now) }
{
    match byte_or_zero(text.as_bytes(), 0) {
        b'.' => match read_key(alloc, &text[1..])? {
            Some((key, len)) => Ok(Some((Step::Key(key), len + 1))),
            None => Ok(None),
        },
        b'[' => match read_index(&text[1..]) {
            Some((index, len)) => Ok(Some((Step::Index(index), len + 1))),
            None => Ok(None),
        },
        _ => Ok(None),
    }
}
