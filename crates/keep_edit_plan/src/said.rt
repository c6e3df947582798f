//! Lines of a text that say something.
ghost use Rattle.std.specs.Prelude.{◌≡◌, ◌≤◌, IfSome, length};
ghost use Rattle.keep_edit_spec.specs.SaidLines.{begins_nothing};
ghost use Rattle.keep_edit_plan.specs.SaidSpans.{IsSaidSpan};

use crate::remove::past_space;
use keep_syntax::Span;
use memchr::memrchr;

/// The line that ends before a byte, with the line feed before it, if there is one and the line says something: what
/// comes after its white space is neither a comment nor a newline.
pub(crate) fn said_line(text: &str, at: usize) -> Option<Span>
    requires { at ≤ length text.now }
    ensures { IfSome result (IsSaidSpan text.now at) }
{
    let bytes = &text.as_bytes()[..at];
    if at == 0 || bytes[at - 1] != b'\n' {
        return None;
    }
    let start = memrchr(b'\n', &bytes[..at - 1])?;
    if begins_nothing(bytes[past_space(bytes, start + 1)]) {
        return None;
    }
    Some(Span { start, end: at })
}

/// Whether a byte begins a comment or a newline.
fn begins_nothing(byte: u8) -> bool
    ensures { result ≡ begins_nothing byte }
{
    byte == b'#' || byte == b'\n' || byte == b'\r'
}
