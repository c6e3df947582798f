//! Places that are moved on with their block.
ghost use Rattle.std.specs.Prelude.{◌≡◌};
ghost use Rattle.keep_syntax_store.specs.Blocks as spec;

use keep_types::Span;

/// A place so many bytes on; past the last number it goes on at 0.
fn raised(at: usize, by: usize) -> usize
    ensures { result ≡ spec.raise_place by at }
{
    at.wrapping_add(by)
}

pub fn raised_there(at: Option<usize>, by: usize) -> Option<usize>
    ensures { result ≡ spec.raise_there by at }
{
    match at {
        Some(at) => Some(raised(at, by)),
        None => None,
    }
}

pub fn raised_span(span: Span, by: usize) -> Span
    ensures { result ≡ spec.raise_span by span }
{
    Span {
        start: raised(span.start, by),
        end: raised(span.end, by),
    }
}

/// What a block's move makes this span.
pub fn lowered_span(span: Span, block: Option<usize>) -> Span
    ensures { spec.raise_by spec.raise_span block result ≡ span }
{
    Span {
        start: lowered(span.start, block),
        end: lowered(span.end, block),
    }
}

pub fn lowered_there(at: Option<usize>, block: Option<usize>) -> Option<usize>
    ensures { spec.raise_by spec.raise_there block result ≡ at }
{
    match at {
        Some(at) => Some(lowered(at, block)),
        None => None,
    }
}

/// The place that a block's move makes this place.
pub fn lowered(at: usize, block: Option<usize>) -> usize
    ensures { spec.raise_by spec.raise_place block result ≡ at }
{
    match block {
        Some(by) => at.wrapping_sub(by),
        None => at,
    }
}
