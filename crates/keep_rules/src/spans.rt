//! Where key parts and values are in the text, by their numbers.
ghost use Rattle.std.specs.Prelude.{◌≡◌};
ghost use Rattle.keep_syntax.specs.Contract.{parts_of, values_of};
ghost use Rattle.keep_meaning.specs.Nodes.{key_span, value_span};

use keep_syntax::{Span, Syntax};

/// Where the key part with that number is; None if there are not so many.
pub fn key_span_at(syntax: &Syntax, number: usize) -> Option<Span>
    ensures { result ≡ key_span (parts_of syntax.now) number }
{
    if number < syntax.key_count() {
        Some(syntax.key_part(number).span)
    } else {
        None
    }
}

/// Where the value with that number is; None if there are not so many.
pub fn value_span_at(syntax: &Syntax, number: usize) -> Option<Span>
    ensures { result ≡ value_span (values_of syntax.now) number }
{
    if number < syntax.value_count() {
        Some(syntax.value(number).span)
    } else {
        None
    }
}
