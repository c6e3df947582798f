//! Questions about the syntax of a document, or of a value alone.
use crate::row::{Answer, Row, unknown};
use keep_syntax::{Limits, ReadFault, Syntax, Tokens, ValueSyntax};
use std::alloc::{AllocError, Global};
use std::fmt::Write;

/// The words are a text and the limits. A text that can't be read is answered by its fault.
pub fn answer(alloc: Global, row: &Row) -> Answer {
    let text = row.text(0);
    let limits = row.limits(1);
    match row.question() {
        "tokens" => tokens(alloc, text, limits),
        "alone" => alone(alloc, ValueSyntax::read(alloc, text, limits)),
        "depth" => depth(alloc, ValueSyntax::read(alloc, text, limits)),
        question => document(alloc, question, Syntax::read(alloc, text, limits)),
    }
}

// The tokens, each on its line: its kind, its place and its text.
fn tokens(alloc: Global, text: &str, limits: Limits) -> Answer {
    match Syntax::read(alloc, text, limits) {
        Ok(syntax) => token_lines(alloc, syntax.tokens(text)),
        Err(fault) => fault.to_string(alloc),
    }
}

fn token_lines(alloc: Global, tokens: Tokens<'_>) -> Answer {
    let mut out = String::new(alloc);
    push_tokens(&mut out, tokens)?;
    Ok(out)
}

/// Writes tokens, each on its line: its kind, its place and its text.
pub fn push_tokens(out: &mut String, tokens: Tokens<'_>) -> Result<(), AllocError> {
    for token in tokens {
        writeln!(out, "{:?} {} {}", token.leaf, token.at, token.text)?;
    }
    Ok(())
}

fn document(alloc: Global, question: &str, syntax: Result<Syntax, ReadFault>) -> Answer {
    match syntax {
        Ok(syntax) => report_of(alloc, question, &syntax),
        Err(fault) => fault.to_string(alloc),
    }
}

/// What is known of a syntax: `counts`, `statements`, `keys` or `values`.
pub fn report_of(alloc: Global, question: &str, syntax: &Syntax) -> Answer {
    match question {
        "counts" => format!(in alloc; "{}", syntax.token_count()),
        "statements" => statements(alloc, syntax),
        "keys" => keys(alloc, syntax),
        "values" => values(alloc, syntax),
        _ => unknown(alloc),
    }
}

fn statements(alloc: Global, syntax: &Syntax) -> Answer {
    let mut out = String::new(alloc);
    for number in 0..syntax.statement_count() {
        writeln!(out, "{:?}", syntax.statement(number))?;
    }
    Ok(out)
}

fn keys(alloc: Global, syntax: &Syntax) -> Answer {
    let mut out = String::new(alloc);
    for number in 0..syntax.key_count() {
        writeln!(out, "{:?}", syntax.key_part(number))?;
    }
    Ok(out)
}

fn values(alloc: Global, syntax: &Syntax) -> Answer {
    let mut out = String::new(alloc);
    for number in 0..syntax.value_count() {
        writeln!(out, "{:?}", syntax.value(number))?;
    }
    Ok(out)
}

// The key parts and the values of a value that is alone.
fn alone(alloc: Global, syntax: Result<ValueSyntax, ReadFault>) -> Answer {
    match syntax {
        Ok(syntax) => alone_lines(alloc, &syntax),
        Err(fault) => fault.to_string(alloc),
    }
}

fn alone_lines(alloc: Global, syntax: &ValueSyntax) -> Answer {
    let mut out = String::new(alloc);
    push_keys(&mut out, syntax)?;
    push_values(&mut out, syntax)?;
    Ok(out)
}

fn push_keys(out: &mut String, syntax: &ValueSyntax) -> Result<(), AllocError> {
    for number in 0..syntax.key_count() {
        writeln!(out, "{:?}", syntax.key_part(number))?;
    }
    Ok(())
}

fn push_values(out: &mut String, syntax: &ValueSyntax) -> Result<(), AllocError> {
    for number in 0..syntax.value_count() {
        writeln!(out, "{:?}", syntax.value(number))?;
    }
    Ok(())
}

// How deep arrays and inline tables enclose one another in a value that is alone.
fn depth(alloc: Global, syntax: Result<ValueSyntax, ReadFault>) -> Answer {
    match syntax {
        Ok(syntax) => format!(in alloc; "{}", syntax.depth()),
        Err(fault) => fault.to_string(alloc),
    }
}
