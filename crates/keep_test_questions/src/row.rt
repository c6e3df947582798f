//! A row: cells with tabs between them, in which `\n`, `\r`, `\t`, `\\` and `\xHH` (a byte by two hexadecimal digits)
//! stand for bytes, and `\e` for nothing.
use keep_syntax::Limits;
use std::alloc::{AllocError, Global};

/// An answer; the only error is out of memory.
pub type Answer = Result<String, AllocError>;

/// The cells of a row: its name, the answer that is wanted, a group, a question of that group, and then its words.
#[derive(Drop)]
pub struct Row {
    cells: Vec<Vec<u8>>,
}

impl Row {
    /// The cells of a line.
    pub fn read(alloc: Global, line: &str) -> Result<Row, AllocError> {
        let mut cells = Vec::new(alloc);
        for cell in line.split('\t') {
            push_cell(&mut cells, bytes_of(alloc, cell))?;
        }
        Ok(Row { cells })
    }

    fn cell(&self, number: usize) -> &[u8] {
        match self.cells.get(number) {
            Some(cell) => cell.as_slice(),
            None => &[],
        }
    }

    fn text_in(&self, number: usize) -> &str {
        str::from_utf8(self.cell(number)).unwrap_or_default()
    }

    pub fn name(&self) -> &str {
        self.text_in(0)
    }

    /// The answer that is wanted.
    pub fn wanted(&self) -> &[u8] {
        self.cell(1)
    }

    pub fn group(&self) -> &str {
        self.text_in(2)
    }

    pub fn question(&self) -> &str {
        self.text_in(3)
    }

    /// How many words there are.
    pub fn word_count(&self) -> usize {
        self.cells.len().saturating_sub(4)
    }

    /// The bytes of the word with this number, from 0; none if there is no such word.
    pub fn bytes(&self, word: usize) -> &[u8] {
        self.cell(word.saturating_add(4))
    }

    /// The text of the word with this number, from 0; empty if it is not UTF-8 or there is no such word.
    pub fn text(&self, word: usize) -> &str {
        self.text_in(word.saturating_add(4))
    }

    /// The number that a word tells in decimal; the largest if it tells none.
    pub fn number(&self, word: usize) -> usize {
        self.text(word).parse::<usize>().unwrap_or(usize::MAX)
    }

    /// The limits that a word names: `strict`, `wide`, or `flat` for the strict ones to a depth of 0.
    pub fn limits(&self, word: usize) -> Limits {
        match self.text(word) {
            "wide" => Limits::WIDE,
            "flat" => Limits {
                depth: 0,
                ..Limits::STANDARD
            },
            _ => Limits::STANDARD,
        }
    }
}

/// The answer to a question that there is not.
pub fn unknown(alloc: Global) -> Answer {
    String::from_str(alloc, "no such question")
}

// What was read of an escape so far.
#[derive(Clone, Copy)]
enum Escape {
    None,
    Begun,
    Hex,
    Digit(u8),
}

fn push_cell(
    cells: &mut Vec<Vec<u8>>,
    cell: Result<Vec<u8>, AllocError>,
) -> Result<(), AllocError> {
    Ok(cells.push(cell?)?)
}

// The bytes that a cell stands for.
fn bytes_of(alloc: Global, cell: &str) -> Result<Vec<u8>, AllocError> {
    let mut bytes = Vec::new(alloc);
    let mut escape = Escape::None;
    for &byte in cell.as_bytes() {
        escape = after_byte(&mut bytes, escape, byte)?;
    }
    Ok(bytes)
}

fn after_byte(bytes: &mut Vec<u8>, escape: Escape, byte: u8) -> Result<Escape, AllocError> {
    match (escape, byte) {
        (Escape::None, b'\\') => Ok(Escape::Begun),
        (Escape::Begun, b'x') => Ok(Escape::Hex),
        (Escape::Begun, b'e') => Ok(Escape::None),
        (Escape::Hex, digit) => Ok(Escape::Digit(value_of(digit))),
        (Escape::None, byte) => pushed(bytes, byte),
        (Escape::Begun, byte) => pushed(bytes, escaped(byte)),
        (Escape::Digit(high), digit) => pushed(bytes, high << 4 | value_of(digit)),
    }
}

fn pushed(bytes: &mut Vec<u8>, byte: u8) -> Result<Escape, AllocError> {
    bytes.push(byte)?;
    Ok(Escape::None)
}

// The byte that a letter after a backslash stands for.
fn escaped(byte: u8) -> u8 {
    match byte {
        b'n' => b'\n',
        b'r' => b'\r',
        b't' => b'\t',
        other => other,
    }
}

fn value_of(digit: u8) -> u8 {
    match digit {
        b'0'..=b'9' => digit - b'0',
        b'a'..=b'f' => digit - b'a' + 10,
        b'A'..=b'F' => digit - b'A' + 10,
        _ => 0,
    }
}
