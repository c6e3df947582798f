//! Runs over readers and writers that answer little at a time, fail, or never end. tests/rows shows the answers.
ghost use Rattle.keep_commands.specs.Counted.{IsFresh};

use keep_commands::command::Command;
use keep_commands::counted::Counted;
use keep_commands::fault::RunFault;
use keep_commands::run::{Done, run};
use keep_edit::{Edit, Path, PathFault, ReadFault, ValueText};
use std::alloc::{AllocError, Global};
use std::io;
use std::io::{ErrorKind, Read, Write};
use std::test::Fail;

// A reader of these bytes, at most `step` a call, which fails at the call `fails_at`.
#[derive(Drop)]
struct Steps<'a> {
    bytes: &'a [u8],
    step: usize,
    turn: u64,
    fails_at: Option<(u64, ErrorKind)>,
}

impl Read for Steps<'_> {
    fn read(&mut self, buf: &mut [u8]) -> io::Result<usize> {
        let turn = self.turn;
        self.turn = turn.saturating_add(1);
        if let Some((fails_at, kind)) = self.fails_at
            && fails_at == turn
        {
            return Err(io::Error::from(kind));
        }
        let count = self.step.min(buf.len()).min(self.bytes.len());
        let (prefix, rest) = self.bytes.split_at(count);
        buf[..count].copy_from_slice(prefix);
        self.bytes = rest;
        Ok(count)
    }
}

// A reader of spaces that ends after `left` of them, or never.
#[derive(Drop)]
struct Spaces {
    left: Option<usize>,
}

impl Read for Spaces {
    fn read(&mut self, buf: &mut [u8]) -> io::Result<usize> {
        let count = buf.len().min(self.left.unwrap_or(usize::MAX));
        buf[..count].fill(b' ');
        self.left = self.left.map(|left| left.saturating_sub(count));
        Ok(count)
    }
}

// A writer that takes at most `step` bytes a call, and fails at the call `fails_at`.
#[derive(Drop)]
struct Sink {
    taken: Vec<u8>,
    step: usize,
    call: u64,
    fails_at: Option<u64>,
}

impl Write for Sink {
    fn write(&mut self, buf: &[u8]) -> io::Result<usize> {
        let call = self.call;
        self.call = call.saturating_add(1);
        if self.fails_at == Some(call) {
            return Err(io::Error::from(ErrorKind::BrokenPipe));
        }
        let count = self.step.min(buf.len());
        self.taken.extend_from_slice(&buf[..count])?;
        Ok(count)
    }

    fn flush(&mut self) -> io::Result<()> {
        Ok(())
    }
}

// A writer that takes all, and puts a bar after what it is given in each call.
#[derive(Drop)]
struct Bars {
    taken: Vec<u8>,
}

impl Write for Bars {
    fn write(&mut self, buf: &[u8]) -> io::Result<usize> {
        self.taken.extend_from_slice(buf)?;
        self.taken.push(b'|')?;
        Ok(buf.len())
    }

    fn flush(&mut self) -> io::Result<()> {
        Ok(())
    }
}

fn make_steps(bytes: &[u8], step: usize, fails_at: Option<(u64, ErrorKind)>) -> Counted<Steps<'_>>
    ensures { IsFresh result }
{
    Counted::new(Steps {
        bytes,
        step,
        turn: 0,
        fails_at,
    })
}

fn make_spaces(left: Option<usize>) -> Counted<Spaces>
    ensures { IsFresh result }
{
    Counted::new(Spaces { left })
}

fn make_sink(alloc: Global, step: usize, fails_at: Option<u64>) -> Counted<Sink>
    ensures { IsFresh result }
{
    Counted::new(Sink {
        taken: Vec::new(alloc),
        step,
        call: 0,
        fails_at,
    })
}

fn make_bars(alloc: Global) -> Counted<Bars>
    ensures { IsFresh result }
{
    Counted::new(Bars {
        taken: Vec::new(alloc),
    })
}

// Fails unless a text is the one that is wanted.
fn same(found: &str, wanted: &str) -> Result<(), Fail> {
    if found == wanted {
        return Ok(());
    }
    Err(Fail::new(format_args!("{found:?}, not {wanted:?}")))
}

// What came of a run: the bytes that it tells to have written or its fault, the reads of the input and the calls of the
// output and whether one of them failed, and what the output took.
fn report_of(
    alloc: Global,
    ran: Result<Done, RunFault>,
    input: (u64, bool),
    output: Counted<Sink>,
) -> Result<String, Fail> {
    let (reads, has_failed) = input;
    let calls = (output.calls(), output.failed());
    let taken = output.into_inner().taken;
    let text = str::from_utf8(taken.as_slice())?;
    let end = end_of(alloc, ran)?;
    let (calls, is_refused) = calls;
    Ok(format!(in alloc; "{end}; {reads} {has_failed}; {calls} {is_refused}; {text}")?)
}

fn end_of(alloc: Global, ran: Result<Done, RunFault>) -> Result<String, AllocError> {
    match ran {
        Ok(done) => format!(in alloc; "wrote {}", done.written),
        Err(fault) => fault.to_string(alloc),
    }
}

fn run_over<R: Read + Drop>(
    alloc: Global,
    command: &Command,
    mut input: Counted<R>,
    mut output: Counted<Sink>,
) -> Result<String, Fail>
    requires input { IsFresh input }
    requires output { IsFresh output }
{
    let ran = run(alloc, command, &mut input, &mut output);
    report_of(alloc, ran, (input.calls(), input.failed()), output)
}

// Fails unless a run of this command comes to what is wanted.
fn comes_to<R: Read + Drop>(
    alloc: Global,
    command: Result<Command, Fail>,
    input: Counted<R>,
    output: Counted<Sink>,
    wanted: &str,
) -> Result<(), Fail>
    requires input { IsFresh input }
    requires output { IsFresh output }
{
    let command = command?;
    let stated = run_over(alloc, &command, input, output)?;
    same(stated.as_str(), wanted)
}

#[test]
fn an_error_of_any_kind_at_any_call_is_reported(rt: HostRuntime) -> Result<(), Fail> {
    const KINDS: &[ErrorKind] = &[
        ErrorKind::Interrupted,
        ErrorKind::WouldBlock,
        ErrorKind::UnexpectedEof,
        ErrorKind::OutOfMemory,
        ErrorKind::Other,
    ];
    for &kind in KINDS {
        for turn in 0..8u64 {
            let input = make_steps(b"a = 1 #", 1, Some((turn, kind)));
            let output = make_sink(rt.alloc(), 1, None);
            let wanted = format!(in rt.alloc(); "read failed; {} true; 0 false; ", turn + 1)?;
            comes_to(
                rt.alloc(),
                Ok(Command::Check),
                input,
                output,
                wanted.as_str(),
            )?;
        }
    }
    Ok(())
}

#[test]
fn inputs_may_come_in_pieces(rt: HostRuntime) -> Result<(), Fail> {
    const CASES: &[(&[u8], usize, Option<(u64, ErrorKind)>, &str)] = &[
        (
            b"a=1",
            1,
            None,
            "wrote 20; 4 false; 1 false; ok tokens=4 nodes=2\n",
        ),
        (
            b"a = 1\n",
            6,
            None,
            "wrote 20; 2 false; 1 false; ok tokens=7 nodes=2\n",
        ),
        (
            b"\xff",
            1,
            Some((1, ErrorKind::Interrupted)),
            "read failed; 2 true; 0 false; ",
        ),
    ];
    for &(bytes, step, fails_at, wanted) in CASES {
        let input = make_steps(bytes, step, fails_at);
        let output = make_sink(rt.alloc(), 100, None);
        comes_to(rt.alloc(), Ok(Command::Check), input, output, wanted)?;
    }
    Ok(())
}

#[test]
fn inputs_may_be_as_long_as_the_limit(rt: HostRuntime) -> Result<(), Fail> {
    const TOO_LONG: &str = "input longer than 16777216 bytes; 257 false; 0 false; ";
    const CASES: &[(Option<usize>, &str)] = &[
        (None, TOO_LONG),
        (
            Some(16_777_216),
            "wrote 20; 258 false; 1 false; ok tokens=2 nodes=1\n",
        ),
        (Some(16_777_217), TOO_LONG),
    ];
    for &(left, wanted) in CASES {
        let output = make_sink(rt.alloc(), 100, None);
        comes_to(
            rt.alloc(),
            Ok(Command::Check),
            make_spaces(left),
            output,
            wanted,
        )?;
    }
    Ok(())
}

// `get` of a path, or `list` without one.
fn asked(alloc: Global, path: Option<&str>) -> Result<Command, Fail> {
    match path {
        Some(path) => Ok(Command::Get(Path::read(alloc, path)?)),
        None => Ok(Command::List),
    }
}

#[test]
fn outputs_may_take_little_or_fail(rt: HostRuntime) -> Result<(), Fail> {
    const CASES: &[(Option<&str>, &[u8], usize, Option<u64>, &str)] = &[
        (
            Some("a"),
            b"a = 12",
            1,
            None,
            "wrote 3; 2 false; 3 false; 12\n",
        ),
        (
            Some("a"),
            b"a = 12",
            1,
            Some(0),
            "write failed after 0 bytes; 2 false; 1 true; ",
        ),
        (
            Some("a"),
            b"a = 12",
            1,
            Some(1),
            "write failed after 1 bytes; 2 false; 2 true; 1",
        ),
        (
            Some("a"),
            b"a = 12",
            1,
            Some(2),
            "write failed after 2 bytes; 2 false; 3 true; 12",
        ),
        (
            Some("a"),
            b"a = 12",
            0,
            None,
            "write failed after 0 bytes; 2 false; 1 true; ",
        ),
        (
            None,
            b"a = 1",
            0,
            None,
            "write failed after 0 bytes; 2 false; 1 true; ",
        ),
        (None, b"", 0, Some(0), "wrote 0; 1 false; 0 false; "),
        (
            Some("c"),
            b"a = 1",
            0,
            Some(0),
            "edit 0: NotFound; 2 false; 0 false; ",
        ),
    ];
    for &(path, bytes, step, fails_at, wanted) in CASES {
        let input = make_steps(bytes, 100, None);
        let output = make_sink(rt.alloc(), step, fails_at);
        comes_to(rt.alloc(), asked(rt.alloc(), path), input, output, wanted)?;
    }
    Ok(())
}

// The command that sets these paths to these values in turn.
fn sets(alloc: Global, edits: &[(&str, &str)]) -> Result<Command, Fail> {
    let mut made = Vec::new(alloc);
    for &(path, value) in edits {
        push_set(
            &mut made,
            Path::read(alloc, path),
            ValueText::read(alloc, value),
        )?;
    }
    Ok(Command::Apply(made))
}

fn push_set(
    edits: &mut Vec<Edit>,
    path: Result<Path, PathFault>,
    value: Result<ValueText, ReadFault>,
) -> Result<(), Fail> {
    let path = path?;
    edits.push(Edit::Set(path, value?))?;
    Ok(())
}

// The words of the program tell one edit alone, so these are no rows over it.
#[test]
fn edits_are_made_in_order(rt: HostRuntime) -> Result<(), Fail> {
    const CASES: &[(&str, &[(&str, &str)], &str)] = &[
        ("", &[], "wrote 0; 1 false; 0 false; "),
        (
            "a = 1 # x\r\n[t]",
            &[],
            "wrote 14; 2 false; 1 false; a = 1 # x\r\n[t]",
        ),
        ("a =", &[], "syntax at 3: Word; 2 false; 0 false; "),
        (
            "a = 1 # x\nb = 2\n",
            &[("a", "[1, 2]"), ("b", "true"), ("a[1]", "{x = 3}")],
            "wrote 30; 2 false; 1 false; a = [1, {x = 3}] # x\nb = true\n",
        ),
        (
            "a = 1\n",
            &[("a", "2"), ("q", "1"), ("", "1")],
            "edit 1: NotFound; 2 false; 0 false; ",
        ),
    ];
    for &(text, edits, wanted) in CASES {
        let input = make_steps(text.as_bytes(), 100, None);
        let output = make_sink(rt.alloc(), 100, None);
        comes_to(rt.alloc(), sets(rt.alloc(), edits), input, output, wanted)?;
    }
    Ok(())
}

// What a run of a command over a text writes, with a bar after each call.
fn pieces_of(alloc: Global, command: Result<Command, Fail>, text: &str) -> Result<String, Fail> {
    let command = command?;
    let mut output = make_bars(alloc);
    run(
        alloc,
        &command,
        &mut make_steps(text.as_bytes(), 100, None),
        &mut output,
    )?;
    let taken = output.into_inner().taken;
    Ok(String::from_utf8(taken)?)
}

// The text before what an edit writes, that, and the text after it; what is empty is not written. After edits that are
// made at once the text is one piece.
#[test]
fn an_edited_text_is_written_in_pieces(rt: HostRuntime) -> Result<(), Fail> {
    const CASES: &[(&str, &[(&str, &str)], &str)] = &[
        ("a = 1 # x\n", &[("a", "[1, 2]")], "a = |[1, 2]| # x\n|"),
        ("a = 1", &[("a", "true")], "a = |true|"),
        (
            "a = 1\nb = 2\nc = 3\n",
            &[("a", "'x'"), ("b", "{y = 3}")],
            "a = 'x'\nb = {y = 3}\nc = 3\n|",
        ),
        ("a = 1 # x\r\n", &[], "a = 1 # x\r\n|"),
        ("", &[], ""),
    ];
    for &(text, edits, wanted) in CASES {
        let pieces = pieces_of(rt.alloc(), sets(rt.alloc(), edits), text)?;
        same(pieces.as_str(), wanted)?;
    }
    Ok(())
}
