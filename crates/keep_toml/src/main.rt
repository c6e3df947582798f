//! Reads a TOML document from standard input, and answers on standard output.
#![tactic(auto)]

ghost use Rattle.std.specs.Prelude.{◌≡◌, ◌≤◌, IfOk, Result};
ghost use Rattle.keep_commands.specs.Status.{exit_status, run_status, IsFlushed};
ghost use Rattle.keep_commands.specs.declared.fault.RunFault as run_fault;
ghost use Rattle.keep_commands.specs.declared.run.Done as run_done;
ghost use Rattle.keep_cli.specs.Status.{use_status};

use keep_cli::{
    Command, Counted, Done, GivenFault, RunFault, UseFault, command_of, given_words, run,
};
use std::io::Write;
use std::process::ExitCode;
use std::{io, mem};

/// Ends with the status of the fault, 0 if there is none. A refused write to standard error ends with 3.
fn main(rt: HostRuntime) -> ExitCode {
    match status(&rt) {
        Ok(status) => ExitCode::from(status),
        Err(_) => ExitCode::from(3),
    }
}

// A status of the table.
fn status(rt: &HostRuntime) -> io::Result<u8>
    ensures { IfOk result (λ status. status ≤ 4) }
{
    let words = match given_words(rt.alloc(), rt) {
        Ok(words) => words,
        Err(GivenFault::Memory) => return refused(rt, &UseFault::Memory),
        Err(GivenFault::NotText) => {
            eprintln!(rt; "keep-toml: a word is not UTF-8")?;
            return Ok(2);
        }
    };
    match command_of(rt.alloc(), words.as_slice()) {
        Ok(command) => {
            let status = answered(rt, &command);
            // The process ends with its answer: to free a list of edits one by one would only cost time.
            mem::forget(command);
            status
        }
        Err(fault) => refused(rt, &fault),
    }
}

// Words that ask for nothing: the status of their fault.
fn refused(rt: &HostRuntime, fault: &UseFault) -> io::Result<u8>
    ensures { IfOk result (λ status. status ≡ use_status fault.now) }
{
    match fault {
        // The text of clap is alone, and ends its line.
        UseFault::Words(error) => eprint!(rt; "{error}")?,
        other => eprintln!(rt; "keep-toml: {other}")?,
    }
    Ok(fault.status())
}

// A command: the status of what came of its run. No clause can name that, which is the system's to decide: so this only
// hands it on, and what becomes of it is said below.
fn answered(rt: &HostRuntime, command: &Command) -> io::Result<u8>
    ensures { IfOk result (λ status. (ran : Result run_done.Done run_fault.RunFault) × (status ≡ exit_status ran)) }
{
    let mut input = Counted::new(rt.stdin());
    let mut output = Counted::new(rt.stdout());
    let ran = run(rt.alloc(), command, &mut input, &mut output);
    ended(rt, &flushed(ran, &mut output.into_inner()))
}

// What came of a run once its output is flushed.
fn flushed<W: Write>(ran: Result<Done, RunFault>, output: &mut W) -> Result<Done, RunFault>
    ensures { IsFlushed ran result }
{
    let done = ran?;
    match output.flush() {
        Ok(()) => Ok(done),
        Err(_) => Err(RunFault::Write {
            written: done.written,
        }),
    }
}

// The end of a run: 0 if it is done, else the status of its fault, which is reported.
fn ended(rt: &HostRuntime, ran: &Result<Done, RunFault>) -> io::Result<u8>
    ensures { IfOk result (λ status. status ≡ exit_status ran.now) }
{
    match ran {
        Ok(_) => Ok(0),
        Err(fault) => stopped(rt, fault),
    }
}

// A run that stops: the status of its fault.
fn stopped(rt: &HostRuntime, fault: &RunFault) -> io::Result<u8>
    ensures { IfOk result (λ status. status ≡ run_status fault.now) }
{
    eprintln!(rt; "keep-toml: {fault}")?;
    Ok(fault.status())
}
