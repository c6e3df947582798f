//! How an answer is put into a buffer.
ghost use Rattle.std.specs.Prelude.{◌≡◌, ◌<◌, ◌++◌, true, false, List, ℕ, drop, length};
ghost use Rattle.keep_edit.specs.Reading.{ProfiledText};
ghost use Rattle.keep_args.specs.declared.subcommand.Ask.{Ask};
ghost use Rattle.keep_c.specs.Answer.{Answers, IsAnswer, IsReported};

use crate::fault::Fault;
use crate::numbers::{KeepTomlFault, no_fault, no_room};
use std::alloc::Global;

// Puts a text into a buffer, where it has room, and returns whether it has.
fn put_text(text: &str, out: &mut [u8], size: &mut usize) -> bool
    ensures size { size.new ≡ length text.now }
    ensures put { result ≡ true → out.new ≡ text.now ++ drop (length text.now) out.old }
    ensures kept { result ≡ false → (out.new ≡ out.old) × (length out.old < length text.now) }
{
    let bytes = text.as_bytes();
    *size = bytes.len();
    if out.len() < bytes.len() {
        return false;
    }
    out[..bytes.len()].copy_from_slice(bytes);
    true
}

// Puts the text of a fault into a buffer, where there is memory for it and room; nothing where memory was refused.
fn report(alloc: Global, fault: &Fault, out: &mut [u8], size: &mut usize)
    ensures { IsReported fault.now out.old out.new size.new }
{
    *size = 0;
    if let Fault::Memory = fault {
        return;
    }
    if let Ok(text) = format!(in alloc; "{fault}") {
        put_text(text.as_str(), out, size);
    }
}

/// Puts an answer into a buffer, with its size, or a fault with its numbers, and returns the status.
pub fn put(
    alloc: Global,
    answer: Result<String, Fault>,
    out: &mut [u8],
    size: &mut usize,
    fault: &mut KeepTomlFault,
) -> u8
    ensures { (ask : Ask) (words : List (List ℕ)) (input : ProfiledText) → Answers ask words input answer
        → IsAnswer ask words input out.old out.new size.new fault.new result }
{
    match answer {
        Ok(text) => {
            if put_text(text.as_str(), out, size) {
                *fault = no_fault();
                0
            } else {
                *fault = no_room();
                3
            }
        }
        Err(given) => {
            *fault = given.numbers();
            report(alloc, &given, out, size);
            given.status()
        }
    }
}
