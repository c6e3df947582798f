//! The keys of a path as they are written before a value, or in a header.
ghost use Rattle.std.specs.Prelude.{◌≡◌, ◌++◌, false, drop, IfOk, OnOk, string_bytes};
ghost use Rattle.std.specs.List.{list_any};
ghost use Rattle.keep_syntax.specs.Tree as tree;
ghost use Rattle.keep_path.specs.Step.{part_of};
ghost use Rattle.keep_edit_spec.specs.Insertion.{keyed_text};
ghost use Rattle.keep_edit_spec.specs.Look.{is_index, keys_in};
ghost use Rattle.keep_edit_plan.specs.Reading.{IsTextOfValue};
ghost use Rattle.keep_edit_plan.specs.Writing.{keys_between, keys_text, AddsStep};

use keep_rules::{Path, Step, ValueText};
use keep_token::push_key;
use std::alloc::AllocError;

/// Adds the keys among the steps of a path from number `from` on and before number `to`, with dots between them: each
/// bare if it can be, else as a basic string. Indexes are left out. The only error is out of memory.
pub(crate) fn push_keys(
    out: &mut String,
    path: &Path,
    from: usize,
    to: usize,
) -> Result<(), AllocError>
    ensures { OnOk result (string_bytes out.new
        ≡ string_bytes out.old ++ keys_text false (keys_between from to path.now)) }
{
    let mut dot = false;
    for number in from..to {
        let Some(step) = path.step(number) else {
            return Ok(());
        };
        dot = push_step(out, dot, step)?;
    }
    Ok(())
}

/// Adds a step if it is a key, after a dot if it is a further one. Returns whether the next key is a further one.
fn push_step(out: &mut String, dot: bool, step: &Step) -> Result<bool, AllocError>
    ensures { IfOk result (λ further. AddsStep dot further (part_of step.now) (string_bytes out.old)
        (string_bytes out.new)) }
{
    match step {
        Step::Key(text) => {
            if dot {
                out.push_str(".")?;
            }
            push_key(out, text.as_str())?;
            Ok(true)
        }
        Step::Index(_) => Ok(dot),
    }
}

/// Adds `KEYS = VALUE`, with the steps of a path from number `from` on as keys, or the value alone if there are none.
/// The only error is out of memory.
pub(crate) fn push_keyed(
    out: &mut String,
    path: &Path,
    from: usize,
    value: &ValueText,
) -> Result<(), AllocError>
    requires { list_any is_index (drop from path.now) ≡ false }
    ensures { (v : tree.Value) → IsTextOfValue value.now v
        → OnOk result (string_bytes out.new ≡ string_bytes out.old ++ keyed_text (keys_in (drop from path.now)) v) }
{
    let to = path.len();
    if from < to {
        push_keys(out, path, from, to)?;
        out.push_str(" = ")?;
    }
    out.push_str(value.as_str())?;
    Ok(())
}
