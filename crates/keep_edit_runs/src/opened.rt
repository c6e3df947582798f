//! Values that a list of edits comes back to, with the places of their entries: an entry comes or goes without a
//! reading.
ghost use Rattle.std.specs.Prelude.{◌≡◌, ℕ, IfSome, slice_get};
ghost use Rattle.keep_types.specs.declared.leaf.Profile.{Profile};
ghost use Rattle.keep_path.specs.Path.{AreUtf8};
ghost use Rattle.keep_path.specs.Step.{part_of};
ghost use Rattle.keep_edit_runs.specs.ValueAfter.{EndsInStep, MakesValue};

use keep_edit_plan::{Edit, OpenValue};
use keep_rules::{Path, Step, ValueText};
use std::alloc::Global;
use std::collections::HashMap;

/// Values as the edits so far have made them, each by the byte at which it begins in the text before them.
#[derive(Drop)]
pub struct OpenValues {
    values: HashMap<usize, OpenValue>,
}

impl OpenValues {
    /// No values yet. It takes no memory.
    pub fn new(alloc: Global) -> OpenValues {
        OpenValues {
            values: HashMap::new(alloc),
        }
    }

    /// What an insert or a remove of an entry makes of the value with this text, which begins at this byte. None for
    /// any other edit, where the places of the entries don't tell it, and where memory was refused.
    pub fn after(
        &mut self,
        alloc: Global,
        start: usize,
        text: &str,
        edit: &Edit,
    ) -> Option<ValueText>
        ensures { (profile : Profile) → IfSome result (λ value. MakesValue profile text.now edit.now value) }
    {
        if !comes_or_goes(edit) {
            return None;
        }
        let was = self.take(alloc, start, text)?;
        let now = edited(was, edit)?;
        let value = now.value(alloc).ok()?;
        self.values.insert(start, now).ok()?;
        Some(value)
    }

    /// That value, taken out of these, or read if it is none of them. None where it is a scalar, or none of TOML
    /// v1.0.0, and where memory was refused.
    fn take(&mut self, alloc: Global, start: usize, text: &str) -> Option<OpenValue>
        ensures { IfSome result (λ value. value ≡ text.now) }
    {
        if let Some(value) = self.values.remove(&start) {
            if value.as_str() == text {
                return Some(value);
            }
        }
        OpenValue::read(alloc, text)
    }
}

/// Whether an edit inserts or removes what is at its path.
fn comes_or_goes(edit: &Edit) -> bool {
    matches!(edit, Edit::Insert(_, _) | Edit::Remove(_))
}

/// The value after an edit of an entry of it.
fn edited(value: OpenValue, edit: &Edit) -> Option<OpenValue>
    ensures { (profile : Profile) → IfSome result (λ now. MakesValue profile value edit.now now) }
{
    match edit {
        Edit::Insert(path, new) => match last_step(path)? {
            Step::Index(number) => value.with_item(*number, new),
            Step::Key(name) => value.with_keyval(name.as_str(), new),
        },
        Edit::Remove(path) => value.without_entry(last_step(path)?),
        _ => None,
    }
}

/// The last step of a path; None where it has none.
fn last_step(path: &Path) -> Option<&Step>
    ensures last { IfSome result (λ step. EndsInStep path.now (part_of step.now)) }
    ensures utf8 { AreUtf8 path.now }
{
    let last = path.len().checked_sub(1)?;
    let step = path.step(last)?;
    Some(step)
}
