//! The children of a node.
ghost use Rattle.std.specs.Prelude.{◌≡◌, ◌⊎◌, ◌<◌, ◌-◌, ◌∷◌, [], None, OnErr, OnOk, IfOk, IfSome, IfNone, false};
ghost use Rattle.std.specs.Prelude.{length, option_copied, option_map, slice_get, slice_index_or};
ghost use Rattle.std.specs.Bool.{Decides};
ghost use Rattle.std.specs.List.{remove};
ghost use Rattle.keep_index_store.specs.AllNodes.{and_key, and_item, with_key};
ghost use Rattle.keep_index_store.specs.Below.{shifted_children};
ghost use Rattle.keep_index_store.specs.ChildForms.{children_in};
ghost use Rattle.keep_index_store.specs.Children.{Keyed, holding, no_children, holds_of, named, child_ids, child_named};
ghost use Rattle.keep_index_store.specs.Children.{Bare, child_numbered};
ghost use Rattle.keep_index_store.specs.Moved.{CanMove, EndsLate, moved_children, with_last_at};
ghost use Rattle.keep_index_store.specs.Removed.{HasNoItem, earlier_children};
ghost use Rattle.keep_index_store.specs.Replacing.{CanShiftChildren};
ghost use Rattle.keep_index_store.specs.Trie.{by_key, by_index};

use crate::key_map::KeyMap;
use crate::moved::{number_then, renumber_all};
use crate::removed::renumber_earlier;
use crate::renumbering::earlier_number;
use crate::replaced::{shift_ids, shifted};
use crate::run;
use crate::seed::Seed;
use crate::shift::Shift;
use crate::stored_key::StoredKey;
use std::alloc::{AllocError, Global};
use std::marker::Model;

/// What children a node may have.
#[derive(Clone, Copy)]
pub enum Holds {
    /// A scalar: none.
    Nothing,
    /// A table: by keys.
    Keys,
    /// An array or an array of tables: items or elements.
    Items,
}

/// The only key of a table, decoded, and its child.
#[derive(Drop)]
pub struct OnlyKey {
    key: StoredKey,
    child: usize,
}

/// How the children of a node are stored.
#[derive(Drop)]
pub enum Form {
    /// At a scalar: none.
    Nothing,
    /// At a table without a key.
    NoKeys,
    /// At a table with one key, with which a look-up compares.
    OneKey(Box<OnlyKey>),
    /// At a table with more keys.
    Keys(Box<KeyMap>),
    /// At an array or an array of tables whose items are consecutive nodes, as they are while none but the last has a
    /// value in it: `len` of them from `first` on.
    Run { len: u32, first: usize },
    /// At another array or array of tables.
    Items(Box<Vec<usize>>),
}

/// A table's only key and its child.
fn one_key(alloc: Global, key: StoredKey, child: usize) -> Result<Form, AllocError>
    ensures { IfOk result (λ form. children_in form ≡ Keyed ((key, child) ∷ [])) }
{
    let only = OnlyKey { key, child };
    Ok(Form::OneKey(Box::new(alloc, only)?))
}

/// The children of a node, each by the number of its node, in the order of first meeting.
#[derive(Drop)]
pub struct Children {
    form: Form,
}

impl Model for Children {
    ghost use Rattle.keep_index_store.specs.Children.{ChildList};

    ghost Value = { ChildList };

    ghost use Rattle.keep_index_store.specs.ChildForms.{children_in, FitsIn64Bits};

    ghost view = { λ children. children_in children.form };

    ghost invariant = { λ children. FitsIn64Bits children.form };
}

impl Children {
    /// None yet. It takes no memory.
    pub fn none(holds: Holds) -> Children
        ensures { result ≡ no_children (holding holds) }
    {
        let form = match holds {
            Holds::Nothing => Form::Nothing,
            Holds::Keys => Form::NoKeys,
            Holds::Items => Form::Run { len: 0, first: 0 },
        };
        Children { form }
    }

    /// Whether the children are by keys, if there are any.
    pub fn takes_keys(&self) -> bool
        ensures { Decides result (holds_of self.now ≡ by_key) }
    {
        matches!(self.form, Form::NoKeys | Form::OneKey(_) | Form::Keys(_))
    }

    /// The child of that key.
    pub fn child(&self, text: &str) -> Option<usize>
        ensures { result ≡ child_named self.now text.now }
    {
        match &self.form {
            Form::OneKey(only) => (text == only.key.as_str()).then_some(only.child),
            Form::Keys(keys) => keys.child(text),
            _ => None,
        }
    }

    /// Adds a child by a key that has none yet. The next form is made before the keys are taken from this one, so that
    /// nothing is changed if memory runs out.
    pub fn add_key(
        &mut self,
        alloc: Global,
        seed: Seed,
        text: &str,
        child: usize,
    ) -> Result<(), AllocError>
        requires holds { holds_of self.old ≡ by_key }
        requires fresh { child_named self.old text.now ≡ None }
        ensures ok { OnOk result (self.new ≡ and_key self.old text.now child) }
        ensures err { OnErr result (self.new ≡ self.old) }
    {
        let key = StoredKey::of(alloc, text)?;
        match &mut self.form {
            Form::NoKeys => self.form = one_key(alloc, key, child)?,
            Form::OneKey(only) => {
                let first_child = only.child;
                let keys = KeyMap::two(alloc, seed, &mut only.key, first_child, key, child)?;
                self.form = Form::Keys(keys);
            }
            Form::Keys(keys) => keys.add(key, child)?,
            _ => unreachable!(),
        }
        Ok(())
    }

    /// Gives a child another key, which no child has yet. If memory runs out, nothing is changed.
    pub fn set_key(&mut self, alloc: Global, number: usize, text: &str) -> Result<(), AllocError>
        requires holds { holds_of self.old ≡ by_key }
        requires within { number < length (named self.old) }
        requires fresh { child_named self.old text.now ≡ None }
        ensures ok { OnOk result (self.new ≡ with_key self.old number text.now) }
        ensures err { OnErr result (self.new ≡ self.old) }
    {
        let key = StoredKey::of(alloc, text)?;
        match &mut self.form {
            Form::OneKey(only) => only.key = key,
            Form::Keys(keys) => keys.set_key(number, key)?,
            _ => unreachable!(),
        }
        Ok(())
    }

    /// Adds an item or an element. If memory runs out, nothing is changed.
    pub fn add_item(&mut self, alloc: Global, child: usize) -> Result<(), AllocError>
        requires { holds_of self.old ≡ by_index }
        ensures ok { OnOk result (self.new ≡ and_item self.old child) }
        ensures err { OnErr result (self.new ≡ self.old) }
    {
        match &mut self.form {
            Form::Run { len, first } => {
                if let Some(run) = run::longer(*len, *first, child) {
                    (*len, *first) = run;
                } else {
                    let items = run::with_child(alloc, *len, *first, child)?;
                    self.form = Form::Items(Box::new(alloc, items)?);
                }
            }
            Form::Items(items) => items.push(child)?,
            _ => unreachable!(),
        }
        Ok(())
    }

    /// How many there are.
    pub fn len(&self) -> usize
        ensures { result ≡ length (child_ids self.now) }
    {
        match &self.form {
            Form::Nothing | Form::NoKeys => 0,
            Form::OneKey(_) => 1,
            Form::Keys(keys) => keys.len(),
            Form::Run { len, .. } => *len as usize,
            Form::Items(items) => items.len(),
        }
    }

    /// The last item or element.
    pub fn last_item(&self) -> Option<usize>
        ensures some { IfSome result
            (λ id. (0 < length (child_ids self.now))
            × (id ≡ slice_index_or (child_ids self.now) (length (child_ids self.now) - 1) 0)) }
        ensures none { IfNone result (holds_of self.now ≡ by_index → length (child_ids self.now) ≡ 0) }
        ensures listed { IfSome result (λ id. holds_of self.now ≡ by_index) }
    {
        match &self.form {
            Form::Run { len, first } => run::last_child(*len, *first),
            Form::Items(items) => items.last().copied(),
            _ => None,
        }
    }

    /// The item or element with that number.
    pub fn item(&self, number: usize) -> Option<usize>
        ensures { result ≡ child_numbered self.now number }
    {
        match &self.form {
            Form::Run { len, first } => run::child_at(*len, *first, number),
            Form::Items(items) => items.get(number).copied(),
            _ => None,
        }
    }

    /// The child that was added after that many others.
    pub fn at(&self, number: usize) -> Option<usize>
        ensures { result ≡ slice_get (child_ids self.now) number }
    {
        match &self.form {
            Form::Nothing | Form::NoKeys => None,
            Form::OneKey(only) => (number == 0).then_some(only.child),
            Form::Keys(keys) => keys.child_at(number),
            Form::Run { len, first } => run::child_at(*len, *first, number),
            Form::Items(items) => items.get(number).copied(),
        }
    }

    /// Its key, if it has one.
    pub fn key_at(&self, number: usize) -> Option<&str>
        ensures { option_copied result ≡ option_map (λ e. e.0) (slice_get (named self.now) number) }
    {
        match &self.form {
            Form::OneKey(only) => (number == 0).then_some(only.key.as_str()),
            Form::Keys(keys) => keys.key_at(number),
            _ => None,
        }
    }

    /// Moves the child of the last key to that number among the children. It takes no memory.
    pub fn move_last_key(&mut self, to: usize)
        requires holds { holds_of self.old ≡ by_key }
        requires within { to < length (named self.old) }
        ensures { self.new ≡ Keyed (with_last_at ([], 0) (named self.old) to) }
    {
        if let Form::Keys(keys) = &mut self.form {
            keys.move_last(to);
        }
    }

    /// Whether there can be children: at a scalar there are none, and at a table without a key.
    #[inline(always)]
    fn can_have_some(&self) -> bool
        ensures { result ≡ false → (self.now ≡ Bare) ⊎ (self.now ≡ Keyed []) }
    {
        !matches!(self.form, Form::Nothing | Form::NoKeys)
    }

    /// Gives each child the number that it has once the last node, which is `last`, has the number `at`. It takes no
    /// memory.
    #[inline(always)]
    pub fn renumber(&mut self, last: usize, at: usize)
        requires { CanMove last at self.old }
        ensures { self.new ≡ moved_children last at self.old }
    {
        if self.can_have_some() {
            self.renumber_each(last, at);
        }
    }

    /// The same, where there can be children. Most nodes have none, and are passed over without this call.
    #[inline(never)]
    fn renumber_each(&mut self, last: usize, at: usize)
        requires { CanMove last at self.old }
        ensures { self.new ≡ moved_children last at self.old }
    {
        match &mut self.form {
            Form::Nothing | Form::NoKeys => {}
            Form::OneKey(only) => only.child = number_then(only.child, last, at),
            Form::Keys(keys) => keys.renumber(last, at),
            Form::Run { len, first } => *first = run::first_then(*len, *first, last, at),
            Form::Items(items) => renumber_all(items.as_mut_slice(), last, at),
        }
    }

    /// Takes away a key and its child. The others stay in their order. It takes no memory.
    pub fn remove_key(&mut self, number: usize)
        requires holds { holds_of self.old ≡ by_key }
        requires within { number < length (named self.old) }
        ensures { self.new ≡ Keyed (remove (named self.old) number) }
    {
        match &mut self.form {
            Form::OneKey(_) => self.form = Form::NoKeys,
            Form::Keys(keys) => keys.remove(number),
            _ => unreachable!(),
        }
    }

    /// Gives each child the number that it has once the node `at`, which is no item here, is gone. It takes no memory.
    #[inline(always)]
    pub fn renumber_earlier(&mut self, at: usize)
        requires apart { HasNoItem at self.old }
        requires ends { EndsLate at (child_ids self.old) }
        ensures { self.new ≡ earlier_children at self.old }
    {
        if self.can_have_some() {
            self.renumber_each_earlier(at);
        }
    }

    /// The same, where there can be children.
    #[inline(never)]
    fn renumber_each_earlier(&mut self, at: usize)
        requires apart { HasNoItem at self.old }
        requires ends { EndsLate at (child_ids self.old) }
        ensures { self.new ≡ earlier_children at self.old }
    {
        match &mut self.form {
            Form::Nothing | Form::NoKeys => {}
            Form::OneKey(only) => only.child = earlier_number(at, only.child),
            Form::Keys(keys) => keys.renumber_earlier(at),
            Form::Run { len, first } => *first = run::first_earlier(*len, *first, at),
            Form::Items(items) => renumber_earlier(items.as_mut_slice(), at),
        }
    }

    /// Moves the number of each child. It takes no memory. `by` is a reference, so that no copy of it is made for the
    /// nodes that are passed over.
    #[inline(always)]
    pub fn shift(&mut self, by: &Shift)
        requires { CanShiftChildren by.now self.old }
        ensures { self.new ≡ shifted_children by.now self.old }
    {
        if self.can_have_some() {
            self.shift_each(by);
        }
    }

    /// The same, where there can be children.
    #[inline(never)]
    fn shift_each(&mut self, by: &Shift)
        requires { CanShiftChildren by.now self.old }
        ensures { self.new ≡ shifted_children by.now self.old }
    {
        match &mut self.form {
            Form::Nothing | Form::NoKeys => {}
            Form::OneKey(only) => only.child = shifted(only.child, *by),
            Form::Keys(keys) => keys.shift(*by),
            Form::Run { len, first } => *first = run::first_shifted(*len, *first, *by),
            Form::Items(items) => shift_ids(items.as_mut_slice(), *by),
        }
    }
}
