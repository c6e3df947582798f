//! The facts about a node, in as few bytes as its numbers allow.
ghost use Rattle.std.specs.Prelude.{◌≡◌, IfNone, IfOk, IfSome, None, OnErr, OnOk};
ghost use Rattle.keep_index_store.specs.Packed.{Fits, facts_in, short_facts, joined_short};
ghost use Rattle.keep_index_store.specs.Facts.{joined_facts};

mod dots;
mod dots_less;
mod renumbering;
mod shifting;

use crate::facts::{NodeFacts, OriginKind, later_kind, yields_to};
use keep_types::{Kind, Role};
use std::alloc::{AllocError, Global};
use std::marker::Model;

/// The largest number of 16 bits.
const SHORT: usize = 0xffff;

/// The largest number of 32 bits.
const LONG: usize = 0xffff_ffff;

/// The facts about a node but for its role and kind, with shorter numbers: in 12 bytes, so that the role and the kind
/// fit beside them into 16.
#[derive(Clone, Copy)]
pub struct ShortFacts {
    passed: bool,
    origin: OriginKind,
    marks: u16,
    key: u32,
    number: u32,
}

/// The two forms of the facts. The packed one stores shorter numbers.
#[derive(Drop)]
pub enum Form {
    Packed {
        role: Option<Role>,
        kind: Kind,
        short: ShortFacts,
    },
    Boxed(Box<NodeFacts>),
}

/// The facts about a node as they are stored: in 16 bytes while its marks fit into 16 bits, and its other numbers into
/// 32. Otherwise the 16 bytes are those of a box, which holds them unpacked.
#[derive(Drop)]
pub struct PackedFacts {
    form: Form,
}

impl Model for PackedFacts {
    ghost use Rattle.keep_index_store.specs.declared.facts.NodeFacts.{NodeFacts};
    ghost use Rattle.keep_index_store.specs.Packed.{facts_in};

    ghost Value = { NodeFacts };

    ghost view = { λ packed. facts_in packed.form };
}

impl ShortFacts {
    /// These facts, if their numbers fit.
    #[inline(always)]
    fn of(facts: &NodeFacts) -> Option<ShortFacts>
        ensures short { IfSome result (λ short. short ≡ short_facts facts.now) }
        ensures large { result ≡ None → Fits facts.now → ⊥ }
    {
        if facts.marks > SHORT || facts.key > LONG || facts.number > LONG {
            return None;
        }
        Some(ShortFacts {
            passed: facts.passed,
            origin: facts.origin,
            marks: facts.marks as u16,
            key: facts.key as u32,
            number: facts.number as u32,
        })
    }

    /// These facts joined with those from one more mention of the node, if the number of marks still fits.
    fn joined_with(self, more: ShortFacts) -> Option<ShortFacts>
        ensures { IfSome result (λ short. short ≡ joined_short self more) }
    {
        let later = if yields_to(self.origin, more.origin) {
            more
        } else {
            self
        };
        Some(ShortFacts {
            passed: self.passed || more.passed,
            origin: later.origin,
            marks: self.marks.checked_add(more.marks)?,
            key: if self.marks == 0 { more.key } else { self.key },
            number: later.number,
        })
    }
}

/// The packed form, if the numbers fit.
#[inline(always)]
fn packed_form(facts: &NodeFacts) -> Option<Form>
    ensures packed { IfSome result (λ form. facts_in form ≡ facts.now) }
    ensures large { result ≡ None → Fits facts.now → ⊥ }
{
    let short = ShortFacts::of(facts)?;
    Some(Form::Packed {
        role: facts.role,
        kind: facts.kind,
        short,
    })
}

impl PackedFacts {
    /// Packs the facts. The only error is out of memory.
    pub fn of(alloc: Global, facts: NodeFacts) -> Result<PackedFacts, AllocError>
        ensures { IfOk result (λ packed. packed ≡ facts) }
    {
        let form = match packed_form(&facts) {
            Some(form) => form,
            None => Form::Boxed(Box::new(alloc, facts)?),
        };
        Ok(PackedFacts { form })
    }

    /// The facts, unpacked.
    pub fn unpack(&self) -> NodeFacts
        ensures { result ≡ self.now }
    {
        match &self.form {
            Form::Packed { role, kind, short } => NodeFacts {
                role: *role,
                kind: *kind,
                passed: short.passed,
                origin: short.origin,
                marks: short.marks as usize,
                key: short.key as usize,
                number: short.number as usize,
            },
            Form::Boxed(facts) => **facts,
        }
    }

    /// Joins the facts from one more mention of the node to these; its role is now this one. If memory runs out,
    /// nothing is changed.
    pub fn join(
        &mut self,
        alloc: Global,
        role: Option<Role>,
        more: NodeFacts,
    ) -> Result<(), AllocError>
        ensures ok { OnOk result (self.new ≡ record (joined_facts self.old more) { role = role }) }
        ensures err { OnErr result (self.new ≡ self.old) }
    {
        match self.join_packed(role, &more) {
            Some(()) => Ok(()),
            None => self.join_unpacked(alloc, role, more),
        }
    }

    /// These facts joined with those from one more mention of the node, as they are stored. The only error is out of
    /// memory.
    pub fn joined(&self, alloc: Global, more: NodeFacts) -> Result<PackedFacts, AllocError>
        ensures { IfOk result (λ joined. joined ≡ joined_facts self.now more) }
    {
        PackedFacts::of(alloc, self.unpack().joined_with(more))
    }

    /// Joins further facts in the packed form, in place; None, if a number does not fit: then nothing is changed.
    fn join_packed(&mut self, role: Option<Role>, more: &NodeFacts) -> Option<()>
        ensures facts { IfSome result (λ _. self.new ≡ record (joined_facts self.old more.now) { role = role }) }
        ensures unchanged { IfNone result (self.new ≡ self.old) }
    {
        let more_short = ShortFacts::of(more)?;
        let Form::Packed {
            role: state,
            kind,
            short,
        } = &mut self.form
        else {
            return None;
        };
        *short = short.joined_with(more_short)?;
        *state = role;
        *kind = later_kind(*kind, more.kind);
        Some(())
    }

    /// Joins further facts by unpacking these. A function of its own, since it is rare. If memory runs out, nothing is
    /// changed.
    #[inline(never)]
    fn join_unpacked(
        &mut self,
        alloc: Global,
        role: Option<Role>,
        more: NodeFacts,
    ) -> Result<(), AllocError>
        ensures ok { OnOk result (self.new ≡ record (joined_facts self.old more) { role = role }) }
        ensures err { OnErr result (self.new ≡ self.old) }
    {
        let joined = self.unpack().joined_with(more);
        self.set(alloc, NodeFacts { role, ..joined })
    }

    /// Stores these facts in place of the old ones, in the box if there is one. If memory runs out, nothing is changed.
    fn set(&mut self, alloc: Global, facts: NodeFacts) -> Result<(), AllocError>
        ensures ok { OnOk result (self.new ≡ facts) }
        ensures err { OnErr result (self.new ≡ self.old) }
    {
        if let Form::Boxed(old) = &mut self.form {
            **old = facts;
        } else {
            *self = PackedFacts::of(alloc, facts)?;
        }
        Ok(())
    }

    /// Gives the node another kind, in the form that is there, so that it takes no memory.
    pub fn set_kind(&mut self, kind: Kind)
        ensures { self.new ≡ record self.old { kind = kind } }
    {
        match &mut self.form {
            Form::Packed { kind: stored, .. } => *stored = kind,
            Form::Boxed(facts) => facts.kind = kind,
        }
    }

    /// The role that represents those of the marks at the node, if there are any.
    pub fn role(&self) -> Option<Role>
        ensures { result ≡ self.now.role }
    {
        match &self.form {
            Form::Packed { role, .. } => *role,
            Form::Boxed(facts) => facts.role,
        }
    }
}
