//! Reading one value alone, and what is known of it then.
ghost use Rattle.std.specs.Prelude.{◌≡◌, ℕ, ◌<◌, List, length, slice_get, IfOk, IfErr, MatchResult};
ghost use Rattle.std.specs.List.{AllByRecursion};
ghost use Rattle.keep_types.specs.declared.leaf.Profile.{Profile};
ghost use Rattle.keep_syntax.specs.declared.fault.ReadFault.TheVariants.{Memory};
ghost use Rattle.keep_syntax.specs.Tree.{Value, value_depth};
ghost use Rattle.keep_syntax.specs.Grammar.{ReadsValue};
ghost use Rattle.keep_syntax.specs.Nesting.{IsWithin};
ghost use Rattle.keep_syntax.specs.Contract as spec;

use crate::depth::deepest;
use crate::fault::ReadFault;
use crate::info::Limits;
use crate::whole::read_one;
use keep_syntax_store::Parts;
use keep_types::{KeyPart, ValueInfo};
use std::alloc::Global;

/// What was read of one value: its key parts and values, each in text order. The value itself has the number 0, and
/// places are bytes from its start.
#[derive(Drop)]
pub struct ValueSyntax {
    parts: Parts,
    depth: u16,
}

impl ValueSyntax {
    /// Reads one value and nothing else. (toml.abnf: `val`)
    ///
    /// # Errors
    ///
    /// `Syntax` if the text is no value, `TooDeep` if more brackets are open than the limit allows, whichever is met
    /// first, and `Memory`.
    pub fn read(alloc: Global, text: &str, limits: Limits) -> Result<ValueSyntax, ReadFault>
        ensures found { IfOk result (spec.IsReadAlone limits.profile limits.depth text.now) }
        ensures only { (v : Value) → ReadsValue limits.profile limits.depth text.now v
            → MatchResult result (λ s. spec.IsValueSyntaxOf s v) (λ e. e ≡ Memory) }
        ensures faults { IfErr result (spec.IsValueFaultOf limits.profile limits.depth text.now) }
        ensures within { IfOk result (λ s. AllByRecursion (IsWithin limits.depth) (spec.value_values_of s)) }
    {
        let parts = read_one(alloc, text, limits)?;
        let depth = deepest(&parts, limits.depth);
        Ok(ValueSyntax { parts, depth })
    }

    /// How deep arrays and inline tables enclose one another, the value itself counted: 0 for a scalar.
    pub fn depth(&self) -> u16
        ensures { (v : Value) → spec.IsValueSyntaxOf self.now v → result ≡ value_depth v }
    {
        self.depth
    }

    /// How many key parts there are.
    pub fn key_count(&self) -> usize
        ensures { result ≡ length (spec.value_parts_of self.now) }
    {
        self.parts.key_count()
    }

    /// The key part with this number, from 0.
    pub fn key_part(&self, number: usize) -> KeyPart
        requires { number < length (spec.value_parts_of self.now) }
        ensures { slice_get (spec.value_parts_of self.now) number ≡ Some result }
    {
        self.parts.key_part(number)
    }

    /// How many values there are.
    pub fn value_count(&self) -> usize
        ensures { result ≡ length (spec.value_values_of self.now) }
    {
        self.parts.value_count()
    }

    /// The value with this number, from 0. A value comes before those inside it. Its depth is at most the limit to
    /// which the text was read, and less than the limit for an array or an inline table.
    #[inline(always)]
    pub fn value(&self, number: usize) -> ValueInfo
        requires { number < length (spec.value_values_of self.now) }
        ensures stored { slice_get (spec.value_values_of self.now) number ≡ Some result }
        ensures within { (profile : Profile) (limit : ℕ) (bytes : List ℕ)
            → spec.IsReadAlone profile limit bytes self.now → IsWithin limit result }
    {
        self.parts.value(number)
    }

    /// What is stored of the text, each part by its number.
    pub fn parts(&self) -> &Parts
        ensures { result.now ≡ self.now.parts }
    {
        &self.parts
    }
}
