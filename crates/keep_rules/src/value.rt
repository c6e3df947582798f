//! The texts of values, as they are set.
ghost use Rattle.std.specs.Prelude.{◌≡◌, ◌↔◌, codes, if◌then◌else◌, IfOk, IfErr, IfSome, IsNone, IsOkUnless};
ghost use Rattle.std.specs.Prelude.{string_bytes};
ghost use Rattle.std.specs.Fmt.{signed_decimal};
ghost use Rattle.keep_syntax.specs.declared.fault.ReadFault.TheVariants.{Memory};
ghost use Rattle.keep_syntax.specs.Profiles.{is_allowed_in};
ghost use Rattle.keep_syntax.specs.Tree.{Value, value_depth};
ghost use Rattle.keep_types.specs.declared.leaf.Leaf.TheVariants as leaf;
ghost use Rattle.keep_types.specs.declared.leaf.Profile.TheVariants.{Strict, Wide};
ghost use Rattle.keep_token.specs.Encoded.{encoded_string};
ghost use Rattle.keep_token.specs.Leaves.{Means};
ghost use Rattle.keep_token.specs.Numbers.{integer_value};
ghost use Rattle.keep_meaning.specs.Fact as fact;
ghost use Rattle.keep_meaning.specs.Meaning.{body_fact};
ghost use Rattle.keep_meaning.specs.Nodes.{fact_kind};
ghost use Rattle.keep_rules.specs.ValueTexts.{HoldsValue, IsAcceptedValue, IsRefusedValue, IsScalarText, IsTextOfFact};
ghost use Rattle.keep_rules.specs.ValueTexts.{IsTextOfValue};

use crate::index::Index;
use keep_syntax::{Limits, ReadFault, STANDARD_DEPTH, ValueSyntax};
use keep_token::{Profile, encode_int, encode_string, scan_scalar};
use keep_types::{Kind, kind_of};
use std::alloc::{AllocError, Global};
use std::marker::Model;

/// The text of one value of either profile that obeys the rules of definition, in which arrays and inline tables
/// enclose one another no deeper than the standard depth.
#[derive(Debug, Drop)]
pub struct ValueText {
    text: String,
    kind: Kind,
    depth: u16,
    profile: Profile,
}

impl Model for ValueText {
    ghost use Rattle.std.specs.Prelude.{ℕ, List, string_bytes};
    ghost use Rattle.keep_rules.specs.ValueTexts.{HoldsValue};

    ghost Value = { List ℕ };

    ghost view = { λ v. string_bytes v.text };

    ghost invariant = { λ v. HoldsValue (string_bytes v.text) v.kind v.depth v.profile };
}

/// The kind of a text that is a scalar of TOML v1.0.0 and nothing else; None for any other text. It takes no memory.
fn scalar_kind(text: &str) -> Option<Kind>
    ensures found { IfSome result (λ kind. HoldsValue text.now kind 0 Strict) }
    ensures none { IsNone result → IsScalarText Strict text.now → ⊥ }
{
    match scan_scalar(text, 0, Profile::Strict) {
        Ok((leaf, end)) if end == text.len() => Some(kind_of(leaf)),
        _ => None,
    }
}

impl ValueText {
    /// Reads one value of TOML v1.0.0 and nothing else, no gap before or after it.
    ///
    /// # Errors
    ///
    /// `Syntax` or `TooDeep`, whichever is met first, with its place in bytes from the start of the text; else `Define`
    /// with the start of the first key part in the value that breaks a rule of definition; `Memory` where memory was
    /// refused.
    pub fn read(alloc: Global, text: &str) -> Result<ValueText, ReadFault>
        ensures text { IfOk result (λ value. value ≡ text.now) }
        ensures accepted { IfOk result (λ value. IsAcceptedValue Strict value) }
        ensures only { IsAcceptedValue Strict text.now → IsOkUnless result Memory }
        ensures faults { IfErr result (IsRefusedValue Strict text.now) }
    {
        let Some(kind) = scalar_kind(text) else {
            return ValueText::read_as(alloc, text, Profile::Strict);
        };
        let text = String::from_str(alloc, text)?;
        Ok(ValueText {
            text,
            kind,
            depth: 0,
            profile: Profile::Strict,
        })
    }

    /// Reads one value of a profile and nothing else, no gap before or after it. In Wide a text that Strict refuses is
    /// read twice.
    ///
    /// # Errors
    ///
    /// Those of `read`.
    pub fn read_in(alloc: Global, text: &str, profile: Profile) -> Result<ValueText, ReadFault>
        ensures text { IfOk result (λ value. value ≡ text.now) }
        ensures accepted { IfOk result (λ value. IsAcceptedValue profile value) }
        ensures only { IsAcceptedValue profile text.now → IsOkUnless result Memory }
        ensures faults { IfErr result (IsRefusedValue profile text.now) }
    {
        match profile {
            Profile::Strict => ValueText::read(alloc, text),
            Profile::Wide => match ValueText::read(alloc, text) {
                Ok(value) => Ok(value),
                Err(ReadFault::Memory) => Err(ReadFault::Memory),
                Err(_) => ValueText::read_as(alloc, text, Profile::Wide),
            },
        }
    }

    /// The value of a text that is known to be one of TOML v1.0.0, of this kind and depth. It reads nothing.
    pub fn known(text: String, kind: Kind, depth: u16) -> ValueText
        requires { HoldsValue (string_bytes text) kind depth Strict }
        ensures { result ≡ string_bytes text }
    {
        ValueText {
            text,
            kind,
            depth,
            profile: Profile::Strict,
        }
    }

    /// Reads one value by the grammar of a profile. In Wide it is for a text that Strict refuses.
    fn read_as(alloc: Global, text: &str, profile: Profile) -> Result<ValueText, ReadFault>
        requires { profile ≡ Wide → IsAcceptedValue Strict text.now → ⊥ }
        ensures text { IfOk result (λ value. value ≡ text.now) }
        ensures accepted { IfOk result (λ value. IsAcceptedValue profile value) }
        ensures only { IsAcceptedValue profile text.now → IsOkUnless result Memory }
        ensures faults { IfErr result (IsRefusedValue profile text.now) }
    {
        let limits = Limits {
            depth: STANDARD_DEPTH,
            profile,
        };
        let syntax = ValueSyntax::read(alloc, text, limits)?;
        Index::check_value(alloc, text, &syntax)?;
        let kind = kind_of(syntax.value(0).leaf);
        let depth = syntax.depth();
        let text = String::from_str(alloc, text)?;
        Ok(ValueText {
            text,
            kind,
            depth,
            profile,
        })
    }

    /// Strict exactly if the text is a value of Strict's grammar, whatever profile it was read in.
    pub fn profile(&self) -> Profile
        ensures strict { (result ≡ Strict) ↔ IsAcceptedValue Strict self.now }
        ensures accepted { IsAcceptedValue Wide self.now }
    {
        self.profile
    }

    /// The text.
    pub fn as_str(&self) -> &str
        ensures text { result.now ≡ self.now }
        ensures accepted { IsAcceptedValue Wide self.now }
    {
        self.text.as_str()
    }

    /// The text of the string with this meaning, a basic string. The only error is out of memory.
    pub fn of_str(alloc: Global, value: &str) -> Result<ValueText, AllocError>
        ensures text { IfOk result (λ text. text ≡ encoded_string value.now) }
        ensures means { IfOk result (λ text. Means Strict leaf.Basic text value.now) }
        ensures fact { IfOk result (λ text. IsTextOfFact text (fact.string value.now)) }
    {
        let text = encode_string(alloc, value)?;
        Ok(ValueText {
            text,
            kind: Kind::Str,
            depth: 0,
            profile: Profile::Strict,
        })
    }

    /// The text of this integer, in decimal. The only error is out of memory.
    pub fn of_int(alloc: Global, value: i64) -> Result<ValueText, AllocError>
        ensures text { IfOk result (λ text. text ≡ signed_decimal value) }
        ensures value { IfOk result (λ text. integer_value text ≡ value) }
        ensures fact { IfOk result (λ text. IsTextOfFact text (fact.integer value)) }
    {
        let text = encode_int(alloc, value)?;
        Ok(ValueText {
            text,
            kind: Kind::Integer,
            depth: 0,
            profile: Profile::Strict,
        })
    }

    /// `true` or `false`. The only error is out of memory.
    pub fn of_bool(alloc: Global, value: bool) -> Result<ValueText, AllocError>
        ensures text { IfOk result (λ text. text ≡ (if value then codes "true" else codes "false")) }
        ensures fact { IfOk result (λ text. IsTextOfFact text (fact.boolean value)) }
    {
        let text = String::from_str(alloc, if value { "true" } else { "false" })?;
        Ok(ValueText {
            text,
            kind: Kind::Boolean,
            depth: 0,
            profile: Profile::Strict,
        })
    }

    /// What it is: a string, an integer, .., an array or an inline table.
    pub fn kind(&self) -> Kind
        ensures { (v : Value) → IsTextOfValue self.now v → result ≡ fact_kind (body_fact v.body) }
    {
        self.kind
    }

    /// How many arrays and inline tables enclose one another, the value itself counted.
    pub fn depth(&self) -> u16
        ensures { (v : Value) → IsTextOfValue self.now v → result ≡ value_depth v }
    {
        self.depth
    }

    /// Whether the grammar of the profile has the value.
    pub fn is_allowed_in(&self, profile: Profile) -> bool
        ensures { (v : Value) → IsTextOfValue self.now v → result ≡ is_allowed_in profile v }
    {
        match profile {
            Profile::Strict => matches!(self.profile, Profile::Strict),
            Profile::Wide => true,
        }
    }
}
