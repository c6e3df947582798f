//! Laws of the grammar, each the contract of a function that does nothing.
ghost use Rattle.std.specs.Prelude.{◌≡◌};
ghost use Rattle.keep_types.specs.declared.leaf.Profile.TheVariants.{Strict, Wide};
ghost use Rattle.keep_syntax.specs.Laws as spec;
ghost use Rattle.keep_syntax.specs.Limit.{standard_depth};

use crate::info::Limits;

/// At most one document has a given text.
pub fn one_document()
    ensures { spec.OneDocument }
{}

/// At most one value has a given text.
pub fn one_value()
    ensures { spec.OneValue }
{}

/// At most one bracket of a text is too deep: the place that `TooDeep` gives is the only one.
pub fn too_deep_is_one_place()
    ensures document { spec.OneTooDeep }
    ensures value { spec.OneTooDeepValue }
{}

/// What is read as TOML v1.0.0 is read as the same document with this project's own additions.
pub fn wide_reads_strict()
    ensures documents { spec.WideReadsStrict }
    ensures values { spec.WideReadsStrictValue }
{}

/// A document is its tokens, one after the other, each but `End` of a byte at least.
pub fn tokens_partition()
    ensures joined { spec.TokensJoin }
    ensures parts { spec.TokensPartition }
{}

/// A text of so many bytes has at most one token more, and some texts of any length have as many.
pub fn token_bound()
    ensures few { spec.TokensAreFew }
    ensures reached { spec.TokensReachBound }
{}

/// Of the values of the grammar with this project's own additions, `is_allowed_in` finds those of each profile.
pub fn profile_is_tested()
    ensures { spec.ProfileIsTested }
{}

/// Whole lines of a document replaced by those of another give a document, of the text with these bytes replaced.
pub fn lines_are_replaced()
    ensures { spec.LinesAreReplaced }
{}

/// The standard limits are the standard depth, in each profile.
pub fn standard_limits()
    ensures strict { Limits.STANDARD ≡ record { depth = standard_depth; profile = Strict } }
    ensures wide { Limits.WIDE ≡ record { depth = standard_depth; profile = Wide } }
{}
