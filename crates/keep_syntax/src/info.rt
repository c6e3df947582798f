use keep_token::{Leaf, Profile};

/// How many arrays and inline tables may enclose one another, a value itself counted. It is `standard_depth` of
/// `specs/Limit`, by the law `laws::standard_limits`.
pub const STANDARD_DEPTH: u16 = 128;

/// How deep arrays and inline tables may enclose one another, a value itself counted, and which language is read.
///
/// Reading takes some 656 bytes of native stack for each level of nesting that a text has, and so at most 96 KB to the
/// standard depth, and 42 MB to the greatest limit, 65,535: who sets a limit above 12,000 needs more than the default
/// stack of 8 MiB.
#[derive(Clone, Copy, Debug, PartialEq, Eq)]
pub struct Limits {
    pub depth: u16,
    pub profile: Profile,
}

impl Limits {
    /// TOML v1.0.0, to the standard depth.
    pub const STANDARD: Limits = Limits {
        depth: STANDARD_DEPTH,
        profile: Profile::Strict,
    };

    /// The standard depth limit, with this project's own additions to the grammar.
    pub const WIDE: Limits = Limits {
        depth: STANDARD_DEPTH,
        profile: Profile::Wide,
    };
}

const _: () = prove!(Limits::STANDARD.depth == STANDARD_DEPTH);

const _: () = prove!(Limits::WIDE.depth == STANDARD_DEPTH);

/// A leaf as it is written in the text, from byte `at` on.
#[derive(Clone, Copy, Debug)]
pub struct Token<'a> {
    pub leaf: Leaf,
    pub at: usize,
    pub text: &'a str,
}

/// A token: a leaf and where it begins. It ends where the next begins.
#[derive(Clone, Copy, Debug, PartialEq, Eq)]
pub struct TokenPlace {
    pub leaf: Leaf,
    pub at: usize,
}

/// What encloses entries.
#[derive(Clone, Copy, Debug, PartialEq, Eq)]
pub enum Brackets {
    /// `[` and `]`.
    Array,
    /// `{` and `}`.
    Inline,
}
