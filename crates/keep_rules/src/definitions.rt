//! The definitions that were read so far.
ghost use Rattle.keep_index_store.specs.Children.{holding};
ghost use Rattle.keep_rules.specs.Tables.{Fits, IsShaped};

use keep_index_store::{Holds, Tree};
use keep_syntax::Why;
use keep_types::{Kind, Origin, Role};
use std::alloc::AllocError;

/// What the statements of a document, or the values of a value alone, have defined so far: a tree of the nodes, each
/// with the children that its role asks for. That the root is a table is no part of it, since a value alone may be an
/// array: it is asked where a header goes down from the root, and an index says it of itself. What a call defines of
/// one key is whole or nothing; where a later key of the same header or value fails, what the earlier ones defined
/// stays.
#[derive(Drop)]
pub struct Definitions {
    pub tree: Tree,
    ghost shaped: { IsShaped tree.trie },
}

/// What a key part defines: the role, and of a new node the kind, where it comes from and what children it may have.
#[derive(Clone, Copy)]
pub struct Definition {
    pub role: Role,
    pub kind: Kind,
    pub origin: Origin,
    pub holds: Holds,
    ghost fits: { Fits role (holding holds) },
}

/// Why a key was not defined.
#[derive(Clone, Copy)]
pub enum DefineFault {
    /// Some earlier key part does not allow the one with that number in the document.
    Refused { part: usize, why: Why },
    /// Memory was refused.
    Memory,
}

impl From<AllocError> for DefineFault {
    ghost use Rattle.std.specs.Prelude.{◌≡◌};
    ghost use Rattle.keep_rules.specs.declared.definitions.DefineFault.{DefineFault};
    ghost use Rattle.keep_rules.specs.declared.definitions.DefineFault.TheVariants.{Memory};

    ghost from_gives = { λ _ fault. fault ≡ Memory };

    fn from(_: AllocError) -> Self {
        DefineFault::Memory
    }
}
