//! The kinds of nodes.
ghost use Rattle.std.specs.Prelude.{◌≡◌};
ghost use Rattle.keep_types.specs.Kinds.{leaf_kind};

use crate::leaf::Leaf;
use crate::node::Kind;

/// The kind of the value that begins with this leaf.
pub fn kind_of(leaf: Leaf) -> Kind
    ensures { result ≡ leaf_kind leaf }
{
    match leaf {
        Leaf::Basic | Leaf::Literal | Leaf::MlBasic | Leaf::MlLiteral => Kind::Str,
        Leaf::Integer => Kind::Integer,
        Leaf::Float => Kind::Float,
        Leaf::Boolean => Kind::Boolean,
        Leaf::OffsetDateTime => Kind::OffsetDateTime,
        Leaf::LocalDateTime => Kind::LocalDateTime,
        Leaf::LocalDate => Kind::LocalDate,
        Leaf::LocalTime => Kind::LocalTime,
        Leaf::ArrayOpen => Kind::Array,
        Leaf::InlineOpen => Kind::Inline,
        _ => Kind::Table,
    }
}
