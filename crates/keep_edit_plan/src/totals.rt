//! How many values and key parts a document has.
ghost use Rattle.std.specs.Prelude.{◌≡◌};
ghost use Rattle.keep_index_store.specs.Below.{totals_in};
ghost use Rattle.keep_meaning.specs.OtherValues.{totals_of};
ghost use Rattle.keep_syntax.specs.Contract.{IsSyntaxOf};
ghost use Rattle.keep_syntax.specs.Tree.{Document};

use keep_rules::Totals;
use keep_syntax::Syntax;

/// How many values and key parts the document has of which this is the syntax.
pub fn totals_of(syntax: &Syntax) -> Totals
    ensures { (d : Document) → IsSyntaxOf syntax.now d → totals_in result ≡ totals_of d }
{
    Totals {
        values: syntax.value_count(),
        keys: syntax.key_count(),
    }
}
