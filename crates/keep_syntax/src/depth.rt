//! How deep arrays and inline tables enclose one another.
ghost use Rattle.std.specs.Prelude.{◌≡◌};
ghost use Rattle.std.specs.List.{AllByRecursion};
ghost use Rattle.keep_syntax_store.specs.Flat.{flat};
ghost use Rattle.keep_syntax.specs.Nesting as spec;

use keep_syntax_store::Parts;
use keep_token::Leaf;
use keep_types::ValueInfo;

// how many arrays and inline tables are open in a value, itself counted
fn open_in(value: ValueInfo, limit: u16) -> u16
    requires { spec.IsWithin limit value }
    ensures { result ≡ spec.open_in value }
{
    match value.leaf {
        Leaf::ArrayOpen | Leaf::InlineOpen => value.depth + 1,
        _ => value.depth,
    }
}

/// How many arrays and inline tables at most are open in the values that are stored, if no value has more than the
/// limit.
#[tactic(auto, using(crate::proofs::DeepestLaws::deepest_iteration))]
pub(crate) fn deepest(parts: &Parts, limit: u16) -> u16
    requires { AllByRecursion (spec.IsWithin limit) (flat parts.now).values }
    ensures { result ≡ spec.deepest (flat parts.now).values }
{
    let mut most = 0u16;
    'values: for number in 0..parts.value_count() {
        most = most.max(open_in(parts.value(number), limit));
    }
    most
}
