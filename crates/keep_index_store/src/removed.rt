//! The numbers of the nodes once one of them is gone.
ghost use Rattle.std.specs.Prelude.{◌≡◌, map};
ghost use Rattle.keep_path.specs.NodeInfos as spec;

use crate::renumbering::earlier_number;

/// Gives each of these nodes the number that it has once the node `at` is gone: each after it has one less.
pub fn renumber_earlier(ids: &mut [usize], at: usize)
    ensures { ids.new ≡ map (spec.earlier_number at) ids.old }
{
    for id in ids.iter_mut() {
        *id = earlier_number(at, *id);
    }
}
