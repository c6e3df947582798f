//! The numbers of the nodes where some give place to those of another tree.
ghost use Rattle.std.specs.Prelude.{◌≡◌, All, map};
ghost use Rattle.keep_index_store.specs.Below.{shifted_by};
ghost use Rattle.keep_index_store.specs.Replacing.{CanShift};

use crate::shift::Shift;

/// The number that a node has then.
pub fn shifted(number: usize, by: Shift) -> usize
    requires { CanShift by number }
    ensures { result ≡ shifted_by by number }
{
    if number < by.from {
        number
    } else {
        number + by.new - by.old
    }
}

/// Gives each of these nodes the number that it has then.
pub fn shift_ids(ids: &mut [usize], by: Shift)
    requires { All (CanShift by) ids.old }
    ensures { ids.new ≡ map (shifted_by by) ids.old }
{
    for id in ids.iter_mut() {
        *id = shifted(*id, by);
    }
}
