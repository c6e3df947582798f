//! The parent links of siblings, where the last node comes among them.
ghost use Rattle.std.specs.Prelude.{◌≡◌, ◌-◌, ◌<◌, ◌≤◌, ◌^◌, All, map, true};
ghost use Rattle.keep_index_store.specs.Links.{link_of};
ghost use Rattle.keep_index_store.specs.Moved.{NoneComesAfter, reordered_link};

use super::{NewPlace, PackedLink, later_sibling};

/// Gives the link the number among its siblings that it has once the last node is there.
fn reorder_sibling(link: &mut PackedLink, place: NewPlace)
    requires grows { link.old.number < 2 ^ 32 - 1 }
    requires order { place.number ≤ place.before }
    ensures { link_of link.new ≡ reordered_link place (link_of link.old) }
{
    if link.parent as usize == place.above {
        link.number = later_sibling(link.number, place.before, place.number);
    }
}

/// Whether no link has another number then: the last node stays the last of its siblings, as most that are added do.
/// The root is no sibling, but its link may say so; then it is not passed over.
fn siblings_stay(links: &[PackedLink], place: NewPlace) -> bool
    requires { NoneComesAfter place (map link_of links.now) }
    ensures { result ≡ true → map (reordered_link place) (map link_of links.now) ≡ map link_of links.now }
{
    let Some(root) = links.first() else {
        return true;
    };
    place.number == place.before && root.parent as usize != place.above
}

/// Gives each link the number among its siblings that it has then.
pub fn reorder_siblings(links: &mut [PackedLink], place: NewPlace)
    requires grows { All (λ h. h.number < 2 ^ 32 - 1) links.old }
    requires order { place.number ≤ place.before }
    requires last { NoneComesAfter place (map link_of links.old) }
    ensures { map link_of links.new ≡ map (reordered_link place) (map link_of links.old) }
{
    if siblings_stay(links, place) {
        return;
    }
    for link in links.iter_mut() {
        reorder_sibling(link, place);
    }
}
