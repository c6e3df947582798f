//! The parent links where the nodes below one of them give place to those of another tree.
ghost use Rattle.std.specs.Prelude.{◌≡◌, ◌+◌, ◌<◌, ◌≤◌, ◌∷◌, ◌++◌, All, List, drop, length, map, slice_index_or, suc};
ghost use Rattle.std.specs.Prelude.{take, vec_capacity, vec_len};
ghost use Rattle.keep_index_store.specs.Below.{shift_inside};
ghost use Rattle.keep_index_store.specs.Links.{FitsIn32Bits, link_of};
ghost use Rattle.keep_index_store.specs.Replacing.{CanShiftLink, replaced_links, shifted_link};
ghost use Rattle.keep_index_store.specs.declared.links.ParentLink.{ParentLink as Link};

use super::{PackedLink, ParentLinks};
use crate::shift::Shift;
use crate::splicing::splice_in;
use std::alloc::Global;

/// Gives the link the number that the parent has then. It is written only where it is another.
fn shift_link(link: &mut PackedLink, by: Shift)
    requires { CanShiftLink by (link_of link.old) }
    ensures { link_of link.new ≡ shifted_link by (link_of link.old) }
{
    let parent = link.parent as usize;
    if by.from <= parent {
        link.parent = (parent + by.new - by.old) as u32;
    }
}

/// Gives each link the number that the parent has then: its own, where as many nodes come as go.
fn shift_links(links: &mut [PackedLink], by: Shift)
    requires { All (λ h. CanShiftLink by (link_of h)) links.old }
    ensures { map link_of links.new ≡ map (shifted_link by) (map link_of links.old) }
{
    if by.old == by.new {
        return;
    }
    for link in links.iter_mut() {
        shift_link(link, by);
    }
}

/// Gives each link of a vector the number that the parent has then.
fn shift_all_links(links: &mut Vec<PackedLink>, by: Shift)
    requires { All (CanShiftLink by) (map link_of links.old.items) }
    ensures links { map link_of links.new.items ≡ map (shifted_link by) (map link_of links.old.items) }
    ensures len { vec_len links.new ≡ vec_len links.old }
    ensures capacity { vec_capacity links.new ≡ vec_capacity links.old }
{
    shift_links(links.as_mut_slice(), by);
}

/// The links of the node `id` and of the `gone` nodes after it give place to those of the other nodes, where the node
/// has its own, and the numbers of all parents are moved. It takes no memory.
pub fn replace_links(
    links: &mut Vec<PackedLink>,
    id: usize,
    gone: usize,
    mut inside: Vec<PackedLink>,
    beside: Shift,
)
    requires within { (id + gone < vec_len links.old) × (0 < vec_len inside) }
    requires room { vec_len links.old + vec_len inside ≤ vec_capacity links.old }
    requires can { All (CanShiftLink beside) (map link_of links.old.items) }
    requires can_inside { All (CanShiftLink (shift_inside id)) (map link_of inside.items) }
    ensures fit { All FitsIn32Bits (map link_of links.new.items) }
    ensures replaced { map link_of links.new.items
        ≡ replaced_links beside id gone (map link_of links.old.items) (map link_of inside.items) }
{
    shift_all_links(links, beside);
    shift_all_links(
        &mut inside,
        Shift {
            from: 0,
            old: 0,
            new: id,
        },
    );
    inside[0] = links[id];
    splice_in(links, id, gone + 1, inside);
}

impl ParentLinks {
    /// All links, which are packed.
    pub fn into_packed(self) -> Vec<PackedLink>
        requires { All FitsIn32Bits self }
        ensures { map link_of result.items ≡ self }
    {
        self.packed
    }

    /// These links, all of them packed. It takes no memory.
    pub fn of_packed(alloc: Global, packed: Vec<PackedLink>) -> ParentLinks
        requires { All FitsIn32Bits (map link_of packed.items) }
        ensures { result ≡ map link_of packed.items }
    {
        ParentLinks {
            packed,
            unpacked: Vec::new(alloc),
        }
    }
}
