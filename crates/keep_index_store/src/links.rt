//! The parent links of the nodes, in as few bytes as the numbers allow.
ghost use Rattle.std.specs.Prelude.{◌≡◌, ◌≤◌, ◌<◌, ◌^◌, ◌++◌, ◌∷◌, [], length, max, slice_get, IfSome, OnOk, OnErr};
ghost use Rattle.std.specs.Prelude.{◌-◌, ℕ, All, None, Some, false, map, take, true, vec_len};
ghost use Rattle.std.specs.List.{remove};
ghost use Rattle.keep_index_store.specs.Links.{FitsIn32Bits, IsSmall, link_of};
ghost use Rattle.keep_index_store.specs.Moved.{NoneComesAfter, moved_link, moved_number, with_last_at};
ghost use Rattle.keep_index_store.specs.Moved.{with_later_parent};
ghost use Rattle.keep_index_store.specs.Removed.{earlier_link};
ghost use Rattle.keep_path.specs.NodeInfos.{earlier_number, later_number};

mod reordering;
mod replacing;

use crate::moved::move_last_to;
use reordering::reorder_siblings;
pub use replacing::replace_links;
use std::alloc::{AllocError, Global};
use std::marker::Model;

/// The parent of a node, and its number there.
#[derive(Clone, Copy)]
pub struct ParentLink {
    pub parent: usize,
    /// Its number among the children of its parent: its step is the key that the parent has there, or that number.
    pub number: usize,
}

/// Where the last node goes: it takes the number `at`, and among the children of `above`, where it came after `before`
/// others, it comes after `number`.
#[derive(Clone, Copy)]
pub struct NewPlace {
    pub at: usize,
    pub above: usize,
    pub before: usize,
    pub number: usize,
}

/// A parent link in 8 bytes.
#[derive(Clone, Copy)]
pub struct PackedLink {
    parent: u32,
    number: u32,
}

/// The parent links of all nodes, in the order of the nodes: those before the first whose numbers do not fit into 32
/// bits are packed, the others are not.
#[derive(Drop)]
pub struct ParentLinks {
    packed: Vec<PackedLink>,
    unpacked: Vec<ParentLink>,
}

impl Model for ParentLinks {
    ghost use Rattle.std.specs.Prelude.{List};
    ghost use Rattle.keep_index_store.specs.declared.links.ParentLink.{ParentLink};
    ghost use Rattle.keep_index_store.specs.Links.{links_in};

    ghost Value = { List ParentLink };

    ghost use Rattle.keep_index_store.specs.Links.{AreStored};

    ghost view = { λ h. links_in h.packed.items h.unpacked.items };

    ghost invariant = { λ h. AreStored h.packed.items h.unpacked.items };
}

/// The link in 8 bytes, if both numbers fit.
fn packed_link(link: ParentLink) -> Option<PackedLink>
    ensures packed { IfSome result (λ small. link_of small ≡ link) }
    ensures fits { IfSome result (λ small. FitsIn32Bits (link_of small)) }
    ensures large { result ≡ None → 2 ^ 32 ≤ max link.parent link.number }
{
    Some(PackedLink {
        parent: u32::try_from(link.parent).ok()?,
        number: u32::try_from(link.number).ok()?,
    })
}

/// The number of a parent once a node has the number `at`.
fn later_parent(parent: u32, at: usize) -> u32
    requires { parent < 2 ^ 32 - 1 }
    ensures { result ≡ later_number at parent }
{
    if (parent as usize) < at {
        parent
    } else {
        parent + 1
    }
}

/// The number of a child once the one that came after `before` others comes after `number`.
fn later_sibling(child: u32, before: usize, number: usize) -> u32
    requires grows { child < 2 ^ 32 - 1 }
    requires order { number ≤ before }
    ensures { result ≡ moved_number before number child }
{
    if child as usize == before {
        number as u32
    } else if (child as usize) < number {
        child
    } else {
        child + 1
    }
}

/// Gives each link the number that the parent has once a node has the number `at`.
fn renumber_parents(links: &mut [PackedLink], at: usize)
    requires { All (λ h. h.parent < 2 ^ 32 - 1) links.old }
    ensures { map link_of links.new ≡ map (with_later_parent at) (map link_of links.old) }
{
    for link in links.iter_mut() {
        link.parent = later_parent(link.parent, at);
    }
}

/// Gives each link the numbers that it has then: first those of the siblings, of which mostly none changes, so that all
/// links are gone over for the parents alone.
fn renumber(links: &mut [PackedLink], place: NewPlace)
    requires grows { All (λ h. (h.parent < 2 ^ 32 - 1) × (h.number < 2 ^ 32 - 1)) links.old }
    requires order { place.number ≤ place.before }
    requires last { NoneComesAfter place (map link_of links.old) }
    ensures { map link_of links.new ≡ map (moved_link place) (map link_of links.old) }
{
    reorder_siblings(links, place);
    renumber_parents(links, place.at);
}

/// Moves the last link to where its node goes, and gives each the numbers that it has then.
fn move_last_link(links: &mut Vec<PackedLink>, place: NewPlace)
    requires grows { All (λ h. (h.parent < 2 ^ 32 - 1) × (h.number < 2 ^ 32 - 1)) links.old.items }
    requires order { place.number ≤ place.before }
    requires last { NoneComesAfter place (map link_of links.old.items) }
    requires within { place.at < vec_len links.old }
    ensures { (none : ParentLink) → map link_of links.new.items
        ≡ map (moved_link place) (with_last_at none (map link_of links.old.items) place.at) }
{
    renumber(links.as_mut_slice(), place);
    move_last_to(links, place.at);
}

/// A number of a parent, or of a child, once that at `at` is gone.
fn earlier(number: u32, at: usize) -> u32
    ensures { result ≡ earlier_number at number }
{
    if at < number as usize {
        number - 1
    } else {
        number
    }
}

/// The link once the node `at` is gone, which had the link `gone`.
fn link_without(link: PackedLink, at: usize, gone: ParentLink) -> PackedLink
    ensures { link_of result ≡ earlier_link at gone (link_of link) }
{
    let parent = earlier(link.parent, at);
    if link.parent as usize != gone.parent {
        return PackedLink {
            parent,
            number: link.number,
        };
    }
    let number = earlier(link.number, gone.number);
    PackedLink { parent, number }
}

/// Gives each link the numbers that it has then.
fn renumber_earlier(links: &mut [PackedLink], at: usize, gone: ParentLink)
    ensures { map link_of links.new ≡ map (earlier_link at gone) (map link_of links.old) }
{
    for link in links.iter_mut() {
        *link = link_without(*link, at, gone);
    }
}

impl ParentLinks {
    /// No links yet.
    pub fn new(alloc: Global) -> ParentLinks
        ensures { result ≡ [] }
    {
        ParentLinks {
            packed: Vec::new(alloc),
            unpacked: Vec::new(alloc),
        }
    }

    /// The parent link of the node with this number.
    pub fn get(&self, number: usize) -> ParentLink
        requires { number < length self.now }
        ensures { slice_get self.now number ≡ Some result }
    {
        let packed = self.packed.len();
        if number < packed {
            let link = &self.packed[number];
            ParentLink {
                parent: link.parent as usize,
                number: link.number as usize,
            }
        } else {
            self.unpacked[number - packed]
        }
    }

    /// Adds the parent link of the next node. The only error is out of memory; then nothing is changed.
    pub fn push(&mut self, link: ParentLink) -> Result<(), AllocError>
        ensures ok { OnOk result (self.new ≡ self.old ++ link ∷ []) }
        ensures err { OnErr result (self.new ≡ self.old) }
    {
        if self.unpacked.is_empty() {
            if let Some(small) = packed_link(link) {
                self.packed.push(small)?;
                return Ok(());
            }
        }
        self.unpacked.push(link)?;
        Ok(())
    }

    /// Takes away the parent link of the last node.
    pub fn pop(&mut self)
        ensures { self.new ≡ take (length self.old - 1) self.old }
    {
        if self.unpacked.pop().is_none() {
            self.packed.pop();
        }
    }

    /// Moves the last link to where its node goes, and gives each the numbers that it has then. It takes no memory.
    pub fn move_last(&mut self, place: NewPlace)
        requires small { All IsSmall self.old }
        requires within { place.at < length self.old }
        requires order { place.number ≤ place.before }
        requires last { NoneComesAfter place self.old }
        ensures { (none : ParentLink) → self.new ≡ map (moved_link place) (with_last_at none self.old place.at) }
    {
        move_last_link(&mut self.packed, place);
    }

    /// Whether both numbers of each link are stored in 32 bits.
    pub fn is_packed(&self) -> bool
        ensures { result ≡ true → All FitsIn32Bits self.now }
    {
        self.unpacked.is_empty()
    }

    /// Takes away the link of a node, and gives each other the numbers that it has then. It takes no memory.
    pub fn remove(&mut self, at: usize) -> ParentLink
        requires small { All FitsIn32Bits self.old }
        requires within { at < length self.old }
        ensures gone { slice_get self.old at ≡ Some result }
        ensures others { self.new ≡ remove (map (earlier_link at result) self.old) at }
    {
        let gone = self.get(at);
        renumber_earlier(self.packed.as_mut_slice(), at, gone);
        self.packed.remove(at);
        gone
    }
}
