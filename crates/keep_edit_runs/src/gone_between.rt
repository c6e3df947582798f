//! Elements of arrays of tables that are removed between edits of all kinds, which are elsewhere than in the arrays.
ghost use Rattle.std.specs.Prelude.{◌≡◌, [], All, IsTrue};
ghost use Rattle.std.specs.Bool.{Decides};
ghost use Rattle.keep_edit_spec.specs.ElementRuns.{IsElsewhere};
ghost use Rattle.keep_edit_runs.specs.GoneBetween.{HasArray};
ghost use Rattle.keep_edit_runs.specs.Runs.{outlined};

use crate::alike::{is_elsewhere, is_same};
use crate::gone::GoneElements;
use crate::outline::{Outline, Steps};
use std::alloc::Global;

/// The elements that went, and the arrays that they were of.
#[derive(Drop)]
pub struct GoneBetween<'a> {
    pub elements: GoneElements,
    pub arrays: Vec<Steps<'a>>,
}

impl<'a> GoneBetween<'a> {
    /// None yet. It takes no memory.
    pub fn new(alloc: Global) -> GoneBetween<'a>
        ensures { (result.elements ≡ []) × (result.arrays.items ≡ []) }
    {
        GoneBetween {
            elements: GoneElements::new(alloc),
            arrays: Vec::new(alloc),
        }
    }

    /// Whether none went.
    pub fn is_empty(&self) -> bool
        ensures { Decides result (self.now.arrays.items ≡ []) }
    {
        self.arrays.is_empty()
    }

    /// Whether an edit is elsewhere than in each of the arrays.
    pub fn leave_alone(&self, outline: &Outline) -> bool
        ensures { IsTrue result → All (λ array. IsElsewhere array (outlined outline.now)) self.now.arrays.items }
    {
        for array in self.arrays.iter() {
            if !is_elsewhere(array, outline) {
                return false;
            }
        }
        true
    }

    /// Whether an array is found to be one of these.
    pub fn has_array(&self, array: &Steps) -> bool
        ensures { IsTrue result → HasArray self.now.arrays.items array.now }
    {
        match self.elements.place_of(array) {
            Some(place) if place < self.arrays.len() => is_same(&self.arrays[place], array),
            _ => false,
        }
    }
}
