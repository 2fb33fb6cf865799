//! Lists of numbers, one after another in one buffer.
ghost use Rattle.std.specs.Prelude.{◌≡◌, ◌<◌, ◌≤◌, ◌++◌, ◌∷◌, [], length, slice_index_or, IfOk, OnOk};
ghost use Rattle.std.specs.Prelude.{OnErr, slice_range};

use std::alloc::Global;
use std::marker::Model;
use task_program::AllocFault;

/// Lists of numbers. Contracts see the lists.
#[derive(Drop)]
pub struct FlatLists {
    pub(crate) items: Vec<u32>,
    // For each list the place after its last number.
    pub(crate) ends: Vec<usize>,
}

impl Model for FlatLists {
    ghost use Rattle.std.specs.Prelude.{ℕ, List, length};
    ghost use Rattle.open_segments.specs.FlatLists.{lists_from, AreEnds};

    ghost Value = { List (List ℕ) };

    ghost view = { λ a. lists_from a.items.items 0 a.ends.items };

    ghost invariant = { λ a. AreEnds 0 a.ends.items (length a.items.items) };
}

impl FlatLists {
    /// No lists yet, with room for the ends of so many.
    pub fn with_capacity(alloc: Global, count: u32) -> Result<FlatLists, AllocFault>
        ensures { IfOk result (λ lists. lists ≡ []) }
    {
        Ok(FlatLists {
            items: Vec::new(alloc),
            ends: Vec::with_capacity(alloc, count as usize)?,
        })
    }

    /// Puts a list after the others. It is refused only when memory runs out, and then they stay.
    pub fn push_list(&mut self, list: &[u32]) -> Result<(), AllocFault>
        ensures pushed { OnOk result (self.new ≡ self.old ++ list.now ∷ []) }
        ensures refused { OnErr result (self.new ≡ self.old) }
    {
        self.ends.reserve(1)?;
        self.items.extend_from_slice(list)?;
        self.ends.push_reserved(self.items.len());
        Ok(())
    }

    /// The list at a place.
    pub fn list(&self, place: u32) -> &[u32]
        requires { place < length self.now }
        ensures { result.now ≡ slice_index_or self.now place [] }
    {
        let at = place as usize;
        let begin = begin_of(&self.ends, at);
        part(&self.items, begin, self.ends[at])
    }
}

/// Where the list at a place begins: at the end of the one before it.
pub(crate) fn begin_of(ends: &[usize], place: usize) -> usize
    requires { place ≤ length ends.now }
    ensures { result ≡ slice_index_or (0 ∷ ends.now) place 0 }
{
    if place == 0 { 0 } else { ends[place - 1] }
}

/// The numbers from a place on, before another one.
fn part(items: &[u32], begin: usize, end: usize) -> &[u32]
    requires up { begin ≤ end }
    requires within { end ≤ length items.now }
    ensures { result.now ≡ slice_range items.now begin end }
{
    &items[begin..end]
}
