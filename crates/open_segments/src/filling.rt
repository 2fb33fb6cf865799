//! Lists of numbers in one buffer, filled in any order.
ghost use Rattle.std.specs.Prelude.{ℕ, ◌≡◌, ◌<◌, ◌++◌, ◌∷◌, [], length, slice_index_or, slice_set};
ghost use Rattle.std.specs.Prelude.{replicate, IfOk, ◌^◌};
ghost use Rattle.open_segments.specs.FilledLists.{rooms_from};
ghost use Rattle.open_segments.specs.FlatLists.{AreEnds};

use crate::flat_lists::{FlatLists, begin_of};
use std::alloc::Global;
use std::marker::Model;
use task_program::AllocFault;

/// Lists with room for so many numbers each. Contracts see the lists, and the room of each.
#[derive(Drop)]
pub struct Filling {
    items: Vec<u32>,
    // For each list the place after its room.
    ends: Vec<usize>,
    // For each list how many numbers it has.
    counts: Vec<u32>,
}

impl Model for Filling {
    ghost use Rattle.std.specs.Prelude.{length};
    ghost use Rattle.open_segments.specs.FilledLists.{Filled, lists_with, rooms_from, AreFilled};
    ghost use Rattle.open_segments.specs.FlatLists.{AreEnds};

    ghost Value = { Filled };

    ghost view = { λ a. record {
      lists = lists_with a.items.items 0 a.ends.items a.counts.items;
      rooms = rooms_from 0 a.ends.items;
    } };

    ghost invariant = { λ a. AreEnds 0 a.ends.items (length a.items.items)
        × AreFilled 0 a.ends.items a.counts.items };
}

impl Filling {
    /// Empty lists with these rooms. It is refused where memory runs out, and where all rooms
    /// together are more than any memory has.
    pub fn with_room(alloc: Global, rooms: &[u32]) -> Result<Filling, AllocFault>
        ensures lists { IfOk result (λ made. made.lists ≡ replicate (length rooms.now) []) }
        ensures rooms { IfOk result (λ made. made.rooms ≡ rooms.now) }
    {
        let ends = ends_of(alloc, rooms)?;
        let items = zeros(alloc, begin_of(&ends, ends.len()))?;
        let counts = zeros(alloc, ends.len())?;
        Ok(Filling {
            items,
            ends,
            counts,
        })
    }

    /// Puts a number at the end of the list at a place, which has room for it.
    pub fn add(&mut self, place: u32, number: u32)
        requires inside { place < length self.old.lists }
        requires room { length (slice_index_or self.old.lists place [])
            < slice_index_or self.old.rooms place 0 }
        requires few { slice_index_or self.old.rooms place 0 < 2 ^ 32 }
        ensures { self.new ≡ record self.old {
          lists = slice_set self.old.lists place
              (slice_index_or self.old.lists place [] ++ number ∷ []);
        } }
    {
        let at = place as usize;
        let count = self.counts[at];
        let next = begin_of(&self.ends, at) + count as usize;
        self.items[next] = number;
        self.counts[at] = count + 1;
    }

    /// The lists, all of which are full.
    pub fn into_lists(self) -> FlatLists
        requires { (place : ℕ) → length (slice_index_or self.lists place [])
            ≡ slice_index_or self.rooms place 0 }
        ensures { result ≡ self.lists }
    {
        let Filling { items, ends, .. } = self;
        FlatLists { items, ends }
    }
}

/// For each list the place after its room.
fn ends_of(alloc: Global, rooms: &[u32]) -> Result<Vec<usize>, AllocFault>
    ensures ends { IfOk result (λ ends. rooms_from 0 ends.items ≡ rooms.now) }
    ensures ascend { IfOk result (λ ends. AreEnds 0 ends.items
        (slice_index_or (0 ∷ ends.items) (length ends.items) 0)) }
{
    let mut ends = Vec::with_capacity(alloc, rooms.len())?;
    let mut end = 0usize;
    for room in rooms {
        end = match end.checked_add(*room as usize) {
            Some(end) => end,
            None => return Err(AllocFault),
        };
        ends.push(end)?;
    }
    Ok(ends)
}

fn zeros(alloc: Global, count: usize) -> Result<Vec<u32>, AllocFault>
    ensures { IfOk result (λ list. list.items ≡ replicate count 0) }
{
    Ok(vec![in alloc; 0u32; count]?)
}
