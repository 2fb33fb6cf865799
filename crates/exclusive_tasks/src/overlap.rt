//! The first event that begins a task while one that excludes it is under way.
ghost use Rattle.std.specs.Prelude.{ℕ, ◌≡◌, ◌↔◌, IfNone, IfOk, IfSome, IsTrue, false, length};
ghost use Rattle.std.specs.Prelude.{replicate};
ghost use Rattle.exclusive_tasks.specs.Exclusion.{AreApart, Exclude, IsFirstOverlap, claim_at};
ghost use Rattle.exclusive_tasks.specs.Marking.{AreMarked, IsExcluding, IsFirstExcluding, mark_after};
ghost use Rattle.exclusive_tasks.specs.Marking.{IsFirstPair, IsPair};

use crate::claim::{Claim, Event, Overlap};
use std::alloc::{AllocError, Global};

/// The first event that begins a task while one that excludes it is under way, if any does. Of
/// several such pairs it has the least claim of the task that begins, and the least claim that
/// stands against it. The error is that memory ran out.
pub fn first_overlap(
    alloc: Global,
    claims: &[Claim],
    events: &[Event],
) -> Result<Option<Overlap>, AllocError>
    ensures none { IfOk result (λ found. IfNone found (AreApart claims.now events.now)) }
    ensures some { IfOk result (λ found. IfSome found (IsFirstOverlap claims.now events.now)) }
{
    let mut marks = vec![in alloc; false; claims.len()]?;
    Ok(first_among(claims, events, marks.as_mut_slice()))
}

/// The same, with a mark for each claim whose task is under way.
fn first_among(claims: &[Claim], events: &[Event], marks: &mut [bool]) -> Option<Overlap>
    requires { marks.old ≡ replicate (length claims.now) false }
    ensures none { IfNone result (AreApart claims.now events.now) }
    ensures some { IfSome result (IsFirstOverlap claims.now events.now) }
{
    for (index, event) in events.iter().enumerate() {
        if let Event::Start(segment) = event {
            if let Some((begins, under_way)) = first_pair(claims, marks, *segment) {
                return Some(Overlap {
                    event: index,
                    begins,
                    under_way,
                });
            }
        }
        mark(claims, *event, marks);
    }
    None
}

/// The first claim of the task that begins with a segment against which a marked claim stands, and
/// the first that does.
fn first_pair(claims: &[Claim], marks: &[bool], segment: u32) -> Option<(usize, usize)>
    requires { length marks.now ≡ length claims.now }
    ensures none { IfNone result ((b a : ℕ) → IsPair claims.now marks.now segment b a → ⊥) }
    ensures some { IfSome result (λ pair. IsFirstPair claims.now marks.now segment pair.0 pair.1) }
{
    for (begins, claim) in claims.iter().enumerate() {
        if claim.first == segment {
            if let Some(under_way) = first_excluding(claims, marks, *claim) {
                return Some((begins, under_way));
            }
        }
    }
    None
}

/// The first marked claim that stands against another one.
fn first_excluding(claims: &[Claim], marks: &[bool], claim: Claim) -> Option<usize>
    requires { length marks.now ≡ length claims.now }
    ensures none { IfNone result ((a : ℕ) → IsExcluding claims.now marks.now claim a → ⊥) }
    ensures some { IfSome result (IsFirstExcluding claims.now marks.now claim) }
{
    for (under_way, other) in claims.iter().enumerate() {
        if marks[under_way] && exclude(*other, claim) {
            return Some(under_way);
        }
    }
    None
}

/// Whether two claims are those of siblings at one location.
fn exclude(one: Claim, other: Claim) -> bool
    ensures { IsTrue result ↔ Exclude one other }
{
    one.parent == other.parent && one.location == other.location && one.first != other.first
}

/// Marks the claims of a task that begins, and takes the marks from those of one that is complete.
fn mark(claims: &[Claim], event: Event, marks: &mut [bool])
    requires { length marks.old ≡ length claims.now }
    ensures { AreMarked claims.now event marks.old marks.new }
{
    for (index, claim) in claims.iter().enumerate() {
        marks[index] = mark_after(event, *claim, marks[index]);
    }
}

/// The mark of a claim after an event.
fn mark_after(event: Event, claim: Claim, mark: bool) -> bool
    ensures { result ≡ mark_after event claim mark }
{
    match event {
        Event::Start(segment) => segment == claim.first || mark,
        Event::Finish(segment) => segment != claim.last && mark,
    }
}
