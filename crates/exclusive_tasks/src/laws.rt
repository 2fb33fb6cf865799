//! Laws of the definitions.
ghost use Rattle.std.specs.Prelude.{ℕ, ◌≡◌, List};
ghost use Rattle.exclusive_tasks.specs.Exclusion.{AreApart, IsFirstOverlap, IsOverlap};
ghost use Rattle.exclusive_tasks.specs.Verdicts.{IsVerdict};
ghost use Rattle.exclusive_tasks.specs.declared.claim.Claim.{Claim};
ghost use Rattle.exclusive_tasks.specs.declared.claim.Event.{Event};
ghost use Rattle.exclusive_tasks.specs.declared.claim.Overlap.{Overlap};
ghost use Rattle.exclusive_tasks.specs.declared.verdict.Verdict.{Verdict};

/// Where tasks that exclude one another are apart, none begins while another one is under way.
pub fn no_overlap()
    ensures { (claims : List Claim) (events : List Event) (i b a : ℕ)
        → AreApart claims events → IsOverlap claims events i b a → ⊥ }
{}

/// No list of events has two first overlaps.
pub fn one_overlap()
    ensures { (claims : List Claim) (events : List Event) (found other : Overlap)
        → IsFirstOverlap claims events found → IsFirstOverlap claims events other
        → found ≡ other }
{}

/// No log, given by its lines, has two verdicts.
pub fn one_verdict()
    ensures { (lines : List (List ℕ)) (verdict other : Verdict)
        → IsVerdict lines verdict → IsVerdict lines other → verdict ≡ other }
{}
