//! The check of a certificate.
ghost use Rattle.std.specs.Prelude.{◌≡◌, ◌≤◌, IfErr, IfOk, MatchResult, OnErr};
ghost use Rattle.std.specs.Option.{option_copied};
ghost use Rattle.spanprof_c.specs.Documents.{AcceptsRest, RefusesRest, checked_told};
ghost use Rattle.spanprof_c.specs.Documents.{claim_number, claim_place};
ghost use Rattle.spanprof_c.specs.Refusals.{nowhere};

use crate::refusal::kind_number;
use crate::told::{Certified, Place, put_place};
use span_cert::{CheckFault, Checked, check_claim};
use std::alloc::Global;
use task_segments::table::BoundedTable;

/// Whether what stands behind a program is a claim about it that holds.
pub(crate) fn check_rest<const SEGMENTS: u32, const TASKS: u32>(
    alloc: Global,
    table: &BoundedTable<SEGMENTS, TASKS>,
    rest: Option<&[u8]>,
) -> Result<Checked, CheckFault>
    ensures accepted { IfOk result (AcceptsRest table.now (option_copied rest.entry)) }
    ensures refused { IfErr result (RefusesRest table.now (option_copied rest.entry)) }
{
    match rest {
        Some(text) => check_claim(alloc, table, text),
        None => Err(CheckFault::BadForm),
    }
}

/// The number that a call answers: 0 where the certificate holds. The place is that of the fault.
pub(crate) fn tell_verdict(
    verdict: Result<Checked, CheckFault>,
    told: &mut Certified,
    place: &mut Place,
) -> u32
    ensures told { MatchResult verdict
        (λ checked. (result ≡ 0) × (checked_told told.new ≡ checked))
        (λ fault. (1 ≤ result) × (result ≡ claim_number fault)
        × (place.new ≡ claim_place fault)) }
    ensures nowhere { result ≡ 0 → place.new ≡ nowhere }
    ensures kept { OnErr verdict (told.new ≡ told.old) }
{
    match verdict {
        Ok(checked) => {
            told.segments = u64::from(checked.segments);
            told.ends_at = checked.ends_at;
            put_place(place, 0, 0, 0);
            0
        }
        Err(fault) => {
            put_fault(place, fault);
            number_of(fault)
        }
    }
}

fn put_fault(place: &mut Place, fault: CheckFault)
    ensures { place.new ≡ claim_place fault }
{
    match fault {
        CheckFault::BadProgram(read) => put_place(place, u64::from(read.line), 0, 0),
        CheckFault::Broken { s, t } => put_place(place, 0, s, t),
        CheckFault::ChainStep { s, t } => put_place(place, 0, s, t),
        CheckFault::BadForm => put_place(place, 0, 0, 0),
        CheckFault::WrongCount => put_place(place, 0, 0, 0),
        CheckFault::EndWrong => put_place(place, 0, 0, 0),
        CheckFault::ChainSum => put_place(place, 0, 0, 0),
        CheckFault::OutOfMemory => put_place(place, 0, 0, 0),
    }
}

fn number_of(fault: CheckFault) -> u32
    ensures number { result ≡ claim_number fault }
    ensures some { 1 ≤ result }
{
    match fault {
        CheckFault::BadProgram(read) => kind_number(read.kind),
        CheckFault::OutOfMemory => 13,
        CheckFault::BadForm => 25,
        CheckFault::WrongCount => 26,
        CheckFault::Broken { .. } => 27,
        CheckFault::EndWrong => 28,
        CheckFault::ChainStep { .. } => 29,
        CheckFault::ChainSum => 30,
    }
}
