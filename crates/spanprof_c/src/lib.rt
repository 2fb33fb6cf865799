//! What `spanprof` answers, for callers in C and in other languages that call C: numbers and bytes in
//! the caller's own lists, with nothing kept between calls.
//!
//! A call answers 0 where its answer is there, and else the number of a refusal, as
//! `include/spanprof.h` lists them. It has also written a place: the line of a text's fault, or the
//! segments of another one, and else zeros. What else it was to fill is as it was then.
//!
//! A text is read as `spanprof` reads it, within the limits of programs, or as `spanprof_large` does,
//! in version 1 and of any size.
//!
//! Costs are one for each segment, in the order of their numbers; where a call is given none, the
//! text's own are taken.
#![tactic(auto)]

mod account;
mod answers;
mod bounds;
mod certificate;
mod filling;
mod graphs;
mod large;
mod refusal;
mod told;

ghost use Rattle.std.specs.Prelude.{◌≡◌, ◌≢◌, [], ◌∷◌, length};
ghost use Rattle.spanprof_c.specs.Documents.{Certifies, TellsNoCertificate};
ghost use Rattle.spanprof_c.specs.Programs.{OfText, OnCosts, source};
ghost use Rattle.spanprof_c.specs.Refusals.{asked, nowhere, RefusesBounds, TellsWhy};
ghost use Rattle.spanprof_c.specs.Runs.{Accounts, OfGraph, TellsNoAccount, timed_run};
ghost use Rattle.spanprof_c.specs.Told.{Analyses, AreBounds, Curves, Judges, ListsSegments};
ghost use Rattle.spanprof_c.specs.Told.{Measures, RunsGreedily, StandAtHead};

use account::{tell_account, tell_times, times_of};
use answers::{judge, list_segments, measure, tell_analysis, tell_curve, tell_run};
use bounds::least;
use certificate::{check_rest, tell_verdict};
use filling::some_other;
use graphs::{graph_under, table_of_text};
use greedy_sim::greedy::{MOST_THREADS, bound};
use large::large_table;
use refusal::{Refusal, tell, text_refusal};
use std::alloc::Global;
use task_program::document::{Document, split_document};
use task_program::limits::MOST_WORK;
use time_accounts::region::Region;
use told::{Accounted, Analysed, Bounds, Certified, Measured, Place};

/// The number of segments, the work and the span.
#[unsafe(no_mangle)]
pub extern "C" fn spanprof_measure(
    alloc: Global,
    text: &[u8],
    any_size: bool,
    costs: &[u64],
    told: &mut Measured,
    place: &mut Place,
) -> u32
    ensures done { result ≡ 0 → OnCosts (source any_size text.now) costs.now (Measures told.new) }
    ensures nowhere { result ≡ 0 → place.new ≡ nowhere }
    ensures refused { result ≢ 0 → TellsWhy (asked (source any_size text.now) costs.now 1 []) result place.new }
    ensures kept { result ≢ 0 → told.new ≡ told.old }
{
    match graph_under(alloc, text, any_size, costs) {
        Ok(graph) => tell(measure(alloc, &graph, told), place),
        Err(why) => tell(Err(why), place),
    }
}

/// The task and the text's own cost of each segment.
#[unsafe(no_mangle)]
pub extern "C" fn spanprof_segments(
    alloc: Global,
    text: &[u8],
    any_size: bool,
    tasks: &mut [u32],
    costs: &mut [u64],
    place: &mut Place,
) -> u32
    ensures done { result ≡ 0 → OfText (source any_size text.now) (ListsSegments tasks.new costs.new) }
    ensures nowhere { result ≡ 0 → place.new ≡ nowhere }
    ensures refused { result ≢ 0 → TellsWhy
        (asked (source any_size text.now) [] 1 (length tasks.old ∷ length costs.old ∷ [])) result place.new }
    ensures kept { result ≢ 0 → (tasks.new ≡ tasks.old) × (costs.new ≡ costs.old) }
{
    tell(list_segments(alloc, text, any_size, tasks, costs), place)
}

/// The earliest start and the slack of each segment, and the critical path at the head of a list
/// with a place for each segment.
#[unsafe(no_mangle)]
pub extern "C" fn spanprof_analyse(
    alloc: Global,
    text: &[u8],
    any_size: bool,
    costs: &[u64],
    starts: &mut [u64],
    slacks: &mut [u64],
    path: &mut [u32],
    told: &mut Analysed,
    place: &mut Place,
) -> u32
    ensures done { result ≡ 0
        → OnCosts (source any_size text.now) costs.now (Analyses told.new starts.new slacks.new path.new) }
    ensures path { result ≡ 0 → StandAtHead told.new.path_length path.old path.new }
    ensures nowhere { result ≡ 0 → place.new ≡ nowhere }
    ensures refused { result ≢ 0 → TellsWhy (asked (source any_size text.now) costs.now 1
        (length starts.old ∷ length slacks.old ∷ length path.old ∷ [])) result place.new }
    ensures kept { result ≢ 0 → (starts.new ≡ starts.old) × (slacks.new ≡ slacks.old)
        × (path.new ≡ path.old) × (told.new ≡ told.old) }
{
    match graph_under(alloc, text, any_size, costs) {
        Ok(graph) => tell(
            tell_analysis(alloc, &graph, starts, slacks, path, told),
            place,
        ),
        Err(why) => tell(Err(why), place),
    }
}

/// The greedy run on 1 to 1,024 threads: when each segment starts, on which thread, and the end. A
/// segment of cost 0 has no thread, for which stands the largest number of 32 bits.
#[unsafe(no_mangle)]
pub extern "C" fn spanprof_greedy(
    alloc: Global,
    text: &[u8],
    any_size: bool,
    costs: &[u64],
    count: u32,
    starts: &mut [u64],
    threads: &mut [u32],
    end: &mut u64,
    place: &mut Place,
) -> u32
    ensures done { result ≡ 0
        → OnCosts (source any_size text.now) costs.now (RunsGreedily count starts.new threads.new end.new) }
    ensures nowhere { result ≡ 0 → place.new ≡ nowhere }
    ensures refused { result ≢ 0 → TellsWhy (asked (source any_size text.now) costs.now count
        (length starts.old ∷ length threads.old ∷ [])) result place.new }
    ensures kept { result ≢ 0 → (starts.new ≡ starts.old) × (threads.new ≡ threads.old) × (end.new ≡ end.old) }
{
    match graph_under(alloc, text, any_size, costs) {
        Ok(graph) => tell(tell_run(alloc, &graph, count, starts, threads, end), place),
        Err(why) => tell(Err(why), place),
    }
}

/// The ends of the greedy runs on 1, 2, .. threads, as many as the list has places: 1 to 1,024.
#[unsafe(no_mangle)]
pub extern "C" fn spanprof_curve(
    alloc: Global,
    text: &[u8],
    any_size: bool,
    costs: &[u64],
    ends: &mut [u64],
    place: &mut Place,
) -> u32
    ensures done { result ≡ 0 → OnCosts (source any_size text.now) costs.now (Curves (length ends.old) ends.new) }
    ensures nowhere { result ≡ 0 → place.new ≡ nowhere }
    ensures refused { result ≢ 0
        → TellsWhy (asked (source any_size text.now) costs.now (length ends.old) []) result place.new }
    ensures kept { result ≢ 0 → ends.new ≡ ends.old }
{
    match graph_under(alloc, text, any_size, costs) {
        Ok(graph) => tell(tell_curve(alloc, &graph, ends), place),
        Err(why) => tell(Err(why), place),
    }
}

/// Whether these starts are a legal schedule: one for each segment, and none before a segment that
/// must precede it has ended.
#[unsafe(no_mangle)]
pub extern "C" fn spanprof_is_legal(
    alloc: Global,
    text: &[u8],
    any_size: bool,
    costs: &[u64],
    starts: &[u64],
    legal: &mut bool,
    place: &mut Place,
) -> u32
    ensures done { result ≡ 0 → OnCosts (source any_size text.now) costs.now (Judges starts.now legal.new) }
    ensures nowhere { result ≡ 0 → place.new ≡ nowhere }
    ensures refused { result ≢ 0 → TellsWhy (asked (source any_size text.now) costs.now 1 []) result place.new }
    ensures kept { result ≢ 0 → legal.new ≡ legal.old }
{
    match graph_under(alloc, text, any_size, costs) {
        Ok(graph) => {
            judge(&graph, starts, legal);
            tell(Ok(()), place)
        }
        Err(why) => tell(Err(why), place),
    }
}

/// Where the time of a legal run's threads went, and when each segment was ready: 0 for segment 0,
/// and else when its last predecessor ended. The run was on so many threads, from a first moment to
/// a last one.
#[unsafe(no_mangle)]
pub extern "C" fn spanprof_account(
    alloc: Global,
    text: &[u8],
    any_size: bool,
    count: u32,
    first: u64,
    last: u64,
    threads: &[u32],
    begins: &[u64],
    ends: &[u64],
    readies: &mut [u64],
    told: &mut Accounted,
    place: &mut Place,
) -> u32
    ensures done { result ≡ 0 → OfText (source any_size text.now) (OfGraph (Accounts count first
        last (timed_run threads.now begins.now ends.now) readies.new told.new)) }
    ensures nowhere { result ≡ 0 → place.new ≡ nowhere }
    ensures refused { result ≢ 0 → TellsNoAccount
        (asked (source any_size text.now) [] count (length readies.old ∷ [])) first last
        (timed_run threads.now begins.now ends.now) result place.new }
    ensures kept { result ≢ 0 → (readies.new ≡ readies.old) × (told.new ≡ told.old) }
{
    let graph = match graph_under(alloc, text, any_size, &[]) {
        Ok(graph) => graph,
        Err(why) => return tell(Err(why), place),
    };
    if some_other(graph.len(), &[readies.len()]) {
        return tell(Err(Refusal::WrongLength), place);
    }
    let region = Region {
        threads: count,
        first,
        last,
    };
    match times_of(alloc, threads, begins, ends) {
        Ok(times) => {
            let outcome = tell_account(alloc, &graph, region, &times, readies, told);
            tell_times(outcome, place)
        }
        Err(_) => tell(Err(Refusal::OutOfMemory), place),
    }
}

/// Whether a certificate holds: how many segments its program has, and where its soonest schedule
/// ends.
#[unsafe(no_mangle)]
pub extern "C" fn spanprof_check(
    alloc: Global,
    document: &[u8],
    any_size: bool,
    told: &mut Certified,
    place: &mut Place,
) -> u32
    ensures accepted { result ≡ 0 → Certifies any_size document.now told.new }
    ensures nowhere { result ≡ 0 → place.new ≡ nowhere }
    ensures refused { result ≢ 0
        → TellsNoCertificate any_size document.now result place.new }
    ensures kept { result ≢ 0 → told.new ≡ told.old }
{
    let Document { program, rest } = split_document(document);
    if any_size {
        match large_table(alloc, program) {
            Ok(table) => tell_verdict(check_rest(alloc, &table, rest), told, place),
            Err(fault) => tell(Err(text_refusal(fault)), place),
        }
    } else {
        match table_of_text(alloc, program) {
            Ok(table) => tell_verdict(check_rest(alloc, &table, rest), told, place),
            Err(fault) => tell(Err(text_refusal(fault)), place),
        }
    }
}

/// An end before which no schedule of this work and span on 1 to 1,024 threads ends, and one after
/// which no greedy schedule does.
#[unsafe(no_mangle)]
pub extern "C" fn spanprof_bounds(work: u64, span: u64, threads: u32, told: &mut Bounds) -> u32
    ensures done { result ≡ 0 → AreBounds work span threads told.new }
    ensures refused { result ≢ 0 → RefusesBounds work span threads result }
    ensures kept { result ≢ 0 → told.new ≡ told.old }
{
    if threads < 1 || threads > MOST_THREADS {
        return 15;
    }
    if work > MOST_WORK || span > work {
        return 17;
    }
    told.least = least(work, span, threads);
    told.greatest = bound(work, span, threads);
    0
}
