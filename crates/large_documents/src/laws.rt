//! Laws of the definitions.
ghost use Rattle.std.specs.Prelude.{ℕ, ◌≡◌, ◌<◌, Contains, List, Some, length};
ghost use Rattle.command_words.specs.declared.large.DocumentRequest.{DocumentRequest};
ghost use Rattle.dispatch_core.specs.RecordedGraph.{IsGraph, Precedes, RecordedGraph};
ghost use Rattle.program_text.specs.Marks.{Mark};
ghost use Rattle.span_analysis.specs.Findings.{Findings, IsAnalysis};
ghost use Rattle.task_segments.specs.MarksTable.{IsReading};
ghost use Rattle.time_accounts.specs.TimedRun.{IsTimedRun, TimedRun};
ghost use Rattle.large_documents.specs.OneRest.{HasOneReport, HasReport};
ghost use Rattle.large_documents.specs.PlaceLaws.{AddUp, HasPlace, IsLeast, TimesAddUp};
ghost use Rattle.large_documents.specs.Places.{least_of, segments_at};
ghost use Rattle.large_documents.specs.declared.rest.TheConstants.{MOST_LARGE_EVENTS};

/// The limit of a log of any size is this number.
pub fn limits()
    ensures events { MOST_LARGE_EVENTS ≡ 8_000_000_000 }
{}

/// Of a document whose program has a table, there are no two reports, and there is one.
pub fn one_report()
    ensures one { (asked : DocumentRequest) (program rest : List ℕ) (marks : List Mark)
        → IsReading marks → HasOneReport asked program rest marks }
    ensures some { (asked : DocumentRequest) (program rest : List ℕ) (marks : List Mark)
        → IsReading marks → HasReport asked program rest marks }
{}

/// The sums of all places are those of the whole.
pub fn places_add_up()
    ensures { (graph : RecordedGraph) (found : Findings) (places : List ℕ) → IsGraph graph
        → IsAnalysis graph found → length places ≡ length graph.costs
        → AddUp graph.costs found places }
{}

/// With the times of a run, all places together have all of its busy, delayed and starved
/// time.
pub fn times_add_up()
    ensures { (graph : RecordedGraph) (p first last : ℕ) (run : TimedRun) (places : List ℕ)
        → IsGraph graph → IsTimedRun (length graph.costs) (Precedes graph) p first last run
        → length places ≡ length graph.costs → TimesAddUp graph p first last run places }
{}

/// Each segment counts at one place, and the slack in the row of a place is the least one.
pub fn one_place()
    ensures some { (places : List ℕ) (s : ℕ) → s < length places → HasPlace places s }
    ensures one { (places : List ℕ) (p q s : ℕ) → Contains (segments_at places p) s
        → Contains (segments_at places q) s → p ≡ q }
    ensures least { (numbers : List ℕ) (least : ℕ) → least_of numbers ≡ Some least
        → IsLeast numbers least }
{}
