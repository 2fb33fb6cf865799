//! A list of changes of costs, one on a line.
ghost use Rattle.std.specs.Prelude.{◌≡◌, ◌≤◌, ◌++◌, ◌∷◌, [], IfErr, IfOk, None, OnOk, Some, length};
ghost use Rattle.std.specs.Prelude.{map, slice_set, sum};
ghost use Rattle.program_text.specs.Document.{lines_of};
ghost use Rattle.program_text.specs.declared.limits.TheConstants.{MOST_WORK};
ghost use Rattle.large_documents.specs.ChangeLists.{IsListFault, first_wrong, line_says};
ghost use Rattle.large_documents.specs.ChangeLists.{costs_behind, listed, words_say, wrong_with};
ghost use Rattle.large_documents.specs.ChangeLists.{refused_with};
ghost use Rattle.large_documents.specs.Listing.{FitsPut, IsFaultOfChange, IsFaultOfLine, changes_on};
ghost use Rattle.large_documents.specs.declared.change_list.ListFault.TheVariants.{OutOfMemory};

use command_words::changes::{Change, read_change};
use dispatch_core::graph::Graph;
use std::alloc::Global;
use task_program::AllocFault;
use time_text::first_words;
use whatif_costs::fault::{WhatFault, refusal_at};

/// What a line of a list says.
#[derive(Clone, Copy, Debug, PartialEq, Eq)]
pub enum ChangeLine {
    /// Nothing: it has no words.
    Blank,
    /// Another cost for a segment.
    Puts(Change),
}

/// What is wrong with a line of a list.
#[derive(Clone, Copy, Debug, PartialEq, Eq)]
pub enum WrongLine {
    /// It does not say what may stand there.
    BadForm,
    /// Its change is refused.
    Refused(WhatFault),
}

/// Why a list is refused.
#[derive(Clone, Copy, Debug, PartialEq, Eq)]
pub enum ListFault {
    /// Its first wrong line, by its index from 0.
    Wrong { line: usize, why: WrongLine },
    /// An allocation failed.
    OutOfMemory,
}

impl From<AllocFault> for ListFault {
    ghost use Rattle.large_documents.specs.declared.change_list.ListFault.TheVariants.{OutOfMemory};

    ghost from_gives = { λ _ fault. fault ≡ OutOfMemory };

    fn from(_error: AllocFault) -> ListFault {
        ListFault::OutOfMemory
    }
}

/// The changes of the lines so far, the costs after them, and the sum of these.
#[derive(Drop)]
struct Listing {
    changes: Vec<Change>,
    costs: Vec<u64>,
    work: u64,
}

/// Reads the changes that the lines of a text list, to be made on a graph in their order. A line is
/// `SEG=COST`, or has no words. The text is refused for its first wrong line.
pub(crate) fn read_list(alloc: Global, graph: &Graph, text: &[u8]) -> Result<Vec<Change>, ListFault>
    ensures right { OnOk result (first_wrong graph.now.costs (lines_of text.now) ≡ None) }
    ensures listed { IfOk result (λ changes. listed (lines_of text.now) ≡ Some changes.items) }
    ensures refused { IfErr result (IsListFault graph.now.costs (lines_of text.now)) }
{
    let mut list = new_listing(alloc, graph)?;
    let mut number = 0;
    for line in text.split(|byte| *byte == b'\n') {
        let said = read_line(alloc, line)?;
        take(&mut list, number, said)?;
        number += 1;
    }
    Ok(list.changes)
}

/// No changes, and the costs of a graph.
fn new_listing(alloc: Global, graph: &Graph) -> Result<Listing, AllocFault>
    ensures none { IfOk result (λ list. list.changes.items ≡ []) }
    ensures costs { IfOk result (λ list. list.costs.items ≡ graph.now.costs) }
    ensures work { IfOk result (λ list. list.work ≡ sum list.costs.items) }
    ensures small { IfOk result (λ list. list.work ≤ MOST_WORK) }
{
    dispatch_core::laws::is_graph(graph);
    Ok(Listing {
        changes: Vec::new(alloc),
        costs: Vec::from_slice(alloc, graph.costs())?,
        work: graph.work(),
    })
}

/// What a line says, if anything.
fn read_line(alloc: Global, line: &[u8]) -> Result<Option<ChangeLine>, AllocFault>
    ensures { IfOk result (λ said. said ≡ line_says line.now) }
{
    // One more than a line may have.
    let words = first_words(alloc, line, 2)?;
    Ok(read_words(words.as_slice()))
}

/// What words say, if anything.
fn read_words(words: &[&[u8]]) -> Option<ChangeLine>
    ensures { result ≡ words_say (map (λ word. word.now) words.now) }
{
    if words.is_empty() {
        return Some(ChangeLine::Blank);
    }
    if words.len() != 1 {
        return None;
    }
    let change = read_change(words[0])?;
    Some(ChangeLine::Puts(change))
}

/// Takes what one line more says.
fn take(list: &mut Listing, line: usize, said: Option<ChangeLine>) -> Result<(), ListFault>
    requires work { list.old.work ≡ sum list.old.costs.items }
    requires small { list.old.work ≤ MOST_WORK }
    ensures work { OnOk result (list.new.work ≡ sum list.new.costs.items) }
    ensures small { OnOk result (list.new.work ≤ MOST_WORK) }
    ensures right { OnOk result (wrong_with list.old.costs.items said ≡ None) }
    ensures costs { OnOk result (list.new.costs.items ≡ costs_behind list.old.costs.items said) }
    ensures changes { OnOk result (list.new.changes.items
        ≡ list.old.changes.items ++ changes_on said) }
    ensures wrong { IfErr result (IsFaultOfLine list.old.costs.items line said) }
{
    match said {
        None => Err(ListFault::Wrong {
            line,
            why: WrongLine::BadForm,
        }),
        Some(ChangeLine::Blank) => Ok(()),
        Some(ChangeLine::Puts(change)) => put(list, line, change),
    }
}

/// Puts the change of a line, unless it is refused.
fn put(list: &mut Listing, line: usize, change: Change) -> Result<(), ListFault>
    requires work { list.old.work ≡ sum list.old.costs.items }
    requires small { list.old.work ≤ MOST_WORK }
    ensures work { OnOk result (list.new.work ≡ sum list.new.costs.items) }
    ensures small { OnOk result (list.new.work ≤ MOST_WORK) }
    ensures right { OnOk result (refused_with list.old.costs.items change ≡ None) }
    ensures costs { OnOk result (list.new.costs.items
        ≡ slice_set list.old.costs.items change.segment change.cost) }
    ensures changes { OnOk result (list.new.changes.items ≡ list.old.changes.items ++ change ∷ []) }
    ensures wrong { IfErr result (IsFaultOfChange list.old.costs.items line change) }
{
    match why_refused(list.costs.as_slice(), list.work, change) {
        Some(why) => Err(ListFault::Wrong {
            line,
            why: WrongLine::Refused(why),
        }),
        None => accept(list, change),
    }
}

/// Why a change is refused where these are the costs, and this is their sum.
fn why_refused(costs: &[u64], work: u64, change: Change) -> Option<WhatFault>
    requires work { work ≡ sum costs.now }
    requires small { work ≤ MOST_WORK }
    ensures { result ≡ refused_with costs.now change }
{
    refusal_at(costs, work, change.segment, change.cost)
}

/// Adds a change that is not refused.
#[tactic(auto, using(crate::proofs::ListSteps::put_fits))]
fn accept(list: &mut Listing, change: Change) -> Result<(), ListFault>
    requires right { refused_with list.old.costs.items change ≡ None }
    requires work { list.old.work ≡ sum list.old.costs.items }
    ensures work { OnOk result (list.new.work ≡ sum list.new.costs.items) }
    ensures small { OnOk result (list.new.work ≤ MOST_WORK) }
    ensures costs { OnOk result (list.new.costs.items
        ≡ slice_set list.old.costs.items change.segment change.cost) }
    ensures changes { OnOk result (list.new.changes.items ≡ list.old.changes.items ++ change ∷ []) }
    ensures memory { IfErr result (λ fault. fault ≡ OutOfMemory) }
{
    if list.changes.push(change).is_err() {
        return Err(ListFault::OutOfMemory);
    }
    list.work = put_cost(&mut list.costs, list.work, change);
    Ok(())
}

/// Puts another cost among costs with this sum, and answers their sum then.
fn put_cost(costs: &mut [u64], work: u64, change: Change) -> u64
    requires { FitsPut costs.old work change }
    ensures costs { costs.new ≡ slice_set costs.old change.segment change.cost }
    ensures work { result ≡ sum costs.new }
    ensures small { result ≤ MOST_WORK }
{
    let place = change.segment as usize;
    let before = costs[place];
    costs[place] = change.cost;
    work - before + change.cost
}
