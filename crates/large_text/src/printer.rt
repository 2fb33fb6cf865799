//! The canonical text of a text, written as its tokens come.
ghost use Rattle.std.specs.Prelude.{◌≡◌, ◌++◌, ◌∷◌, [], List, ℕ, IfOk, OnOk, codes};
ghost use Rattle.std.specs.Fmt.{decimal};
ghost use Rattle.std.specs.String.{string_bytes};
ghost use Rattle.program_text.specs.declared.statement.Item.{Item};
ghost use Rattle.program_text.specs.Marks.{Mark};
ghost use Rattle.program_text.specs.Words.{type_word};
ghost use Rattle.task_program.specs.Canonical.{header_line};
ghost use Rattle.task_program.specs.Names.{number_of_name, with_name};
ghost use Rattle.task_program.specs.declared.version.Version.{Version};
ghost use Rattle.large_text.specs.LargeReading.{mark_seen};
ghost use Rattle.large_text.specs.Printed.{IsOwn, Prints, items_behind, joint, task_line};

use crate::marks::TextMark;
use std::alloc::Global;
use task_program::AllocFault;
use task_program::statement::DependKind;
use task_program::version::Version;

/// What is written of a text: the lines of the marks so far, and the clauses of the task whose
/// clauses are being read.
#[derive(Drop)]
pub struct Printer {
    text: String,
    /// Without the last `)`.
    clauses: String,
    /// The type of the last item of the clauses.
    last: Option<DependKind>,
}

impl Printer {
    /// What is written of a text of which no mark has come: its header.
    pub(crate) fn new(alloc: Global, version: Version) -> Result<Printer, AllocFault>
        ensures { IfOk result (λ printer. (names : List (List ℕ))
            → Prints version printer names [] []) }
    {
        Ok(Printer {
            text: String::from_str(alloc, header_line(version))?,
            clauses: String::new(alloc),
            last: None,
        })
    }

    /// The whole text.
    pub(crate) fn into_bytes(self) -> Vec<u8>
        ensures { result.items ≡ string_bytes self.text }
    {
        let Printer { text, .. } = self;
        text.into_bytes()
    }

    /// Puts an item of this type and name behind the clauses.
    pub(crate) fn put_item(&mut self, kind: DependKind, name: &str) -> Result<(), AllocFault>
        ensures { OnOk result ((version : Version) (names : List (List ℕ)) (items : List Item)
            (marks : List Mark)
            → Prints version self.old names items marks
            → Prints version self.new (with_name names name.now)
            (items ++ record { kind = kind; name = number_of_name names name.now } ∷ []) marks) }
    {
        put_joint(&mut self.clauses, self.last, kind)?;
        self.clauses.push_str(name)?;
        self.last = Some(kind);
        Ok(())
    }

    /// Puts the line of the next mark. That of a task takes the clauses.
    pub(crate) fn put_mark(&mut self, mark: &TextMark) -> Result<(), AllocFault>
        ensures { OnOk result ((version : Version) (names : List (List ℕ)) (items : List Item)
            (marks : List Mark)
            → IsOwn items (mark_seen mark.now)
            → Prints version self.old names items marks
            → Prints version self.new names (items_behind items (mark_seen mark.now))
            (marks ++ mark_seen mark.now ∷ [])) }
    {
        match mark {
            TextMark::TaskBegins { undeferred, .. } => self.put_task(*undeferred),
            TextMark::Work(cost) => put_work(&mut self.text, *cost),
            TextMark::Wait => put_line(&mut self.text, "taskwait\n"),
            TextMark::GroupOpens => put_line(&mut self.text, "taskgroup {\n"),
            TextMark::TaskEnds => put_line(&mut self.text, "}\n"),
            TextMark::GroupCloses => put_line(&mut self.text, "}\n"),
        }
    }

    // The line of a task with these clauses, which are its own.
    fn put_task(&mut self, undeferred: bool) -> Result<(), AllocFault>
        ensures text { OnOk result (string_bytes self.new.text ≡ string_bytes self.old.text
            ++ task_line undeferred (string_bytes self.old.clauses) self.old.last) }
        ensures clauses { OnOk result (string_bytes self.new.clauses ≡ []) }
        ensures last { OnOk result (self.new.last ≡ None) }
    {
        let begins = if undeferred { "task if(0)" } else { "task" };
        self.text.push_str(begins)?;
        self.text.push_str(self.clauses.as_str())?;
        let ends = if self.last.is_some() { ") {\n" } else { " {\n" };
        self.text.push_str(ends)?;
        self.clauses.clear();
        self.last = None;
        Ok(())
    }
}

fn header_line(version: Version) -> &'static str
    ensures { result.now ≡ header_line version }
{
    match version {
        Version::One => "omptasks 1\n",
        Version::Two => "omptasks 2\n",
    }
}

fn put_line(text: &mut String, line: &str) -> Result<(), AllocFault>
    ensures { OnOk result (string_bytes text.new ≡ string_bytes text.old ++ line.now) }
{
    text.push_str(line)
}

fn put_work(text: &mut String, cost: u64) -> Result<(), AllocFault>
    ensures { OnOk result (string_bytes text.new
        ≡ string_bytes text.old ++ (codes "work " ++ (decimal cost ++ codes "\n"))) }
{
    write!(text, "work {cost}\n")
}

/// What stands before an item, behind one of the last type, if one is there.
fn put_joint(
    clauses: &mut String,
    last: Option<DependKind>,
    kind: DependKind,
) -> Result<(), AllocFault>
    ensures { OnOk result (string_bytes clauses.new ≡ string_bytes clauses.old ++ joint last kind) }
{
    match last {
        None => clauses.push_str(clause_begins(kind)),
        Some(last) => {
            if last == kind {
                return clauses.push_str(", ");
            }
            clauses.push_str(")")?;
            clauses.push_str(clause_begins(kind))
        }
    }
}

fn clause_begins(kind: DependKind) -> &'static str
    ensures { result.now ≡ codes " depend(" ++ (type_word kind ++ codes ": ") }
{
    match kind {
        DependKind::DependIn => " depend(in: ",
        DependKind::DependOut => " depend(out: ",
        DependKind::DependInOut => " depend(inout: ",
        DependKind::DependInOutSet => " depend(inoutset: ",
    }
}
