//! The marks of a text. Contracts see a mark as the same one of `program_text`.

use task_program::statement::Items;

/// A mark: a task or a group begins or ends, a task works, or it waits for its children.
#[derive(Drop)]
pub enum TextMark {
    /// The beginning of a task: whether it is undeferred, and its depend items.
    TaskBegins { undeferred: bool, items: Items },
    /// The end of the innermost task.
    TaskEnds,
    /// Work of this cost.
    Work(u64),
    /// A wait of the running task for its children.
    Wait,
    /// The beginning of a group.
    GroupOpens,
    /// The end of the innermost group.
    GroupCloses,
}
