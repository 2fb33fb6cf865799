//! The places of the grammar of version 2, after the header.

use program_text::statement::DependKind;

/// What is to come next.
#[derive(Clone, Copy, Debug, PartialEq, Eq)]
pub enum LoopPlace {
    /// A statement, the `}` of an open block, or the end.
    Statement,
    WorkNumber,
    /// The `{` of a `taskgroup`.
    GroupBrace,
    /// The variable of a `for`, its two numbers, and its `{`.
    ForVariable,
    ForFrom,
    ForTo,
    ForBrace,
    /// A clause of a `task`, or its `{`.
    Clause,
    /// The `(` of an `if`.
    IfOpens,
    IfNumber,
    IfCloses,
    /// The `(` of a `final`.
    FinalOpens,
    FinalNumber,
    FinalCloses,
    /// The `(` of a `depend`.
    DependOpens,
    DependType,
    DependColon(DependKind),
    DependName(DependKind),
    /// A `[` after a name, or what may stand after an item.
    Subscript(DependKind),
    /// The first token of an index.
    IndexStart(DependKind),
    /// The number after a sign in an index.
    IndexNumber(DependKind),
    /// A sign after the variable of an index, or the `]`.
    IndexSign(DependKind),
    IndexCloses(DependKind),
    /// A `,` or the `)` of a `depend`.
    DependMore(DependKind),
}
