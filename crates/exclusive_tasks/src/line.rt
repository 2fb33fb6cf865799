//! What a line of a log says.
ghost use Rattle.std.specs.Prelude.{◌≡◌, IfOk, map};
ghost use Rattle.exclusive_tasks.specs.Lines.{claim_said, event_said, line_says, words_say};

use crate::claim::{Claim, Event};
use program_text::plain_words::read_number;
use std::alloc::{AllocError, Global};
use time_text::first_words;

/// The largest number of a thread, a segment, a task or a location that a line can have.
pub const LARGEST_NUMBER: u64 = 4_294_967_295;

/// What a line of a log says.
#[derive(Clone, Copy, Debug, PartialEq, Eq)]
pub enum Said {
    /// Nothing: it has no words.
    Blank,
    /// That a task excludes its siblings at a location.
    Claim(Claim),
    /// What happened next.
    Event(Event),
}

/// A line has no more words than this, or it is wrong.
const MOST_WORDS: usize = 6;

/// What a line says, if anything.
pub(crate) fn read_line(alloc: Global, line: &[u8]) -> Result<Option<Said>, AllocError>
    ensures { IfOk result (λ said. said ≡ line_says line.now) }
{
    // One more than a line may have.
    let words = first_words(alloc, line, MOST_WORDS)?;
    Ok(read_words(words.as_slice()))
}

/// What words say, if anything.
fn read_words(words: &[&[u8]]) -> Option<Said>
    ensures { result ≡ words_say (map (λ word. word.now) words.now) }
{
    if words.is_empty() {
        return Some(Said::Blank);
    }
    if words.len() == 3 {
        return read_event(words[0], words[1], words[2]);
    }
    if words.len() != 5 {
        return None;
    }
    if words[0] == b"exclusive".as_slice() {
        read_claim(words[1], words[2], words[3], words[4])
    } else {
        None
    }
}

fn read_event(verb: &[u8], thread: &[u8], segment: &[u8]) -> Option<Said>
    ensures { result ≡ event_said verb.now thread.now segment.now }
{
    let _thread = read_number(thread, LARGEST_NUMBER)?;
    let segment = read_number(segment, LARGEST_NUMBER)? as u32;
    if verb == b"start".as_slice() {
        Some(Said::Event(Event::Start(segment)))
    } else if verb == b"finish".as_slice() {
        Some(Said::Event(Event::Finish(segment)))
    } else {
        None
    }
}

fn read_claim(parent: &[u8], location: &[u8], first: &[u8], last: &[u8]) -> Option<Said>
    ensures { result ≡ claim_said parent.now location.now first.now last.now }
{
    Some(Said::Claim(Claim {
        parent: read_number(parent, LARGEST_NUMBER)? as u32,
        location: read_number(location, LARGEST_NUMBER)? as u32,
        first: read_number(first, LARGEST_NUMBER)? as u32,
        last: read_number(last, LARGEST_NUMBER)? as u32,
    }))
}
