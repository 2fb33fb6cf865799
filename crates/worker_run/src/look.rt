//! Looks for a token at several lanes, one after another.
ghost use Rattle.worker_run.specs.Looks.{AreLookedAt, in_turn, after_unsure, of_steal};
ghost use Rattle.std.specs.Prelude.{◌≡◌};

use crate::signal::Signal;
use crossbeam_deque::Steal;

/// What a look for a token found, at one lane or at several.
#[derive(Clone, Copy, Debug, PartialEq, Eq)]
pub enum Found {
    Token(u32),
    /// Each lane was empty at one moment of the look.
    Nothing,
    /// A lane was passed over, or another thread was in the way, so there may be a token.
    Unsure,
}

/// What a worker looks at for a token of another worker.
pub trait TokenSource {
    ghost use Rattle.worker_run.specs.declared.look.Found.{Found};

    // whether a look at it may find this and leave it so
    ghost looks: { Self → Found → Self → Type 0 };

    fn look(&mut self, signal: &Signal, patient: bool) -> Found
        ensures { looks self.old result self.new };
}

/// Looks at each of these in their order, until one gives a token.
fn look_through<S: TokenSource>(sources: &mut [S], signal: &Signal, patient: bool) -> Found
    ensures { AreLookedAt S.looks sources.old result sources.new }
{
    let mut unsure = false;
    for source in sources.iter_mut() {
        match source.look(signal, patient) {
            Found::Token(token) => return Found::Token(token),
            Found::Unsure => unsure = true,
            Found::Nothing => {}
        }
    }
    if unsure {
        Found::Unsure
    } else {
        Found::Nothing
    }
}

/// Looks at those from the first place upwards, and then at those below it, until one gives a
/// token.
pub(crate) fn look_in_turn<S: TokenSource>(
    sources: &mut [S],
    first: usize,
    signal: &Signal,
    patient: bool,
) -> Found
    ensures { AreLookedAt S.looks (in_turn first sources.old) result (in_turn first sources.new) }
{
    let (below, above) = sources.split_at_mut(first.min(sources.len()));
    match look_through(above, signal, patient) {
        Found::Token(token) => Found::Token(token),
        Found::Nothing => look_through(below, signal, patient),
        Found::Unsure => look_through(below, signal, patient).after_unsure(),
    }
}

impl Found {
    /// What a steal shows of its lane. Where another thread was in the way there may be a token.
    pub(crate) fn of_steal(steal: Steal<u32>) -> Found
        ensures { result ≡ of_steal steal }
    {
        match steal {
            Steal::Success(token) => Found::Token(token),
            Steal::Empty => Found::Nothing,
            Steal::Retry => Found::Unsure,
        }
    }

    /// What this and an unsure look before it amount to.
    fn after_unsure(self) -> Found
        ensures { result ≡ after_unsure self }
    {
        match self {
            Found::Token(token) => Found::Token(token),
            _ => Found::Unsure,
        }
    }
}
