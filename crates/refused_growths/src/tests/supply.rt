//! What memory the process can still have, and from which call on.
use super::short::{SIZES, Short};
use std::alloc::Global;
use task_program::AllocFault;

/// What is left when memory is taken.
#[derive(Clone, Copy)]
pub(super) enum Left {
    /// This many bytes in a row, and next to nothing else.
    Row(usize),
    /// Blocks of every size but one.
    Blocks(Short),
}

/// Blocks that are held so that no other allocation can have their memory. Nothing is written to them:
/// they take addresses, of which a process has 2^47, and next to no memory of the machine.
#[derive(Drop)]
pub(super) struct Supply {
    alloc: Global,
    blocks: Vec<Vec<u8>>,
    /// So many of them are held for good.
    kept: usize,
    /// Blocks that are made only to be freed again.
    pieces: Vec<Vec<u8>>,
    /// What is left, and from which call on.
    left: Option<(Left, usize)>,
    calls: usize,
    was_refused: bool,
    /// Where it is false nothing is held, though all else is done: a stack that has grown as far as
    /// it will need not grow where no address is left.
    is_scarce: bool,
}

/// What `checks/hostile/refused_growths.py gate` reads.
#[derive(Clone, Copy)]
enum Event {
    TurnBegins,
    Taking,
    Taken,
    TurnEnds,
}

/// The lists have room for all that they get, so that they take no memory later.
const MOST_BLOCKS: usize = 1 << 18;

const MOST_PIECES: usize = 1 << 12;

/// The size of the first block that is tried, and then half of it, and so on.
const LARGEST: usize = 1 << 46;

/// So many bytes are left where memory is ample again.
const AMPLE: usize = 1 << 30;

/// Pieces are cut from so many blocks of this size, which lie in a row.
const REGION: (usize, usize) = (12, 60_000);

/// So many freed blocks of each small size the C library keeps for requests of that very size.
pub(super) const KEPT_OF_A_SIZE: usize = 7;

impl Supply {
    /// All that the system gives.
    pub(super) fn ample(alloc: Global) -> Supply {
        Supply {
            alloc,
            blocks: Vec::new(alloc),
            kept: 0,
            pieces: Vec::new(alloc),
            left: None,
            calls: 0,
            was_refused: false,
            is_scarce: false,
        }
    }

    /// No more than `AMPLE`, and as little as a turn leaves.
    pub(super) fn scarce(alloc: Global) -> Result<Supply, AllocFault> {
        let mut supply = Supply {
            blocks: Vec::with_capacity(alloc, MOST_BLOCKS)?,
            pieces: Vec::with_capacity(alloc, MOST_PIECES)?,
            is_scarce: true,
            ..Supply::ample(alloc)
        };
        let ample = Vec::<u8>::with_capacity(alloc, AMPLE)?;
        for halvings in 0..17u32 {
            supply.hold_all(LARGEST >> halvings);
        }
        supply.kept = supply.blocks.len();
        drop(ample);
        Ok(supply)
    }

    /// From now on memory is taken before the call of this number, counted from 0.
    pub(super) fn begin_turn(&mut self, left: Left, call: usize) {
        self.restore();
        self.was_refused = false;
        self.calls = 0;
        self.left = Some((left, call));
        self.tell(Event::TurnBegins);
    }

    /// A call comes next, or a part of one.
    pub(super) fn before_call(&mut self) {
        let number = self.calls;
        self.calls = number.saturating_add(1);
        if let Some((left, call)) = self.left
            && call == number
        {
            self.take(left);
        }
    }

    fn take(&mut self, left: Left) {
        self.tell(Event::Taking);
        match left {
            Left::Row(bytes) => self.leave_row(bytes),
            Left::Blocks(short) => self.leave_blocks(short),
        }
        self.tell(Event::Taken);
    }

    /// Asks for more than there ever is, which changes nothing, so that a library before the system's
    /// `malloc` can count what is asked for in a turn.
    fn tell(&self, event: Event) {
        let _ = Vec::<u8>::with_capacity(self.alloc, usize::MAX / 2 - event as usize);
    }

    /// An allocation was refused: from now on there is ample memory.
    pub(super) fn refused(&mut self) {
        self.was_refused = true;
        self.left = None;
        self.restore();
    }

    /// Gives back what was taken, at the end of a turn.
    pub(super) fn restore(&mut self) {
        self.tell(Event::TurnEnds);
        self.pieces.truncate(0);
        self.blocks.truncate(self.kept);
    }

    /// Whether an allocation was refused in this turn.
    pub(super) fn was_refused(&self) -> bool {
        self.was_refused
    }

    /// How many calls were made in this turn.
    pub(super) fn calls(&self) -> usize {
        self.calls
    }

    fn leave_row(&mut self, bytes: usize) {
        self.fill_kept();
        let left = Vec::<u8>::with_capacity(self.alloc, bytes);
        self.hold_everything();
        drop(left);
    }

    /// Cuts pieces from one region, each between blocks that are held, holds all else, and then
    /// frees the pieces. Those of the size that takes the place of the short one come last, and go
    /// first: some are kept for that very size, and the others anyone can have.
    fn leave_blocks(&mut self, short: Short) {
        self.fill_kept();
        for _ in 0..REGION.0 {
            self.cut(REGION.1);
        }
        self.hold_everything();
        self.pieces.truncate(0);
        for size in short.long_blocks() {
            self.cut_apart(*size, 1);
        }
        for number in 0..SIZES {
            self.cut_apart(Short::request(number), short.pieces(number));
        }
        let others = self.pieces.len();
        let stand_in = Short::request(short.number.saturating_add(1));
        self.cut_apart(stand_in, short.blocks.saturating_add(KEPT_OF_A_SIZE));
        self.hold_arena();
        self.pieces.truncate(others);
        for _ in short.spare..KEPT_OF_A_SIZE {
            self.hold(stand_in);
        }
        self.pieces.truncate(0);
    }

    /// Pieces of one size, none next to another.
    fn cut_apart(&mut self, size: usize, count: usize) {
        for _ in 0..count {
            self.cut(size);
            self.hold(16);
        }
    }

    fn cut(&mut self, size: usize) {
        if let Ok(piece) = Vec::with_capacity(self.alloc, size) {
            let _ = self.pieces.push(piece);
        }
    }

    /// Lets the C library keep as many freed blocks of each small size as it ever does.
    fn fill_kept(&mut self) {
        for number in 0..SIZES {
            for _ in 0..KEPT_OF_A_SIZE {
                self.cut(Short::request(number));
            }
        }
        self.pieces.truncate(0);
    }

    /// Holds all that is free, in whatever blocks it lies. Those that are kept for requests of their
    /// size come last.
    fn hold_everything(&mut self) {
        self.hold_arena();
        for number in 0..SIZES {
            for _ in 0..KEPT_OF_A_SIZE {
                self.hold(Short::request(number));
            }
        }
    }

    /// Holds all but the blocks that are kept for requests of their size.
    fn hold_arena(&mut self) {
        for halvings in 0..27u32 {
            self.hold_all(AMPLE >> halvings);
        }
    }

    /// Holds blocks of this size until one is refused.
    fn hold_all(&mut self, size: usize) {
        for _ in 0..MOST_BLOCKS {
            if !self.hold(size) {
                return;
            }
        }
    }

    /// Holds a block of this size; false where it is refused.
    fn hold(&mut self, size: usize) -> bool {
        match Vec::with_capacity(self.alloc, size) {
            Ok(block) if self.is_scarce => self.blocks.push(block).is_ok(),
            _ => false,
        }
    }
}
