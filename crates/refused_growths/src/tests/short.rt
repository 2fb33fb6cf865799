//! Blocks of every size but one.

/// How many sizes of blocks the C library keeps apart: 24 bytes, 40, 56, and so on.
pub(super) const SIZES: usize = 64;

/// Of one size there are no blocks, but so many of the next one in their place. A freed block is
/// kept for requests of its own size. So each request of the short size takes a block that no later
/// one of that size can have, and the one after so many is refused, whatever was freed in between.
#[derive(Clone, Copy)]
pub(super) struct Short {
    /// The number of the size among the sizes.
    pub(super) number: usize,
    /// So many blocks are in the place of those of the short size.
    pub(super) blocks: usize,
    /// So many blocks are there for requests of the next size itself.
    pub(super) spare: usize,
    /// Whether there are the longer blocks that reading a command's words asks for.
    pub(super) has_long: bool,
}

/// One of these blocks grows where it lies, and four do not grow.
const LONG: [usize; 5] = [10_752, 2_432, 2_432, 2_432, 2_432];

impl Short {
    /// Longer blocks that are there, one of each.
    pub(super) fn long_blocks(&self) -> &'static [usize] {
        if self.has_long { &LONG } else { &[] }
    }

    /// The most bytes of a block.
    pub(super) fn request(number: usize) -> usize {
        24 + 16 * number.min(SIZES)
    }

    /// How many pieces of a size are there that is neither short nor the next one.
    pub(super) fn pieces(&self, number: usize) -> usize {
        if number == self.number || number == self.number.saturating_add(1) {
            return 0;
        }
        // A shorter block cannot be used for a longer one, so there may be many.
        match number {
            0..=3 if number < self.number => 47,
            4..=10 if number < self.number => 15,
            _ => super::supply::KEPT_OF_A_SIZE,
        }
    }
}
