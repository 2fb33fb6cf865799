//! The key under which names are hashed. No answer depends on it, only the time that one takes.

use std::hash::{BuildHasher, DefaultHasher, FoldHasher, Hasher};

/// Makes the hashers of a table of names. Who knows the key can make up names that collide, and a
/// table of such names takes time quadratic in their number.
#[derive(Clone, Copy)]
pub struct NameKey {
    initial: FoldHasher,
}

impl NameKey {
    /// The same key for all tables: for a few names, or for names that nobody chose.
    pub fn fixed() -> NameKey {
        NameKey {
            initial: FoldHasher::default(),
        }
    }

    /// The key of this number.
    pub fn of_number(number: u64) -> NameKey {
        let mut initial = FoldHasher::default();
        initial.write_u64(number);
        NameKey { initial }
    }

    /// The key of a text, by all of its bytes: its number is their SipHash-1-3. So
    /// whoever makes up names for a key has another key once they stand in the text.
    pub fn of_text(text: &[u8]) -> NameKey {
        let mut hasher = DefaultHasher::new();
        hasher.write(text);
        NameKey::of_number(hasher.finish())
    }
}

impl BuildHasher for NameKey {
    type Hasher = FoldHasher;

    ghost build_hasher = { λ key. key.initial };

    fn build_hasher(&self) -> FoldHasher {
        self.initial
    }
}
