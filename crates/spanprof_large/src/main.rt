//! `spanprof_large`: reads a program of tasks of any size from standard input, and writes its work
//! and its span to standard output.
#![tactic(auto)]

mod entry;

use counted_io::Counted;
use entry::{Ended, start};
use spanprof_command::given_words;
use std::hash::{BuildHasher, Hasher, RandomState};
use std::io;
use std::random::RandomSource;
use task_program::name_key::NameKey;

fn main(rt: HostRuntime) -> Ended {
    let mut reader = Counted::new(rt.reader());
    let mut writer = Counted::new(io::writer(&rt));
    let words = given_words(&rt);
    start(&rt, key_of_names(&rt), words, &mut reader, &mut writer)
}

/// A random key, or the fixed one where the system has no random bytes.
fn key_of_names(rt: &impl RandomSource) -> NameKey {
    match RandomState::new(rt) {
        Ok(state) => NameKey::of_number(state.build_hasher().finish()),
        Err(_) => NameKey::fixed(),
    }
}
