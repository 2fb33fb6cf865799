//! What stands at a place of a list of options, if anything.
ghost use Rattle.std.specs.Prelude.{◌≡◌};
ghost use Rattle.open_segments.specs.Entry.{entry};

/// The value at a place; none where none stands there, or past the last place.
pub fn value_entry(values: &[Option<u64>], at: u32) -> Option<u64>
    ensures { result ≡ entry values.now at }
{
    values.get(at as usize).copied().flatten()
}
