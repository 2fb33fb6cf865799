//! Laws of the definitions.
ghost use Rattle.std.specs.Prelude.{ℕ, ◌≡◌, ◌-◌, ◌^◌, List};
ghost use Rattle.program_text.specs.declared.limits.TheConstants.{LARGEST_STEP};
ghost use Rattle.large_text.specs.LargeTexts.{HasOneLargeReading};
ghost use Rattle.large_text.specs.declared.limits.TheConstants.{LARGEST_TEXT, LARGEST_LINE};
ghost use Rattle.large_text.specs.declared.limits.TheConstants.{MOST_LARGE_TOKEN_BYTES};
ghost use Rattle.large_text.specs.declared.limits.TheConstants.{MOST_LARGE_NESTING, MOST_LARGE_ITEMS};
ghost use Rattle.large_text.specs.declared.limits.TheConstants.{MOST_LARGE_TURNS, MOST_LARGE_LINES};
ghost use Rattle.large_text.specs.declared.limits.TheConstants.{MOST_TASK_ITEMS};

/// The limits are these numbers.
pub fn limits()
    ensures step { LARGEST_STEP ≡ 2_000_001 }
    ensures text { LARGEST_TEXT ≡ 2 ^ 63 - 2 }
    ensures line { LARGEST_LINE ≡ 4_000_000_000 }
    ensures tokens { MOST_LARGE_TOKEN_BYTES ≡ 2 ^ 63 - 2 }
    ensures nesting { MOST_LARGE_NESTING ≡ 1_048_576 }
    ensures items { MOST_LARGE_ITEMS ≡ 2 ^ 32 - 2 }
    ensures task_items { MOST_TASK_ITEMS ≡ 65_536 }
    ensures turns { MOST_LARGE_TURNS ≡ 4_000_000_000 }
    ensures lines { MOST_LARGE_LINES ≡ 4_000_000_000 }
{}

/// Each text, of either version, has no fault or a first one, and not both; so it is read where it
/// has none, since what is refused, memory aside, has one. Where it has none it stands for a program,
/// and no text stands for two.
pub fn one_reading()
    ensures { (text : List ℕ) → HasOneLargeReading text }
{}
