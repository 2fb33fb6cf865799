//! The limits of a program's text, as numbers.
ghost use Rattle.std.specs.Prelude.{◌≡◌, ◌^◌};
ghost use Rattle.program_text.specs.declared.limits.TheConstants.{MOST_TEXT_BYTES, MOST_TOKEN_BYTES};
ghost use Rattle.program_text.specs.declared.limits.TheConstants.{MOST_TASKS, MOST_SEGMENTS};
ghost use Rattle.program_text.specs.declared.limits.TheConstants.{MOST_NESTING, MOST_ITEMS};
ghost use Rattle.program_text.specs.declared.limits.TheConstants.{MOST_WORD_BYTES, LARGEST_COST};
ghost use Rattle.program_text.specs.declared.limits.TheConstants.{MOST_WORK, MOST_CANONICAL_BYTES};
ghost use Rattle.program_text.specs.declared.limits.TheConstants.{LARGEST_BOUND, LARGEST_INDEX};
ghost use Rattle.program_text.specs.declared.limits.TheConstants.{MOST_TURNS};

/// The limits are these numbers. Definitions cite the constants, so nothing else fixes what they are.
pub fn limits()
    ensures text { MOST_TEXT_BYTES ≡ 4_194_304 }
    ensures tokens { MOST_TOKEN_BYTES ≡ 1_048_576 }
    ensures tasks { MOST_TASKS ≡ 4_096 }
    ensures segments { MOST_SEGMENTS ≡ 16_384 }
    ensures nesting { MOST_NESTING ≡ 64 }
    ensures items { MOST_ITEMS ≡ 32 }
    ensures word { MOST_WORD_BYTES ≡ 31 }
    ensures cost { LARGEST_COST ≡ 10 ^ 12 }
    ensures work { MOST_WORK ≡ 10 ^ 15 }
    ensures canonical { MOST_CANONICAL_BYTES ≡ 2_097_152 }
    ensures bound { LARGEST_BOUND ≡ 1_000_000 }
    ensures index { LARGEST_INDEX ≡ 1_000_000 }
    ensures turns { MOST_TURNS ≡ 65_536 }
{}
