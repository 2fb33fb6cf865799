//! Laws of the definitions.
ghost use Rattle.std.specs.Prelude.{ℕ, ◌≡◌, ◌≢◌, ◌<◌, ◌-◌, ◌^◌, List, length};
ghost use Rattle.time_text.specs.OneReading.{HasReading};
ghost use Rattle.time_text.specs.TimesTexts.{IsTextFault, TellsTimes};
ghost use Rattle.time_text.specs.declared.fault.TimeTextFault.{TimeTextFault};
ghost use Rattle.time_text.specs.declared.fault.TimeTextFault.TheVariants.{OutOfMemory};
ghost use Rattle.time_text.specs.declared.line.RegionTimes.{RegionTimes};
ghost use Rattle.time_text.specs.declared.line.SegmentTimes.{SegmentTimes};
ghost use Rattle.time_text.specs.declared.line.TheConstants.{LARGEST_NUMBER, LARGEST_MOMENT};

/// The limits of a table of times are these numbers.
pub fn limits()
    ensures number { LARGEST_NUMBER ≡ 2 ^ 32 - 1 }
    ensures moment { LARGEST_MOMENT ≡ 10 ^ 18 }
{}

/// Each text of one line or more has the times of a run of so many segments, or has a fault.
pub fn some_reading()
    ensures { (n : ℕ) (lines : List (List ℕ)) → 0 < length lines → HasReading n lines }
{}

/// No text has the times of two runs.
pub fn one_run()
    ensures { (n : ℕ) (lines : List (List ℕ)) (region other : RegionTimes)
        (segments others : List SegmentTimes)
        → TellsTimes n lines region segments → TellsTimes n lines other others
        → (region ≡ other) × (segments ≡ others) }
{}

/// No text has two faults, out of memory aside.
pub fn one_fault()
    ensures { (n : ℕ) (lines : List (List ℕ)) (fault other : TimeTextFault)
        → fault ≢ OutOfMemory → other ≢ OutOfMemory
        → IsTextFault n lines fault → IsTextFault n lines other → fault ≡ other }
{}

/// A text that has the times of a run has no fault.
pub fn no_fault()
    ensures { (n : ℕ) (lines : List (List ℕ)) (region : RegionTimes)
        (segments : List SegmentTimes) (fault : TimeTextFault) → fault ≢ OutOfMemory
        → TellsTimes n lines region segments → IsTextFault n lines fault → ⊥ }
{}
