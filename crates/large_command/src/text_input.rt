//! A text that is taken as it comes.
ghost use Rattle.std.specs.Prelude.{◌≡◌, ◌+◌, ◌-◌, ◌^◌, ◌<◌, Err, OnOk, []};
ghost use Rattle.counted_io.specs.Counted.{inner_of, faults_of};
ghost use Rattle.counted_io.specs.Input.{ConsumesAtMost};
ghost use Rattle.large_text.specs.declared.limits.TheConstants.{LARGEST_TEXT};
ghost use Rattle.large_text.specs.Streamed.{HasTaken, KeepsText};
ghost use Rattle.spanprof_command.specs.Command.{counts_of};
ghost use Rattle.spanprof_command.specs.Finished.{SpendsRetries};
ghost use Rattle.large_command.specs.TextInput.{ReadsTooLong, TakesText};

use crate::room::Room;
use counted_io::{Counted, InputFault, read_piece};
use large_text::TextMeter;
use std::io::Read;

/// How many bytes one read asks for at most.
pub(crate) const PIECE: usize = 65_536;

/// Reads to the end, piece by piece, and hands all that comes to the meter; but it stops with the
/// piece with which the text is `TooLong`, and reads at most one byte more than [`LARGEST_TEXT`].
/// Retries as `read_piece`.
pub(crate) fn take_input<R: Read>(
    reader: &mut Counted<R>,
    text: &mut TextMeter,
    retries: &mut u32,
) -> Result<(), InputFault>
    requires retries { faults_of reader.old + retries.old < 2 ^ 64 - 1 }
    requires first { HasTaken [] text.old }

    ensures takes { OnOk result (TakesText (R.remaining (inner_of reader.old))
        (R.remaining (inner_of reader.new)) text.new) }
    ensures text { OnOk result (KeepsText text.old → KeepsText text.new) }

    ensures too_long { result ≡ Err InputFault.TooLong
        → ReadsTooLong (R.remaining (inner_of reader.old)) (R.remaining (inner_of reader.new)) }

    // In every case.
    ensures limited { ConsumesAtMost (LARGEST_TEXT + 1) (R.remaining (inner_of reader.old))
        (R.remaining (inner_of reader.new)) }
    ensures retries { SpendsRetries InputFault.ReadFailed result (counts_of reader.old reader.new)
        retries.old retries.new }
{
    let mut piece = [0u8; PIECE];
    let mut room = Room::new();
    'pieces: loop {
        let next = PIECE.min(room.left + 1);
        match read_piece(reader, &mut piece[..next], retries) {
            Ok(0) => return Ok(()),
            Ok(taken) => {
                let bytes = &piece[..taken];
                match room.after(bytes) {
                    Some(rest) => room = rest,
                    None => return Err(InputFault::TooLong),
                }
                match text.take(bytes) {
                    Ok(()) => {}
                    Err(_) => return Err(InputFault::OutOfMemory),
                }
            }
            Err(_) => return Err(InputFault::ReadFailed),
        }
    }
}
