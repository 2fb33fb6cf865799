//! A document that is read whole.
ghost use Rattle.std.specs.Prelude.{◌≡◌, ◌+◌, ◌-◌, ◌^◌, ◌<◌, Err, IfOk};
ghost use Rattle.counted_io.specs.Counted.{inner_of, faults_of};
ghost use Rattle.counted_io.specs.Input.{ConsumesAtMost};
ghost use Rattle.large_text.specs.declared.limits.TheConstants.{LARGEST_TEXT};
ghost use Rattle.spanprof_command.specs.Command.{counts_of};
ghost use Rattle.spanprof_command.specs.Finished.{SpendsRetries};
ghost use Rattle.large_command.specs.TextInput.{ReadsTooLong, ReadsWhole};

use crate::room::Room;
use crate::text_input::PIECE;
use counted_io::{Counted, InputFault, read_piece};
use std::alloc::Global;
use std::io::Read;

/// Reads to the end, piece by piece, and keeps all that comes. As `take_input` does, it stops with the
/// piece with which the document is `TooLong`, and reads at most one byte more than
/// [`LARGEST_TEXT`]. Retries as `read_piece`.
pub(crate) fn read_document<R: Read>(
    alloc: Global,
    reader: &mut Counted<R>,
    retries: &mut u32,
) -> Result<Vec<u8>, InputFault>
    requires { faults_of reader.old + retries.old < 2 ^ 64 - 1 }

    ensures reads { IfOk result (λ document. ReadsWhole (R.remaining (inner_of reader.old))
        (R.remaining (inner_of reader.new)) document.items) }

    ensures too_long { result ≡ Err InputFault.TooLong
        → ReadsTooLong (R.remaining (inner_of reader.old)) (R.remaining (inner_of reader.new)) }

    // In every case.
    ensures limited { ConsumesAtMost (LARGEST_TEXT + 1) (R.remaining (inner_of reader.old))
        (R.remaining (inner_of reader.new)) }
    ensures retries { SpendsRetries InputFault.ReadFailed result (counts_of reader.old reader.new)
        retries.old retries.new }
{
    let mut document = Vec::new(alloc);
    let mut piece = [0u8; PIECE];
    let mut room = Room::new();
    'pieces: loop {
        let next = PIECE.min(room.left + 1);
        match read_piece(reader, &mut piece[..next], retries) {
            Ok(0) => return Ok(document),
            Ok(taken) => {
                let bytes = &piece[..taken];
                match room.after(bytes) {
                    Some(rest) => room = rest,
                    None => return Err(InputFault::TooLong),
                }
                if document.extend_from_slice(bytes).is_err() {
                    return Err(InputFault::OutOfMemory);
                }
            }
            Err(_) => return Err(InputFault::ReadFailed),
        }
    }
}
