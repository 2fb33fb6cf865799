//! The program's way in: words that the system may fail to hand over, and an exit status.
ghost use Rattle.std.specs.Prelude.{◌≡◌, ◌≢◌, ◌+◌, ◌<◌, ◌≤◌, ◌^◌, IfErr, IfOk, IfSome, OnErr, map};
ghost use Rattle.std.specs.Prelude.{false, string_bytes, true};
ghost use Rattle.std.specs.Process.{exit_status};
ghost use Rattle.std.specs.IoError.{error_kind};
ghost use Rattle.counted_io.specs.Counted.{faults_of, inner_of};
ghost use Rattle.counted_io.specs.Input.{ConsumesAtMost};
ghost use Rattle.command_words.specs.About.{about_of};
ghost use Rattle.command_words.specs.LargeWords.{large_request_of};
ghost use Rattle.spanprof_command.specs.Command.{ExitsAfter, ExitsWith, counts_of};
ghost use Rattle.spanprof_command.specs.Flushes.{FlushesOnce};
ghost use Rattle.spanprof_command.specs.Report.{out_of_memory, wrong_words};
ghost use Rattle.large_command.specs.LargeCommand.{IsReport, wants_text};
ghost use Rattle.large_text.specs.declared.limits.TheConstants.{LARGEST_TEXT};
ghost use Rattle.std.specs.declared.io.ErrorKind.TheVariants.{OutOfMemory};

use crate::engine::command;
use counted_io::Counted;
use spanprof_command::without_words;
use std::alloc::AllocGlobal;
use std::io;
use std::io::{Read, Write};
use std::process::ExitCode;
use std::thread::Threads;
use task_program::name_key::NameKey;

/// Does what `command` does with the words that the system handed over, and answers the exit
/// status: 0 where the report was written, 1 where the text or what is asked of it was refused, 2 for wrong arguments, and 3
/// where memory ran out, a read failed or a write failed. Where there are no words, nothing is
/// read: arguments that are not text are wrong.
pub fn start<H: AllocGlobal + Threads + Sync, R: Read, W: Write>(
    rt: &H,
    key: NameKey,
    words: io::Result<Vec<String>>,
    reader: &mut Counted<R>,
    writer: &mut Counted<W>,
) -> ExitCode
    requires reader { faults_of reader.old < 2 ^ 63 }
    requires writer { faults_of writer.old < 2 ^ 63 }
    ensures given { IfOk words (λ given. ExitsWith (IsReport (map string_bytes given.items)
        (R.remaining (inner_of reader.old)) (R.remaining (inner_of reader.new)))
        (counts_of reader.old reader.new)
        (W.contents (inner_of writer.old)) (W.contents (inner_of writer.new))
        (counts_of writer.old writer.new) result) }
    ensures memory { IfErr words (λ error. error_kind error ≡ OutOfMemory → ExitsAfter out_of_memory
        (W.contents (inner_of writer.old)) (W.contents (inner_of writer.new))
        (counts_of writer.old writer.new) result) }
    ensures no_text { IfErr words (λ error. error_kind error ≢ OutOfMemory → ExitsAfter wrong_words
        (W.contents (inner_of writer.old)) (W.contents (inner_of writer.new))
        (counts_of writer.old writer.new) result) }
    ensures reads_nothing { OnErr words (reader.new ≡ reader.old) }
    ensures reads_for_words { IfOk words (λ given.
        wants_text (large_request_of (map string_bytes given.items)) ≡ false
        → reader.new ≡ reader.old) }
    ensures reads_about { IfOk words (λ given. IfSome (about_of (map string_bytes given.items))
        (λ about. reader.new ≡ reader.old)) }

    // In every case, as of `command`.
    ensures reads_so_much { ConsumesAtMost (LARGEST_TEXT + 1) (R.remaining (inner_of reader.old))
        (R.remaining (inner_of reader.new)) }
    ensures flushes { FlushesOnce (exit_status result ≢ 3) writer.old writer.new }
{
    let status = match words {
        Ok(words) => command(rt, key, words.as_slice(), reader, writer),
        Err(error) => without_words(error.kind(), writer),
    };
    ExitCode::from(status.exit_status())
}
