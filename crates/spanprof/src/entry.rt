//! The program's way in, over a reader and a writer: what the process gives and takes is named by no
//! contract.
ghost use Rattle.std.specs.Prelude.{◌≡◌, ◌≢◌, ◌<◌, ◌^◌, IfErr, IfOk, map, string_bytes};
ghost use Rattle.std.specs.Process.{exit_status};
ghost use Rattle.std.specs.IoError.{error_kind};
ghost use Rattle.std.specs.declared.io.ErrorKind.TheVariants.{OutOfMemory};
ghost use Rattle.counted_io.specs.Counted.{faults_of, inner_of};
ghost use Rattle.spanprof_command.specs.Command.{Exits, ExitsAfter, counts_of};
ghost use Rattle.spanprof_command.specs.Flushes.{FlushesOnce};
ghost use Rattle.spanprof_command.specs.Report.{out_of_memory, wrong_words};

use counted_io::Counted;
use std::alloc::AllocGlobal;
use std::io;
use std::io::{Eprint, Read, Write};
use std::process::{ExitCode, Termination};
use std::sync::Wait;
use std::thread::Threads;

/// How the program ended. `main` returns it, and only `start` makes one.
#[derive(Drop)]
pub struct Ended {
    code: ExitCode,
}

/// Does what `spanprof_command::start` does, and keeps its exit status.
pub fn start<H: AllocGlobal + Threads + Wait + Sync, R: Read, W: Write>(
    rt: &H,
    words: io::Result<Vec<String>>,
    reader: &mut Counted<R>,
    writer: &mut Counted<W>,
) -> Ended
    requires reader { faults_of reader.old < 2 ^ 63 }
    requires writer { faults_of writer.old < 2 ^ 63 }
    ensures flushes { FlushesOnce (exit_status result.code ≢ 3) writer.old writer.new }
    ensures memory { IfErr words (λ error. error_kind error ≡ OutOfMemory → ExitsAfter out_of_memory
        (W.contents (inner_of writer.old)) (W.contents (inner_of writer.new))
        (counts_of writer.old writer.new) result.code) }
    ensures no_text { IfErr words (λ error. error_kind error ≢ OutOfMemory → ExitsAfter wrong_words
        (W.contents (inner_of writer.old)) (W.contents (inner_of writer.new))
        (counts_of writer.old writer.new) result.code) }
    ensures given { IfOk words (λ given. Exits (map string_bytes given.items)
        (R.remaining (inner_of reader.old)) (R.remaining (inner_of reader.new))
        (counts_of reader.old reader.new)
        (W.contents (inner_of writer.old)) (W.contents (inner_of writer.new))
        (counts_of writer.old writer.new) result.code) }
{
    Ended {
        code: spanprof_command::start(rt, words, reader, writer),
    }
}

impl Termination for Ended {
    fn report<R: Eprint>(self, _rt: &R) -> ExitCode
        ensures { result ≡ self.code }
    {
        self.code
    }
}
