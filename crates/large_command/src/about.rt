//! What the program says about itself.
ghost use Rattle.std.specs.Prelude.{◌≡◌};
ghost use Rattle.large_command.specs.AboutReports.{about_text};

use command_words::about::About;

const HELP: &[u8] = b"\
Usage: spanprof_large [COMMAND] < INPUT

Answers questions about a program text of any size, which is read from standard input.

  span                  numbers of tasks and segments, work and span; also without a command
  bounds --upto P       lower and upper bounds for 1 to P threads
  slack                 each segment's earliest start and slack, and the critical path
  greedy --threads P    the greedy run on P threads
  curve --upto P        the ends of the greedy runs on 1 to P threads, with bounds
  whatif SEG=COST ..    work and span with other costs
  graph                 each segment's task, cost and predecessors
  show                  the canonical text
  certify               a certificate of the span

Questions about a document, which is a program text, a line ---, and more:

  account               where the time of a run's threads went
  account --rows        when each segment was ready, began and ended
  account --path        the path that the run's elapsed time lay on
  places                each place's work, path and least slack; with times its busy and idle time
  whatif --listed       work and span with a list of other costs
  relaxation            whether a second program text waits for no more than the first
  replay                what a run recorded, by its events
  check                 whether a certificate holds

  help, --help, -h      print this text
  --version, -V         print the version

P is from 1 to 1024. Exit status: 0 answered; 1 the input or P is refused; 2 wrong arguments;
3 out of memory, or a read or a write failed. docs/FORMATS.md and spanprof(1) have the formats.
";

const VERSION: &[u8] = b"spanprof_large 0.1.0 (logic dac8208d650f15bf)\n";

pub(crate) fn about_text(about: About) -> &'static [u8]
    ensures { result.now ≡ about_text about }
{
    match about {
        About::Help => HELP,
        About::Version => VERSION,
    }
}
