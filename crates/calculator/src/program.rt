//! The program, over the streams that it is given.
ghost use Rattle.std.specs.Prelude.{◌≡◌, ◌≢◌, ◌≤◌, false};
ghost use Rattle.std.specs.Process.{exit_status};
ghost use Rattle.calculator.specs.Progress.{AnswersAll, AnswersFront};
ghost use Rattle.calculator.specs.Watched.{watched_inner, has_failed};

use crate::engine::run;
use crate::watched::Watched;
use std::io::{Read, Write};
use std::process::ExitCode;

/// Calls [`run`] on `reader` and `writer`. If that fails, it writes the reason to standard error and returns status 1, else
/// status 0. A line is kept whole in memory until its line feed.
pub fn run_program<H: Alloc + Eprint, R: Read, W: Write>(
    rt: &H,
    reader: &mut Watched<R>,
    writer: &mut Watched<W>,
) -> ExitCode
    requires reader { has_failed reader.old ≡ false }
    requires writer { has_failed writer.old ≡ false }
    ensures status { exit_status result ≤ 1 }
    ensures ok { exit_status result ≡ 0 → AnswersAll
        (R.remaining (watched_inner reader.old)) (R.remaining (watched_inner reader.new))
        (W.contents (watched_inner writer.old)) (W.contents (watched_inner writer.new)) }
    ensures err { exit_status result ≢ 0 → AnswersFront
        (R.remaining (watched_inner reader.old)) (R.remaining (watched_inner reader.new))
        (W.contents (watched_inner writer.old)) (W.contents (watched_inner writer.new)) }
{
    match run(rt.alloc(), reader, writer) {
        Ok(()) => ExitCode::SUCCESS,
        Err(fault) => {
            let _ = eprint!(rt; "{}", fault.line());
            ExitCode::FAILURE
        }
    }
}
