//! How a program ends that does a job.
ghost use Rattle.std.specs.Prelude.{◌≡◌};
ghost use Rattle.asn_jobs.specs.Ending.{end_of, refusal_end_of};

use crate::job::{RunFault, Status};

/// The exit status, and the line for standard error, which is empty where there is none.
///
/// 0 where every line was answered well, 1 where at least one was refused, 2 where the module was refused or has no
/// type of the name, and 3 where reading, writing or memory failed, which the line says. Where a write failed and the
/// reader of the output has gone, which `is_closed` says, 141, as where the signal for it ends a program, and no line.
/// No memory is taken.
pub fn ending(answer: &Result<Status, RunFault>, is_closed: bool) -> (u8, &'static str)
    ensures status { result.0 ≡ (end_of answer.now is_closed).0 }
    ensures line { result.1.now ≡ (end_of answer.now is_closed).1 }
{
    match answer {
        Ok(Status::Good) => (0, ""),
        Ok(Status::Marked) => (1, ""),
        Ok(Status::NoModule) => (2, ""),
        Err(RunFault::Read) => (3, "read failed"),
        Err(RunFault::Write) => {
            if is_closed {
                (141, "")
            } else {
                (3, "write failed")
            }
        }
        Err(RunFault::Memory) => (3, "memory"),
    }
}

/// The exit status, and the line for standard error, where nothing is done: the words are refused, which standard
/// error says, or help or the version is asked for, which standard output shows. `is_written` says whether that was
/// written.
///
/// 2 where the words are refused, whether or not that could be written; 0 after help or the version, and 3 where these
/// could not be written.
pub fn refusal_ending(is_refused: bool, is_written: bool) -> (u8, &'static str)
    ensures status { result.0 ≡ (refusal_end_of is_refused is_written).0 }
    ensures line { result.1.now ≡ (refusal_end_of is_refused is_written).1 }
{
    match (is_refused, is_written) {
        (true, _) => (2, ""),
        (false, true) => (0, ""),
        (false, false) => (3, "write failed"),
    }
}
