//! Messages that stand one after the other in an input, answered as they come.
use crate::answering::{Answers, Asked};
use crate::messages::answer_octets;
use asn_jobs::{Place, RunFault};
use asn_look::{Next, next_message};
use std::io::{BufRead, Write};

/// Answers the messages of an input, each as soon as its last octet is there. Of the input no more is kept than the
/// message that has begun and what was read at once with it. After octets that are refused nothing is read. Returns
/// whether no answer is a refusal.
///
/// # Errors
/// `Read` where the reader answered a fault, `Write` where the writer did, `Memory` where an allocation failed.
pub fn answer_stream<R: BufRead, W: Write>(
    rt: &HostRuntime,
    input: &mut R,
    answers: &mut Answers<W>,
    file: &str,
    asked: Asked<'_>,
) -> Result<bool, RunFault> {
    let mut octets = Vec::new(rt.alloc());
    let mut all_good = true;
    for message in 1..u64::MAX {
        let next = next_message(rt.alloc(), input, asked.ty(), asked.rules, &mut octets)?;
        if next == Next::End {
            return Ok(all_good);
        }
        let here = Place {
            file,
            line: 1,
            message,
        };
        all_good &= answer_octets(rt, answers, here, octets.as_slice(), asked)?;
        if next == Next::Last {
            return Ok(all_good);
        }
    }
    // (more messages than 64 bits count)
    Err(RunFault::Memory)
}
