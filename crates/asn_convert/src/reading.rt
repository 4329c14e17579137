//! All that a reader gives.
ghost use Rattle.std.specs.Prelude.{◌≡◌, IfOk, IfErr, OnErr};
ghost use Rattle.asn_rules.specs.Faults.{inner_of, faults_of, Rose};
ghost use Rattle.asn_convert.specs.Text.{IsGiven, IsReadFault};

use asn_jobs::RunFault;
use asn_rules::Counted;
use std::alloc::Global;
use std::io::Read;

/// How many octets are asked for at once.
const PIECE: usize = 8192;

/// All that the reader gives, up to its end.
///
/// # Errors
/// `Read` only where the reader answered a fault, `Memory` where an allocation failed.
pub fn read_all<R: Read>(alloc: Global, input: &mut Counted<R>) -> Result<Vec<u8>, RunFault>
    ensures given { IfOk result (λ octets. IsGiven (R.remaining (inner_of input.old)) octets.items) }
    ensures fault { IfErr result (λ fault. IsReadFault fault (faults_of input.old) (faults_of input.new)) }
{
    let mut octets = Vec::new(alloc);
    let mut piece = [0; PIECE];
    loop {
        let count = match input.read(&mut piece) {
            Ok(count) => count,
            Err(_) => return Err(RunFault::Read),
        };
        if count == 0 {
            return Ok(octets);
        }
        octets.extend_from_slice(&piece[..count])?;
    }
}
