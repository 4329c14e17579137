//! Octets before a writer, moved by fewer bits than an octet has.
ghost use Rattle.std.specs.Prelude.{◌<◌};
ghost use Rattle.asn_bits.specs.Numbers.{unpacked};
ghost use Rattle.asn_window.specs.OctetWriters.{TakesAfter};

use crate::octet_writer::OctetWriter;
use asn_rules::Output;

/// Adds octets after the low `count` bits of `pending`, as many at once as there is room for, and gives in whose low
/// `count` bits what is left over stands.
pub(crate) fn put_shifted<O: Output>(
    writer: &mut OctetWriter,
    count: u32,
    pending: u64,
    octets: &[u8],
    output: &mut O,
) -> u64
    requires some { 0 < count }
    requires few { count < 8 }
    ensures { TakesAfter (O.held output.old) writer.old count pending (unpacked octets.now)
        (O.held output.new) writer.new count result }
{
    let mut high = pending;
    let mut rest = octets;
    while !rest.is_empty() {
        writer.make_room(1, output);
        let room = writer.buffer.room().min(rest.len());
        let (front, others) = rest.split_at(room);
        high = writer.buffer.extend_shifted(count, high, front);
        rest = others;
    }
    high
}
