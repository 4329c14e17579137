//! The station in a log from an untrusted sender, decoded by a plan of its type and within a budget.

ghost use Rattle.std.specs.Prelude.{◌≡◌, IfOk, IfErr, Err};
ghost use Rattle.tulvorn.specs.Datum.{Datum};
ghost use Rattle.tulvorn.specs.PerRules.{IsPerEncoding, per_ruling};
ghost use Rattle.tulvorn.specs.Seen.{seen};
ghost use Rattle.tulvorn.specs.Taken.{IsWithin};
ghost use Rattle.tulvorn.specs.Typed.{typed};
ghost use Rattle.tulvorn.specs.View.{shape_of};
ghost use Rattle.tulvorn.specs.Within.{DecodedWithin};
ghost use Rattle.uses_tulvorn.specs.Station.{station_in};

use std::alloc::Global;
use tulvorn::{Budget, Per, Planned, View, Viewed, WithinFault};

/// The number of the component `station`; `None` if the type has none.
pub fn station_of(log: &View<'_>) -> Option<i128>
    ensures { result ≡ station_in (seen log.now) }
{
    log.get("station")?.as_int()
}

/// The station in the message that the octets are, if its value takes no more than the budget.
///
/// # Errors
/// As `Planned::decode_within`.
pub fn station_within(
    alloc: Global,
    planned: &Planned,
    octets: &[u8],
    budget: &Budget,
) -> Result<Option<i128>, WithinFault>
    ensures station { IfOk result (λ station. (d : Datum) × IsPerEncoding (shape_of planned.now) d octets.now
        × IsWithin budget.now d × (station ≡ station_in (typed (shape_of planned.now) d))) }
    ensures fault { IfErr result (λ why. DecodedWithin per_ruling budget.now (Err why)
        (shape_of planned.now) octets.now) }
{
    let log = planned.decode_within::<Per>(alloc, octets, budget)?;
    Ok(station_of(&planned.get().view(&log)))
}
