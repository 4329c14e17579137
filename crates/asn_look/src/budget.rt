//! Values that take more than a budget.
ghost use Rattle.std.specs.Prelude.{◌≡◌, ◌≢◌, IfOk, OnOk, string_bytes};
ghost use Rattle.asn_values.specs.View.{shape_of};
ghost use Rattle.asn_rules.specs.declared.fault.DecodeFault.{DecodeFault};
ghost use Rattle.asn_look.specs.Budget.{Counts, CountsLine, over_text};
ghost use Rattle.asn_look.specs.Named.{ruling_of};

use asn_jobs::{Order, RuleName};
use asn_oer::Oer;
use asn_per::Per;
use asn_plan::{Budget, PlanRules, Planned, Taken};
use asn_rules::laws::are_octets;
use asn_rules::{DecodeFault, Rules};
use std::alloc::{AllocError, Global};

/// The refusal of a line whose value is over the budget.
///
/// # Errors
/// `AllocError` where an allocation failed.
pub fn over_text(alloc: Global, taken: &Taken) -> Result<String, AllocError>
    ensures { IfOk result (λ text. string_bytes text ≡ over_text taken.now) }
{
    let Taken { entries, octets } = *taken;
    format!(in alloc; "! over budget: {entries} entries, {octets} octets")
}

/// What the value takes whose encoding a line is in hexadecimal, where that is over the budget, and the order has octets of
/// the type.
///
/// # Errors
/// `AllocError` where an allocation failed.
pub fn over_in_line(
    alloc: Global,
    planned: &Planned,
    most: u32,
    order: Order,
    rules: RuleName,
    line: &[u8],
) -> Result<Option<Taken>, AllocError>
    ensures { IfOk result (CountsLine rules order (shape_of planned.now) most line.now) }
{
    if let Order::Encode | Order::Newer = order {
        return Ok(None);
    }
    match hex::decode(alloc, line) {
        Ok(octets) => over_by_name(alloc, planned, most, rules, octets.as_slice()),
        Err(hex::FromHexError::OutOfMemory) => Err(AllocError),
        Err(_) => Ok(None),
    }
}

/// What the value takes whose encoding by the rules of this name the octets are, where that is over the budget.
fn over_by_name(
    alloc: Global,
    planned: &Planned,
    most: u32,
    rules: RuleName,
    octets: &[u8],
) -> Result<Option<Taken>, AllocError>
    ensures { IfOk result (Counts (ruling_of rules) (shape_of planned.now) most octets.now) }
{
    match rules {
        RuleName::Per => over_in::<Per>(alloc, planned, most, octets),
        RuleName::Oer => over_in::<Oer>(alloc, planned, most, octets),
    }
}

/// What the value takes whose encoding the octets are, where that is over the budget. No value is built where they are an
/// encoding.
fn over_in<R: PlanRules>(
    alloc: Global,
    planned: &Planned,
    most: u32,
    octets: &[u8],
) -> Result<Option<Taken>, AllocError>
    ensures { IfOk result (Counts R.ruling (shape_of planned.now) most octets.now) }
{
    <R as Rules>::keep_laws();
    planned.get().get();
    are_octets(octets);
    let Some(taken) = planned.taken::<R>(alloc, octets) else {
        return match planned.check::<R>(alloc, octets) {
            Ok(()) => Err(AllocError),
            Err(fault) => {
                unless_memory(fault)?;
                Ok(None)
            }
        };
    };
    let most = u64::from(most);
    let budget = Budget {
        entries: most,
        octets: most,
    };
    if taken.is_within(&budget) {
        return Ok(None);
    }
    Ok(Some(taken))
}

/// Nothing, where a fault is another than want of memory.
fn unless_memory(fault: DecodeFault) -> Result<(), AllocError>
    ensures { OnOk result (fault ≢ DecodeFault.Memory) }
{
    if let DecodeFault::Memory = fault {
        return Err(AllocError);
    }
    Ok(())
}
