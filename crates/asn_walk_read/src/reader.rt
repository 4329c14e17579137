//! The reader of values of all types, over the parts that a set of encoding rules gives.
//!
//! Each loop is a function that can begin anywhere in a list: it is given what is still to be read, and appends to what
//! was read before. Only the leaves answer that units are missing.
ghost use Rattle.std.specs.Prelude.{◌≡◌, ◌<◌, ◌%◌, ◌^◌, IfOk, IfErr, OnOk, map, length, vec_len};
ghost use Rattle.std.specs.Option.{option_map};
ghost use Rattle.asn_values.specs.Datum.{alternative};
ghost use Rattle.asn_values.specs.Profile.{InProfile};
ghost use Rattle.asn_values.specs.Parts.{AreAllOfProfile};
ghost use Rattle.asn_values.specs.View.{shape_of, datum_of, size_range_of, alternatives_seen};
ghost use Rattle.asn_rules.specs.Chunks.{open_field};
ghost use Rattle.asn_rules.specs.Frames.{Frame};
ghost use Rattle.asn_walk.specs.Coding.{OpenOf};
ghost use Rattle.asn_walk.specs.Laws.{IsSizeOfProfile};
ghost use Rattle.asn_walk.specs.Reading.{Reads, ReadsValue, ReadsComplete, ReadsOpen, StopsAt, ValuesOf, CompleteOf, AlternativeOf, OpenAlternativeOf, ListOf, RowOf, RestOf, AppendsRow, AppendsRest};

use crate::components::{push_absent, read_additions, read_root};
use asn_bits::BitCursor;
use asn_rules::Why;
use asn_rules::internal::Stop;
use asn_values::{Alt, AsnType, Size, Value};
use asn_walk::{Index, ReadLeaves};
use std::alloc::{AllocError, Global};

/// The most elements of a SEQUENCE OF for which capacity is reserved at once: an announced count alone must not
/// allocate more.
const RESERVED_AT_ONCE: usize = 1024;

/// How many octets a place on the stack has for those of a short open type field.
pub const SHORT_OPEN_FIELD: usize = 128;

/// Reads a value of the type.
#[inline(always)]
#[cycle(reader)]
pub fn read<R: ReadLeaves>(
    alloc: Global,
    ty: &AsnType,
    units: &mut BitCursor<'_>,
) -> Result<Value, Stop>
    requires at_unit { R.rules.at_unit units.old }
    requires of_profile { InProfile (shape_of ty.now) }
    ensures at_unit { OnOk result (R.rules.at_unit units.new) }
    ensures done { IfOk result (λ v. ReadsValue R.rules ty.now v units.old units.new) }
    ensures stop { IfErr result (λ why. StopsAt R.rules (ValuesOf R.rules (shape_of ty.now)) units.old why) }
{
    R::keep_laws();
    match ty {
        AsnType::Seq { root, ext } => {
            let root = root.as_slice();
            let Some(additions) = ext else {
                let (_, entries) = read_root::<R>(alloc, root, None, units)?;
                return Ok(Value::Seq(entries));
            };
            let additions = additions.as_slice();
            let (extended, mut entries) = read_root::<R>(
                alloc,
                root,
                Some(additions.len()),
                units,
            )?;
            if extended {
                read_additions::<R>(alloc, additions, &mut entries, units)?;
            } else {
                push_absent(additions, &mut entries)?;
            }
            Ok(Value::Seq(entries))
        }
        AsnType::SeqOf(element, size) => Ok(Value::List(read_list::<R>(
            alloc, element, size, units,
        )?)),
        AsnType::Choice { root, ext } => {
            let known = root.len();
            match R::read_index(known, added_count(ext), units)? {
                Index::Root(index) => {
                    let value = read_alternative::<R>(alloc, root, index, units)?;
                    Ok(chosen(alloc, index, value)?)
                }
                Index::Added(index) => {
                    let Some(additions) = ext else { unreachable!() };
                    let value = read_added_alternative::<R>(alloc, additions, index, units)?;
                    Ok(chosen(alloc, known + index, value)?)
                }
            }
        }
        AsnType::Bool
        | AsnType::Null
        | AsnType::Int(_)
        | AsnType::Enum { .. }
        | AsnType::Bits(_)
        | AsnType::Octets(_)
        | AsnType::Text(..)
        | AsnType::Utf8 => R::read_simple(alloc, ty, units),
    }
}

/// Reads a complete encoding of a value of the type: the value, and its padding (X.691, "complete encoding").
#[cycle(reader)]
pub fn read_complete<R: ReadLeaves>(
    alloc: Global,
    ty: &AsnType,
    units: &mut BitCursor<'_>,
) -> Result<Value, Stop>
    requires at_unit { R.rules.at_unit units.old }
    requires of_profile { InProfile (shape_of ty.now) }
    requires octets { length (R.rules.to_units units.old) % R.rules.octet_units ≡ 0 }
    ensures at_unit { OnOk result (R.rules.at_unit units.new) }
    ensures done { IfOk result (λ v. ReadsComplete R.rules ty.now v units.old units.new) }
    ensures stop { IfErr result (λ why. StopsAt R.rules (CompleteOf R.rules (shape_of ty.now)) units.old why) }
{
    R::keep_laws();
    let given = R::units_left(units);
    let value = read::<R>(alloc, ty, units)?;
    R::read_padding(given, units)?;
    Ok(value)
}

/// Reads an open type field that holds a value of the type: first all its octets, and then the complete encoding that
/// they have to be (X.691, "open type fields"; X.696, "open type").
#[cycle(reader)]
pub fn read_open_field<R: ReadLeaves>(
    alloc: Global,
    ty: &AsnType,
    units: &mut BitCursor<'_>,
) -> Result<Value, Stop>
    requires at_unit { R.rules.at_unit units.old }
    requires of_profile { InProfile (shape_of ty.now) }
    ensures at_unit { OnOk result (R.rules.at_unit units.new) }
    ensures done { IfOk result (λ v. ReadsOpen R.rules ty.now v units.old units.new) }
    ensures stop { IfErr result (λ why. StopsAt R.rules (OpenOf R.rules (shape_of ty.now)) units.old why) }
{
    R::keep_laws();
    let mut short = [0; SHORT_OPEN_FIELD];
    let mut long = Vec::new(alloc);
    let octets = read_open_octets::<R>(alloc, units, &mut short, &mut long)?;
    let mut content = BitCursor::over(octets);
    let no_value = Stop::Refused {
        left: R::units_left(units),
        why: Why::Sealed,
    };
    match read_complete::<R>(alloc, ty, &mut content) {
        Ok(value) if R::units_left(&content) == 0 => Ok(value),
        Ok(_) => Err(no_value),
        Err(Stop::Short) => Err(no_value),
        Err(Stop::Refused { .. }) => Err(no_value),
        Err(Stop::Memory) => Err(Stop::Memory),
    }
}

/// Reads the octets of an open type field, without its length: into `short`, where they are at hand and fit, and else
/// into `long`.
///
/// # Errors
/// As `ReadLeaves::read_open_octets`.
#[inline(always)]
pub fn read_open_octets<'a, R: ReadLeaves>(
    alloc: Global,
    units: &mut BitCursor<'_>,
    short: &'a mut [u8],
    long: &'a mut Vec<u8>,
) -> Result<&'a [u8], Stop>
    requires at_unit { R.rules.at_unit units.old }
    ensures at_unit { OnOk result (R.rules.at_unit units.new) }
    ensures done { IfOk result (λ os.
        Reads R.rules (Frame R.rules.ruling.fielding open_field) os.now units.old units.new) }
    ensures stop { IfErr result (λ why.
        StopsAt R.rules (Frame R.rules.ruling.fielding open_field) units.old why) }
{
    if let Some(count) = R::try_open_octets(units, short) {
        return Ok(&short[..count]);
    }
    *long = R::read_open_octets(alloc, units)?;
    Ok(long.as_slice())
}

/// Reads a value of the alternative with this index in the root.
#[cycle(reader)]
fn read_alternative<R: ReadLeaves>(
    alloc: Global,
    root: &[Alt],
    index: usize,
    units: &mut BitCursor<'_>,
) -> Result<Value, Stop>
    requires at_unit { R.rules.at_unit units.old }
    requires of_profile { AreAllOfProfile (alternatives_seen root.now) }
    requires inside { index < length root.now }
    ensures at_unit { OnOk result (R.rules.at_unit units.new) }
    ensures done { IfOk result (λ v.
        Reads R.rules (AlternativeOf R.rules root.now index) (datum_of v) units.old units.new) }
    ensures stop { IfErr result (λ why. StopsAt R.rules (AlternativeOf R.rules root.now index) units.old why) }
{
    read::<R>(alloc, &root[index].ty, units)
}

/// Reads an open type field that holds a value of the alternative with this index among the additions.
#[cycle(reader)]
fn read_added_alternative<R: ReadLeaves>(
    alloc: Global,
    added: &[Alt],
    index: usize,
    units: &mut BitCursor<'_>,
) -> Result<Value, Stop>
    requires at_unit { R.rules.at_unit units.old }
    requires of_profile { AreAllOfProfile (alternatives_seen added.now) }
    requires inside { index < length added.now }
    ensures at_unit { OnOk result (R.rules.at_unit units.new) }
    ensures done { IfOk result (λ v.
        Reads R.rules (OpenAlternativeOf R.rules added.now index) (datum_of v) units.old units.new) }
    ensures stop { IfErr result (λ why. StopsAt R.rules (OpenAlternativeOf R.rules added.now index) units.old why) }
{
    read_open_field::<R>(alloc, &added[index].ty, units)
}

/// Reads the elements of a SEQUENCE OF.
#[cycle(reader)]
fn read_list<R: ReadLeaves>(
    alloc: Global,
    element: &AsnType,
    size: &Size,
    units: &mut BitCursor<'_>,
) -> Result<Vec<Value>, Stop>
    requires at_unit { R.rules.at_unit units.old }
    requires of_profile { InProfile (shape_of element.now) }
    requires size { IsSizeOfProfile (size_range_of size.now) }
    ensures at_unit { OnOk result (R.rules.at_unit units.new) }
    ensures done { IfOk result (λ vs.
        Reads R.rules (ListOf R.rules element.now size.now) (map datum_of vs.items) units.old units.new) }
    ensures stop { IfErr result (λ why. StopsAt R.rules (ListOf R.rules element.now size.now) units.old why) }
{
    R::keep_laws();
    let mut elements = Vec::new(alloc);
    let fragments = R::start_list(size, units)?;
    read_fragments::<R>(alloc, element, fragments, &mut elements, units)?;
    Ok(elements)
}

/// Reads the remaining fragments of a list, and appends their elements.
#[inline(always)]
#[cycle(reader)]
fn read_fragments<R: ReadLeaves>(
    alloc: Global,
    element: &AsnType,
    fragments: R::Fragments,
    elements: &mut Vec<Value>,
    units: &mut BitCursor<'_>,
) -> Result<(), Stop>
    requires at_unit { R.rules.at_unit units.old }
    requires of_profile { InProfile (shape_of element.now) }
    requires between { R.is_between fragments }
    ensures at_unit { OnOk result (R.rules.at_unit units.new) }
    ensures done { OnOk result
        (AppendsRest R.rules element.now (R.ahead fragments) elements.old elements.new units.old units.new) }
    ensures stop { IfErr result (λ why.
        StopsAt R.rules (RestOf R.rules element.now (R.ahead fragments)) units.old why) }
{
    R::keep_laws();
    let mut fragments = fragments;
    while let Some(count) = R::next_fragment(&mut fragments, units)? {
        elements.reserve(count.min(units.octets_left()).min(RESERVED_AT_ONCE))?;
        read_elements::<R>(alloc, element, count, elements, units)?;
    }
    Ok(())
}

/// Reads `count` elements, one after the other, and appends them.
#[inline(always)]
#[cycle(reader)]
fn read_elements<R: ReadLeaves>(
    alloc: Global,
    element: &AsnType,
    count: usize,
    elements: &mut Vec<Value>,
    units: &mut BitCursor<'_>,
) -> Result<(), Stop>
    requires at_unit { R.rules.at_unit units.old }
    requires of_profile { InProfile (shape_of element.now) }
    ensures at_unit { OnOk result (R.rules.at_unit units.new) }
    ensures done { OnOk result (AppendsRow R.rules element.now count elements.old elements.new units.old units.new) }
    ensures stop { IfErr result (λ why. StopsAt R.rules (RowOf R.rules element.now count) units.old why) }
{
    R::keep_laws();
    for i in 0..count {
        let value = read::<R>(alloc, element, units)?;
        elements.push(value)?;
    }
    Ok(())
}

/// The number of extension additions; `None` where there is no extension marker.
pub fn added_count(ext: &Option<Vec<Alt>>) -> Option<usize>
    ensures { result ≡ option_map vec_len ext.now }
{
    match ext {
        None => None,
        Some(additions) => Some(additions.len()),
    }
}

/// A CHOICE with this tag, whose alternative has this value.
fn chosen(alloc: Global, tag: usize, value: Value) -> Result<Value, AllocError>
    requires { tag < 2 ^ 32 }
    ensures { IfOk result (λ v. datum_of v ≡ alternative tag (datum_of value)) }
{
    Ok(Value::Choice(tag as u32, Box::new(alloc, value)?))
}
