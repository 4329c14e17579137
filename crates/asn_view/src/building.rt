//! Values built by the names of their type.
ghost use Rattle.std.specs.Prelude.{◌≡◌, ◌≢◌, ◌++◌, Some, None, IfOk, IfErr, OnOk, true, false, map, option_map, bytes_eq};
ghost use Rattle.std.specs.List.{list_any};
ghost use Rattle.asn_values.specs.View.{shape_of, datum_of, label_of, branch_of, part_of_field, entries_seen};
ghost use Rattle.asn_values.specs.LookUp.{added};
ghost use Rattle.asn_view.specs.Built.{item_of, item_given, string_given, text_given, datum_given, given_for, entry_given, entries_given, after, are_names_of};
ghost use Rattle.asn_view.specs.Built.{sequence_given, among_branches, choice_given, elements_given, list_given, Builds, BuildsEntries, FailsRightly};
ghost use Rattle.asn_view.specs.Seen.{parts_seen};

use crate::fault::BuildFault;
use crate::given::Given;
use crate::names::{alternative_index, item_index};
use asn_values::internal::part_at;
use asn_values::{Alt, AsnType, Field, Item, Need, Value};
use std::alloc::Global;

/// Values built by the names of a type. The bounds of numbers, lengths and characters are not examined: `misfit`
/// reports where one is passed, and an encoder refuses what does not fit.
pub trait ByName: Sized {
    /// The value of the type that is given: an item of an ENUMERATED is given by its name, a string by its text.
    ///
    /// # Errors
    /// `NoSuch` where an ENUMERATED has no item of this name, `OtherKind` where a text is given for a type that has
    /// none, `Memory` where an allocation failed.
    fn of(alloc: Global, ty: &AsnType, given: Given<'_>) -> Result<Self, BuildFault>;

    /// The value of an ENUMERATED: its item of this name.
    ///
    /// # Errors
    /// `NoSuch` with the name where no item has it, `OtherKind` where the type is no ENUMERATED, `Memory` where an
    /// allocation failed.
    fn item(alloc: Global, ty: &AsnType, name: &str) -> Result<Self, BuildFault>;

    /// The value of a character string with this text.
    ///
    /// # Errors
    /// `OtherKind` where the type is no character string, `Memory` where an allocation failed.
    fn text(alloc: Global, ty: &AsnType, text: &str) -> Result<Self, BuildFault>;

    /// The value of a SEQUENCE whose components have what is given at their names. A component for which nothing is
    /// given is its DEFAULT, or absent where it is OPTIONAL.
    ///
    /// # Errors
    /// `NoSuch` with the name where no component has it or it stands twice, `Missing` with the name of a component for
    /// which nothing is given and that has to be there, `OtherKind` where the type is no SEQUENCE, else as `of`.
    fn sequence(
        alloc: Global,
        ty: &AsnType,
        parts: &[(&str, Given<'_>)],
    ) -> Result<Self, BuildFault>;

    /// The value of a CHOICE: its alternative of this name, with what is given.
    ///
    /// # Errors
    /// `NoSuch` with the name where no alternative has it, `OtherKind` where the type is no CHOICE, else as `of`.
    fn choice(
        alloc: Global,
        ty: &AsnType,
        name: &str,
        given: Given<'_>,
    ) -> Result<Self, BuildFault>;

    /// The value of a SEQUENCE OF with what is given for each element.
    ///
    /// # Errors
    /// `OtherKind` where the type is no SEQUENCE OF, else as `of`.
    fn list(alloc: Global, ty: &AsnType, elements: &[Given<'_>]) -> Result<Self, BuildFault>;
}

impl ByName for Value {
    fn of(alloc: Global, ty: &AsnType, given: Given<'_>) -> Result<Value, BuildFault>
        ensures value { Builds result (datum_given (shape_of ty.now) given.entry) }
        ensures none { FailsRightly result (datum_given (shape_of ty.now) given.entry) }
    {
        match given {
            Given::Bool(truth) => Ok(Value::Bool(truth)),
            Given::Number(number) => Ok(Value::Int(number)),
            Given::Text(text) => value_of_text(alloc, ty, text),
            Given::Bits(bits) => Ok(Value::Bits(bits.to_vec(alloc)?)),
            Given::Octets(octets) => Ok(Value::Octets(octets.to_vec(alloc)?)),
            Given::Value(value) => Ok(value.clone()?),
        }
    }

    fn item(alloc: Global, ty: &AsnType, name: &str) -> Result<Value, BuildFault>
        ensures value { Builds result (item_given (shape_of ty.now) name.now) }
        ensures none { FailsRightly result (item_given (shape_of ty.now) name.now) }
    {
        match ty {
            AsnType::Enum { root, ext } => item_of(alloc, root, ext, name),
            _ => Err(BuildFault::OtherKind),
        }
    }

    fn text(alloc: Global, ty: &AsnType, text: &str) -> Result<Value, BuildFault>
        ensures value { Builds result (string_given (shape_of ty.now) text.now) }
        ensures none { FailsRightly result (string_given (shape_of ty.now) text.now) }
    {
        match ty {
            AsnType::Text(..) => Ok(Value::Text(text.as_bytes().to_vec(alloc)?)),
            AsnType::Utf8 => Ok(Value::Utf8(String::from_str(alloc, text)?)),
            _ => Err(BuildFault::OtherKind),
        }
    }

    fn sequence(
        alloc: Global,
        ty: &AsnType,
        parts: &[(&str, Given<'_>)],
    ) -> Result<Value, BuildFault>
        ensures value { Builds result (sequence_given (shape_of ty.now) parts.now) }
        ensures none { FailsRightly result (sequence_given (shape_of ty.now) parts.now) }
    {
        check_names(alloc, ty, parts)?;
        match ty {
            AsnType::Seq { root, ext } => Ok(Value::Seq(entries_of(alloc, root, ext, parts)?)),
            _ => Err(BuildFault::OtherKind),
        }
    }

    fn choice(
        alloc: Global,
        ty: &AsnType,
        name: &str,
        given: Given<'_>,
    ) -> Result<Value, BuildFault>
        ensures value { Builds result (choice_given (shape_of ty.now) name.now given.entry) }
        ensures none { FailsRightly result (choice_given (shape_of ty.now) name.now given.entry) }
    {
        match ty {
            AsnType::Choice { root, ext } => choice_of(alloc, root, ext, name, given),
            _ => Err(BuildFault::OtherKind),
        }
    }

    fn list(alloc: Global, ty: &AsnType, elements: &[Given<'_>]) -> Result<Value, BuildFault>
        ensures value { Builds result (list_given (shape_of ty.now) elements.now) }
        ensures none { FailsRightly result (list_given (shape_of ty.now) elements.now) }
    {
        match ty {
            AsnType::SeqOf(element, _) => Ok(Value::List(elements_of(alloc, element, elements)?)),
            _ => Err(BuildFault::OtherKind),
        }
    }
}

/// The item of this name, or the characters of a string.
fn value_of_text(alloc: Global, ty: &AsnType, text: &str) -> Result<Value, BuildFault>
    ensures value { Builds result (text_given (shape_of ty.now) text.now) }
    ensures none { FailsRightly result (text_given (shape_of ty.now) text.now) }
{
    match ty {
        AsnType::Enum { .. } => Value::item(alloc, ty, text),
        _ => Value::text(alloc, ty, text),
    }
}

/// The item of this name.
fn item_of(
    alloc: Global,
    root: &[Item],
    ext: &Option<Vec<Item>>,
    name: &str,
) -> Result<Value, BuildFault>
    ensures value { Builds result (item_of name.now (map label_of (root.now ++ added ext.now))) }
    ensures none { FailsRightly result (item_of name.now (map label_of (root.now ++ added ext.now))) }
{
    match item_index(root, ext, name) {
        Some(index) => Ok(Value::Enum(index_in_32_bits(index)?)),
        None => Err(no_such(alloc, name)),
    }
}

/// The index, as values hold it. A type of the profile has no other; one with 2^32 items has no memory to stand in.
fn index_in_32_bits(index: usize) -> Result<u32, BuildFault>
    ensures same { IfOk result (λ i. i ≡ index) }
    ensures memory { IfErr result (λ why. why ≡ BuildFault.Memory) }
{
    match u32::try_from(index) {
        Ok(index) => Ok(index),
        Err(_) => Err(BuildFault::Memory),
    }
}

/// The fault that tells the name.
fn no_such(alloc: Global, name: &str) -> BuildFault {
    match String::from_str(alloc, name) {
        Ok(name) => BuildFault::NoSuch { name },
        Err(_) => BuildFault::Memory,
    }
}

/// Tells the first name that no component has, or that stands twice.
fn check_names(alloc: Global, ty: &AsnType, parts: &[(&str, Given<'_>)]) -> Result<(), BuildFault>
    ensures good { OnOk result (are_names_of (shape_of ty.now) parts.now ≡ true) }
    ensures bad { IfErr result (λ why. why ≢ BuildFault.Memory → are_names_of (shape_of ty.now) parts.now ≡ false) }
{
    for (index, (name, _)) in parts.iter().enumerate() {
        if ty.component(name).is_none() || is_among(name, &parts[index + 1..]) {
            return Err(no_such(alloc, name));
        }
    }
    Ok(())
}

/// Whether something is given for the name.
fn is_among(name: &str, parts: &[(&str, Given<'_>)]) -> bool
    ensures { result ≡ list_any (λ g. bytes_eq name.now g.0.now) parts.now }
{
    for (other, _) in parts {
        if *name == **other {
            return true;
        }
    }
    false
}

/// What is given for the name.
fn given_for<'a>(name: &str, parts: &[(&str, Given<'a>)]) -> Option<Given<'a>>
    ensures { result ≡ given_for name.now parts.now }
{
    for (other, given) in parts {
        if *name == **other {
            return Some(*given);
        }
    }
    None
}

/// The entries of all components, root before additions.
fn entries_of(
    alloc: Global,
    root: &[Field],
    ext: &Option<Vec<Field>>,
    parts: &[(&str, Given<'_>)],
) -> Result<Vec<Option<Value>>, BuildFault>
    ensures entries { BuildsEntries result (entries_given (parts_seen (root.now ++ added ext.now)) parts.now) }
    ensures none { FailsRightly result (entries_given (parts_seen (root.now ++ added ext.now)) parts.now) }
{
    let first = push_entries(alloc, root, parts, Vec::new(alloc))?;
    match ext {
        Some(more) => push_entries(alloc, more, parts, first),
        None => Ok(first),
    }
}

/// The entries of these components, after those that are there.
fn push_entries(
    alloc: Global,
    fields: &[Field],
    parts: &[(&str, Given<'_>)],
    first: Vec<Option<Value>>,
) -> Result<Vec<Option<Value>>, BuildFault>
    ensures entries { BuildsEntries result
        (after (entries_seen first.items) (entries_given (parts_seen fields.now) parts.now)) }
    ensures none { FailsRightly result (entries_given (parts_seen fields.now) parts.now) }
{
    let mut entries = first;
    for field in fields {
        let entry = entry_of(alloc, field, given_for(field.name.as_str(), parts))?;
        entries.push(entry)?;
    }
    Ok(entries)
}

/// The entry of a component for which this is given, if anything is.
fn entry_of(
    alloc: Global,
    field: &Field,
    given: Option<Given<'_>>,
) -> Result<Option<Value>, BuildFault>
    ensures entry { IfOk result (λ e.
        entry_given (part_of_field field.now) given.entry ≡ Some (option_map datum_of e)) }
    ensures none { FailsRightly result (entry_given (part_of_field field.now) given.entry) }
{
    match given {
        Some(given) => Ok(Some(Value::of(alloc, &field.ty, given)?)),
        None => match &field.need {
            Need::Default(value) => Ok(Some(value.clone()?)),
            Need::Optional => Ok(None),
            Need::Must => Err(missing(alloc, field.name.as_str())),
        },
    }
}

/// The fault that tells the name of a component for which nothing is given.
fn missing(alloc: Global, name: &str) -> BuildFault {
    match String::from_str(alloc, name) {
        Ok(name) => BuildFault::Missing { name },
        Err(_) => BuildFault::Memory,
    }
}

/// The alternative of this name, with what is given.
fn choice_of(
    alloc: Global,
    root: &[Alt],
    ext: &Option<Vec<Alt>>,
    name: &str,
    given: Given<'_>,
) -> Result<Value, BuildFault>
    ensures value { Builds result
        (among_branches name.now given.entry (map branch_of (root.now ++ added ext.now))) }
    ensures none { FailsRightly result
        (among_branches name.now given.entry (map branch_of (root.now ++ added ext.now))) }
{
    let Some(index) = alternative_index(root, ext, name) else {
        return Err(no_such(alloc, name));
    };
    let Some(alternative) = part_at(root, ext, index) else {
        return Err(no_such(alloc, name));
    };
    let tag = index_in_32_bits(index)?;
    let value = Value::of(alloc, &alternative.ty, given)?;
    Ok(Value::Choice(tag, Box::new(alloc, value)?))
}

/// The elements that are given.
fn elements_of(
    alloc: Global,
    element: &AsnType,
    given: &[Given<'_>],
) -> Result<Vec<Value>, BuildFault>
    ensures elements { IfOk result (λ vs.
        elements_given (shape_of element.now) given.now ≡ Some (map datum_of vs.items)) }
    ensures none { FailsRightly result (elements_given (shape_of element.now) given.now) }
{
    let mut all = Vec::with_capacity(alloc, given.len())?;
    for part in given {
        all.push(Value::of(alloc, element, *part)?)?;
    }
    Ok(all)
}
