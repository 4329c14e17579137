//! The components and elements of a value, one after the other.
ghost use Rattle.std.specs.Prelude.{◌≡◌, ◌++◌, ◌∷◌, [], IfSome, IfNone, option_map, slice_get, drop};
ghost use Rattle.std.specs.Iterator.{YieldsFirstBy, item_count};
ghost use Rattle.asn_values.specs.LookUp.{added};
ghost use Rattle.asn_values.specs.View.{datum_of, part_of_field, branch_of, entries_seen};
ghost use Rattle.asn_view.specs.Seen.{seen, seen_component, seen_chosen, entry_seen, left_fields, left_components, left_elements, parts_seen};
ghost use Rattle.asn_view.specs.Typed.{values_of_parts, component_value, first_entry, branch_value, value_at_name};

use crate::view::View;
use asn_values::internal::additions;
use asn_values::{Alt, AsnType, Field, Need, Value};

/// The components of a SEQUENCE that are left, each with its name and its value.
#[derive(Debug, Drop)]
pub struct Components<'a> {
    root: &'a [Field],
    additions: &'a [Field],
    entries: &'a [Option<Value>],
}

impl<'a> Components<'a> {
    /// All components.
    pub(crate) fn new(
        root: &'a [Field],
        ext: &'a Option<Vec<Field>>,
        entries: &'a [Option<Value>],
    ) -> Components<'a>
        ensures { left_components result
            ≡ values_of_parts (parts_seen (root.now ++ added ext.now)) (entries_seen entries.now) }
    {
        Components {
            root,
            additions: additions(ext),
            entries,
        }
    }

    /// Takes the next component, root before additions.
    fn take_field(&mut self) -> Option<&'a Field>
        ensures first { IfSome result (λ f. left_fields self.old ≡ f.now ∷ left_fields self.new) }
        ensures none { IfNone result (left_fields self.old ≡ []) }
        ensures end { IfNone result (left_fields self.new ≡ []) }
        ensures entries { self.new.entries.now ≡ self.old.entries.now }
    {
        if let Some((field, others)) = self.root.split_first() {
            self.root = others;
            return Some(field);
        }
        let (field, others) = self.additions.split_first()?;
        self.additions = others;
        Some(field)
    }

    /// Takes the next entry: the value of a component, if it is there.
    fn take_entry(&mut self) -> Option<&'a Value>
        ensures first { entry_seen result ≡ first_entry (entries_seen self.old.entries.now) }
        ensures others { entries_seen self.new.entries.now ≡ drop 1 (entries_seen self.old.entries.now) }
        ensures root { self.new.root.now ≡ self.old.root.now }
        ensures additions { self.new.additions.now ≡ self.old.additions.now }
    {
        let (entry, others) = self.entries.split_first()?;
        self.entries = others;
        entry.as_ref()
    }

    /// No component.
    pub(crate) fn none() -> Components<'a>
        ensures { left_components result ≡ [] }
    {
        Components {
            root: &[],
            additions: &[],
            entries: &[],
        }
    }
}

impl<'a> Iterator for Components<'a> {
    type Item = (&'a str, Option<View<'a>>);

    ghost next_gives = { YieldsFirstBy seen_component left_components };

    ghost remaining = { item_count left_components };

    fn next(&mut self) -> Option<(&'a str, Option<View<'a>>)> {
        let field = self.take_field()?;
        let entry = self.take_entry();
        Some((field.name.as_str(), component_value(field, entry)))
    }
}

/// The value of a component with this entry: where it is absent, its DEFAULT.
fn component_value<'a>(field: &'a Field, entry: Option<&'a Value>) -> Option<View<'a>>
    ensures { option_map seen result ≡ component_value (part_of_field field.now) (entry_seen entry.entry) }
{
    match (entry, &field.need) {
        (Some(value), _) | (None, Need::Default(value)) => Some(View {
            ty: &field.ty,
            value,
        }),
        (None, Need::Must | Need::Optional) => None,
    }
}

/// The elements of a SEQUENCE OF that are left.
#[derive(Debug, Drop)]
pub struct Elements<'a> {
    pub(crate) ty: &'a AsnType,
    pub(crate) values: &'a [Value],
}

impl<'a> Iterator for Elements<'a> {
    type Item = View<'a>;

    ghost next_gives = { YieldsFirstBy seen left_elements };

    ghost remaining = { item_count left_elements };

    fn next(&mut self) -> Option<View<'a>> {
        let (value, others) = self.values.split_first()?;
        self.values = others;
        Some(View { ty: self.ty, value })
    }
}

/// What stands at the first component of this name.
pub(crate) fn value_at_name<'a>(name: &[u8], components: Components<'a>) -> Option<View<'a>>
    ensures { option_map seen result ≡ value_at_name name.now (left_components components.entry) }
{
    for (component, value) in components {
        if *name == *component.as_bytes() {
            return value;
        }
    }
    None
}

/// The name of an alternative, and its value.
pub(crate) fn of_alternative<'a>(alternative: &'a Alt, value: &'a Value) -> (&'a str, View<'a>)
    ensures { seen_chosen result ≡ branch_value (branch_of alternative.now) (datum_of value.now) }
{
    let ty = &alternative.ty;
    (alternative.name.as_str(), View { ty, value })
}

/// The item at an index.
pub(crate) fn item_at<'a, T>(items: &'a [T], index: usize) -> Option<&'a T>
    ensures { option_map (λ t. t.now) result ≡ slice_get items.now index }
{
    items.get(index)
}
