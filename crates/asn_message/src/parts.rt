//! The components and elements of a message, one after the other.
ghost use Rattle.std.specs.Prelude.{◌≡◌, ◌++◌, ◌∷◌, [], IfSome, IfNone, option_map, slice_get};
ghost use Rattle.std.specs.Iterator.{YieldsFirstBy, item_count};
ghost use Rattle.asn_values.specs.LookUp.{added};
ghost use Rattle.asn_values.specs.View.{part_of_field, branch_of};
ghost use Rattle.asn_view.specs.Seen.{parts_seen};
ghost use Rattle.asn_view.specs.Typed.{branch_value, values_of_parts, component_value, value_at_name};
ghost use Rattle.asn_message.specs.Places.{place_value, entries_of_left};
ghost use Rattle.asn_message.specs.Views.{seen, seen_chosen, seen_component, left_fields, left_components, left_elements};

use crate::place::{ElementsLeft, EntriesLeft, Place, take_element, take_entry};
use crate::view::MessageView;
use asn_values::internal::additions;
use asn_values::{Alt, AsnType, Field, Need};

/// The components of a SEQUENCE that are left, each with its name and its value.
#[derive(Drop)]
pub struct ComponentViews<'a> {
    root: &'a [Field],
    additions: &'a [Field],
    entries: EntriesLeft<'a>,
}

impl<'a> ComponentViews<'a> {
    /// All components.
    pub(crate) fn new(
        root: &'a [Field],
        ext: &'a Option<Vec<Field>>,
        entries: EntriesLeft<'a>,
    ) -> ComponentViews<'a>
        ensures { left_components result
            ≡ values_of_parts (parts_seen (root.now ++ added ext.now)) (entries_of_left entries.entry) }
    {
        ComponentViews {
            root,
            additions: additions(ext),
            entries,
        }
    }

    /// No component.
    pub(crate) fn none() -> ComponentViews<'a>
        ensures { left_components result ≡ [] }
    {
        ComponentViews {
            root: &[],
            additions: &[],
            entries: EntriesLeft::Tree(&[]),
        }
    }

    /// Takes the next component, root before additions.
    fn take_field(&mut self) -> Option<&'a Field>
        ensures first { IfSome result (λ f. left_fields self.old ≡ f.now ∷ left_fields self.new) }
        ensures none { IfNone result (left_fields self.old ≡ []) }
        ensures end { IfNone result (left_fields self.new ≡ []) }
        ensures entries { self.new.entries ≡ self.old.entries }
    {
        if let Some((field, others)) = self.root.split_first() {
            self.root = others;
            return Some(field);
        }
        let (field, others) = self.additions.split_first()?;
        self.additions = others;
        Some(field)
    }
}

impl<'a> Iterator for ComponentViews<'a> {
    type Item = (&'a str, Option<MessageView<'a>>);

    ghost next_gives = { YieldsFirstBy seen_component left_components };

    ghost remaining = { item_count left_components };

    fn next(&mut self) -> Option<(&'a str, Option<MessageView<'a>>)> {
        let field = self.take_field()?;
        let (entry, others) = take_entry(self.entries);
        self.entries = others;
        Some((field.name.as_str(), component_value(field, entry)))
    }
}

/// The value of a component with this entry: where it is absent, its DEFAULT.
fn component_value<'a>(field: &'a Field, entry: Option<Place<'a>>) -> Option<MessageView<'a>>
    ensures { option_map seen result
        ≡ component_value (part_of_field field.now) (option_map place_value entry.entry) }
{
    let ty = &field.ty;
    match (entry, &field.need) {
        (Some(place), _) => Some(MessageView { ty, place }),
        (None, Need::Default(value)) => Some(MessageView {
            ty,
            place: Place::Tree(value),
        }),
        (None, Need::Must | Need::Optional) => None,
    }
}

/// What stands at the first component of this name.
pub(crate) fn value_at_name<'a>(
    name: &[u8],
    components: ComponentViews<'a>,
) -> Option<MessageView<'a>>
    ensures { option_map seen result ≡ value_at_name name.now (left_components components.entry) }
{
    for (component, value) in components {
        if *name == *component.as_bytes() {
            return value;
        }
    }
    None
}

/// The elements of a SEQUENCE OF that are left.
#[derive(Drop)]
pub struct ElementViews<'a> {
    pub(crate) ty: &'a AsnType,
    pub(crate) values: ElementsLeft<'a>,
}

impl<'a> ElementViews<'a> {
    /// No element.
    pub(crate) fn none(ty: &'a AsnType) -> ElementViews<'a>
        ensures { left_elements result ≡ [] }
    {
        ElementViews {
            ty,
            values: ElementsLeft::Tree(&[]),
        }
    }
}

impl<'a> Iterator for ElementViews<'a> {
    type Item = MessageView<'a>;

    ghost next_gives = { YieldsFirstBy seen left_elements };

    ghost remaining = { item_count left_elements };

    fn next(&mut self) -> Option<MessageView<'a>> {
        let (element, others) = take_element(self.values);
        self.values = others;
        let place = element?;
        Some(MessageView { ty: self.ty, place })
    }
}

/// The name of an alternative, and its value.
pub(crate) fn of_alternative<'a>(
    alternative: &'a Alt,
    place: Place<'a>,
) -> (&'a str, MessageView<'a>)
    ensures { seen_chosen result ≡ branch_value (branch_of alternative.now) (place_value place.entry) }
{
    let ty = &alternative.ty;
    (alternative.name.as_str(), MessageView { ty, place })
}

/// The element at this index.
pub(crate) fn element_at<'a>(
    index: usize,
    mut elements: ElementViews<'a>,
) -> Option<MessageView<'a>>
    ensures { option_map seen result ≡ slice_get (left_elements elements.entry) index }
{
    for passed in 0..index {
        elements.next()?;
    }
    elements.next()
}
