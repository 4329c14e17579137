//! A part of a message beside its type.
ghost use Rattle.std.specs.Prelude.{◌≡◌, ◌↔◌, ℕ, List, IsTrue, IfSome, IfNone, IsUtf8, Some, option_and_then, option_map, slice_get};
ghost use Rattle.asn_values.specs.Datum.{nothing};
ghost use Rattle.asn_view.specs.Kinds.{kind_of};
ghost use Rattle.asn_view.specs.Typed.{truth_of, integer_of, octets_of, bits_of, text_of, length_of, item_name_in, chosen_in, value_named, components_in, elements_in};
ghost use Rattle.asn_message.specs.Views.{seen, seen_chosen, left_components, left_elements};

use crate::parts::{ComponentViews, ElementViews, element_at, of_alternative, value_at_name};
use crate::place::Place;
use asn_values::AsnType;
use asn_values::internal::part_at;
use asn_view::Kind;

/// A part of a message with its type, whose parts are reached by their names. It is some references, and is copied.
/// Each call returns what the call of `asn_view::View` of the same name returns for a value.
#[derive(Clone, Copy)]
pub struct MessageView<'a> {
    pub(crate) ty: &'a AsnType,
    pub(crate) place: Place<'a>,
}

/// None of these calls allocates. Each answers None, or what is said, where the value is of another kind.
impl<'a> MessageView<'a> {
    /// The kind of the type.
    pub fn kind(&self) -> Kind
        ensures { result ≡ kind_of (seen self.now).shape }
    {
        Kind::of(self.ty)
    }

    /// The component of a SEQUENCE with this name, root before additions, or the chosen alternative of a CHOICE where
    /// it has this name. A component that is absent is its DEFAULT; None where it has none, or there is no such name.
    pub fn get(&self, name: &str) -> Option<MessageView<'a>>
        ensures { option_map seen result ≡ value_named name.now (seen self.now) }
    {
        self.get_octets(name.as_bytes())
    }

    /// The same, by the octets of the name.
    pub(crate) fn get_octets(&self, name: &[u8]) -> Option<MessageView<'a>>
        ensures { option_map seen result ≡ value_named name.now (seen self.now) }
    {
        match self.alternative() {
            Some((chosen, value)) => {
                if *name == *chosen.as_bytes() {
                    Some(value)
                } else {
                    None
                }
            }
            None => value_at_name(name, self.components()),
        }
    }

    /// The element of a SEQUENCE OF at this index, counted from 0. The elements before it are passed one by one.
    pub fn index(&self, index: usize) -> Option<MessageView<'a>>
        ensures { option_map seen result ≡ slice_get (elements_in (seen self.now)) index }
    {
        element_at(index, self.elements())
    }

    /// The components of a SEQUENCE in their order, root before additions, each with its name and its value: the
    /// DEFAULT of one that is absent, and None where it has none. Nothing where the value is no SEQUENCE.
    pub fn components(&self) -> ComponentViews<'a>
        ensures { left_components result ≡ components_in (seen self.now) }
    {
        let AsnType::Seq { root, ext } = self.ty else {
            return ComponentViews::none();
        };
        match self.place.entries() {
            Some(entries) => ComponentViews::new(root, ext, entries),
            None => ComponentViews::none(),
        }
    }

    /// The elements of a SEQUENCE OF in their order. Nothing where the value is no SEQUENCE OF.
    pub fn elements(&self) -> ElementViews<'a>
        ensures { left_elements result ≡ elements_in (seen self.now) }
    {
        let AsnType::SeqOf(element, _) = self.ty else {
            return ElementViews::none(self.ty);
        };
        match self.place.elements() {
            Some(values) => ElementViews {
                ty: element,
                values,
            },
            None => ElementViews::none(self.ty),
        }
    }

    /// The name of the chosen alternative of a CHOICE, and its value.
    pub fn alternative(&self) -> Option<(&'a str, MessageView<'a>)>
        ensures { option_map seen_chosen result ≡ chosen_in (seen self.now) }
    {
        let AsnType::Choice { root, ext } = self.ty else {
            return None;
        };
        let (tag, place) = self.place.chosen()?;
        let alternative = part_at(root, ext, tag as usize)?;
        Some(of_alternative(alternative, place))
    }

    /// The name of the item of an ENUMERATED.
    pub fn item_name(&self) -> Option<&'a str>
        ensures { option_map (λ s. s.now) result ≡ item_name_in (seen self.now) }
    {
        let AsnType::Enum { root, ext } = self.ty else {
            return None;
        };
        let index = self.place.as_item()?;
        let item = part_at(root, ext, index as usize)?;
        Some(item.name.as_str())
    }

    /// The value of a BOOLEAN.
    pub fn as_bool(&self) -> Option<bool>
        ensures { result ≡ truth_of (seen self.now).datum }
    {
        self.place.as_bool()
    }

    /// The value of an INTEGER.
    pub fn as_int(&self) -> Option<i128>
        ensures { result ≡ integer_of (seen self.now).datum }
    {
        self.place.as_int()
    }

    /// The text of a character string: IA5String, NumericString, VisibleString or UTF8String. None for codes of
    /// characters that are no UTF-8, which none of these types has.
    pub fn as_str(&self) -> Option<&'a str>
        ensures text { IfSome result (λ s. text_of (seen self.now).datum ≡ Some s.now) }
        ensures none { IfNone result ((bs : List ℕ) → text_of (seen self.now).datum ≡ Some bs → ¬ IsUtf8 bs) }
    {
        str::from_utf8(self.place.as_text()?).ok()
    }

    /// The octets of an OCTET STRING.
    pub fn as_octets(&self) -> Option<&'a [u8]>
        ensures { option_map (λ os. os.now) result ≡ octets_of (seen self.now).datum }
    {
        self.place.as_octets()
    }

    /// Whether it is the value of a NULL.
    pub fn is_null(&self) -> bool
        ensures { IsTrue result ↔ ((seen self.now).datum ≡ nothing) }
    {
        self.place.is_null()
    }

    /// The bit of a BIT STRING at this index, counted from 0.
    pub fn bit(&self, index: usize) -> Option<bool>
        ensures { result ≡ option_and_then (λ bs. slice_get bs index) (bits_of (seen self.now).datum) }
    {
        self.place.bit(index)
    }

    /// How many elements a SEQUENCE OF has, or bits, octets or characters a string (octets a UTF8String); 0 where the
    /// value is of another kind.
    pub fn len(&self) -> usize
        ensures { result ≡ length_of (seen self.now).datum }
    {
        self.place.len()
    }

    /// Whether `len` is 0.
    pub fn is_empty(&self) -> bool
        ensures { IsTrue result ↔ (length_of (seen self.now).datum ≡ 0) }
    {
        self.len() == 0
    }
}
