//! A value beside its type.
ghost use Rattle.std.specs.Prelude.{◌≡◌, ◌↔◌, ℕ, List, IsTrue, IfSome, IfNone, IsUtf8, Some, option_map, slice_get};
ghost use Rattle.asn_values.specs.Datum.{nothing};
ghost use Rattle.asn_values.specs.View.{shape_of, datum_of};
ghost use Rattle.asn_view.specs.Kinds.{kind_of};
ghost use Rattle.asn_view.specs.Seen.{seen, seen_component, seen_chosen, left_components, left_elements};
ghost use Rattle.asn_view.specs.Typed.{typed, truth_of, integer_of, octets_of, bits_of, text_of, length_of, item_name_in, chosen_in, value_named, components_in, elements_in};

use crate::kind::Kind;
use crate::parts::{Components, Elements, item_at, of_alternative, value_at_name};
use asn_values::internal::part_at;
use asn_values::{AsnType, Checked, Value};

/// A value with its type, whose parts are reached by their names. It is two references, and is copied.
#[derive(Clone, Copy, Debug)]
pub struct View<'a> {
    pub ty: &'a AsnType,
    pub value: &'a Value,
}

/// Types of which values can be viewed.
pub trait Viewed {
    /// The value with this type. Whether it is one of the type does not matter: a part that the type has not is not
    /// found. Allocates nothing.
    fn view<'a>(&'a self, value: &'a Value) -> View<'a>;
}

impl Viewed for Checked {
    fn view<'a>(&'a self, value: &'a Value) -> View<'a>
        ensures { seen result ≡ typed (shape_of self.now) (datum_of value.now) }
    {
        View {
            ty: self.get(),
            value,
        }
    }
}

/// None of these calls allocates. Each answers None, or what is said, where the value is of another kind.
impl<'a> View<'a> {
    /// The kind of the type.
    pub fn kind(&self) -> Kind
        ensures { result ≡ kind_of (seen self.now).shape }
    {
        Kind::of(self.ty)
    }

    /// The component of a SEQUENCE with this name, root before additions, or the chosen alternative of a CHOICE where
    /// it has this name. A component that is absent is its DEFAULT; None where it has none, or there is no such name.
    pub fn get(&self, name: &str) -> Option<View<'a>>
        ensures { option_map seen result ≡ value_named name.now (seen self.now) }
    {
        self.get_octets(name.as_bytes())
    }

    /// The same, by the octets of the name.
    pub(crate) fn get_octets(&self, name: &[u8]) -> Option<View<'a>>
        ensures { option_map seen result ≡ value_named name.now (seen self.now) }
    {
        match self.alternative() {
            Some((chosen, value)) => {
                if *name == *chosen.as_bytes() {
                    Some(value)
                } else {
                    None
                }
            }
            None => value_at_name(name, self.components()),
        }
    }

    /// The element of a SEQUENCE OF at this index, counted from 0.
    pub fn index(&self, index: usize) -> Option<View<'a>>
        ensures { option_map seen result ≡ slice_get (elements_in (seen self.now)) index }
    {
        match (self.ty, self.value) {
            (AsnType::SeqOf(element, _), Value::List(values)) => match item_at(values, index) {
                Some(value) => Some(View { ty: element, value }),
                None => None,
            },
            _ => None,
        }
    }

    /// The components of a SEQUENCE in their order, root before additions, each with its name and its value: the
    /// DEFAULT of one that is absent, and None where it has none. Nothing where the value is no SEQUENCE.
    pub fn components(&self) -> Components<'a>
        ensures { left_components result ≡ components_in (seen self.now) }
    {
        match (self.ty, self.value) {
            (AsnType::Seq { root, ext }, Value::Seq(entries)) => Components::new(
                root, ext, entries,
            ),
            _ => Components::none(),
        }
    }

    /// The elements of a SEQUENCE OF in their order. Nothing where the value is no SEQUENCE OF.
    pub fn elements(&self) -> Elements<'a>
        ensures { left_elements result ≡ elements_in (seen self.now) }
    {
        match (self.ty, self.value) {
            (AsnType::SeqOf(element, _), Value::List(values)) => Elements {
                ty: element,
                values: values.as_slice(),
            },
            _ => Elements {
                ty: self.ty,
                values: &[],
            },
        }
    }

    /// The name of the chosen alternative of a CHOICE, and its value. None too of one that the type has not, as a newer
    /// sender may choose it.
    pub fn alternative(&self) -> Option<(&'a str, View<'a>)>
        ensures { option_map seen_chosen result ≡ chosen_in (seen self.now) }
    {
        match (self.ty, self.value) {
            (AsnType::Choice { root, ext }, Value::Choice(tag, chosen)) => {
                match part_at(root, ext, *tag as usize) {
                    Some(alternative) => Some(of_alternative(alternative, chosen)),
                    None => None,
                }
            }
            _ => None,
        }
    }

    /// The name of the item of an ENUMERATED. None too of one that the type has not, as a newer sender may choose it.
    pub fn item_name(&self) -> Option<&'a str>
        ensures { option_map (λ s. s.now) result ≡ item_name_in (seen self.now) }
    {
        match (self.ty, self.value) {
            (AsnType::Enum { root, ext }, Value::Enum(index)) => {
                match part_at(root, ext, *index as usize) {
                    Some(item) => Some(item.name.as_str()),
                    None => None,
                }
            }
            _ => None,
        }
    }

    /// The value of a BOOLEAN.
    pub fn as_bool(&self) -> Option<bool>
        ensures { result ≡ truth_of (seen self.now).datum }
    {
        match self.value {
            Value::Bool(truth) => Some(*truth),
            _ => None,
        }
    }

    /// The value of an INTEGER.
    pub fn as_int(&self) -> Option<i128>
        ensures { result ≡ integer_of (seen self.now).datum }
    {
        match self.value {
            Value::Int(number) => Some(*number),
            _ => None,
        }
    }

    /// The text of a character string: IA5String, NumericString, VisibleString or UTF8String. None for codes of
    /// characters that are no UTF-8, which none of these types has.
    pub fn as_str(&self) -> Option<&'a str>
        ensures text { IfSome result (λ s. text_of (seen self.now).datum ≡ Some s.now) }
        ensures none { IfNone result ((bs : List ℕ) → text_of (seen self.now).datum ≡ Some bs → ¬ IsUtf8 bs) }
    {
        match self.value {
            Value::Text(codes) => str::from_utf8(codes).ok(),
            Value::Utf8(text) => Some(text.as_str()),
            _ => None,
        }
    }

    /// The octets of an OCTET STRING.
    pub fn as_octets(&self) -> Option<&'a [u8]>
        ensures { option_map (λ os. os.now) result ≡ octets_of (seen self.now).datum }
    {
        match self.value {
            Value::Octets(octets) => Some(octets.as_slice()),
            _ => None,
        }
    }

    /// The bits of a BIT STRING.
    pub fn as_bits(&self) -> Option<&'a [bool]>
        ensures { option_map (λ bs. bs.now) result ≡ bits_of (seen self.now).datum }
    {
        match self.value {
            Value::Bits(bits) => Some(bits.as_slice()),
            _ => None,
        }
    }

    /// Whether it is the value of a NULL.
    pub fn is_null(&self) -> bool
        ensures { IsTrue result ↔ ((seen self.now).datum ≡ nothing) }
    {
        matches!(self.value, Value::Null)
    }

    /// How many elements a SEQUENCE OF has, or bits, octets or characters a string (octets a UTF8String); 0 where the
    /// value is of another kind.
    pub fn len(&self) -> usize
        ensures { result ≡ length_of (seen self.now).datum }
    {
        match self.value {
            Value::List(values) => values.len(),
            Value::Bits(bits) => bits.len(),
            Value::Octets(octets) => octets.len(),
            Value::Text(codes) => codes.len(),
            Value::Utf8(text) => text.len(),
            _ => 0,
        }
    }

    /// Whether `len` is 0.
    pub fn is_empty(&self) -> bool
        ensures { IsTrue result ↔ (length_of (seen self.now).datum ≡ 0) }
    {
        self.len() == 0
    }
}
