//! The trait of what a writer takes a value from.
ghost use Rattle.std.specs.Prelude.{◌≡◌, ◌≢◌, ℕ, List, Option, length, take, drop, is_some, option_map, IfSome, IfNone, IsNone};
ghost use Rattle.std.specs.Iterator.{YieldsFirstBy};
ghost use Rattle.std.specs.List.{list_any};
ghost use Rattle.asn_values.specs.Datum.{Components, Datum, Elements, components, components_of, elements, elements_of, alternative};
ghost use Rattle.asn_values.specs.View.{datum_of};
ghost use Rattle.asn_source.specs.Parts.{HasParts, first_entry, first_element};

use asn_values::Value;

/// A value, or a part of one, in a form from which it can be written: it returns its parts one after the other. No call
/// allocates.
pub trait Source: Copy {
    /// The entries of a SEQUENCE, or some of them.
    type Entries: Copy;

    /// The elements of a SEQUENCE OF, or some of them.
    type Elements: Copy;

    /// Entries of a SEQUENCE one after the other.
    type Each: Iterator<Item = Option<Self>>;

    /// The value.
    ghost datum: { Self → Datum };

    /// The entries, in order.
    ghost entries_left: { Self.Entries → List (Option Datum) };

    /// The entries that are still to come.
    ghost each_left: { Self.Each → List (Option Datum) };

    /// The elements, in order.
    ghost elements_left: { Self.Elements → List Datum };

    /// The value as a `Value`. `None` only where it is a SEQUENCE, a SEQUENCE OF or a CHOICE.
    fn leaf(&self) -> Option<&Value>
        ensures some { IfSome result (λ v. datum_of v.now ≡ datum self.now) }
        ensures none { IsNone result → HasParts (datum self.now) };

    /// The entries of a SEQUENCE.
    fn entries(self) -> Option<Self::Entries>
        ensures some { IfSome result (λ es. datum self ≡ components (components_of (entries_left es))) }
        ensures none { IfNone result ((es : Components) → datum self ≢ components es) };

    /// How many entries there are.
    fn count_entries(entries: Self::Entries) -> usize
        ensures { result ≡ length (entries_left entries) };

    /// The first entries, this many or as many as there are, and those after them.
    fn split_entries(entries: Self::Entries, count: usize) -> (Self::Entries, Self::Entries)
        ensures first { entries_left result.0 ≡ take count (entries_left entries) }
        ensures others { entries_left result.1 ≡ drop count (entries_left entries) };

    /// Whether some entry is present.
    fn is_any_present(entries: Self::Entries) -> bool
        ensures { result ≡ list_any is_some (entries_left entries) };

    /// The entries one after the other: the value of each, if it is present.
    fn each(entries: Self::Entries) -> Self::Each
        ensures all { each_left result ≡ entries_left entries }
        ensures can { Self.Each.Iterator.can_next result };

    /// Takes the first entry, and gives its value if it is present.
    fn next_entry(entries: &mut Self::Entries) -> Option<Self>
        ensures first { option_map datum result ≡ first_entry (entries_left entries.old) }
        ensures others { entries_left entries.new ≡ drop 1 (entries_left entries.old) };

    /// The elements of a SEQUENCE OF.
    fn elements(self) -> Option<Self::Elements>
        ensures some { IfSome result (λ ds. datum self ≡ elements (elements_of (elements_left ds))) }
        ensures none { IfNone result ((ds : Elements) → datum self ≢ elements ds) };

    /// How many elements there are.
    fn count_elements(elements: Self::Elements) -> usize
        ensures { result ≡ length (elements_left elements) };

    /// The first elements, this many or as many as there are, and those after them.
    fn split_elements(elements: Self::Elements, count: usize) -> (Self::Elements, Self::Elements)
        ensures first { elements_left result.0 ≡ take count (elements_left elements) }
        ensures others { elements_left result.1 ≡ drop count (elements_left elements) };

    /// Takes the first element.
    fn next_element(elements: &mut Self::Elements) -> Option<Self>
        ensures first { option_map datum result ≡ first_element (elements_left elements.old) }
        ensures others { elements_left elements.new ≡ drop 1 (elements_left elements.old) };

    /// The tag of the alternative of a CHOICE, and its value.
    fn chosen(self) -> Option<(u32, Self)>
        ensures some { IfSome result (λ c. datum self ≡ alternative c.0 (datum c.1)) }
        ensures none { IfNone result ((n : ℕ) (d : Datum) → datum self ≢ alternative n d) };

    /// The first of the entries that are still to come is given, and the others come after it.
    ghost each_gives: { (s : Self.Each) (r : Option (Option Self)) (t : Self.Each)
        → Self.Each.Iterator.next_gives s r t → YieldsFirstBy (option_map datum) each_left s r t };
}
