//! Builders of types and of their parts.
ghost use Rattle.std.specs.Prelude.{◌≡◌, IfOk, Some, None};
ghost use Rattle.asn_values.specs.Building.{closed_range, extensible_range, closed_size, extensible_size, IsItem, IsComponent, IsAlternative};
ghost use Rattle.asn_values.specs.Shape.{must, optional, default, closed_labels, marked_labels, enumerated, closed, marked, sequence, sequence_of, closed_choice, marked_choice, choice};
ghost use Rattle.asn_values.specs.View.{range_of, size_range_of, label_of, part_of_field, branch_of, shape_of, datum_of, fields_seen, alternatives_seen, labels_seen};

use crate::types::{Alt, AsnType, Bounds, Field, Item, Need, Size};
use crate::value::Value;
use std::alloc::{AllocError, Global};

impl Bounds {
    /// INTEGER without a range: from MIN to MAX.
    pub fn any() -> Bounds
        ensures { range_of result ≡ closed_range None None }
    {
        Bounds {
            low: None,
            high: None,
            ext: false,
        }
    }

    /// INTEGER (low..high), both counted in.
    pub fn between(low: i128, high: i128) -> Bounds
        ensures { range_of result ≡ closed_range (Some low) (Some high) }
    {
        Bounds {
            low: Some(low),
            high: Some(high),
            ext: false,
        }
    }

    /// INTEGER (low..MAX).
    pub fn at_least(low: i128) -> Bounds
        ensures { range_of result ≡ closed_range (Some low) None }
    {
        Bounds {
            low: Some(low),
            high: None,
            ext: false,
        }
    }

    /// INTEGER (MIN..high).
    pub fn at_most(high: i128) -> Bounds
        ensures { range_of result ≡ closed_range None (Some high) }
    {
        Bounds {
            low: None,
            high: Some(high),
            ext: false,
        }
    }

    /// The same bounds with an extension marker after them: (low..high, ...).
    pub fn extensible(self) -> Bounds
        ensures { range_of result ≡ extensible_range (range_of self) }
    {
        Bounds { ext: true, ..self }
    }
}

impl Size {
    /// SIZE (0..MAX), as where no size is written.
    pub fn any() -> Size
        ensures { size_range_of result ≡ closed_size 0 None }
    {
        Size {
            low: 0,
            high: None,
            ext: false,
        }
    }

    /// SIZE (low..high), both counted in.
    pub fn between(low: u32, high: u32) -> Size
        ensures { size_range_of result ≡ closed_size low (Some high) }
    {
        Size {
            low,
            high: Some(high),
            ext: false,
        }
    }

    /// SIZE (length).
    pub fn fixed(length: u32) -> Size
        ensures { size_range_of result ≡ closed_size length (Some length) }
    {
        Size::between(length, length)
    }

    /// SIZE (low..MAX).
    pub fn at_least(low: u32) -> Size
        ensures { size_range_of result ≡ closed_size low None }
    {
        Size {
            low,
            high: None,
            ext: false,
        }
    }

    /// The same bounds with an extension marker after them: SIZE (low..high, ...).
    pub fn extensible(self) -> Size
        ensures { size_range_of result ≡ extensible_size (size_range_of self) }
    {
        Size { ext: true, ..self }
    }
}

impl Item {
    /// The item `name(number)`. Allocates the name.
    ///
    /// # Errors
    /// `AllocError` where the allocation failed.
    pub fn new(alloc: Global, name: &str, number: i64) -> Result<Item, AllocError>
        ensures { IfOk result (λ i. IsItem name.now number (label_of i)) }
    {
        let name = String::from_str(alloc, name)?;
        Ok(Item { name, number })
    }
}

impl Alt {
    /// The alternative of this name and type. Allocates the name.
    ///
    /// # Errors
    /// `AllocError` where the allocation failed.
    pub fn new(alloc: Global, name: &str, ty: AsnType) -> Result<Alt, AllocError>
        ensures { IfOk result (λ a. IsAlternative name.now (shape_of ty) (branch_of a)) }
    {
        let name = String::from_str(alloc, name)?;
        Ok(Alt { name, ty })
    }
}

impl Field {
    /// The component of this name and type, which is always there. Allocates the name.
    ///
    /// # Errors
    /// `AllocError` where the allocation failed.
    pub fn new(alloc: Global, name: &str, ty: AsnType) -> Result<Field, AllocError>
        ensures { IfOk result (λ f. IsComponent name.now must (shape_of ty) (part_of_field f)) }
    {
        let name = String::from_str(alloc, name)?;
        Ok(Field {
            name,
            ty,
            need: Need::Must,
        })
    }

    /// The same component, OPTIONAL.
    pub fn optional(self) -> Field
        ensures { IsComponent (part_of_field self).name optional (part_of_field self).shape (part_of_field result) }
    {
        Field {
            name: self.name,
            ty: self.ty,
            need: Need::Optional,
        }
    }

    /// The same component, DEFAULT this value.
    pub fn default_to(self, value: Value) -> Field
        ensures { IsComponent (part_of_field self).name (default (datum_of value)) (part_of_field self).shape
            (part_of_field result) }
    {
        Field {
            name: self.name,
            ty: self.ty,
            need: Need::Default(value),
        }
    }
}

impl AsnType {
    /// ENUMERATED { root }.
    pub fn enumerated(root: Vec<Item>) -> AsnType
        ensures { shape_of result ≡ enumerated (labels_seen root.items) closed_labels }
    {
        AsnType::Enum { root, ext: None }
    }

    /// ENUMERATED { root, ..., additions }.
    pub fn extensible_enumerated(root: Vec<Item>, additions: Vec<Item>) -> AsnType
        ensures { shape_of result
            ≡ enumerated (labels_seen root.items) (marked_labels (labels_seen additions.items)) }
    {
        AsnType::Enum {
            root,
            ext: Some(additions),
        }
    }

    /// SEQUENCE { root }.
    pub fn sequence(root: Vec<Field>) -> AsnType
        ensures { shape_of result ≡ sequence (fields_seen root.items) closed }
    {
        AsnType::Seq { root, ext: None }
    }

    /// SEQUENCE { root, ..., additions }.
    pub fn extensible_sequence(root: Vec<Field>, additions: Vec<Field>) -> AsnType
        ensures { shape_of result
            ≡ sequence (fields_seen root.items) (marked (fields_seen additions.items)) }
    {
        AsnType::Seq {
            root,
            ext: Some(additions),
        }
    }

    /// SEQUENCE (size) OF element. Allocates one cell for the element.
    ///
    /// # Errors
    /// `AllocError` where the allocation failed.
    pub fn sequence_of(alloc: Global, element: AsnType, size: Size) -> Result<AsnType, AllocError>
        ensures { IfOk result (λ ty. shape_of ty ≡ sequence_of (shape_of element) (size_range_of size)) }
    {
        Ok(AsnType::SeqOf(Box::new(alloc, element)?, size))
    }

    /// CHOICE { root }.
    pub fn choice(root: Vec<Alt>) -> AsnType
        ensures { shape_of result ≡ choice (alternatives_seen root.items) closed_choice }
    {
        AsnType::Choice { root, ext: None }
    }

    /// CHOICE { root, ..., additions }.
    pub fn extensible_choice(root: Vec<Alt>, additions: Vec<Alt>) -> AsnType
        ensures { shape_of result
            ≡ choice (alternatives_seen root.items) (marked_choice (alternatives_seen additions.items)) }
    {
        AsnType::Choice {
            root,
            ext: Some(additions),
        }
    }
}
