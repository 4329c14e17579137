//! What a published type demands in addition to the type of the profile.
use asn_constrained::ConstrainedType;
use asn_constraints::Constraint;
use asn_containing::{ContainingType, TableType};
use asn_contents::{copy_of, is_nowhere, with_unknown};
use asn_look::MessageType;
use asn_module::Module;
use asn_module_files::Published;
use asn_published::Marks;
use asn_request::asking::Asking;
use asn_values::Checked;
use std::alloc::{AllocError, Global};
use std::sync::Arc;

/// A constraint on values, octets in them that are encodings, and marks where values are not looked at.
#[derive(Clone, Copy)]
pub struct Demands<'t> {
    /// `None` if each value meets it.
    pub constraint: Option<&'t Constraint>,
    pub marks: Option<&'t Marks>,
    /// Whether octets of the values are encodings.
    pub has_contents: bool,
}

impl<'t> Demands<'t> {
    /// What the answers use: with `--accept-wider` the marks of a recursive type alone.
    pub fn of(asking: &Asking<'_>, published: &'t Published) -> Demands<'t> {
        let constraint = published.constraint();
        let marks = match &published.marks {
            Some(marks) if !asking.is_wider_taken || marks.levels().is_some() => Some(marks),
            _ => None,
        };
        Demands {
            constraint,
            marks,
            has_contents: !is_nowhere(&published.contents),
        }
    }

    /// Whether the type is that of the profile.
    pub fn is_nothing(self) -> bool {
        self.constraint.is_none() && self.marks.is_none() && !self.has_contents
    }

    /// How many levels a recursive type has, if recursion ends in the type.
    pub fn levels(self) -> Option<u32> {
        self.marks?.levels()
    }
}

/// This type of a module with its constraint, and the types of the module that its octets contain.
///
/// # Errors
/// `AllocError` where an allocation failed.
pub fn messages_of(
    alloc: Global,
    module: &Module,
    ty: &Checked,
    published: &Published,
) -> Result<MessageType, AllocError> {
    let constraint = published.constraint.copy(alloc)?;
    let outer = TableType {
        ty: ConstrainedType::new(alloc, ty.copy()?, constraint)?,
        contents: copy_of(alloc, &published.contents)?,
    };
    let mut names = Vec::new(alloc);
    let mut table = Vec::new(alloc);
    for contained in &published.contained {
        // (each of them is in the module; octets of a type that is not in the table are refused)
        let Some(ty) = module.type_named(contained.name.as_str()) else {
            break;
        };
        let constraint = contained.constraint.copy(alloc)?;
        names.push(contained.name.clone()?)?;
        table.push(TableType {
            ty: ConstrainedType::new(alloc, ty.copy()?, constraint)?,
            contents: copy_of(alloc, &contained.contents)?,
        })?;
    }
    Ok(MessageType {
        ty: ContainingType {
            outer: Arc::new(alloc, outer)?,
            table: Arc::new(alloc, table)?,
        },
        names,
        all: with_unknown(alloc, &published.contents)?,
    })
}
