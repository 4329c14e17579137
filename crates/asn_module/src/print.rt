//! Prints a module.

ghost use Rattle.std.specs.Prelude.{◌≡◌, ◌∷◌, [], ◌++◌, List, ℕ, IfOk, OnOk, option_map, string_bytes};
ghost use Rattle.asn_values.specs.View.{shape_of};
ghost use Rattle.asn_notation.specs.Grammar as g;
ghost use Rattle.asn_notation.specs.Printed.{line};
ghost use Rattle.asn_module.specs.Accepted.{IsReadAgain, Typed, type_in};
ghost use Rattle.asn_module.specs.Known.{types_of};
ghost use Rattle.asn_module.specs.ModuleView.{types_view};
ghost use Rattle.asn_module.specs.Printing as spec;

use crate::known::Named;
use crate::module::Module;
use crate::printing::{write_token, write_type};
use asn_values::AsnType;
use std::alloc::{AllocError, Global};

/// The first line, up to BEGIN.
fn write_heading(out: &mut String, name: &str) -> Result<(), AllocError>
    ensures { OnOk result (string_bytes out.new ≡ string_bytes out.old ++ line (g.heading name.now)) }
{
    out.push_str(name)?;
    write_token(out, "DEFINITIONS")?;
    write_token(out, "AUTOMATIC")?;
    write_token(out, "TAGS")?;
    write_token(out, "::=")?;
    write_token(out, "BEGIN")?;
    out.push_str("\n")
}

/// The line of an assignment.
fn write_assignment(
    out: &mut String,
    alloc: Global,
    name: &str,
    ty: &AsnType,
) -> Result<(), AllocError>
    ensures { OnOk result
        (string_bytes out.new ≡ string_bytes out.old ++ spec.line_printed name.now (shape_of ty.now)) }
{
    out.push_str(name)?;
    write_token(out, "::=")?;
    write_type(out, alloc, ty)?;
    out.push_str("\n")
}

/// The line of a name, where it has a type.
fn write_named(out: &mut String, alloc: Global, named: &Named) -> Result<(), AllocError>
    ensures { OnOk result
        (string_bytes out.new ≡ string_bytes out.old ++ spec.lines_printed (types_of (named.now ∷ []))) }
{
    match &named.known {
        Some(known) => write_assignment(out, alloc, named.name.as_str(), known.ty.get()),
        None => Ok(()),
    }
}

/// The lines of all assignments.
fn write_assignments(out: &mut String, alloc: Global, types: &[Named]) -> Result<(), AllocError>
    ensures { OnOk result (string_bytes out.new ≡ string_bytes out.old ++ spec.lines_printed (types_of types.now)) }
{
    for named in types {
        write_named(out, alloc, named)?;
    }
    Ok(())
}

impl Module {
    /// The module as text: a line up to BEGIN, a line for each name in the order of the text that was read, and
    /// `END`; tokens with one SPACE between them. References are followed and bounds are effective, each written
    /// with `..`; items have their numbers.
    ///
    /// # Errors
    /// `AllocError` where an allocation failed.
    pub fn print(&self, alloc: Global) -> Result<String, AllocError>
        // The text is the printed form of the names and types.
        ensures printed { IfOk result (λ text. string_bytes text ≡ spec.printed (types_view self.now)) }
        // It is a module of the same names and types, where these are a module's.
        ensures read_again { IfOk result (λ text. IsReadAgain (string_bytes text) (types_view self.now)) }
    {
        let mut out = String::new(alloc);
        write_heading(&mut out, self.name.as_str())?;
        write_assignments(&mut out, alloc, &self.types)?;
        out.push_str("END\n")?;
        Ok(out)
    }

    /// The type of a name alone: its line, as `print` writes it. None where the module assigns no such name.
    ///
    /// # Errors
    /// `AllocError` where an allocation failed.
    pub fn print_type(&self, alloc: Global, name: &str) -> Result<Option<String>, AllocError>
        ensures { IfOk result (λ text. option_map string_bytes text
            ≡ option_map (spec.line_printed name.now) (type_in (types_view self.now).types name.now)) }
    {
        let Some(ty) = self.type_named(name) else {
            return Ok(None);
        };
        let mut out = String::new(alloc);
        write_assignment(&mut out, alloc, name, ty.get())?;
        Ok(Some(out))
    }
}
