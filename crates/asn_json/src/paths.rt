//! Paths to where JSON is not of the shape of a type.
ghost use Rattle.std.specs.Prelude.{◌≡◌, ℕ, List, Some, IfOk, IfErr, option_map, codes};
ghost use Rattle.asn_values.specs.View.{datum_of};
ghost use Rattle.asn_json.specs.Errors.{unless_read};
ghost use Rattle.asn_json.specs.Paths.{here, below, to_member, to_element};
ghost use Rattle.asn_json.specs.Readers.{TellsFirst};

use crate::fault::JsonFault;
use asn_values::Value;
use std::alloc::Global;

/// The fault at the node itself.
pub(crate) fn at_node(alloc: Global) -> JsonFault
    ensures { TellsFirst here result }
{
    JsonFault::Shape {
        path: String::new(alloc),
    }
}

/// The value, or the fault at the node itself where there is none.
pub(crate) fn value_or_fault(alloc: Global, value: Option<Value>) -> Result<Value, JsonFault>
    ensures some { IfOk result (λ v. value ≡ Some v) }
    ensures none { IfErr result (λ fault. TellsFirst (unless_read (option_map datum_of value)) fault) }
{
    match value {
        Some(value) => Ok(value),
        None => Err(at_node(alloc)),
    }
}

/// What a fault of a member is told as at the object.
pub(crate) fn below_member(alloc: Global, name: &str, fault: JsonFault) -> JsonFault
    ensures { (paths : List (List ℕ)) → TellsFirst paths fault
        → TellsFirst (below (to_member name.now) paths) result }
{
    match fault {
        JsonFault::Shape { path } => match format!(in alloc; ".{name}{path}") {
            Ok(path) => JsonFault::Shape { path },
            Err(_) => JsonFault::Memory,
        },
        JsonFault::NotOfType => JsonFault::NotOfType,
        JsonFault::Memory => JsonFault::Memory,
    }
}

/// What a fault of an element is told as at the array.
pub(crate) fn below_element(alloc: Global, index: usize, fault: JsonFault) -> JsonFault
    ensures { (paths : List (List ℕ)) → TellsFirst paths fault
        → TellsFirst (below (to_element index) paths) result }
{
    match fault {
        JsonFault::Shape { path } => match format!(in alloc; "[{index}]{path}") {
            Ok(path) => JsonFault::Shape { path },
            Err(_) => JsonFault::Memory,
        },
        JsonFault::NotOfType => JsonFault::NotOfType,
        JsonFault::Memory => JsonFault::Memory,
    }
}

/// What a fault of the whole value is told as.
pub(crate) fn from_top(alloc: Global, fault: JsonFault) -> JsonFault
    ensures { (paths : List (List ℕ)) → TellsFirst paths fault → TellsFirst (below (codes "$") paths) result }
{
    match fault {
        JsonFault::Shape { path } => match format!(in alloc; "${path}") {
            Ok(path) => JsonFault::Shape { path },
            Err(_) => JsonFault::Memory,
        },
        JsonFault::NotOfType => JsonFault::NotOfType,
        JsonFault::Memory => JsonFault::Memory,
    }
}
