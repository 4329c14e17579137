//! Reads a module.

ghost use Rattle.std.specs.Prelude.{◌≡◌, ◌≤◌, ◌⊎◌, None, Some, ℕ, List, IfOk, IfErr, IfSome, MatchOption, MatchResult};
ghost use Rattle.asn_values.specs.View.{shape_of};
ghost use Rattle.asn_module.specs.Accepted.{Accepted, ModuleTypes, type_in};
ghost use Rattle.asn_module.specs.Sizes.{most_size, types_size, IsAtMost};
ghost use Rattle.asn_module.specs.Bounded.{TellsBound, TellsRead, IsStopped};
ghost use Rattle.asn_module.specs.Known.{SeenAs};
ghost use Rattle.asn_module.specs.ModuleView.{types_view};
ghost use Rattle.asn_module.specs.Uses.{TellsUses, says_used};

use crate::diagnosis::fault_of;
use crate::explaining::explain;
use crate::fault::{BoundFault, ModuleFault, Refusal};
use crate::graph::{order_of, references_of};
use crate::indexing::indices_of;
use crate::listing::assignments_listed;
use crate::module::{Module, find_type, index_names};
use crate::table::types_of;
use crate::uses::names_used;
use asn_notation::{SyntaxFault, read_notation};
use asn_values::Checked;
use asn_values::profile::MAX_LEVELS;
use std::alloc::Global;
use std::collections::HashMap;
use thiserror::Error;

/// An order to build the types of a text of the grammar in. `indices` has the index of each name that is assigned.
fn building_order<'t>(
    alloc: Global,
    text: &'t str,
    indices: &HashMap<&'t str, usize>,
) -> Result<Vec<usize>, Refusal>
    ensures { IfErr result (λ e. e ≡ Refusal.Memory) }
{
    match assignments_listed(alloc, text) {
        Ok(listed) => match references_of(alloc, &listed, indices) {
            Ok(references) => Ok(order_of(alloc, &references)?),
            Err(_) => Err(Refusal::Memory),
        },
        Err(_) => Err(Refusal::Memory),
    }
}

/// The module that a text is; None where it is none.
///
/// # Errors
/// `Memory` where an allocation failed; `TooLarge` where there is a bound, and the module is larger.
pub(crate) fn module_of(
    alloc: Global,
    text: &str,
    most: Option<u32>,
) -> Result<Option<Module>, Refusal>
    ensures accepted { IfOk result (λ o. IfSome o (λ m. Accepted text.now (types_view m))) }
    ensures within { IfOk result (λ o. IfSome o (λ m. IsAtMost most (types_size (types_view m).types))) }
    ensures refused { IfOk result (λ o. o ≡ None → (m : ModuleTypes) → Accepted text.now m → ⊥) }
    ensures uses { IfOk result (λ o. IfSome o (λ m. TellsUses text.now m)) }
    ensures stopped { IfErr result (IsStopped text.now most) }
{
    let notation = match read_notation(alloc, text, MAX_LEVELS) {
        Ok(notation) => notation,
        Err(SyntaxFault::Memory) => return Err(Refusal::Memory),
        Err(_) => return Ok(None),
    };
    let Some(indices) = indices_of(alloc, &notation.assignments)? else {
        return Ok(None);
    };
    let order = building_order(alloc, text, &indices)?;
    match types_of(alloc, &notation.assignments, &indices, &order, most)? {
        Some(types) => {
            let name = String::from_str(alloc, notation.name)?;
            let indices = index_names(alloc, &types)?;
            let used = names_used(alloc, &notation.assignments)?;
            Ok(Some(Module {
                name,
                types,
                indices,
                used,
            }))
        }
        None => Ok(None),
    }
}

/// The most that a module may be that `read` reads, as `read_within` counts it: some 54 octets of memory for each.
pub const MOST_SIZE: u32 = 10_000_000;

/// The module that a text is (X.680, "module definition"), in the notation of the profile: references followed, and
/// the bounds along the way met.
///
/// # Errors
/// `TooLarge` where the module is larger than `MOST_SIZE`; `Memory` where an allocation failed; else the text is no module
/// of the profile. Of several faults the first is reported, in this order:
///
/// - `Character`, `Unexpected` or `OutOfProfile` (a token with which no module goes on);
/// - `Twice`, `Unknown`, `Cycle`;
/// - `OutOfProfile` (a constraint that is not allowed on the type of its reference), `BadType`.
pub fn read(alloc: Global, text: &str) -> Result<Module, ModuleFault>
    // What is read is the module that the text is.
    ensures accepted { IfOk result (λ m. Accepted text.now (types_view m)) }
    ensures within { IfOk result (λ m. types_size (types_view m).types ≤ most_size) }
    // It tells of each name whether a type of the text refers to it.
    ensures uses { IfOk result (λ m. TellsUses text.now m) }
    // A text that is a module is read, unless an allocation failed or it is larger, which `TooLarge` reports.
    ensures refused { IfErr result (TellsRead text.now) }
{
    match module_of(alloc, text, Some(MOST_SIZE)) {
        Ok(Some(module)) => Ok(module),
        Ok(None) => Err(fault_of(alloc, text)),
        Err(Refusal::TooLarge { name, size }) => Err(ModuleFault::TooLarge {
            most: MOST_SIZE,
            size,
            name,
        }),
        Err(_) => Err(ModuleFault::Memory),
    }
}

/// What `read` answers, of a module that is no larger than `most`: each type of its names and each type inside them
/// counts one, each item of an ENUMERATED one, and each name in them its octets, with references followed. What is
/// built is no larger, except the type of one name, which has at most 100,000 types inside it: so a short text whose
/// references multiply its types takes no more memory than that. A name that only refers to another takes none, and is
/// counted as it is written out.
///
/// # Errors
/// `TooLarge` where the module is larger; `Module` with what `read` reports. A text that is no module may get either.
pub fn read_within(alloc: Global, text: &str, most: u32) -> Result<Module, BoundFault>
    ensures accepted { IfOk result (λ m. Accepted text.now (types_view m)) }
    ensures within { IfOk result (λ m. types_size (types_view m).types ≤ most) }
    ensures uses { IfOk result (λ m. TellsUses text.now m) }
    // `TooLarge` is told of no module within the bound, and a text that is one is read, unless an allocation failed.
    ensures refused { IfErr result (TellsBound text.now most) }
{
    match module_of(alloc, text, Some(most)) {
        Ok(Some(it)) => Ok(it),
        Ok(None) => Err(BoundFault::Module(fault_of(alloc, text))),
        Err(Refusal::TooLarge { name, .. }) => Err(BoundFault::TooLarge { most, name }),
        Err(_) => Err(BoundFault::Module(ModuleFault::Memory)),
    }
}

/// A text that is no module: the fault, and what `explain` says of it.
#[derive(Debug, Drop, Error)]
#[error("{words}")]
pub struct RefusedText {
    pub fault: ModuleFault,
    pub words: String,
}

/// What `read` answers, and with a fault what `explain` says of it: line, column, the line itself with a mark.
///
/// # Errors
/// With the fault that `read` reports; with `Memory` and no words where it reports that, or an allocation of `explain`
/// failed.
pub fn read_explained(alloc: Global, text: &str) -> Result<Module, RefusedText>
    ensures accepted { IfOk result (λ m. Accepted text.now (types_view m)) }
    ensures uses { IfOk result (λ m. TellsUses text.now m) }
    ensures refused { IfErr result (λ e. TellsRead text.now e.fault) }
{
    match read(alloc, text) {
        Ok(module) => Ok(module),
        Err(fault) => Err(explained(alloc, text, fault)),
    }
}

/// The fault with its words.
fn explained(alloc: Global, text: &str, fault: ModuleFault) -> RefusedText
    ensures { (result.fault ≡ fault) ⊎ (result.fault ≡ ModuleFault.Memory) }
{
    match explain(alloc, text, &fault) {
        Ok(words) => RefusedText { fault, words },
        Err(_) => RefusedText {
            fault: ModuleFault::Memory,
            words: String::new(alloc),
        },
    }
}

impl Module {
    /// The type that the module assigns to a name; None where it assigns none. Takes no memory.
    pub fn type_named(&self, name: &str) -> Option<&Checked>
        ensures { SeenAs (λ t. shape_of t.now) result (type_in (types_view self.now).types name.now) }
    {
        find_type(&self.types, &self.indices, name)
    }

    /// Whether a type of the module refers to this name. None refers to itself, so it is another's. False of a name
    /// that the module does not assign. Takes no memory.
    pub fn is_used(&self, name: &str) -> bool
        ensures { result ≡ says_used self.now name.now }
    {
        self.used.contains_key(name)
    }
}
