//! Reads published texts: their modules, and all that stands in the assignments of these.
ghost use Rattle.std.specs.Prelude.{◌≡◌, ◌<◌, ℕ, length, IfErr, IfOk};
ghost use Rattle.asn_published_text.specs.Modules.{StandIn};
ghost use Rattle.asn_published_read.specs.Faults.{IsOneOf};

use crate::class_reading::{own_classes, take_class};
use crate::module_reading::add_text;
use crate::reading::read_assignment;
use crate::value_sets::{take_class_names, take_value_sets};
use asn_published_text::classes::Classes;
use asn_published_text::modules::World;
use asn_published_text::wrong::{TextFault, Wrong};
use std::alloc::Global;

/// Why texts are not read.
#[derive(Drop)]
pub enum Misread {
    /// A text is none of the notation: which of them, from 0, and what is wrong on which line, from 1.
    Text {
        text: usize,
        line: u32,
        wrong: Wrong,
    },
    /// An allocation failed.
    Memory,
}

impl Misread {
    /// The fault of a text.
    fn of(text: usize, fault: TextFault) -> Misread
        ensures { (texts : ℕ) → text < texts → IsOneOf texts result }
    {
        match fault {
            TextFault::At { line, wrong } => Misread::Text { text, line, wrong },
            TextFault::Memory => Misread::Memory,
        }
    }
}

/// The modules of all texts, with all that is in their assignments read.
///
/// # Errors
/// `Text` where a text is none of the notation, with its index from 0, the line from 1, and what is wrong there;
/// `Memory` where an allocation failed.
pub fn read_texts<'t>(alloc: Global, texts: &[&'t str]) -> Result<World<'t>, Misread>
    ensures files { IfOk result (λ world. length world.files.items ≡ length texts.now) }
    ensures modules { IfOk result (λ world. StandIn (length texts.now) world.modules.items) }
    ensures fault { IfErr result (λ why. IsOneOf (length texts.now) why) }
{
    if texts.is_empty() {
        return Ok(World::new(alloc));
    }
    let mut world = modules_of(alloc, texts)?;
    take_class_names(&mut world);
    take_value_sets(&mut world);
    let classes = classes_of(alloc, &world)?;
    world.take_classes(classes);
    read_all(alloc, &world)?;
    Ok(world)
}

/// The modules of all texts, with nothing read but where each assignment begins and ends.
fn modules_of<'t>(alloc: Global, texts: &[&'t str]) -> Result<World<'t>, Misread>
    ensures files { IfOk result (λ world. length world.files.items ≡ length texts.now) }
    ensures modules { IfOk result (λ world. StandIn (length texts.now) world.modules.items) }
    ensures fault { IfErr result (λ why. IsOneOf (length texts.now) why) }
{
    let mut world = World::new(alloc);
    for (text, it) in texts.iter().enumerate() {
        match add_text(alloc, &mut world, *it) {
            Ok(()) => {}
            Err(fault) => return Err(Misread::of(text, fault)),
        }
    }
    Ok(world)
}

/// The classes that are defined, by X.681 and by the assignments.
fn classes_of<'t>(alloc: Global, world: &World<'t>) -> Result<Classes<'t>, Misread>
    ensures fault { IfErr result (λ why. (texts : ℕ) → 0 < texts → StandIn texts world.now.modules.items
        → IsOneOf texts why) }
{
    let mut classes = match own_classes(alloc) {
        Ok(classes) => classes,
        Err(fault) => return Err(Misread::of(0, fault)),
    };
    for index in 0..world.assignments.len() {
        match take_class(alloc, &mut classes, world, index) {
            Ok(()) => {}
            Err(fault) => return Err(fault_in(world, index, fault)),
        }
    }
    Ok(classes)
}

/// Reads all that stands in the assignments.
fn read_all(alloc: Global, world: &World<'_>) -> Result<(), Misread>
    ensures fault { IfErr result (λ why. (texts : ℕ) → 0 < texts → StandIn texts world.now.modules.items
        → IsOneOf texts why) }
{
    for index in 0..world.assignments.len() {
        match read_assignment(alloc, world, index) {
            Ok(()) => {}
            Err(fault) => return Err(fault_in(world, index, fault)),
        }
    }
    Ok(())
}

/// The fault of the text that has an assignment.
fn fault_in(world: &World<'_>, assignment: usize, fault: TextFault) -> Misread
    ensures { (texts : ℕ) → 0 < texts → StandIn texts world.now.modules.items → IsOneOf texts result }
{
    Misread::of(world.text_of(assignment), fault)
}
