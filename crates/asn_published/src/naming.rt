//! The names of the types in the profile: a name of two modules gets its module's name in front, and an instance of a
//! parameterized assignment a number after.
use asn_published_text::modules::{Assignment, What, World};
use asn_published_types::instances::Instances;
use std::alloc::{AllocError, Global};
use std::collections::HashMap;

/// How many names are tried.
const MOST_TRIES: u32 = 30000;

/// How often each name is assigned a type.
fn counts_of<'t>(alloc: Global, world: &World<'t>) -> Result<HashMap<&'t str, u32>, AllocError> {
    let mut counts: HashMap<&'t str, u32> = HashMap::new(alloc);
    for assignment in &world.assignments {
        if assignment.what == What::Type {
            let before = match counts.get(assignment.name) {
                Some(count) => *count,
                None => 0,
            };
            counts.insert(assignment.name, before.saturating_add(1))?;
        }
    }
    Ok(counts)
}

/// The name of an assignment of a module, with the module's name in front where the name is shared.
fn own_name(
    alloc: Global,
    module: &str,
    name: &str,
    is_shared: bool,
) -> Result<String, AllocError> {
    if is_shared {
        format!(in alloc; "{module}-{name}")
    } else {
        String::from_str(alloc, name)
    }
}

/// The name with the first number after it, from `first` on, that makes it one which is not taken.
fn numbered(
    alloc: Global,
    taken: &HashMap<String, ()>,
    name: &str,
    first: u32,
) -> Result<(String, u32), AllocError> {
    let mut number = first;
    let mut text = format!(in alloc; "{name}-{number}")?;
    for _ in 0..MOST_TRIES {
        if !taken.contains_key(text.as_str()) {
            break;
        }
        number = number.saturating_add(1);
        text = format!(in alloc; "{name}-{number}")?;
    }
    Ok((text, number))
}

/// Adds a name, which is taken from now on.
fn add(
    names: &mut Vec<String>,
    taken: &mut HashMap<String, ()>,
    name: String,
) -> Result<(), AllocError> {
    taken.insert(name.clone()?, ())?;
    names.push(name)?;
    Ok(())
}

/// Adds the name of an assignment, where `is_shared` says that other assignments have it too.
fn name_assignment(
    alloc: Global,
    world: &World<'_>,
    names: &mut Vec<String>,
    taken: &mut HashMap<String, ()>,
    assignment: &Assignment<'_>,
    is_shared: bool,
) -> Result<(), AllocError> {
    let module = match world.modules.get(assignment.module) {
        Some(module) => module.name,
        None => "",
    };
    let mut name = own_name(alloc, module, assignment.name, is_shared)?;
    if is_shared && taken.contains_key(name.as_str()) {
        (name, _) = numbered(alloc, taken, name.as_str(), 2)?;
    }
    if assignment.what == What::Type {
        add(names, taken, name)
    } else {
        Ok(names.push(name)?)
    }
}

/// Takes the names that one assignment alone has, so that no other type gets one of them.
fn take_own_names(
    alloc: Global,
    world: &World<'_>,
    taken: &mut HashMap<String, ()>,
    counts: &HashMap<&str, u32>,
) -> Result<(), AllocError> {
    for assignment in &world.assignments {
        if counts.get(assignment.name) == Some(&1) {
            let name = String::from_str(alloc, assignment.name)?;
            taken.insert(name, ())?;
        }
    }
    Ok(())
}

/// Adds the names of all assignments.
fn name_assignments(
    alloc: Global,
    world: &World<'_>,
    names: &mut Vec<String>,
    taken: &mut HashMap<String, ()>,
) -> Result<(), AllocError> {
    let counts = counts_of(alloc, world)?;
    take_own_names(alloc, world, taken, &counts)?;
    for assignment in &world.assignments {
        let is_shared = match counts.get(assignment.name) {
            Some(count) => *count > 1,
            None => false,
        };
        name_assignment(alloc, world, names, taken, assignment, is_shared)?;
    }
    Ok(())
}

/// The name at an index.
fn name_at<'a>(names: &'a [String], index: usize) -> &'a str {
    match names.get(index) {
        Some(name) => name.as_str(),
        None => "",
    }
}

/// Adds the names of all instances: that of the assignment with a number after it.
fn name_instances(
    alloc: Global,
    instances: &Instances,
    names: &mut Vec<String>,
    taken: &mut HashMap<String, ()>,
) -> Result<(), AllocError> {
    let mut last: HashMap<usize, u32> = HashMap::new(alloc);
    for instance in &instances.all {
        let before = match last.get(&instance.assignment) {
            Some(number) => *number,
            None => 0,
        };
        let base = name_at(names.as_slice(), instance.assignment);
        let (name, number) = numbered(alloc, taken, base, before.saturating_add(1))?;
        last.insert(instance.assignment, number)?;
        add(names, taken, name)?;
    }
    Ok(())
}

/// Of each assignment and then of each instance the name in the profile.
pub(crate) fn names_of(
    alloc: Global,
    world: &World<'_>,
    instances: &Instances,
) -> Result<Vec<String>, AllocError> {
    let mut names = Vec::new(alloc);
    let mut taken = HashMap::new(alloc);
    name_assignments(alloc, world, &mut names, &mut taken)?;
    name_instances(alloc, instances, &mut names, &mut taken)?;
    Ok(names)
}

/// What is read of a part of a name, between hyphens: letters of the word `level`, and then digits.
#[derive(Clone, Copy)]
struct Part {
    letters: usize,
    digits: usize,
    /// The number that the digits are.
    number: u32,
    has_others: bool,
}

/// A part without characters.
fn empty_part() -> Part {
    Part {
        letters: 0,
        digits: 0,
        number: 0,
        has_others: false,
    }
}

/// The part with a character more.
fn longer_part(part: Part, byte: u8) -> Part {
    let mut longer = part;
    let is_letter = match b"level".get(part.letters) {
        Some(letter) => *letter == byte,
        None => false,
    };
    if byte.is_ascii_digit() {
        let digit = u32::from(byte).saturating_sub(48);
        longer.number = part.number.saturating_mul(10).saturating_add(digit);
        longer.digits = part.digits.saturating_add(1);
    } else if is_letter && part.digits == 0 {
        longer.letters = part.letters.saturating_add(1);
    } else {
        longer.has_others = true;
    }
    longer
}

/// The number in what stands between the name of a type and the number of its level, which a name ends with: 1 of
/// `T-level-3`, 2 of `T-level2-3`; `None` where it has none.
fn number_of_mark(name: &str) -> Option<u32> {
    let mut mark = empty_part();
    let mut last = empty_part();
    for byte in name.as_bytes() {
        if *byte == b'-' {
            mark = last;
            last = empty_part();
        } else {
            last = longer_part(last, *byte);
        }
    }
    let is_level = last.letters == 0 && last.digits > 0 && !last.has_others;
    if !is_level || mark.letters != 5 || mark.has_others {
        None
    } else if mark.digits == 0 {
        Some(1)
    } else {
        Some(mark.number)
    }
}

/// What stands between the name of a type and the number of its level, so that no type has such a name: `-level-`, or
/// that with a number.
pub(crate) fn level_mark_of(alloc: Global, names: &[String]) -> Result<String, AllocError> {
    let mut taken: HashMap<u32, ()> = HashMap::new(alloc);
    for name in names {
        if let Some(number) = number_of_mark(name.as_str()) {
            let _before = taken.insert(number, ())?;
        }
    }
    let mut number = 1u32;
    for _ in 0..names.len() {
        if !taken.contains_key(&number) {
            break;
        }
        number = number.saturating_add(1);
    }
    if number == 1 {
        String::from_str(alloc, "-level-")
    } else {
        format!(in alloc; "-level{number}-")
    }
}
