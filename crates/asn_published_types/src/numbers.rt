//! The numbers that values stand for.
use crate::info::State;
use crate::instances::Instances;
use crate::named_numbers::{named_number_of, place_of_named};
use crate::objects::{given_by, object_field_at};
use crate::ranges::Ranges;
use asn_published_text::modules::{What, World};
use asn_published_text::refusal::{Refusal, Why, refused};
use asn_published_text::token::{Kind, Sign};
use asn_published_text::tokens::{Tokens, next};
use asn_published_text::value_steps::after_signed_number;
use std::alloc::Global;

/// The number that digits write, up to 30 of them.
fn number_of(digits: &str) -> Option<i128> {
    if digits.len() > 30 {
        return None;
    }
    match digits.parse::<i128>() {
        Ok(number) => Some(number),
        Err(_) => None,
    }
}

/// The number that is written at `at`, with or without a minus, and the index after it.
fn written_number(tokens: &Tokens<'_>, at: usize) -> Option<(i128, usize)> {
    let behind = after_signed_number(tokens, at)?;
    if tokens.is(at, Sign::Minus) {
        let number = number_of(tokens.text(next(at)))?;
        Some((number.checked_neg()?, behind))
    } else {
        Some((number_of(tokens.text(at))?, behind))
    }
}

/// What is known of the number of a value assignment.
#[derive(Clone, Copy)]
enum Known {
    NotYet,
    /// Being followed: met again, it leads to itself.
    Followed,
    Number(i128),
    None,
}

/// Where a value leads.
#[derive(Clone, Copy)]
enum Lead {
    Number(i128),
    To(usize),
    None,
}

/// Where the value at `at` leads, to a number or to another value, and the index after it; of a field of an object
/// where what it gives leads.
fn lead_at(world: &World<'_>, module: usize, at: usize) -> Option<(Lead, usize)> {
    let tokens = world.tokens_of(module)?;
    let Some(field) = object_field_at(tokens, at) else {
        return plain_lead_at(world, module, at);
    };
    match given_by(world, module, tokens.text(at), tokens.text(field)) {
        Ok(given) => match plain_lead_at(world, given.module, given.start) {
            Some((lead, end)) if end == given.end => Some((lead, next(field))),
            _ => None,
        },
        Err(_why) => None,
    }
}

/// Where the value at `at` leads that is no field of an object, and the index after it.
fn plain_lead_at(world: &World<'_>, module: usize, at: usize) -> Option<(Lead, usize)> {
    let tokens = world.tokens_of(module)?;
    if let Some((number, end)) = written_number(tokens, at) {
        return Some((Lead::Number(number), end));
    }
    match world.reference_at(module, at) {
        Ok((to, end)) => Some((Lead::To(to), end)),
        Err(_) => None,
    }
}

/// Where the value of an assignment leads. A named number of its type counts before all other names.
fn lead_of(world: &World<'_>, index: usize) -> Lead {
    let Some(assignment) = world.assignment(index) else {
        return Lead::None;
    };
    if assignment.what != What::Value || assignment.parameters.is_some() {
        return Lead::None;
    }
    if let Some((module, at)) = named_number_of(world, assignment) {
        return match lead_at(world, module, at) {
            Some((lead, _)) => lead,
            None => Lead::None,
        };
    }
    match lead_at(world, assignment.module, assignment.start) {
        Some((lead, end)) if end == assignment.end => lead,
        _ => Lead::None,
    }
}

/// Gives all of these the same.
fn settle(known: &mut Vec<Known>, followed: &[usize], as_known: Known) {
    for index in followed {
        if let Some(place) = known.get_mut(*index) {
            *place = as_known;
        }
    }
}

/// Follows the value of an assignment to its number, and settles all that it leads to on the way.
fn follow(
    alloc: Global,
    world: &World<'_>,
    known: &mut Vec<Known>,
    start: usize,
) -> Result<(), Refusal> {
    let mut followed = Vec::new(alloc);
    let mut at = start;
    for _ in 0..u64::MAX {
        match known.get(at) {
            Some(Known::NotYet) => {}
            Some(Known::Number(number)) => {
                let found = Known::Number(*number);
                settle(known, followed.as_slice(), found);
                return Ok(());
            }
            _ => break,
        }
        if let Some(place) = known.get_mut(at) {
            *place = Known::Followed;
        }
        followed.push(at)?;
        match lead_of(world, at) {
            Lead::Number(number) => {
                settle(known, followed.as_slice(), Known::Number(number));
                return Ok(());
            }
            Lead::To(to) => at = to,
            Lead::None => break,
        }
    }
    settle(known, followed.as_slice(), Known::None);
    Ok(())
}

/// Of each assignment the number that it assigns.
pub fn numbers_of(alloc: Global, world: &World<'_>) -> Result<Vec<Option<i128>>, Refusal> {
    let mut known = vec![in alloc; Known::NotYet; world.assignments.len()]?;
    for index in 0..world.assignments.len() {
        follow(alloc, world, &mut known, index)?;
    }
    let mut numbers = Vec::new(alloc);
    for one in &known {
        numbers.push(match one {
            Known::Number(number) => Some(*number),
            _ => None,
        })?;
    }
    Ok(numbers)
}

/// The number written or referred to at `at` of a module, or given by an object for a field, and the index after it;
/// `numbers` has those of assignments.
pub(crate) fn number_in(
    world: &World<'_>,
    numbers: &[Option<i128>],
    module: usize,
    at: usize,
) -> Option<(i128, usize)> {
    let tokens = world.tokens_of(module)?;
    let Some(field) = object_field_at(tokens, at) else {
        return plain_number_in(world, numbers, module, at);
    };
    match given_by(world, module, tokens.text(at), tokens.text(field)) {
        Ok(given) => match plain_number_in(world, numbers, given.module, given.start) {
            Some((number, end)) if end == given.end => Some((number, next(field))),
            _ => None,
        },
        Err(_why) => None,
    }
}

/// The number written or referred to at `at` of a module, and the index after it.
fn plain_number_in(
    world: &World<'_>,
    numbers: &[Option<i128>],
    module: usize,
    at: usize,
) -> Option<(i128, usize)> {
    let tokens = world.tokens_of(module)?;
    if let Some(found) = written_number(tokens, at) {
        return Some(found);
    }
    match world.reference_at(module, at) {
        Ok((to, end)) => match numbers.get(to) {
            Some(Some(number)) => Some((*number, end)),
            _ => None,
        },
        Err(_) => None,
    }
}

/// Where a value is: the module, and the names that count there before all others.
#[derive(Clone, Copy)]
pub struct Scope {
    pub module: usize,
    /// The module and the `{` of named numbers.
    pub named: Option<(usize, usize)>,
    /// The instance whose parameters are known there.
    pub instance: Option<usize>,
    /// What MIN and MAX mean there, where that is known.
    pub least: Option<i128>,
    pub most: Option<i128>,
}

impl Scope {
    /// The place after constraints that leave these numbers or lengths.
    pub fn after(self, left: &Option<Ranges>) -> Scope {
        let hull = match left {
            Some(ranges) => ranges.hull(),
            None => None,
        };
        match hull {
            Some(hull) => Scope {
                least: hull.low,
                most: hull.high,
                ..self
            },
            None => self,
        }
    }

    /// The place inside a permitted alphabet: which characters come first and last is not known.
    pub(crate) fn of_letters(self) -> Scope {
        Scope {
            least: None,
            most: None,
            ..self
        }
    }

    /// The place inside a size: no length is below 0.
    pub(crate) fn of_sizes(self) -> Scope {
        Scope {
            least: match self.least {
                Some(least) => Some(least.max(0)),
                None => Some(0),
            },
            ..self
        }
    }
}

/// How many value assignments are followed to a word.
const MOST_LEADS: u32 = 32;

/// The values of all assignments that are numbers, the modules that they are in, what parameters mean, and what
/// is known of the types that are written.
#[derive(Clone, Copy)]
pub struct Values<'a, 't> {
    pub world: &'a World<'t>,
    pub numbers: &'a [Option<i128>],
    pub instances: &'a Instances,
    pub states: &'a [State],
}

impl<'a, 't> Values<'a, 't> {
    /// The number of a named one, where `{` of the named ones is at `braces` of the module; `None` where none has
    /// the name. A fault where there are too many of them.
    pub(crate) fn named(
        &self,
        module: usize,
        braces: usize,
        name: &str,
    ) -> Result<Option<i128>, Why> {
        let Some(tokens) = self.world.tokens_of(module) else {
            return Err(Why::Value);
        };
        let Some(place) = place_of_named(tokens, braces, name)? else {
            return Ok(None);
        };
        match self.plain_number(module, place) {
            Some((number, _)) => Ok(Some(number)),
            None => Err(Why::Value),
        }
    }

    /// The lexical items among which values stand.
    pub(crate) fn tokens_in(&self, scope: Scope) -> Result<&'a Tokens<'t>, Refusal> {
        match self.world.tokens_of(scope.module) {
            Some(tokens) => Ok(tokens),
            None => Err(refused(0, Why::Constraint)),
        }
    }

    /// The number written or referred to at `at`, where no names count before all others, and the index after it.
    fn plain_number(&self, module: usize, at: usize) -> Option<(i128, usize)> {
        number_in(self.world, self.numbers, module, at)
    }

    /// The number given as an actual parameter; `None` where the name is none.
    fn parameter(&self, scope: Scope, name: &str) -> Result<Option<i128>, Why> {
        let mut module = scope.module;
        let mut at = None;
        let mut name = name;
        let mut instance = scope.instance;
        for _ in 0..self.instances.all.len() {
            let Some(inside) = instance else {
                break;
            };
            let Some(actual) = self.instances.actual(self.world, inside, name)? else {
                break;
            };
            module = actual.module;
            at = Some(actual.start);
            instance = actual.outer;
            name = match self.world.tokens_of(module) {
                Some(tokens) => tokens.text(actual.start),
                None => "",
            };
        }
        match at {
            None => Ok(None),
            Some(at) => match self.plain_number(module, at) {
                Some((number, _)) => Ok(Some(number)),
                None => Err(Why::Parameter),
            },
        }
    }

    /// The number at `at`, and the index after it. A named number counts before a parameter, and that before other
    /// names.
    pub fn number_at(&self, scope: Scope, at: usize) -> Result<(i128, usize), Refusal> {
        let Some(tokens) = self.world.tokens_of(scope.module) else {
            return Err(refused(0, Why::Value));
        };
        if let Some(found) = written_number(tokens, at) {
            return Ok(found);
        }
        let line = tokens.line(at);
        if tokens.is(at, Sign::Minus) {
            // (0 stands after it, or no number)
            return Err(refused(line, Why::Value));
        }
        let name = tokens.text(at);
        if let Some((module, braces)) = scope.named {
            match self.named(module, braces, name) {
                Ok(Some(number)) => return Ok((number, next(at))),
                Ok(None) => {}
                Err(why) => return Err(refused(line, why)),
            }
        }
        match self.parameter(scope, name) {
            Ok(Some(number)) => return Ok((number, next(at))),
            Ok(None) => {}
            Err(why) => return Err(refused(line, why)),
        }
        match self.plain_number(scope.module, at) {
            Some(found) => Ok(found),
            None => Err(refused(line, self.why_no_number(scope.module, at))),
        }
    }

    /// The word to which the value at `at` leads, along value assignments.
    pub fn last_word(&self, scope: Scope, at: usize) -> &'t str {
        let mut module = scope.module;
        let mut at = at;
        for _ in 0..MOST_LEADS {
            let Ok((to, _)) = self.world.reference_at(module, at) else {
                break;
            };
            let Some(assignment) = self.world.assignment(to) else {
                break;
            };
            if assignment.what != What::Value || assignment.parameters.is_some() {
                break;
            }
            module = assignment.module;
            at = assignment.start;
        }
        match self.world.tokens_of(module) {
            Some(tokens) => tokens.text(at),
            None => "",
        }
    }

    /// Why no number stands at `at`: one of too many digits, or what a name stands for.
    fn why_no_number(&self, module: usize, at: usize) -> Why {
        let is_number = match self.world.tokens_of(module) {
            Some(tokens) => tokens.is_kind(at, Kind::Number) || tokens.is(at, Sign::Minus),
            None => false,
        };
        match self.world.reference_at(module, at) {
            _ if is_number => Why::Bounds,
            Ok(_) => Why::Value,
            Err(why) => why,
        }
    }
}
