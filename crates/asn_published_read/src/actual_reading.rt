//! Reads the parameters of parameterized assignments, and what references give for them (X.683).
use crate::brackets::past_comma;
use crate::reading::{Reading, Work};
use crate::value_kinds::values_at;
use crate::value_sets::leads_to_type;
use asn_published_text::modules::World;
use asn_published_text::token::{Kind, Sign};
use asn_published_text::tokens::{Tokens, next};
use asn_published_text::values::Values;
use asn_published_text::wrong::TextFault;

/// How many lexical items of a parameter are looked at.
const MOST_ITEMS: u32 = 200;

/// A parameter of an assignment: the module, what governs it from one index to before another, where anything does, and
/// whether its name begins with a capital.
#[derive(Clone, Copy)]
struct Formal {
    module: usize,
    governor: Option<(usize, usize)>,
    is_capital: bool,
}

/// The parameter at `at`, which ends before `end` at the latest, and the index after its comma; `None` where there is
/// none, or it has too many lexical items.
fn formal_at(tokens: &Tokens<'_>, module: usize, at: usize, end: usize) -> Option<(Formal, usize)> {
    let mut behind = at;
    let mut name = at;
    for _ in 0..MOST_ITEMS {
        if behind >= end || tokens.is(behind, Sign::Comma) {
            break;
        }
        name = behind;
        behind = tokens.after(behind);
    }
    if at >= end || behind < end && !tokens.is(behind, Sign::Comma) {
        return None;
    }
    let colon = name.saturating_sub(1);
    let governor = if colon > at && tokens.is(colon, Sign::Colon) {
        Some((at, colon))
    } else {
        None
    };
    let formal = Formal {
        module,
        governor,
        is_capital: tokens.is_capital(name),
    };
    Some((formal, next(behind)))
}

/// The `{` of the parameters of what the name at `at` of a module stands for, and their module.
fn parameters_of(world: &World<'_>, module: usize, at: usize) -> Option<(usize, usize)> {
    match world.reference_at(module, at) {
        Ok((to, _)) => {
            let found = world.assignment(to)?;
            Some((found.module, found.parameters?))
        }
        Err(_) => None,
    }
}

/// A place among the parameters of an assignment: their module, the index of the next one, and that of their `}`.
#[derive(Clone, Copy)]
struct Place {
    module: usize,
    at: usize,
    end: usize,
}

impl<'a, 't> Reading<'a, 't> {
    /// Reads the parameters of an assignment, in the braces at `braces`: names, each after what governs it.
    pub(crate) fn read_formal(&self, todo: &mut Vec<Work>, braces: usize) -> Result<(), TextFault> {
        let tokens = self.tokens;
        let end = tokens.other(braces);
        let mut at = next(braces);
        for _ in 0..tokens.len() {
            let is_alone = tokens.is(next(at), Sign::Comma) || next(at) == end;
            if !is_alone {
                let colon = self.push_type(todo, at)?;
                at = tokens.past(colon, Sign::Colon, ": and the name of a parameter")?;
            }
            if !tokens.is_kind(at, Kind::Word) {
                return Err(tokens.expected(at, "the name of a parameter"));
            }
            at = next(at);
            if at >= end {
                break;
            }
            at = past_comma(tokens, at)?;
        }
        Ok(())
    }

    /// Reads what the reference at `at` gives for the parameters of what it stands for, in the braces at `braces`.
    pub(crate) fn read_actual(
        &self,
        todo: &mut Vec<Work>,
        at: usize,
        braces: usize,
    ) -> Result<(), TextFault> {
        let tokens = self.tokens;
        let end = tokens.other(braces);
        let mut formal = self.first_place(at);
        let mut at = next(braces);
        for _ in 0..tokens.len() {
            let asked = self.next_formal(&mut formal);
            at = match asked {
                Some(asked) => self.read_for(todo, asked, at)?,
                None => self.read_any_setting(todo, at)?,
            };
            if at >= end {
                break;
            }
            at = past_comma(tokens, at)?;
        }
        Ok(())
    }

    /// The place of the first parameter of what the name at `at` stands for.
    fn first_place(&self, at: usize) -> Option<Place> {
        let (module, braces) = parameters_of(self.world, self.module, at)?;
        let tokens = self.world.tokens_of(module)?;
        Some(Place {
            module,
            at: next(braces),
            end: tokens.other(braces),
        })
    }

    /// The parameter at a place, which becomes that of the next one.
    fn next_formal(&self, place: &mut Option<Place>) -> Option<Formal> {
        let it = (*place)?;
        let tokens = self.world.tokens_of(it.module)?;
        match formal_at(tokens, it.module, it.at, it.end) {
            Some((formal, behind)) => {
                *place = Some(Place { at: behind, ..it });
                Some(formal)
            }
            None => {
                *place = None;
                None
            }
        }
    }

    /// Reads what is given at `at` for a parameter, and gives the index after it.
    fn read_for(
        &self,
        todo: &mut Vec<Work>,
        formal: Formal,
        at: usize,
    ) -> Result<usize, TextFault> {
        let is_braces = self.tokens.is(at, Sign::LeftBrace);
        match formal.governor {
            // a type, or a class
            None if formal.is_capital => self.push_type(todo, at),
            None => self.read_any_setting(todo, at),
            Some((start, end)) if !formal.is_capital => {
                self.read_governed(todo, (formal.module, start, end), at)
            }
            Some((start, end)) if is_braces => {
                let work = self.set_of((formal.module, start, end), at);
                self.push(todo, work)?;
                Ok(self.tokens.after(at))
            }
            Some(_) => self.push_type(todo, at),
        }
    }

    /// Reads the value or the object at `at` of what governs it, which stands in a module from one index to before
    /// another, and gives the index after it.
    pub(crate) fn read_governed(
        &self,
        todo: &mut Vec<Work>,
        governor: (usize, usize, usize),
        at: usize,
    ) -> Result<usize, TextFault> {
        let (module, start, end) = governor;
        let class = self.world.class_named(module, start, end);
        let is_type = class.is_none() && leads_to_type(self.world, module, start);
        if self.tokens.is(at, Sign::LeftBrace) && !is_type {
            let work = match class {
                Some(class) => self.object_of(class, at),
                None => Work::Any { braces: at },
            };
            self.push(todo, work)?;
            return Ok(self.tokens.after(at));
        }
        let values = if is_type {
            values_at(self.world, module, start, self.is_plain)
        } else {
            Values::Any
        };
        self.read_value(todo, at, values)
    }

    /// The set in the braces at `braces` of what governs it: of values, of objects, or not known of which.
    pub(crate) fn set_of(&self, governor: (usize, usize, usize), braces: usize) -> Work {
        let (module, start, end) = governor;
        match self.world.class_named(module, start, end) {
            Some(class) => self.objects_of(class, braces),
            None if leads_to_type(self.world, module, start) => Work::Elements { open: braces },
            None => Work::Any { braces },
        }
    }
}
