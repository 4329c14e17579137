//! The types as they are written, and what became of each.
use crate::known::{Known, Own, Types};
use crate::levels::{cycle_end, level_line, name_of};
use crate::settling::{Settled, assignment_of, outcome_of, settle_type};
use crate::sources::Sources;
use crate::totals::Totals;
use crate::writer::Spent;
use asn_published_text::options::Options;
use asn_published_text::refusal::Why;
use asn_published_types::info::State;
use asn_published_types::numbers::Values;
use asn_published_types::report::{Note, Remark, Status, TypeReport};
use asn_published_types::steps::Marked;
use asn_published_types::subtypes::Work;
use std::alloc::{AllocError, Global};
use std::mem;

/// The types as they are written, and what became of each.
#[derive(Drop)]
pub struct Written {
    pub states: Vec<State>,
    pub lines: Vec<Option<String>>,
    /// The assignments of types of cycles with fewer levels than are asked for.
    pub levels: Vec<String>,
    /// The type that is wanted alone, with those that it refers to written out in it, and behind it those that octets contain
    /// then; nothing where all types are written.
    pub alone: Vec<Alone>,
    pub reports: Vec<Option<TypeReport>>,
    /// The types that are written, those with fewer levels too, and which of them each type is.
    pub marked: Vec<Marked>,
    pub places: Vec<usize>,
}

/// A type and its text, in which those that it refers to are written out.
#[derive(Drop)]
pub struct Alone {
    pub entry: usize,
    pub text: String,
}

/// How many levels of a recursive type are written at the most.
const MOST_LEVELS: u32 = 32;

/// How many levels a recursive type has that is in the module by its own name.
pub fn whole_level(options: Options) -> u32 {
    options.levels.min(MOST_LEVELS)
}

/// Nothing is written yet of `count` types.
fn nothing_written(alloc: Global, count: usize) -> Result<Written, AllocError> {
    let mut written = Written {
        states: Vec::new(alloc),
        lines: Vec::new(alloc),
        levels: Vec::new(alloc),
        alone: Vec::new(alloc),
        reports: Vec::new(alloc),
        marked: Vec::new(alloc),
        places: Vec::new(alloc),
    };
    for _ in 0..count {
        written.states.push(State::Open)?;
        written.lines.push(None)?;
        written.reports.push(None)?;
        written.places.push(0)?;
    }
    Ok(written)
}

/// Puts a value at an index, where there is one.
pub fn put<T: Drop>(places: &mut Vec<T>, index: usize, value: T) {
    if let Some(place) = places.get_mut(index) {
        *place = value;
    }
}

/// Writes types, in order.
#[derive(Drop)]
struct Writing {
    written: Written,
    /// The types of the cycle that is written with a level less, and those of the level that is written.
    below: Vec<State>,
    beside: Vec<State>,
    /// Of each type why it is refused with fewer levels, where it is by its own fault.
    refusals: Vec<Option<Note>>,
    /// What was counted of the types that are written.
    spent: Spent,
    totals: Totals,
    /// Of each type the status that it has where octets contain it.
    statuses: Vec<Status>,
}

/// What became of a type, and its index among those that are written.
#[derive(Drop)]
struct Finished {
    state: State,
    line: Option<String>,
    status: Status,
    notes: Vec<Note>,
    uses: Vec<usize>,
    place: usize,
}

/// The line of an assignment.
fn line_of(sources: &Sources<'_>, assignment: usize) -> u32 {
    match sources.world.assignment(assignment) {
        Some(it) => it.line,
        None => 0,
    }
}

/// What is known when a type of a level is written.
fn known_of<'a, 't>(
    sources: &'a Sources<'t>,
    options: Options,
    writing: &'a Writing,
    entry: usize,
    level: u32,
    is_whole: bool,
) -> Known<'a, 't> {
    let assignment = assignment_of(sources, entry);
    Known {
        values: Values {
            world: &sources.world,
            numbers: sources.numbers.as_slice(),
            instances: &sources.forest.instances,
            states: writing.written.states.as_slice(),
        },
        forest: &sources.forest,
        options,
        types: Types {
            firsts: sources.firsts.as_slice(),
            names: sources.names.as_slice(),
            level_mark: sources.level_mark.as_str(),
            order: &sources.order,
            statuses: writing.statuses.as_slice(),
        },
        own: Own {
            entry,
            file: sources.world.text_of(assignment),
            line: line_of(sources, assignment),
            level,
            below: writing.below.as_slice(),
            beside: if is_whole {
                writing.written.states.as_slice()
            } else {
                writing.beside.as_slice()
            },
        },
    }
}

impl Writing {
    /// Writes a type with a level of recursion, and gives what became of it.
    fn write(
        &mut self,
        alloc: Global,
        sources: &Sources<'_>,
        options: Options,
        entry: usize,
        level: u32,
        is_whole: bool,
        is_refused: bool,
    ) -> Result<Option<Finished>, AllocError> {
        let Some(Some(first)) = sources.firsts.get(entry) else {
            return Ok(None);
        };
        let known = known_of(&*sources, options, &*self, entry, level, is_whole);
        let (file, own_line) = (known.own.file, known.own.line);
        let outcome = outcome_of(alloc, &known, *first, is_refused, self.spent)?;
        let place = self.written.marked.len();
        let settled = settle_type(alloc, sources, file, own_line, outcome, place)?;
        self.spent = settled.spent;
        let name = name_of(alloc, sources, entry, level, is_whole)?;
        let Settled {
            state,
            line,
            status,
            notes,
            uses,
            spent: _,
            trail,
        } = self
            .totals
            .taken(alloc, name, own_line, settled, sources.names.as_slice())?;
        let marked = trail.finish(alloc, self.written.marked.as_slice());
        self.written.marked.push(marked)?;
        Ok(Some(Finished {
            state,
            line,
            status,
            notes,
            uses,
            place,
        }))
    }

    /// Writes a type as it stands in the module.
    fn write_whole(
        &mut self,
        alloc: Global,
        sources: &Sources<'_>,
        options: Options,
        entry: usize,
        is_refused: bool,
    ) -> Result<(), AllocError> {
        let level = whole_level(options);
        let Some(one) = self.write(alloc, sources, options, entry, level, true, is_refused)? else {
            return Ok(());
        };
        let Finished {
            state,
            line,
            status,
            mut notes,
            uses,
            place,
        } = one;
        self.take_refusal(entry, &mut notes)?;
        let assignment = assignment_of(sources, entry);
        put(&mut self.written.states, entry, state);
        put(&mut self.written.lines, entry, line);
        put(&mut self.written.places, entry, place);
        let report = TypeReport {
            name: match sources.names.get(entry) {
                Some(name) => name.clone()?,
                None => String::new(alloc),
            },
            text: sources.world.text_of(assignment),
            line: line_of(sources, assignment),
            status,
            notes,
            uses,
        };
        put(&mut self.written.reports, entry, Some(report));
        Ok(())
    }

    /// Takes into the notes on a type why it is refused with fewer levels, where they only say that it holds such a type.
    fn take_refusal(&mut self, entry: usize, notes: &mut Vec<Note>) -> Result<(), AllocError> {
        let is_holder = match notes.last() {
            Some(note) => matches!(note.remark, Remark::Refused(Why::Holds)),
            None => false,
        };
        if is_holder {
            if let Some(place) = self.refusals.get_mut(entry) {
                if let Some(note) = mem::replace(place, None) {
                    notes.push(note)?;
                }
            }
        }
        Ok(())
    }

    /// Writes a type of a cycle with fewer levels than are asked for.
    fn write_level(
        &mut self,
        alloc: Global,
        sources: &Sources<'_>,
        options: Options,
        entry: usize,
        level: u32,
        is_refused: bool,
    ) -> Result<(State, String), AllocError> {
        let nothing = String::new(alloc);
        let Some(one) = self.write(alloc, sources, options, entry, level, false, is_refused)? else {
            return Ok((State::Open, nothing));
        };
        let Some(name) = sources.names.get(entry) else {
            return Ok((State::Open, nothing));
        };
        let Finished {
            state,
            line,
            mut notes,
            ..
        } = one;
        if let Some(note) = notes.pop() {
            if is_own_refusal(note.remark) {
                put(&mut self.refusals, entry, Some(note));
            }
        }
        match line {
            Some(line) => {
                let mark = sources.level_mark.as_str();
                let assignment = level_line(alloc, name.as_str(), mark, level, line.as_str())?;
                Ok((state, assignment))
            }
            None => Ok((state, nothing)),
        }
    }

    /// Writes the types of a cycle, from one level to those below the ones that are asked for.
    fn write_levels(
        &mut self,
        alloc: Global,
        sources: &Sources<'_>,
        options: Options,
        members: &[usize],
        refused: &[bool],
    ) -> Result<(), AllocError> {
        for level in 1..whole_level(options) {
            for entry in members {
                let is_refused = matches!(refused.get(*entry), Some(true));
                let (state, line) = self.write_level(
                    alloc, sources, options, *entry, level, is_refused,
                )?;
                put(&mut self.beside, *entry, state);
                self.written.levels.push(line)?;
            }
            for entry in members {
                if let Some(place) = self.beside.get_mut(*entry) {
                    let state = mem::replace(place, State::Open);
                    put(&mut self.below, *entry, state);
                }
            }
        }
        Ok(())
    }

    /// Writes the types of a cycle, or one that is in none.
    fn write_members(
        &mut self,
        alloc: Global,
        sources: &Sources<'_>,
        options: Options,
        members: &[usize],
        refused: &[bool],
    ) -> Result<(), AllocError> {
        if let Some(first) = members.first() {
            if matches!(sources.order.cycles.get(*first), Some(Some(_))) {
                self.write_levels(alloc, sources, options, members, refused)?;
            }
        }
        for entry in members {
            let is_refused = matches!(refused.get(*entry), Some(true));
            self.write_whole(alloc, sources, options, *entry, is_refused)?;
        }
        Ok(())
    }
}

/// Whether a remark says why a type is refused, and not only that one is to which it refers.
fn is_own_refusal(remark: Remark) -> bool {
    match remark {
        Remark::Refused(why) => !matches!(why, Why::Holds),
        _ => false,
    }
}

/// Writes all types but those that are refused, and those that pass a limit on what they come to; and gives the sizes of
/// what is written. Where octets contain a type, it has one of these statuses.
pub(crate) fn write_with(
    alloc: Global,
    sources: &Sources<'_>,
    options: Options,
    refused: &[bool],
    totals: Totals,
    statuses: Vec<Status>,
) -> Result<(Written, Totals), AllocError> {
    let count = sources.firsts.len();
    let mut writing = Writing {
        written: nothing_written(alloc, count)?,
        below: Vec::new(alloc),
        beside: Vec::new(alloc),
        refusals: Vec::new(alloc),
        spent: Spent {
            nodes: 0,
            work: Work::of(sources.forest.nodes.len()),
        },
        totals,
        statuses,
    };
    for _ in 0..count {
        writing.below.push(State::Open)?;
        writing.beside.push(State::Open)?;
        writing.refusals.push(None)?;
    }
    let types = sources.order.types.as_slice();
    let mut from = 0;
    for _ in 0..types.len() {
        let end = cycle_end(sources, from);
        let Some(members) = types.get(from..end) else {
            break;
        };
        writing.write_members(alloc, sources, options, members, refused)?;
        from = end;
    }
    let Writing {
        written,
        below: _,
        beside: _,
        refusals: _,
        spent: _,
        totals,
        statuses: _,
    } = writing;
    Ok((written, totals))
}
