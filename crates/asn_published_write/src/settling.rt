//! What becomes of one type: its text, what is known of it, and what is said of it.
use crate::known::{Known, path_of};
use crate::sources::Sources;
use crate::writer::{Counts, Spent, Writer};
use asn_published_text::refusal::{Refusal, Why};
use asn_published_types::info::State;
use asn_published_types::report::{Note, Remark, Status};
use asn_published_types::steps::Trail;
use std::alloc::{AllocError, Global};

/// Writes a type, unless the profile refused it before.
fn write_one<'t>(
    alloc: Global,
    known: &Known<'_, 't>,
    first: usize,
    is_refused: bool,
    writer: &mut Writer<'t>,
) -> Result<(), Refusal> {
    if is_refused {
        return Err(Refusal::At {
            line: 0,
            why: Why::NotOfProfile,
        });
    }
    writer.write_type(alloc, known, first)?;
    if known.options.strict && writer.told.status != Status::Same {
        writer.counts.node = first;
        return Err(Refusal::At {
            line: 0,
            why: Why::NotTheSame,
        });
    }
    Ok(())
}

/// A type that was written, or why it was not.
#[derive(Drop)]
pub(crate) struct Outcome<'t> {
    writer: Writer<'t>,
    refusal: Option<(u32, Why)>,
}

/// Writes a type, of which `first` is the first node, after so much of other types.
pub(crate) fn outcome_of<'t>(
    alloc: Global,
    known: &Known<'_, 't>,
    first: usize,
    is_refused: bool,
    spent: Spent,
) -> Result<Outcome<'t>, AllocError> {
    let mut writer = Writer::new(alloc, spent);
    writer.counts.node = first;
    let refusal = match write_one(alloc, known, first, is_refused, &mut writer) {
        Ok(()) => None,
        Err(Refusal::Memory) => return Err(AllocError),
        Err(Refusal::At { line, why }) => Some((line, why)),
    };
    Ok(Outcome { writer, refusal })
}

/// What is known of a type that was written, its text, and what is to be said of it.
#[derive(Drop)]
pub(crate) struct Settled {
    pub state: State,
    pub line: Option<String>,
    pub status: Status,
    pub notes: Vec<Note>,
    pub uses: Vec<usize>,
    /// What was counted of it and of the types before it.
    pub spent: Spent,
    /// Its nodes, with what is not looked at there.
    pub trail: Trail,
}

/// A type that was written, `index` being its index among those that are.
fn ready(writer: Writer<'_>, index: usize) -> Settled {
    let mut info = writer.last;
    info.nodes = writer.counts.nodes;
    info.depth = writer.counts.depth;
    info.status = writer.told.status;
    info.written = index;
    Settled {
        state: State::Ready(info),
        line: Some(writer.out),
        status: writer.told.status,
        notes: writer.told.notes,
        uses: writer.told.uses,
        spent: spent_of(writer.counts),
        trail: writer.trail,
    }
}

/// What was counted of a type and of those before it.
fn spent_of(counts: Counts) -> Spent {
    Spent {
        nodes: counts.written,
        work: counts.work,
    }
}

/// What is known of a type that is refused.
fn refused_state(counts: Counts) -> State {
    match counts.passed {
        Some(_) => State::Past {
            nodes: counts.nodes,
            depth: counts.depth,
        },
        None => State::Refused,
    }
}

/// A type that is refused, as the note tells.
fn refused(writer: Writer<'_>, note: Note) -> Result<Settled, AllocError> {
    let mut writer = writer;
    writer.told.notes.push(note)?;
    Ok(Settled {
        state: refused_state(writer.counts),
        line: None,
        status: Status::Refused,
        notes: writer.told.notes,
        uses: writer.told.uses,
        spent: spent_of(writer.counts),
        trail: writer.trail,
    })
}

/// What became of a type that the text `file` assigns on the line `own_line`, and its index among those that are written. A fault in another text is told on that
/// line.
pub(crate) fn settle_type<'t>(
    alloc: Global,
    sources: &Sources<'t>,
    file: usize,
    own_line: u32,
    outcome: Outcome<'t>,
    index: usize,
) -> Result<Settled, AllocError> {
    let Outcome { writer, refusal } = outcome;
    let Some((line, why)) = refusal else {
        return Ok(ready(writer, index));
    };
    let is_here = line != 0 && file_of(sources, writer.counts.node) == file;
    let note = Note {
        line: if is_here { line } else { own_line },
        component: path_of(alloc, &sources.forest, writer.counts.node)?,
        remark: Remark::Refused(why),
    };
    refused(writer, note)
}

/// Which of the texts has a node, from 0.
fn file_of(sources: &Sources<'_>, node: usize) -> usize {
    match sources.forest.node(node) {
        Some(node) => match sources.world.modules.get(node.module) {
            Some(module) => module.file,
            None => 0,
        },
        None => 0,
    }
}

/// The assignment of a type: its own, or that of which it is an instance.
pub(crate) fn assignment_of(sources: &Sources<'_>, entry: usize) -> usize {
    let count = sources.world.assignments.len();
    if entry < count {
        return entry;
    }
    match sources
        .forest
        .instances
        .instance(entry.saturating_sub(count))
    {
        Some(instance) => instance.assignment,
        None => entry,
    }
}
