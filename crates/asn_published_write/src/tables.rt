//! Takes the tables of components (X.682, "table constraint").
use crate::known::Known;
use crate::writer::Writer;
use asn_constraints::Constraint;
use asn_contents::{Contents, SelectedType, Selection};
use asn_published_text::nodes::{MemberKind, Shape};
use asn_published_text::refusal::Refusal;
use asn_published_types::intervals::of_numbers;
use asn_published_types::layout::Layout;
use asn_published_types::numbers::Scope;
use asn_published_types::report::{ARE_CONTENTS_JUDGED, Remark, Status};
use asn_published_types::selecting::{Table, TableRow};
use std::alloc::{AllocError, Global};

/// What is known of the types that numbers select.
#[derive(Drop)]
pub(crate) struct Selected {
    rows: Vec<SelectedType>,
    /// Other numbers may be there, or it is not known which type they select.
    extensible: bool,
    /// Not all that the table says is looked at.
    is_missing: bool,
    /// The status that is furthest from the same.
    status: Status,
}

/// The number of an object; `None` where it is none.
fn number_of(known: &Known<'_, '_>, row: &TableRow) -> Option<i128> {
    let scope = Scope {
        module: row.module,
        named: None,
        instance: row.instance,
        least: None,
        most: None,
    };
    match known.values.number_at(scope, row.start) {
        Ok((number, behind)) if behind == row.end => Some(number),
        _ => None,
    }
}

/// The types that the numbers of a table select.
fn selected_by(
    alloc: Global,
    known: &Known<'_, '_>,
    table: &Table<'_>,
) -> Result<Selected, AllocError> {
    let mut selected = Selected {
        rows: Vec::new(alloc),
        extensible: table.is_extensible,
        is_missing: table.is_missing,
        status: Status::Same,
    };
    for row in &table.rows {
        let (Some(number), Some(to)) = (number_of(known, row), row.to) else {
            selected.is_missing = true;
            continue;
        };
        match known.types.statuses.get(to) {
            Some(Status::Refused) | None => selected.is_missing = true,
            Some(status) => {
                selected.status = selected.status.worse(*status);
                selected.rows.push(SelectedType { number, ty: to })?;
            }
        }
    }
    selected.extensible |= selected.is_missing;
    Ok(selected)
}

/// The places of the open type of a node and of the number that selects its type, among the components of a layout.
fn places_of(
    known: &Known<'_, '_>,
    layout: &Layout,
    open: usize,
    by: &str,
) -> Option<(usize, usize)> {
    let mut number = None;
    let mut place = None;
    for (at, placed) in layout
        .root
        .iter()
        .chain(layout.additions.iter())
        .enumerate()
    {
        let member = known.forest.member(placed.member)?;
        if member.node == open {
            place = Some(at);
        }
        if member.kind == MemberKind::Plain && *member.name.as_bytes() == *by.as_bytes() {
            match known.forest.node(member.node)?.shape {
                Shape::Integer { .. } | Shape::Reference { .. } => number = Some(at),
                _ => return None,
            }
        }
    }
    Some((number?, place?))
}

impl<'t> Writer<'t> {
    /// Takes of each open type of a SEQUENCE which component selects its type.
    pub fn take_selections(
        &mut self,
        alloc: Global,
        known: &Known<'_, 't>,
        index: usize,
        layout: &Layout,
    ) -> Result<(), Refusal> {
        for placed in layout.root.iter().chain(layout.additions.iter()) {
            let Some(member) = known.forest.member(placed.member) else {
                continue;
            };
            let Some(table) = known.forest.table(member.node) else {
                continue;
            };
            if table.by.is_empty() {
                continue;
            }
            let Some((by, open)) = places_of(known, layout, member.node, table.by) else {
                continue;
            };
            let selected = selected_by(alloc, known, table)?;
            for row in &selected.rows {
                self.told.uses.push(row.ty)?;
            }
            if !selected.is_missing {
                self.selected.insert(member.node)?;
            }
            self.take_selected(alloc, known, index, member.node, by, open, selected)?;
        }
        Ok(())
    }

    /// Takes which component selects the type of an open type.
    fn take_selected(
        &mut self,
        alloc: Global,
        known: &Known<'_, 't>,
        index: usize,
        node: usize,
        by: usize,
        open: usize,
        selected: Selected,
    ) -> Result<(), Refusal> {
        let Selected {
            rows,
            extensible,
            is_missing: _,
            status,
        } = selected;
        if status != Status::Same {
            self.note(alloc, known, node, Remark::Holds(status))?;
        }
        if !rows.is_empty() && (status != Status::Same || !ARE_CONTENTS_JUDGED) {
            self.trail.mark(index, Remark::Contents)?;
        }
        if rows.is_empty() && extensible {
            return Ok(());
        }
        let selection = Selection {
            by,
            open,
            rows,
            extensible,
        };
        Ok(
            self.trail
                .contain(alloc, index, Contents::Selected(selection))?,
        )
    }

    /// Takes what the table of a component that is a number says of it: it is the number of an object, if the set of objects has
    /// no extension mark.
    pub fn take_table_numbers(
        &mut self,
        alloc: Global,
        known: &Known<'_, 't>,
        index: usize,
    ) -> Result<(), Refusal> {
        let Some(table) = known.forest.table(index) else {
            return self.remark(alloc, known, index, Remark::Dropped);
        };
        if table.is_extensible {
            return Ok(());
        }
        let mut numbers = Vec::new(alloc);
        let mut is_missing = table.is_missing;
        for row in &table.rows {
            match number_of(known, row) {
                Some(number) => numbers.push(number)?,
                None => is_missing = true,
            }
        }
        let is_number = match known.forest.node(index) {
            Some(node) => matches!(node.shape, Shape::Integer { .. } | Shape::Reference { .. }),
            None => false,
        };
        if is_missing || !is_number {
            return self.remark(alloc, known, index, Remark::Dropped);
        }
        let numbers = of_numbers(alloc, numbers)?;
        Ok(
            self.trail
                .constrain(alloc, index, Constraint::Numbers(numbers))?,
        )
    }
}
