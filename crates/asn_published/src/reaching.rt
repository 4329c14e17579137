//! Which types are written: those that one leads to, or all.
use asn_published_text::nodes::Shape;
use asn_published_types::building::Forest;
use asn_published_types::order::{Order, order_of};
use std::alloc::{AllocError, Global};

/// Appends the types to which the nodes of a type refer, and those that octets of its values contain.
fn push_references(
    todo: &mut Vec<usize>,
    forest: &Forest<'_>,
    nodes: (usize, usize),
) -> Result<(), AllocError> {
    let (first, end) = nodes;
    for index in first..end {
        if let Some(node) = forest.node(index) {
            match node.shape {
                Shape::Reference { to } | Shape::Contained { to } => todo.push(to)?,
                _ => {}
            }
        }
    }
    Ok(())
}

/// Where the nodes of a type and of all that it leads to stand, and of no others.
fn spans_from(
    alloc: Global,
    forest: &Forest<'_>,
    spans: &[Option<(usize, usize)>],
    start: usize,
) -> Result<Vec<Option<(usize, usize)>>, AllocError> {
    let mut reached = vec![in alloc; None; spans.len()]?;
    let mut todo = Vec::new(alloc);
    todo.push(start)?;
    for _ in 0..u64::MAX {
        let Some(entry) = todo.pop() else {
            break;
        };
        let (Some(Some(nodes)), Some(place)) = (spans.get(entry), reached.get_mut(entry)) else {
            continue;
        };
        if place.is_none() {
            *place = Some(*nodes);
            push_references(&mut todo, forest, *nodes)?;
        }
    }
    Ok(reached)
}

/// The types in order that a type leads to, itself one of them; all, where there is none.
pub(crate) fn order_for(
    alloc: Global,
    forest: &Forest<'_>,
    spans: &[Option<(usize, usize)>],
    wanted: Option<usize>,
) -> Result<Order, AllocError> {
    let Some(start) = wanted else {
        return order_of(alloc, forest, spans, None);
    };
    let reached = spans_from(alloc, forest, spans, start)?;
    order_of(alloc, forest, reached.as_slice(), Some(start))
}
