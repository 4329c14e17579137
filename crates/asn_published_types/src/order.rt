//! An order of the types in which each comes after those that it refers to, but for recursion: those that refer to one
//! another come one after the other (Tarjan's algorithm). No call goes deeper for a longer chain of references.
use crate::building::Forest;
use asn_published_text::nodes::Shape;
use std::alloc::{AllocError, Global};

/// The types in order, and of each in which cycle of references it lies, by one of the types of the cycle.
#[derive(Drop)]
pub struct Order {
    pub types: Vec<usize>,
    pub cycles: Vec<Option<usize>>,
    /// Of each its number, from 1, in the order in which types were followed to their end.
    pub ended: Vec<usize>,
}

/// A type that is followed, and the nodes that are still to be looked at.
#[derive(Clone, Copy)]
struct Followed {
    entry: usize,
    node: usize,
    end: usize,
}

/// What is known of a type while it is followed.
#[derive(Clone, Copy)]
struct Mark {
    /// How many types were met before it, and 1; 0 where it was not met yet.
    met: usize,
    /// The first type met that it leads to, among those that are open.
    first: usize,
    is_open: bool,
    leads_to_itself: bool,
}

/// A search that goes along references.
#[derive(Drop)]
struct Search {
    marks: Vec<Mark>,
    met: usize,
    followed: Vec<Followed>,
    open: Vec<usize>,
    /// The open types that were followed to their end, in that order.
    closed: Vec<usize>,
    order: Order,
    /// How many types were followed to their end.
    ended: usize,
}

/// The first node from one index to before another that refers to a type: that type, and the index after the node.
fn next_reference(forest: &Forest<'_>, from: usize, end: usize) -> Option<(usize, usize)> {
    for index in from..end {
        if let Some(node) = forest.node(index) {
            if let Shape::Reference { to } = node.shape {
                return Some((to, index.saturating_add(1)));
            }
        }
    }
    None
}

/// The number of a type in the order in which they were followed to their end.
fn place_in(ended: &[usize], entry: usize) -> usize {
    match ended.get(entry) {
        Some(place) => *place,
        None => 0,
    }
}

impl Order {
    /// Whether a type refers to one that contains it, both of one cycle.
    pub fn is_turn(&self, from: usize, to: usize) -> bool {
        let ended = self.ended.as_slice();
        place_in(ended, to) >= place_in(ended, from)
    }
}

impl Search {
    /// Nothing is met yet of `count` types.
    fn new(alloc: Global, count: usize) -> Result<Search, AllocError> {
        let none = Mark {
            met: 0,
            first: 0,
            is_open: false,
            leads_to_itself: false,
        };
        Ok(Search {
            marks: vec![in alloc; none; count]?,
            met: 0,
            followed: Vec::new(alloc),
            open: Vec::new(alloc),
            closed: Vec::new(alloc),
            order: Order {
                types: Vec::new(alloc),
                cycles: vec![in alloc; None; count]?,
                ended: vec![in alloc; 0; count]?,
            },
            ended: 0,
        })
    }

    /// Meets a type that is given, unless it was met before.
    fn meet(&mut self, spans: &[Option<(usize, usize)>], entry: usize) -> Result<(), AllocError> {
        let (node, end) = match spans.get(entry) {
            Some(Some(span)) => *span,
            _ => return Ok(()),
        };
        let Some(mark) = self.marks.get_mut(entry) else {
            return Ok(());
        };
        if mark.met != 0 {
            return Ok(());
        }
        self.met = self.met.saturating_add(1);
        mark.met = self.met;
        mark.first = self.met;
        mark.is_open = true;
        self.open.push(entry)?;
        Ok(self.followed.push(Followed { entry, node, end })?)
    }

    /// Takes a reference from one type to another that was met.
    fn refer(&mut self, from: usize, to: usize) {
        let Some(other) = self.marks.get(to) else {
            return;
        };
        let other = *other;
        if let Some(mark) = self.marks.get_mut(from) {
            if other.is_open {
                mark.first = mark.first.min(other.met);
            }
            if from == to {
                mark.leads_to_itself = true;
            }
        }
    }

    /// Lets the type that leads to a followed one lead to what that one leads to.
    fn pass_on(&mut self, entry: usize) {
        let Some(last) = self.followed.last() else {
            return;
        };
        let above = last.entry;
        let Some(mark) = self.marks.get(entry) else {
            return;
        };
        let (first, is_open) = (mark.first, mark.is_open);
        if let Some(place) = self.marks.get_mut(above) {
            if is_open {
                place.first = place.first.min(first);
            }
        }
    }

    /// Ends a type of which all references were followed: where it leads to no type before it, it and those that are
    /// open since are a cycle, or it is alone.
    fn end(&mut self, entry: usize) -> Result<(), AllocError> {
        let Some(mark) = self.marks.get(entry) else {
            return Ok(());
        };
        let mark = *mark;
        self.ended = self.ended.saturating_add(1);
        if let Some(place) = self.order.ended.get_mut(entry) {
            *place = self.ended;
        }
        self.closed.push(entry)?;
        if mark.first == mark.met {
            let is_alone = match self.open.last() {
                Some(last) => *last == entry,
                None => true,
            };
            let in_cycle = !is_alone || mark.leads_to_itself;
            let mut count = 0usize;
            for _ in 0..self.marks.len() {
                let Some(other) = self.open.pop() else {
                    break;
                };
                count = count.saturating_add(1);
                if let Some(place) = self.marks.get_mut(other) {
                    place.is_open = false;
                }
                if let Some(place) = self.order.cycles.get_mut(other) {
                    *place = if in_cycle { Some(entry) } else { None };
                }
                if other == entry {
                    break;
                }
            }
            self.settle(count)?;
        }
        self.pass_on(entry);
        Ok(())
    }

    /// Puts as many types in order as lie in one cycle, which ended last: each after those that it refers to, except those
    /// in which it stands itself.
    fn settle(&mut self, count: usize) -> Result<(), AllocError> {
        let start = self.closed.len().saturating_sub(count);
        if let Some(members) = self.closed.get(start..) {
            self.order.types.extend_from_slice(members)?;
        }
        self.closed.truncate(start);
        Ok(())
    }

    /// Follows all references from a type.
    fn follow(
        &mut self,
        forest: &Forest<'_>,
        spans: &[Option<(usize, usize)>],
        start: usize,
    ) -> Result<(), AllocError> {
        self.meet(spans, start)?;
        for _ in 0..u64::MAX {
            let Some(followed) = self.followed.pop() else {
                break;
            };
            let Some((to, behind)) = next_reference(forest, followed.node, followed.end) else {
                self.end(followed.entry)?;
                continue;
            };
            self.followed.push(Followed {
                node: behind,
                ..followed
            })?;
            self.refer(followed.entry, to);
            self.meet(spans, to)?;
        }
        Ok(())
    }
}

/// The types in order, those first that the type at `first` leads to, where there is one. `spans` has of each the nodes of
/// its type.
pub fn order_of(
    alloc: Global,
    forest: &Forest<'_>,
    spans: &[Option<(usize, usize)>],
    first: Option<usize>,
) -> Result<Order, AllocError> {
    let mut search = Search::new(alloc, spans.len())?;
    if let Some(first) = first {
        search.follow(forest, spans, first)?;
    }
    for start in 0..spans.len() {
        search.follow(forest, spans, start)?;
    }
    let Search {
        marks: _,
        met: _,
        followed: _,
        open: _,
        closed: _,
        order,
        ended: _,
    } = search;
    Ok(order)
}
