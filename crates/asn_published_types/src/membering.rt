//! Takes the components, alternatives, marks and groups of a type (X.680, "sequence type", "choice type").
use crate::building::{Forest, Task};
use crate::tags::is_tag;
use asn_published_text::extents::type_end;
use asn_published_text::groups::{after_version, is_group, is_group_end};
use asn_published_text::nodes::{Holder, Member, MemberKind, Need, Shape};
use asn_published_text::token::{Kind, Sign};
use asn_published_text::tokens::{Tokens, next};
use asn_published_text::value_steps::value_end;
use asn_published_text::wrong::TextFault;

/// A place among the members of a type: the index, and how many extension marks and groups stand before it.
#[derive(Clone, Copy)]
struct Place {
    at: usize,
    marks: u32,
    groups: u32,
}

/// The index after an exception, as `! 5` or `! Type : value`, where it stands at `at`.
pub(crate) fn after_exception(tokens: &Tokens<'_>, at: usize) -> Result<usize, TextFault> {
    if !tokens.is(at, Sign::Bang) {
        return Ok(at);
    }
    if let Ok(behind) = type_end(tokens, next(at)) {
        if tokens.is(behind, Sign::Colon) {
            return value_end(tokens, next(behind));
        }
    }
    value_end(tokens, next(at))
}

/// The need of a component, which stands after its type, and the index after it.
fn need_at(tokens: &Tokens<'_>, at: usize) -> Result<(Need, usize), TextFault> {
    if tokens.is_word(at, "OPTIONAL") {
        return Ok((Need::Optional, next(at)));
    }
    if tokens.is_word(at, "DEFAULT") {
        let start = next(at);
        let end = value_end(tokens, start)?;
        return Ok((Need::Default { start, end }, end));
    }
    Ok((Need::Must, at))
}

impl<'t> Forest<'t> {
    /// Members in the braces at `at`.
    pub(crate) fn braced(
        &mut self,
        tokens: &Tokens<'t>,
        todo: &mut Vec<Task>,
        node: usize,
        holder: Holder,
        at: usize,
    ) -> Result<Shape, TextFault> {
        self.members_of(tokens, todo, node, holder, next(at), tokens.other(at))
    }

    /// The members from `start` to before `end`.
    pub(crate) fn members_of(
        &mut self,
        tokens: &Tokens<'t>,
        todo: &mut Vec<Task>,
        node: usize,
        holder: Holder,
        start: usize,
        end: usize,
    ) -> Result<Shape, TextFault> {
        let from = self.members.len();
        let mut place = Place {
            at: start,
            marks: 0,
            groups: 0,
        };
        for _ in 0..tokens.len() {
            if place.at >= end {
                break;
            }
            place = self.member_at(tokens, todo, node, holder, place)?;
            if holder == Holder::Choice && is_group_end(tokens, place.at) && place.at < end {
                place.at = next(next(place.at));
            }
            if place.at < end {
                place.at = tokens.past(place.at, Sign::Comma, ", or }")?;
                if place.at >= end {
                    return Err(tokens.expected(place.at, "a component"));
                }
            }
        }
        Ok(Shape::Members {
            holder,
            from,
            to: self.members.len(),
            marked: place.marks > 0,
            tagged: self.has_tag(tokens, from),
        })
    }

    /// Whether one of the members from an index on has a tag that is written.
    fn has_tag(&self, tokens: &Tokens<'_>, from: usize) -> bool {
        for index in from..self.members.len() {
            if let Some(member) = self.member(index) {
                if let Some(node) = self.node(member.node) {
                    if member.kind == MemberKind::Plain && is_tag(tokens, node.at) {
                        return true;
                    }
                }
            }
        }
        false
    }

    /// Takes the member, the mark or the group at a place, and gives the place after it.
    fn member_at(
        &mut self,
        tokens: &Tokens<'t>,
        todo: &mut Vec<Task>,
        node: usize,
        holder: Holder,
        place: Place,
    ) -> Result<Place, TextFault> {
        let mut after = place;
        if tokens.is(place.at, Sign::Dots) {
            after.marks = place.marks.saturating_add(1);
            if after.marks > 2 {
                return Err(tokens.expected(place.at, "a component"));
            }
            after.at = after_exception(tokens, next(place.at))?;
            return Ok(after);
        }
        if holder == Holder::Choice && place.marks > 1 {
            return Err(tokens.expected(place.at, "}"));
        }
        if is_group(tokens, place.at) {
            if place.marks != 1 {
                return Err(tokens.expected(place.at, "a component"));
            }
            if holder != Holder::Choice {
                return self.group_at(tokens, todo, node, place);
            }
            after.at = after_version(tokens, next(next(place.at)));
        }
        let is_addition = place.marks == 1;
        after.at = if tokens.is_word(after.at, "COMPONENTS") {
            self.components_of_at(tokens, todo, node, after.at, is_addition)?
        } else {
            self.plain_at(tokens, todo, node, holder, after.at, is_addition)?
        };
        Ok(after)
    }

    /// Takes COMPONENTS OF at `at`, and gives the index after it.
    fn components_of_at(
        &mut self,
        tokens: &Tokens<'t>,
        todo: &mut Vec<Task>,
        node: usize,
        at: usize,
        is_addition: bool,
    ) -> Result<usize, TextFault> {
        if !tokens.is_word(next(at), "OF") {
            return Err(tokens.expected(next(at), "OF"));
        }
        let start = next(next(at));
        let end = type_end(tokens, start)?;
        let held = self.child(todo, node, "", start, end, false)?;
        self.members.push(Member {
            kind: MemberKind::ComponentsOf,
            name: "",
            node: held,
            need: Need::Must,
            is_addition,
        })?;
        Ok(end)
    }

    /// Takes the component or alternative at `at`, and gives the index after it.
    fn plain_at(
        &mut self,
        tokens: &Tokens<'t>,
        todo: &mut Vec<Task>,
        node: usize,
        holder: Holder,
        at: usize,
        is_addition: bool,
    ) -> Result<usize, TextFault> {
        if !tokens.is_identifier(at) {
            return Err(tokens.expected(at, "an identifier"));
        }
        let name = tokens.text(at);
        let start = next(at);
        let end = type_end(tokens, start)?;
        let held = self.child(todo, node, name, start, end, false)?;
        let (need, behind) = if holder == Holder::Choice {
            (Need::Must, end)
        } else {
            need_at(tokens, end)?
        };
        self.members.push(Member {
            kind: MemberKind::Plain,
            name,
            node: held,
            need,
            is_addition,
        })?;
        Ok(behind)
    }

    /// Takes the addition group at a place, and gives the place after it.
    fn group_at(
        &mut self,
        tokens: &Tokens<'t>,
        todo: &mut Vec<Task>,
        node: usize,
        place: Place,
    ) -> Result<Place, TextFault> {
        let inner = next(place.at);
        let end = tokens.other(inner);
        if next(end) != tokens.other(place.at) {
            return Err(tokens.expected(next(end), "]]"));
        }
        let start = after_version(tokens, next(inner));
        let held = self.child(todo, node, "[[ ]]", start, end, true)?;
        let number = place.groups.saturating_add(1);
        let member = Member {
            kind: MemberKind::Group(number),
            name: "[[ ]]",
            node: held,
            need: Need::Optional,
            is_addition: true,
        };
        self.members.push(member)?;
        Ok(Place {
            at: next(next(end)),
            marks: place.marks,
            groups: number,
        })
    }
}
