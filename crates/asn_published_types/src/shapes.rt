//! What a type is that begins with a word: a reserved one, a reference, a parameter, or the field of a class.
use crate::building::{Forest, Task};
use crate::classes::{Field, class_at_field, field_at};
use crate::containing::content_end;
use crate::instances::{Actual, Instance, are_as_many};
use crate::places::{after_table, after_unseen, root_end};
use crate::tags::is_tag;
use asn_published_text::class_fields::{is_class_field, sign_of_field};
use asn_published_text::modules::{What, World};
use asn_published_text::nodes::{Holder, Node, Shape};
use asn_published_text::refusal::Why;
use asn_published_text::token::Sign;
use asn_published_text::tokens::{Tokens, next};
use asn_published_text::words::{bits_at, holder_named, named_by_word, second_word};
use asn_published_text::wrong::TextFault;
use std::alloc::Global;

impl<'t> Forest<'t> {
    /// The type at `at`, which is no list; `None` where the node is to be built again, of other lexical items.
    pub(crate) fn shape_at(
        &mut self,
        alloc: Global,
        world: &World<'t>,
        tokens: &Tokens<'t>,
        todo: &mut Vec<Task>,
        node: usize,
        at: usize,
    ) -> Result<Option<Shape>, TextFault> {
        if let Some(shape) = named_by_word(tokens, at) {
            return Ok(Some(shape));
        }
        let second = next(at);
        let word = tokens.text(at);
        if let Some((wanted, shape)) = second_word(word) {
            if !tokens.is_word(second, wanted) {
                return Err(tokens.expected(second, wanted));
            }
            return Ok(Some(shape));
        }
        if word == "BIT" {
            return Ok(Some(bits_at(tokens, second)?));
        }
        if let Some(holder) = holder_named(word) {
            return Ok(Some(self.braced(tokens, todo, node, holder, second)?));
        }
        if is_class_field(tokens, at) {
            return self.field_shape(alloc, world, tokens, todo, node, at);
        }
        self.named_shape(alloc, world, tokens, todo, node, at)
    }

    /// What the field of a class at `at` is: an open type, or the type of its values, of which the node is built next.
    fn field_shape(
        &mut self,
        alloc: Global,
        world: &World<'t>,
        tokens: &Tokens<'t>,
        todo: &mut Vec<Task>,
        index: usize,
        at: usize,
    ) -> Result<Option<Shape>, TextFault> {
        let Some(it) = self.node(index) else {
            return Ok(Some(Shape::Refused(Why::ClassField)));
        };
        if it.is_field {
            return Ok(Some(Shape::Refused(Why::ClassField)));
        }
        let (first, name) = match self.class_for(world, &it, tokens.text(at)) {
            Ok(found) => found,
            Err(why) => return Ok(Some(Shape::Refused(why))),
        };
        let class = class_at_field(world, tokens, at, first, name);
        let field = match sign_of_field(tokens, at) {
            Some(sign) => tokens.text(next(sign)),
            None => "",
        };
        match field_at(world, tokens, it.module, at, first, name) {
            Ok(Field::Open) => {
                self.take_types(alloc, world, tokens, index, class, field)?;
                Ok(Some(Shape::Open))
            }
            Ok(Field::Identifier | Field::Type { .. })
                if !are_unseen(tokens, it.constraints, it.end) => {
                Ok(Some(Shape::Refused(Why::Constraint)))
            }
            Ok(Field::Identifier) => {
                self.take_field(index, it.constraints < it.end);
                Ok(Some(Shape::Content("OBJECT IDENTIFIER")))
            }
            Ok(Field::Type { module, start, end }) => {
                let type_of_values = Actual {
                    module,
                    start,
                    end,
                    outer: None,
                };
                self.take_numbers(alloc, world, tokens, index, class, field)?;
                self.take_field(index, it.constraints < it.end);
                self.build_as(tokens, todo, index, type_of_values)?;
                Ok(None)
            }
            Err(why) => Ok(Some(Shape::Refused(why))),
        }
    }

    /// Takes that a node is the field of a class, with constraints after it or not.
    fn take_field(&mut self, index: usize, is_constrained: bool) {
        if let Some(node) = self.nodes.get_mut(index) {
            node.is_field = true;
            node.is_constrained = is_constrained;
        }
    }

    /// The assignment of a class that is named at a node, or of one that stands for a parameter of this name, and its
    /// name there.
    fn class_for(
        &self,
        world: &World<'t>,
        node: &Node<'t>,
        name: &'t str,
    ) -> Result<(Result<usize, Why>, &'t str), Why> {
        let mut module = node.module;
        let mut name = name;
        let mut instance = node.instance;
        for _ in 0..self.instances.all.len() {
            let Some(inside) = instance else {
                break;
            };
            let Some(actual) = self.instances.actual(world, inside, name)? else {
                break;
            };
            module = actual.module;
            instance = actual.outer;
            name = match world.tokens_of(module) {
                Some(tokens) => tokens.text(actual.start),
                None => "",
            };
        }
        Ok((world.find(module, name), name))
    }

    /// Lets a node be built of other lexical items; a tag that is written before its own stays.
    fn build_as(
        &mut self,
        tokens: &Tokens<'t>,
        todo: &mut Vec<Task>,
        index: usize,
        items: Actual,
    ) -> Result<(), TextFault> {
        if let Some(node) = self.nodes.get_mut(index) {
            if node.tag.is_none() && is_tag(tokens, node.at) {
                node.tag = Some((node.module, node.at));
            }
            node.module = items.module;
            node.at = items.start;
            node.end = items.end;
            node.constraints = items.end;
            node.instance = items.outer;
        }
        Ok(todo.push(Task {
            node: index,
            is_group: false,
        })?)
    }

    /// What a name at `at` stands for.
    fn named_shape(
        &mut self,
        alloc: Global,
        world: &World<'t>,
        tokens: &Tokens<'t>,
        todo: &mut Vec<Task>,
        node: usize,
        at: usize,
    ) -> Result<Option<Shape>, TextFault> {
        let Some(it) = self.node(node) else {
            return Ok(Some(Shape::Refused(Why::Unknown)));
        };
        if let Some(instance) = it.instance {
            match self.instances.actual(world, instance, tokens.text(at)) {
                Ok(None) => {}
                Ok(Some(actual)) if it.constraints == it.end => {
                    self.build_as(tokens, todo, node, actual)?;
                    return Ok(None);
                }
                _ => return Ok(Some(Shape::Refused(Why::Parameter))),
            }
        }
        match world.reference_at(it.module, at) {
            Ok((to, end)) => Ok(Some(self.reference_to(alloc, world, tokens, it, to, end)?)),
            Err(why) => Ok(Some(Shape::Refused(why))),
        }
    }

    /// A reference of a node to an assignment, after whose name an item at `end` stands.
    fn reference_to(
        &mut self,
        alloc: Global,
        world: &World<'t>,
        tokens: &Tokens<'t>,
        node: Node<'t>,
        to: usize,
        end: usize,
    ) -> Result<Shape, TextFault> {
        if !world.assigns(to, What::Type) {
            return Ok(Shape::Refused(Why::NoType));
        }
        let Some(assignment) = world.assignment(to) else {
            return Ok(Shape::Refused(Why::Unknown));
        };
        let has_actual = tokens.is(end, Sign::LeftBrace);
        let Some(parameters) = assignment.parameters else {
            return Ok(if has_actual {
                Shape::Refused(Why::Parameter)
            } else {
                Shape::Reference { to }
            });
        };
        let there = world.tokens_of(assignment.module);
        if !has_actual || !are_as_many(tokens, end, there, parameters) {
            return Ok(Shape::Refused(Why::Parameter));
        }
        let asked = Instance {
            assignment: to,
            module: node.module,
            braces: end,
            outer: node.instance,
            level: 0,
            end: None,
        };
        match self.instances.index_for(alloc, world, asked)? {
            Ok(index) => Ok(Shape::Reference {
                to: world.assignments.len().saturating_add(index),
            }),
            Err(why) => Ok(Shape::Refused(why)),
        }
    }

    /// Adds a node for each type whose values the constraints of a node allow (X.680, "contained subtype"), so that
    /// these types are written before the node.
    pub(crate) fn contained_types(
        &mut self,
        world: &World<'t>,
        tokens: &Tokens<'t>,
        index: usize,
    ) -> Result<(), TextFault> {
        let Some(node) = self.node(index) else {
            return Ok(());
        };
        let mut at = node.constraints;
        let mut may_begin = false;
        for _ in 0..tokens.len() {
            if at >= node.end {
                break;
            }
            if let Some(end) = content_end(tokens, at) {
                at = end;
                may_begin = false;
                continue;
            }
            if tokens.is(at, Sign::Becomes) {
                // a value set, in braces
                at = next(next(at));
                may_begin = true;
                continue;
            }
            if may_begin && tokens.is_capital(at) {
                if let Ok((to, _)) = world.reference_at(node.module, at) {
                    if world.assigns(to, What::Type) {
                        self.nodes.push(Node {
                            shape: Shape::Reference { to },
                            parent: index,
                            ..node
                        })?;
                    }
                }
            }
            may_begin = begins_element(tokens, at);
            at = if tokens.is(at, Sign::LeftBrace) {
                tokens.after(at)
            } else {
                next(at)
            };
        }
        Ok(())
    }
}

/// Whether the encoding rules see nothing of the constraints from `start` to before `end`: tables, and those that no rule
/// sees.
fn are_unseen(tokens: &Tokens<'_>, start: usize, end: usize) -> bool {
    let mut at = start;
    for _ in 0..tokens.len() {
        if at >= end {
            break;
        }
        let inside = next(at);
        let behind = if tokens.is(inside, Sign::LeftBrace) {
            Some(after_table(tokens, inside))
        } else {
            after_unseen(tokens, inside)
        };
        if behind != Some(root_end(tokens, inside, tokens.other(at))) {
            return false;
        }
        at = tokens.after(at);
    }
    true
}

/// Whether an element of a constraint may begin after the item at `at`.
fn begins_element(tokens: &Tokens<'_>, at: usize) -> bool {
    tokens.is(at, Sign::LeftParen)
        || tokens.is(at, Sign::Bar)
        || tokens.is(at, Sign::Caret)
        || tokens.is_word(at, "INCLUDES")
        || tokens.is_word(at, "UNION")
        || tokens.is_word(at, "INTERSECTION")
}
