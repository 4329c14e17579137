//! Sets of objects as tables (X.682, "table constraint"): the numbers that a component may have, and the types that they
//! select for an open type of the same SEQUENCE.
use crate::building::Forest;
use crate::containing::Written;
use crate::objects::{given_in, object_named};
use crate::set_places::{Set, is_braced, relation_at, set_assigned, table_at};
use asn_published_text::class_fields::sign_of_field;
use asn_published_text::class_names::ClassName;
use asn_published_text::extents::after_tags;
use asn_published_text::modules::World;
use asn_published_text::nodes::{MemberKind, Node, Shape};
use asn_published_text::refusal::Why;
use asn_published_text::token::Sign;
use asn_published_text::tokens::{Tokens, before, next};
use std::alloc::{AllocError, Global};

/// How many objects and names of sets are looked at for one table.
const MOST_ELEMENTS: u32 = 2000;

/// How many of them are looked at for all tables: what is behind these is not known.
const MOST_OF_ALL: u32 = 500000;

/// How many components a SEQUENCE may have in which the number of a table is looked for.
const MOST_MEMBERS: usize = 1000;

/// An object of a table: where its number is, from one index of a module to before another, and its type, where it is known.
#[derive(Clone, Copy)]
pub struct TableRow {
    pub module: usize,
    pub start: usize,
    pub end: usize,
    pub instance: Option<usize>,
    pub to: Option<usize>,
}

/// A table.
#[derive(Drop)]
pub struct Table<'t> {
    /// The name of the component that is the number; empty where the table constrains that component.
    pub by: &'t str,
    pub rows: Vec<TableRow>,
    /// The set of objects has an extension mark.
    pub is_extensible: bool,
    /// What is given for the fields is not known of each object.
    pub is_missing: bool,
}

/// What is asked of objects: the number that they give for one field, and the type for another.
#[derive(Clone, Copy)]
struct Asked<'t> {
    class: ClassName,
    number: &'t str,
    ty: Option<&'t str>,
}

impl<'t> Forest<'t> {
    /// The table of a node.
    pub fn table(&self, index: usize) -> Option<&Table<'t>> {
        self.tables.get(&index)
    }

    /// Forgets the tables of the nodes from one on.
    pub(crate) fn forget_tables(&mut self, first: usize) {
        for index in first..self.nodes.len() {
            let _ = self.tables.remove(&index);
        }
    }

    /// Takes the table of a node that is a component's number, with the field of a class.
    pub(crate) fn take_numbers(
        &mut self,
        alloc: Global,
        world: &World<'t>,
        tokens: &Tokens<'t>,
        index: usize,
        class: Option<ClassName>,
        field: &'t str,
    ) -> Result<(), AllocError> {
        let (Some(node), Some(class)) = (self.node(index), class) else {
            return Ok(());
        };
        let Some((set, None)) = table_at(tokens, &node) else {
            return Ok(());
        };
        let asked = Asked {
            class,
            number: field,
            ty: None,
        };
        self.take_table(alloc, world, index, node, set, asked, "")
    }

    /// Takes the table of a node that is an open type, with the field of a class: another component of the same SEQUENCE is
    /// the number.
    pub(crate) fn take_types(
        &mut self,
        alloc: Global,
        world: &World<'t>,
        tokens: &Tokens<'t>,
        index: usize,
        class: Option<ClassName>,
        field: &'t str,
    ) -> Result<(), AllocError> {
        let (Some(node), Some(class)) = (self.node(index), class) else {
            return Ok(());
        };
        let Some((set, Some(relation))) = table_at(tokens, &node) else {
            return Ok(());
        };
        let Some((by, is_outermost)) = relation_at(tokens, relation) else {
            return Ok(());
        };
        if is_outermost && !self.is_outermost(node.parent) {
            return Ok(());
        }
        let Some(number) = self.field_of_component(tokens, node, by) else {
            return Ok(());
        };
        let asked = Asked {
            class,
            number,
            ty: Some(field),
        };
        self.take_table(alloc, world, index, node, set, asked, by)
    }

    /// Whether a node that holds components lies in no other that does.
    fn is_outermost(&self, holder: usize) -> bool {
        let mut at = holder;
        for _ in 0..self.nodes.len() {
            let Some(node) = self.node(at) else {
                return false;
            };
            if node.parent == at {
                return true;
            }
            at = node.parent;
            match self.node(at) {
                Some(above) if !matches!(above.shape, Shape::Members { .. }) => {}
                _ => return false,
            }
        }
        false
    }

    /// The name of the field of a class that the type of a component of the same SEQUENCE is.
    fn field_of_component(
        &self,
        tokens: &Tokens<'t>,
        node: Node<'t>,
        name: &str,
    ) -> Option<&'t str> {
        let Shape::Members { from, to, .. } = self.node(node.parent)?.shape else {
            return None;
        };
        if to.saturating_sub(from) > MOST_MEMBERS {
            return None;
        }
        for index in from..to {
            let member = self.member(index)?;
            if member.kind == MemberKind::Plain && *member.name.as_bytes() == *name.as_bytes() {
                let component = self.node(member.node)?;
                if component.is_field || component.module != node.module {
                    return None;
                }
                let sign = sign_of_field(tokens, after_tags(tokens, component.at))?;
                return Some(tokens.text(next(sign)));
            }
        }
        None
    }

    /// Takes the table of a node, of the set in the braces at `braces`.
    fn take_table(
        &mut self,
        alloc: Global,
        world: &World<'t>,
        index: usize,
        node: Node<'t>,
        braces: usize,
        asked: Asked<'t>,
        by: &'t str,
    ) -> Result<(), AllocError> {
        let mut table = Table {
            by,
            rows: Vec::new(alloc),
            is_extensible: false,
            is_missing: false,
        };
        let mut todo = Vec::new(alloc);
        todo.push(Set {
            module: node.module,
            braces,
            instance: node.instance,
        })?;
        let most = MOST_ELEMENTS.min(MOST_OF_ALL.saturating_sub(self.elements));
        let mut left = most;
        for _ in 0..MOST_ELEMENTS {
            let Some(set) = todo.pop() else {
                break;
            };
            self.take_set(alloc, world, &mut table, &mut todo, &mut left, set, asked)?;
        }
        self.elements = self.elements.saturating_add(most.saturating_sub(left));
        table.is_missing |= !todo.is_empty() || left == 0;
        for row in &table.rows {
            if let Some(to) = row.to {
                self.nodes.push(Node {
                    shape: Shape::Contained { to },
                    parent: index,
                    ..node
                })?;
            }
        }
        self.tables.insert(index, table)?;
        Ok(())
    }

    /// Takes the objects of a set, and asks for the sets that it names.
    fn take_set(
        &mut self,
        alloc: Global,
        world: &World<'t>,
        table: &mut Table<'t>,
        todo: &mut Vec<Set>,
        left: &mut u32,
        set: Set,
        asked: Asked<'t>,
    ) -> Result<(), AllocError> {
        let Some(tokens) = world.tokens_of(set.module) else {
            table.is_missing = true;
            return Ok(());
        };
        let end = tokens.other(set.braces);
        let mut at = next(set.braces);
        for _ in 0..tokens.len() {
            if at >= end || *left == 0 {
                break;
            }
            *left = left.saturating_sub(1);
            if tokens.is(at, Sign::Dots) {
                table.is_extensible = true;
                at = next(at);
            } else if tokens.is(at, Sign::Bar)
                || tokens.is(at, Sign::Comma)
                || tokens.is_word(at, "UNION")
            {
                at = next(at);
            } else if tokens.is(at, Sign::LeftBrace) {
                let object = Set { braces: at, ..set };
                self.take_object(alloc, world, table, object, asked)?;
                at = tokens.after(at);
            } else {
                at = self.take_named(alloc, world, table, todo, at, set, asked)?;
            }
        }
        Ok(())
    }

    /// Takes the object or the set of a name at `at`, and gives the index after it; what is no name is not looked at.
    fn take_named(
        &mut self,
        alloc: Global,
        world: &World<'t>,
        table: &mut Table<'t>,
        todo: &mut Vec<Set>,
        at: usize,
        set: Set,
        asked: Asked<'t>,
    ) -> Result<usize, AllocError> {
        let Some(tokens) = world.tokens_of(set.module) else {
            return Ok(next(at));
        };
        match self.set_of_parameter(world, set, tokens.text(at)) {
            Ok(None) => {}
            Ok(Some(named)) => {
                todo.push(named)?;
                return Ok(next(at));
            }
            Err(_) => {
                table.is_missing = true;
                return Ok(next(at));
            }
        }
        if tokens.is_identifier(at) {
            self.take_object_named(alloc, world, table, set.module, tokens.text(at), asked)?;
            return Ok(next(at));
        }
        match set_assigned(world, set.module, at) {
            Some((named, behind)) => {
                todo.push(named)?;
                Ok(behind)
            }
            None => {
                table.is_missing = true;
                Ok(next(at))
            }
        }
    }

    /// The set that is given for a parameter of this name; `None` where the name is none.
    fn set_of_parameter(
        &self,
        world: &World<'t>,
        set: Set,
        name: &str,
    ) -> Result<Option<Set>, Why> {
        let Some(instance) = set.instance else {
            return Ok(None);
        };
        match self.instances.actual(world, instance, name)? {
            None => Ok(None),
            Some(actual) if is_braced(world, actual.module, actual.start, actual.end) => {
                Ok(Some(Set {
                    module: actual.module,
                    braces: actual.start,
                    instance: actual.outer,
                }))
            }
            Some(_) => Err(Why::Parameter),
        }
    }

    /// Takes what the object of a name gives.
    fn take_object_named(
        &mut self,
        alloc: Global,
        world: &World<'t>,
        table: &mut Table<'t>,
        module: usize,
        name: &str,
        asked: Asked<'t>,
    ) -> Result<(), AllocError> {
        let Ok(object) = object_named(world, module, name) else {
            table.is_missing = true;
            return Ok(());
        };
        let class = world
            .class_named(object.module, object.governor, before(object.start))
            .unwrap_or(asked.class);
        let place = Set {
            module: object.module,
            braces: object.start,
            instance: None,
        };
        self.take_object(alloc, world, table, place, Asked { class, ..asked })
    }

    /// Takes what an object gives.
    fn take_object(
        &mut self,
        alloc: Global,
        world: &World<'t>,
        table: &mut Table<'t>,
        object: Set,
        asked: Asked<'t>,
    ) -> Result<(), AllocError> {
        let Ok(number) = given_in(
            world,
            asked.class,
            object.module,
            object.braces,
            asked.number,
        ) else {
            table.is_missing = true;
            return Ok(());
        };
        let mut to = None;
        if let Some(field) = asked.ty {
            if let Ok(given) = given_in(world, asked.class, object.module, object.braces, field) {
                let written = Written {
                    module: given.module,
                    start: given.start,
                    end: given.end,
                    instance: object.instance,
                };
                to = self.entry_of(alloc, world, written)?;
            }
            table.is_missing |= to.is_none();
        }
        table.rows.push(TableRow {
            module: number.module,
            start: number.start,
            end: number.end,
            instance: object.instance,
            to,
        })?;
        Ok(())
    }
}
