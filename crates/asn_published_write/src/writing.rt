//! Writes one node: a simple type, the items of an ENUMERATED, or the beginning of a type that holds others.
use crate::known::Known;
use crate::writer::Writer;
use asn_constraints::Constraint;
use asn_published_text::nodes::{Node, Shape};
use asn_published_text::refusal::{Refusal, Why, refused};
use asn_published_types::info::{Base, Info};
use asn_published_types::items::{Item, Items, items_of};
use asn_published_types::pieces::push_pieces;
use asn_published_types::report::Remark;
use asn_published_types::value_notation::kind_of_time;
use std::alloc::Global;
use std::fmt::Write;

impl<'t> Writer<'t> {
    /// Writes a node that is `depth` levels down.
    pub fn write_node(
        &mut self,
        alloc: Global,
        known: &Known<'_, 't>,
        index: usize,
        depth: usize,
    ) -> Result<(), Refusal> {
        let Some(node) = known.forest.node(index) else {
            return Err(refused(0, Why::NoType));
        };
        let line = known.line_of(&node);
        self.take_nodes(known, 1, line)?;
        self.count(1, depth, line);
        self.trail.enter(alloc, index, depth)?;
        if node.is_constrained {
            self.take_table_numbers(alloc, known, index)?;
        }
        match node.shape {
            Shape::List { .. } => self.write_list(alloc, known, index, &node, depth),
            Shape::Members { .. } => self.write_members(alloc, known, index, &node, depth),
            Shape::Reference { to } => {
                self.write_reference(alloc, known, index, &node, to, depth)
            }
            Shape::Selection { of, at } => self.write_selection(known, &node, of, at, depth),
            _ => self.write_leaf(alloc, known, index, &node),
        }
    }

    /// Writes a node that holds no others.
    fn write_leaf(
        &mut self,
        alloc: Global,
        known: &Known<'_, 't>,
        index: usize,
        node: &Node<'t>,
    ) -> Result<(), Refusal> {
        let line = known.line_of(node);
        match node.shape {
            Shape::Boolean => self.write_plain(alloc, known, index, "BOOLEAN", Base::Boolean),
            Shape::Null => {
                self.write_plain(alloc, known, index, "NULL", Base::Other)?;
                self.last.no_bits = true;
                Ok(())
            }
            Shape::Utf8 => self.write_plain(alloc, known, index, "UTF8String", Base::Other),
            Shape::Time => self.write_time(alloc, known, index, node),
            Shape::Open if self.selected.contains(&index) => self.put_octets(),
            Shape::Open => self.write_octets(alloc, known, index, Remark::OpenType),
            Shape::Content(what) => self.write_content(alloc, known, index, node, what),
            Shape::Integer { named } => self.write_integer(alloc, known, index, node, named),
            Shape::Enumerated { braces } => self.write_items(alloc, known, index, node, braces),
            Shape::Bits { .. } | Shape::Octets | Shape::Text(_) => {
                self.write_string(alloc, known, index, node)
            }
            Shape::Refused(why) => Err(refused(line, why)),
            _ => Err(refused(line, Why::NoType)),
        }
    }

    /// Writes a type whose constraints the encoding rules do not see.
    fn write_plain(
        &mut self,
        alloc: Global,
        known: &Known<'_, 't>,
        index: usize,
        name: &str,
        base: Base,
    ) -> Result<(), Refusal> {
        self.take_allowed(alloc, known, index)?;
        push_pieces(&mut self.out, &[" ", name])?;
        self.last = Info::of(base);
        Ok(())
    }

    /// Writes UTCTime or GeneralizedTime as a VisibleString (X.680, "useful types").
    fn write_time(
        &mut self,
        alloc: Global,
        known: &Known<'_, 't>,
        index: usize,
        node: &Node<'t>,
    ) -> Result<(), Refusal> {
        let kind = kind_of_time(known.values.world.tokens_of(node.module), node);
        self.trail.constrain(alloc, index, Constraint::Time(kind))?;
        self.write_plain(alloc, known, index, "VisibleString", Base::Other)
    }

    /// Writes an OCTET STRING that stands for something else.
    fn write_octets(
        &mut self,
        alloc: Global,
        known: &Known<'_, 't>,
        index: usize,
        remark: Remark,
    ) -> Result<(), Refusal> {
        self.remark(alloc, known, index, remark)?;
        self.put_octets()
    }

    /// Writes OCTET STRING.
    fn put_octets(&mut self) -> Result<(), Refusal> {
        self.out.push_str(" OCTET STRING")?;
        self.last = Info::of(Base::Other);
        Ok(())
    }

    /// Writes the OCTET STRING of a content, where the caller asks for it.
    fn write_content(
        &mut self,
        alloc: Global,
        known: &Known<'_, 't>,
        index: usize,
        node: &Node<'t>,
        what: &'static str,
    ) -> Result<(), Refusal> {
        if !known.options.octets {
            return Err(refused(known.line_of(node), Why::Kind(what)));
        }
        // OER has a REAL of some constraints in 4 or 8 octets without a length (X.696, "real type")
        let remark = if what == "REAL" && node.constraints < node.end {
            Remark::Real
        } else {
            Remark::Content(what)
        };
        self.write_octets(alloc, known, index, remark)
    }

    /// Writes ENUMERATED with its items.
    fn write_items(
        &mut self,
        alloc: Global,
        known: &Known<'_, 't>,
        index: usize,
        node: &Node<'t>,
        braces: usize,
    ) -> Result<(), Refusal> {
        self.take_allowed(alloc, known, index)?;
        let scope = known.scope_of(node, None);
        let items = items_of(alloc, known.values, scope, braces)?;
        if items.renumbered {
            self.remark(alloc, known, index, Remark::OerItems)?;
        }
        let marked = items.marked || is_extensible(known, node);
        self.put_item_lists(&items, marked)?;
        let mut info = Info::of(Base::Enumerated);
        info.marked = marked;
        info.named = Some((node.module, braces));
        info.no_bits = items.root.len() == 1 && !marked;
        self.last = info;
        Ok(())
    }

    /// Writes the word ENUMERATED, and the items in their braces.
    fn put_item_lists(&mut self, items: &Items<'t>, marked: bool) -> Result<(), Refusal> {
        self.out.push_str(" ENUMERATED {")?;
        self.put_items(items.root.as_slice(), false)?;
        if marked {
            self.out.push_str(", ...")?;
            self.put_items(items.additions.as_slice(), true)?;
        }
        Ok(self.out.push_str(" }")?)
    }

    /// Writes items with their numbers, with commas between them, and one before the first where something stands
    /// before it.
    fn put_items(&mut self, items: &[Item<'t>], behind: bool) -> Result<(), Refusal> {
        let mut comma = behind;
        for item in items {
            let separator = if comma { "," } else { "" };
            write!(self.out, "{separator} {} ({})", item.name, item.number)?;
            comma = true;
        }
        Ok(())
    }
}

/// Whether types without an extension mark have one at their end.
pub(crate) fn is_extensible(known: &Known<'_, '_>, node: &Node<'_>) -> bool {
    match known.values.world.modules.get(node.module) {
        Some(module) => module.extensible,
        None => false,
    }
}
