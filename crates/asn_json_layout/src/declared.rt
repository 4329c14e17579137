//! JSON with the members of objects in the order of the type's components.
use asn_values::{Alt, AsnType, Field};
use serde_json::{Map, Value as Json};
use std::alloc::{AllocError, Global};

/// A text that grows, and how deep what is written of it stands.
#[derive(Drop)]
struct Page {
    text: String,
    is_pretty: bool,
    depth: u32,
}

/// The text of the JSON, with the members of objects in the order of the type's components. JSON that shows no value of the
/// type is left as it is, and members that the type does not have are left out.
pub(crate) fn declared_text(
    alloc: Global,
    ty: &AsnType,
    json: &Json,
    is_pretty: bool,
) -> Result<String, AllocError> {
    let mut page = Page {
        text: String::new(alloc),
        is_pretty,
        depth: 0,
    };
    put_json(alloc, &mut page, ty, json)?;
    Ok(page.text)
}

impl Page {
    /// Begins an object or an array.
    fn open(&mut self, bracket: &str) -> Result<(), AllocError> {
        self.text.push_str(bracket)?;
        self.depth = self.depth.saturating_add(1);
        Ok(())
    }

    /// Writes what stands before a member or an element: a comma if it is not the first, and the start of a line if pretty.
    fn begin(&mut self, count: usize) -> Result<(), AllocError> {
        if count > 0 {
            self.text.push_str(",")?;
        }
        self.indent()
    }

    /// Writes the closing bracket of an object or array, on a line of its own if it is pretty and has members or elements.
    fn close(&mut self, bracket: &str, count: usize) -> Result<(), AllocError> {
        self.depth = self.depth.saturating_sub(1);
        if count > 0 {
            self.indent()?;
        }
        self.text.push_str(bracket)?;
        Ok(())
    }

    /// Begins a line, where each has one.
    fn indent(&mut self) -> Result<(), AllocError> {
        if !self.is_pretty {
            return Ok(());
        }
        self.text.push_str("\n")?;
        for _ in 0..self.depth {
            self.text.push_str("  ")?;
        }
        Ok(())
    }
}

/// Writes the JSON.
#[cycle(declared)]
fn put_json(alloc: Global, page: &mut Page, ty: &AsnType, json: &Json) -> Result<(), AllocError> {
    match (ty, json) {
        (AsnType::Seq { root, ext }, Json::Object(members)) => {
            page.open("{")?;
            let mut count = put_members(alloc, page, root, members, 0)?;
            if let Some(more) = ext {
                count = put_members(alloc, page, more, members, count)?;
            }
            page.close("}", count)
        }
        (AsnType::SeqOf(element, _), Json::Array(items)) => {
            page.open("[")?;
            for (index, item) in items.iter().enumerate() {
                page.begin(index)?;
                put_json(alloc, page, element, item)?;
            }
            page.close("]", items.len())
        }
        (AsnType::Choice { root, ext }, Json::Object(members)) => {
            page.open("{")?;
            let mut count = put_chosen(alloc, page, root, members, 0)?;
            if let Some(more) = ext {
                count = put_chosen(alloc, page, more, members, count)?;
            }
            page.close("}", count)
        }
        _ => put_whole(alloc, page, json),
    }
}

/// Writes the members for these components, in the order of the type. `before` is how many were written before.
#[cycle(declared)]
fn put_members(
    alloc: Global,
    page: &mut Page,
    fields: &[Field],
    members: &Map<String, Json>,
    before: usize,
) -> Result<usize, AllocError> {
    let mut count = before;
    for field in fields {
        if let Some(json) = members.get(field.name.as_str()) {
            page.begin(count)?;
            put_name(alloc, page, field.name.as_str())?;
            put_json(alloc, page, &field.ty, json)?;
            count = count.saturating_add(1);
        }
    }
    Ok(count)
}

/// Writes the member for the chosen alternative. `before` is how many members were written before.
#[cycle(declared)]
fn put_chosen(
    alloc: Global,
    page: &mut Page,
    alternatives: &[Alt],
    members: &Map<String, Json>,
    before: usize,
) -> Result<usize, AllocError> {
    let mut count = before;
    for alternative in alternatives {
        if let Some(json) = members.get(alternative.name.as_str()) {
            page.begin(count)?;
            put_name(alloc, page, alternative.name.as_str())?;
            put_json(alloc, page, &alternative.ty, json)?;
            count = count.saturating_add(1);
        }
    }
    Ok(count)
}

/// Writes the name of a member and its colon.
fn put_name(alloc: Global, page: &mut Page, name: &str) -> Result<(), AllocError> {
    let colon = if page.is_pretty { ": " } else { ":" };
    let name = Json::try_from_str(alloc, name)?;
    put_whole(alloc, page, &name)?;
    page.text.push_str(colon)?;
    Ok(())
}

/// Writes the JSON on one line.
fn put_whole(alloc: Global, page: &mut Page, json: &Json) -> Result<(), AllocError> {
    let text = json.to_string(alloc)?;
    page.text.push_str(text.as_str())?;
    Ok(())
}
