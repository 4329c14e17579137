//! What is shown of a module: its types, values of a type to begin from, and messages field by field.
use crate::broken_parts::broken_words;
use crate::containing::MessageType;
use crate::examples::example_within;
use crate::fault::ShowFault;
use crate::field_lines::{Shown, show_messages};
use asn_constraints::judge_at;
use asn_examples::value_within;
use asn_fields::outline;
use asn_module::Module;
use asn_request::asking::Asking;
use asn_request::look::{Look, Looking};
use asn_values::Checked;
use std::alloc::AllocError;
use std::io::BufRead;

/// The most parts of an example, and entries of the value of a line of JSON, unless `--budget` says otherwise.
pub const MOST_ENTRIES: u32 = 1_000_000;

/// The most fields of a message, unless `--budget` says otherwise.
const MOST_FIELDS: u32 = 100_000;

/// Shows what is asked for of a module, and gives the exit status; `None` if it has no type of the name, and nothing is
/// shown. `messages` is the type that is named with its constraint and contents, if it has some.
///
/// # Errors
/// Where reading, writing or memory failed.
pub fn show_of<'a, R: BufRead>(
    rt: &HostRuntime,
    look: &Look,
    module: &Module,
    messages: Option<&MessageType>,
    asking: &Asking<'a>,
    lines: &mut R,
) -> Result<Option<u8>, ShowFault<'a>> {
    let Some(name) = &look.type_name else {
        return Ok(Some(show_names(rt, module)?));
    };
    let name = name.as_str();
    match module.type_named(name) {
        Some(ty) => {
            let status = show_type(rt, look, name, ty, messages, asking, lines)?;
            Ok(Some(status))
        }
        None => Ok(None),
    }
}

/// Shows what is asked for of this type.
fn show_type<'a, R: BufRead>(
    rt: &HostRuntime,
    look: &Look,
    name: &str,
    ty: &Checked,
    messages: Option<&MessageType>,
    asking: &Asking<'a>,
    lines: &mut R,
) -> Result<u8, ShowFault<'a>> {
    match look.what {
        Looking::Fields => {
            let shown = Shown {
                ty,
                name,
                messages,
                rules: look.rules,
                forms: asking.forms,
                is_page: look.is_page,
                is_explained: asking.is_explained,
                most: asking.budget.unwrap_or(MOST_FIELDS),
            };
            show_messages(rt, shown, asking.messages.as_slice(), lines)
        }
        Looking::Types => {
            written(rt, outline(rt.alloc(), name, ty)?.as_str())?;
            Ok(0)
        }
        Looking::Example => {
            let most = asking.budget.unwrap_or(MOST_ENTRIES);
            show_examples(rt, look, ty, messages, most)
        }
    }
}

/// Writes the names of the types, a line each.
fn show_names<'a>(rt: &HostRuntime, module: &Module) -> Result<u8, ShowFault<'a>> {
    let mut text = String::new(rt.alloc());
    for name in module.type_names() {
        text.push_str(name)?;
        text.push_str("\n")?;
    }
    written(rt, text.as_str())?;
    Ok(0)
}

/// Writes as many values as are asked for, a line each: those of the seed and of the numbers after it, from 0 where none is
/// given; where neither a seed nor a count is given, the least value. Gives the exit status: 1 where a value takes more
/// than `most` entries, and none is written after it.
fn show_examples<'a>(
    rt: &HostRuntime,
    look: &Look,
    ty: &Checked,
    messages: Option<&MessageType>,
    most: u32,
) -> Result<u8, ShowFault<'a>> {
    let Look { seed, count, .. } = *look;
    if seed.is_none() && count.is_none() {
        return show_example(rt, ty, messages, None, most);
    }
    let first = u64::from(seed.unwrap_or(0));
    for later in 0..u64::from(count.unwrap_or(1)) {
        let status = show_example(rt, ty, messages, Some(first.saturating_add(later)), most)?;
        if status > 0 {
            return Ok(status);
        }
    }
    Ok(0)
}

/// Writes the value of a seed, or the least one, and gives the exit status. Standard error says what of the value is
/// wrong.
fn show_example<'a>(
    rt: &HostRuntime,
    ty: &Checked,
    messages: Option<&MessageType>,
    seed: Option<u64>,
    most: u32,
) -> Result<u8, ShowFault<'a>> {
    match example_within(rt.alloc(), ty, seed, u64::from(most))? {
        Some(line) => {
            written(rt, line.as_str())?;
            tell_wrong(rt, ty, messages, seed, most)?;
            Ok(0)
        }
        None => {
            let _ = eprintln!(rt;
                "the value has more than {most} components, elements and items of strings; --budget N allows N"
            );
            Ok(1)
        }
    }
}

/// Says on standard error what of the value of a seed, or of the least one, breaks the constraint, or has to be an encoding.
fn tell_wrong(
    rt: &HostRuntime,
    ty: &Checked,
    messages: Option<&MessageType>,
    seed: Option<u64>,
    most: u32,
) -> Result<(), AllocError> {
    let Some(messages) = messages else {
        return Ok(());
    };
    let Some(value) = value_within(rt.alloc(), ty, seed, u64::from(most))? else {
        return Ok(());
    };
    let constraint = messages.constrained().constraint();
    if let Some(broken) = judge_at(rt.alloc(), constraint, &value)? {
        let words = broken_words(rt.alloc(), ty.get(), &broken)?;
        let _ = eprintln!(rt; "change the value before you encode it: {words}");
    }
    if let Some(path) = messages.first_contents(rt.alloc(), &value)? {
        let _ = eprintln!(rt;
            "change the value before you encode it: {path} has to be an encoding"
        );
    }
    Ok(())
}

/// Writes to standard output.
pub fn written<'a>(rt: &HostRuntime, text: &str) -> Result<(), ShowFault<'a>> {
    match rt.print(text) {
        Ok(()) => Ok(()),
        Err(fault) => Err(ShowFault::of_print(&fault)),
    }
}
