//! Messages field by field.
use crate::broken_parts::{WrongPart, lines_marked, wrong_part};
use crate::containing::MessageType;
use crate::explaining::why_refused;
use crate::fault::ShowFault;
use crate::fronts::front_len;
use crate::looking::written;
use crate::named_fields::fields_within_by;
use crate::streams::{Next, next_message};
use asn_fields::{PAGE_END, page_head, page_note};
use asn_jobs::{
    OFFSETS, OctetForm, Order, Place, RuleName, RunFault, dump_fault_text, is_dump, next_text,
    octets_in, place_text,
};
use asn_request::asking::Forms;
use asn_values::Checked;
use hex::FromHexError;
use std::alloc::{AllocError, Global};
use std::fs;
use std::io::{BufRead, BufReader, ErrorKind};

/// How messages are shown.
#[derive(Clone, Copy)]
pub struct Shown<'t> {
    /// The type of the messages, and its name.
    pub ty: &'t Checked,
    pub name: &'t str,
    /// The type with its constraint and contents, if it has some.
    pub messages: Option<&'t MessageType>,
    pub rules: RuleName,
    pub forms: Forms,
    /// Whether they are shown as a page of HTML.
    pub is_page: bool,
    /// Whether standard error says why a message is refused.
    pub is_explained: bool,
    /// The most fields that a message may have.
    pub most: u32,
}

/// What was shown so far.
#[derive(Drop)]
struct SoFar {
    /// How many messages.
    count: u64,
    /// Whether each is the encoding of a value.
    all_good: bool,
}

/// Shows the messages of the files, or of these lines if there are none. Returns 0, or 1 if one is no message.
pub fn show_messages<'a, R: BufRead>(
    rt: &HostRuntime,
    shown: Shown<'_>,
    files: &[&'a str],
    lines: &mut R,
) -> Result<u8, ShowFault<'a>> {
    let mut so_far = SoFar {
        count: 0,
        all_good: true,
    };
    if shown.is_page {
        written(rt, page_head(rt.alloc(), shown.name)?.as_str())?;
    }
    if files.is_empty() {
        show_input(rt, shown, "", lines, &mut so_far)?;
    }
    for file in files {
        show_file(rt, shown, *file, &mut so_far)?;
    }
    if shown.is_page {
        written(rt, PAGE_END)?;
    }
    Ok(if so_far.all_good { 0 } else { 1 })
}

/// Shows the messages of this file.
fn show_file<'a>(
    rt: &HostRuntime,
    shown: Shown<'_>,
    file: &'a str,
    so_far: &mut SoFar,
) -> Result<(), ShowFault<'a>> {
    let opened = match fs::open(rt, file) {
        Ok(opened) => opened,
        Err(fault) if fault.kind() == ErrorKind::OutOfMemory => return Err(ShowFault::Memory),
        Err(_) => return Err(ShowFault::Unread(file)),
    };
    let Ok(mut input) = BufReader::new(rt.alloc(), opened) else {
        return Err(ShowFault::Memory);
    };
    show_input(rt, shown, file, &mut input, so_far)
}

/// Shows the messages of an input, whose name is that of its file, or empty for standard input.
fn show_input<'a, R: BufRead>(
    rt: &HostRuntime,
    shown: Shown<'_>,
    file: &'a str,
    input: &mut R,
    so_far: &mut SoFar,
) -> Result<(), ShowFault<'a>> {
    if shown.forms.is_split && shown.forms.given == Some(OctetForm::Binary) {
        return show_stream(rt, shown, file, input, so_far);
    }
    let mut text = Vec::new(rt.alloc());
    let mut lines = 0;
    for _ in 0..u64::MAX {
        let line = match next_text(input, shown.forms.given, &mut text, &mut lines) {
            Ok(Some(line)) => line,
            Ok(None) => return Ok(()),
            Err(fault) => return Err(fault_in(file, fault)),
        };
        let place = Place {
            file,
            line,
            message: 0,
        };
        show_text(rt, shown, place, text.as_slice(), so_far)?;
    }
    // (more texts than 64 bits count)
    Err(ShowFault::Memory)
}

/// Shows the messages of an input, each as soon as its last octet is there. After a refusal nothing is read.
fn show_stream<'a, R: BufRead>(
    rt: &HostRuntime,
    shown: Shown<'_>,
    file: &'a str,
    input: &mut R,
    so_far: &mut SoFar,
) -> Result<(), ShowFault<'a>> {
    let mut octets = Vec::new(rt.alloc());
    for message in 1..u64::MAX {
        let next = match next_message(rt.alloc(), input, shown.ty, shown.rules, &mut octets) {
            Ok(next) => next,
            Err(fault) => return Err(fault_in(file, fault)),
        };
        if next == Next::End {
            return Ok(());
        }
        let place = Place {
            file,
            line: 1,
            message,
        };
        show_message(rt, shown, place, octets.as_slice(), so_far)?;
        if next == Next::Last {
            return Ok(());
        }
    }
    // (more messages than 64 bits count)
    Err(ShowFault::Memory)
}

/// The fault of an input, whose name is that of its file, or empty for standard input.
fn fault_in<'a>(file: &'a str, fault: RunFault) -> ShowFault<'a> {
    match fault {
        RunFault::Read if !file.is_empty() => ShowFault::Unread(file),
        fault => ShowFault::from(fault),
    }
}

/// Shows the message of a text, or the messages that stand in it one after the other.
fn show_text<'a>(
    rt: &HostRuntime,
    shown: Shown<'_>,
    place: Place<'_>,
    text: &[u8],
    so_far: &mut SoFar,
) -> Result<(), ShowFault<'a>> {
    let form = match shown.forms.given {
        Some(form) => form,
        None => OctetForm::Hex,
    };
    if is_dump(form, text) {
        let place_words = place_text(rt.alloc(), place)?;
        let _ = eprintln!(rt; "{place_words}: {OFFSETS}");
        return show_none(rt, shown, place, so_far);
    }
    let Some(octets) = octets_of(rt.alloc(), shown.forms, text)? else {
        if form == OctetForm::Dump {
            let words = dump_fault_text(rt.alloc(), place, text)?;
            let _ = eprintln!(rt; "{words}");
        }
        return show_none(rt, shown, place, so_far);
    };
    if shown.forms.is_split {
        show_each(rt, shown, place, octets.as_slice(), so_far)
    } else {
        show_message(rt, shown, place, octets.as_slice(), so_far)
    }
}

/// Shows messages that stand one after the other: each begins where the last ended.
fn show_each<'a>(
    rt: &HostRuntime,
    shown: Shown<'_>,
    place: Place<'_>,
    octets: &[u8],
    so_far: &mut SoFar,
) -> Result<(), ShowFault<'a>> {
    let mut rest = octets;
    for message in 1..u64::MAX {
        if rest.is_empty() {
            return Ok(());
        }
        let length = front_len(rt.alloc(), shown.ty, shown.rules, rest)?;
        let (front, later) = rest.split_at(length);
        let Place { file, line, .. } = place;
        let here = Place {
            file,
            line,
            message,
        };
        show_message(rt, shown, here, front, so_far)?;
        rest = later;
    }
    Ok(())
}

/// The octets of a text of this form, if it is one.
fn octets_of<'a>(
    alloc: Global,
    forms: Forms,
    text: &[u8],
) -> Result<Option<Vec<u8>>, ShowFault<'a>> {
    match forms.given {
        Some(form) => Ok(octets_in(alloc, form, text)?),
        None if forms.is_split => Ok(octets_in(alloc, OctetForm::Hex, text)?),
        None => match hex::decode(alloc, text) {
            Ok(octets) => Ok(Some(octets)),
            Err(FromHexError::OutOfMemory) => Err(ShowFault::Memory),
            Err(_) => Ok(None),
        },
    }
}

/// Tells that a text has no octets of its form.
fn show_none<'a>(
    rt: &HostRuntime,
    shown: Shown<'_>,
    place: Place<'_>,
    so_far: &mut SoFar,
) -> Result<(), ShowFault<'a>> {
    let refusal = match shown.forms.given {
        Some(OctetForm::Base64) => "! base64",
        Some(OctetForm::Dump) => "! dump",
        _ => "! hex",
    };
    let text = if shown.is_page {
        page_note(rt.alloc(), place_text(rt.alloc(), place)?.as_str(), refusal)?
    } else {
        format!(in rt.alloc(); "{refusal}\n")?
    };
    so_far.all_good = false;
    put(rt, shown, text.as_str(), so_far)
}

/// Shows the message that these octets are to be.
fn show_message<'a>(
    rt: &HostRuntime,
    shown: Shown<'_>,
    place: Place<'_>,
    octets: &[u8],
    so_far: &mut SoFar,
) -> Result<(), ShowFault<'a>> {
    let Some((text, is_good)) = message_text(rt.alloc(), shown, place, octets)? else {
        return show_over(rt, shown, place, so_far);
    };
    if let (true, Some(messages)) = (is_good, shown.messages) {
        if let Some(wrong) = wrong_part(rt.alloc(), messages, shown.rules, octets)? {
            return show_wrong(rt, shown, place, text.as_str(), &wrong, so_far);
        }
    }
    so_far.all_good &= is_good;
    put(rt, shown, text.as_str(), so_far)?;
    if !is_good && shown.is_explained {
        tell_why(rt, shown, place, octets)?;
    }
    Ok(())
}

/// Shows a message of which a part is wrong: the part is marked, and a line says why the message is refused.
fn show_wrong<'a>(
    rt: &HostRuntime,
    shown: Shown<'_>,
    place: Place<'_>,
    text: &str,
    wrong: &WrongPart,
    so_far: &mut SoFar,
) -> Result<(), ShowFault<'a>> {
    let alloc = rt.alloc();
    let refusal = wrong.refusal.as_str();
    let mut all = if shown.is_page {
        String::from_str(alloc, text)?
    } else {
        lines_marked(alloc, text, wrong.path.as_str(), wrong.reason.as_str())?
    };
    let end = if shown.is_page {
        page_note(alloc, place_text(alloc, place)?.as_str(), refusal)?
    } else {
        format!(in alloc; "{refusal}\n")?
    };
    all.push_str(end.as_str())?;
    so_far.all_good = false;
    put(rt, shown, all.as_str(), so_far)
}

/// Refuses a message that has too many fields.
fn show_over<'a>(
    rt: &HostRuntime,
    shown: Shown<'_>,
    place: Place<'_>,
    so_far: &mut SoFar,
) -> Result<(), ShowFault<'a>> {
    let most = shown.most;
    let place = place_text(rt.alloc(), place)?;
    let refusal = format!(in rt.alloc(); "! over budget: more than {most} fields")?;
    let text = if shown.is_page {
        page_note(rt.alloc(), place.as_str(), refusal.as_str())?
    } else {
        format!(in rt.alloc(); "{refusal}\n")?
    };
    let _ = eprintln!(rt; "{place}: the message has more than {most} fields; --budget N allows N");
    so_far.all_good = false;
    put(rt, shown, text.as_str(), so_far)
}

/// What is shown of these octets, and whether they are a message. `None` if it has too many fields.
fn message_text(
    alloc: Global,
    shown: Shown<'_>,
    place: Place<'_>,
    octets: &[u8],
) -> Result<Option<(String, bool)>, AllocError> {
    let most = shown.most as usize;
    let Some(told) = fields_within_by(alloc, shown.ty, shown.rules, octets, most)? else {
        return Ok(None);
    };
    let text = if shown.is_page {
        told.section(alloc, place_text(alloc, place)?.as_str(), octets)?
    } else {
        told.lines(alloc, octets)?
    };
    Ok(Some((text, told.answer.is_ok())))
}

/// Tells on standard error why these octets are no message.
fn tell_why(
    rt: &HostRuntime,
    shown: Shown<'_>,
    place: Place<'_>,
    octets: &[u8],
) -> Result<(), AllocError> {
    let alloc = rt.alloc();
    let digits = hex::encode(alloc, octets)?;
    let words = why_refused(alloc, shown.ty, Order::Show, shown.rules, digits.as_bytes())?;
    let place = place_text(alloc, place)?;
    let _ = eprintln!(rt; "{place}: {words}");
    Ok(())
}

/// Writes what is shown of one more message, as lines after an empty line.
fn put<'a>(
    rt: &HostRuntime,
    shown: Shown<'_>,
    text: &str,
    so_far: &mut SoFar,
) -> Result<(), ShowFault<'a>> {
    if so_far.count > 0 && !shown.is_page {
        written(rt, "\n")?;
    }
    so_far.count = so_far.count.saturating_add(1);
    written(rt, text)
}
