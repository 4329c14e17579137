//! Why a module is refused, with its line and a mark under it, and why a text has no messages.
use crate::sources::flattened_for;
use crate::texts::line_of_octet;
use asn_jobs::Job;
use asn_module::{Module, ModuleFault, RefusedText, read_explained};
use asn_published::{NotText, Options, PublishedFault, text_of_octets};
use std::alloc::{AllocError, Global};

/// What is said where a text imports from modules that are not given.
const ONE_OF_SEVERAL: &str = "\
The text is one of several: it imports types from modules that are not given. Give the texts of all of them, one after
the other in front of the line ====, or as files, --module FILE FILE ..
";

/// What is said where a recursive type is refused.
const LEVELS: &str = "\
With --levels N a recursive type has N levels: messages are read in which it stands in itself N - 1 times.
";

/// What is said where a type is refused of which the content can be had.
const OCTETS: &str = "\
With --octets OBJECT IDENTIFIER, REAL and strings of other characters are an OCTET STRING of their content.
";

/// The ends of remarks, and what is said, once, where one of them stands among the remarks on published modules.
const ADVICE: [(&str, &str); 5] = [
    (": a module that is not given\n", ONE_OF_SEVERAL),
    (": recursion\n", LEVELS),
    (": OBJECT IDENTIFIER is no type of the profile\n", OCTETS),
    (": REAL is no type of the profile\n", OCTETS),
    ("String is no type of the profile\n", OCTETS),
];

/// How many types of a module are named where it has none of a name.
const MOST_NAMES: usize = 100;

/// What is said where no line is the mark.
const NO_MARK: &str = "\
No line is ====, which ends the text of the module: so all is that text, and there are no messages.
";

/// What is said where the mark is not alone on its line.
const NOT_ALONE: &str = "\
A line that ends in ==== is not ==== alone, so it does not end the text of the module.
";

/// What is said where the line of the mark ends in a carriage return.
const CARRIAGE_RETURN: &str = "\
The line ==== ends in a carriage return, so it does not end the text of the module: only ==== and a line feed do.
";

/// What is to be said in addition to the remarks on published modules: that a text is one of several, and the options
/// by which what is refused is taken.
///
/// # Errors
/// `AllocError` where an allocation failed.
pub fn advice_told(alloc: Global, remarks: &str) -> Result<String, AllocError> {
    let mut told = String::new(alloc);
    for (remark, advice) in &ADVICE {
        if remarks.contains(*remark) && !told.as_str().contains(*advice) {
            told.push_str(*advice)?;
        }
    }
    Ok(told)
}

/// What is to be said of the text of the module of a job: why it is refused, with its line and a mark under it, or
/// which types it has where it has none of the name. Where all of standard input is that text, it says why it has no
/// messages.
///
/// # Errors
/// `AllocError` where an allocation failed.
pub fn text_told(
    alloc: Global,
    text: &[u8],
    options: Options,
    job: &Job,
    is_all: bool,
) -> Result<String, AllocError> {
    let mut octets = Vec::new(alloc);
    octets.extend_from_slice(text)?;
    match text_of_octets(alloc, octets) {
        Ok(text) => words_told(alloc, text.as_str(), options, job, is_all),
        Err(NotText { line, column }) => {
            format!(in alloc; "line {line}, column {column}: not UTF-8\n")
        }
    }
}

/// The same of a text.
fn words_told(
    alloc: Global,
    text: &str,
    options: Options,
    job: &Job,
    is_all: bool,
) -> Result<String, AllocError> {
    let words = module_told(alloc, text, options, job)?;
    if !is_all || matches!(job, Job::Module) {
        return Ok(words);
    }
    let mut told = String::from_str(alloc, mark_words(text))?;
    told.push_str(words.as_str())?;
    Ok(told)
}

/// Why the text is refused, or which types its module has where it has none of the name.
fn module_told(
    alloc: Global,
    text: &str,
    options: Options,
    job: &Job,
) -> Result<String, AllocError> {
    match read_explained(alloc, text) {
        Ok(module) => type_told(alloc, &module, job),
        Err(refused) => refusal_told(alloc, text, options, job, &refused),
    }
}

/// Why no line of a text is the mark.
fn mark_words(text: &str) -> &'static str {
    for line in text.split('\n') {
        if *line == *"====\r" {
            return CARRIAGE_RETURN;
        }
        if line.trim_end().ends_with("====") {
            return NOT_ALONE;
        }
    }
    NO_MARK
}

/// The types of the module, the first MOST_NAMES of them, where it has none of the name that the job has; nothing where
/// it has no types.
fn type_told(alloc: Global, module: &Module, job: &Job) -> Result<String, AllocError> {
    let Job::Lines { type_name, .. } = job else {
        return Ok(String::new(alloc));
    };
    if module.type_named(type_name.as_str()).is_some() || module.type_names().next().is_none() {
        return Ok(String::new(alloc));
    }
    let mut told = String::from_str(alloc, "The types of the module:")?;
    for (index, name) in module.type_names().enumerate() {
        if index == MOST_NAMES {
            told.push_str(" .. (`types` names all)")?;
            break;
        }
        told.push(' ')?;
        told.push_str(name)?;
    }
    told.push('\n')?;
    Ok(told)
}

/// Why a text is no module of the profile: what the reader of published modules says where it came further.
fn refusal_told(
    alloc: Global,
    text: &str,
    options: Options,
    job: &Job,
    refused: &RefusedText,
) -> Result<String, AllocError> {
    let RefusedText { fault, words } = refused;
    if let ModuleFault::Memory = fault {
        return Err(AllocError);
    }
    let own_line = line_of(text, fault);
    match (own_line, published_line(alloc, text, options, job)?) {
        (Some(own), Some(line)) if own < line => line_told(alloc, text, line),
        (Some(_), None) => Ok(String::new(alloc)),
        _ => format!(in alloc; "{words}\n"),
    }
}

/// The line, counted from 1, at which the reader of published modules finds a fault of the notation; 0 where what it
/// reads is not taken, and `None` where it is.
fn published_line(
    alloc: Global,
    text: &str,
    options: Options,
    job: &Job,
) -> Result<Option<u32>, AllocError> {
    match flattened_for(alloc, &[text], options, job) {
        Ok(_) => Ok(None),
        Err(fault) => Ok(Some(fault_line(&fault)?)),
    }
}

/// The line of a fault of the notation, counted from 1; 0 of another, but for want of memory.
fn fault_line(fault: &PublishedFault) -> Result<u32, AllocError> {
    match fault {
        PublishedFault::Text { line, .. } => Ok(*line),
        PublishedFault::Unread(_) | PublishedFault::TooLarge { .. } => Ok(0),
        PublishedFault::Memory => Err(AllocError),
    }
}

/// The line, counted from 1, of a fault that has a place.
fn line_of(text: &str, fault: &ModuleFault) -> Option<u32> {
    match fault {
        ModuleFault::Character { at } | ModuleFault::Unexpected { at } => {
            Some(line_of_octet(text.as_bytes(), *at))
        }
        _ => None,
    }
}

/// The line of this number, counted from 1, of a text, behind its number.
pub fn line_told(alloc: Global, text: &str, number: u32) -> Result<String, AllocError> {
    let line = line_at(text, number);
    format!(in alloc; "{number} | {line}\n")
}

/// The line of this number, counted from 1; an empty one after the last.
fn line_at(text: &str, number: u32) -> &str {
    let mut count: u32 = 0;
    for line in text.lines() {
        count = count.saturating_add(1);
        if count == number {
            return line;
        }
    }
    ""
}
