//! Published modules as one module of the profile.
use crate::kept::{constrained_of, lines_of_flattened};
use crate::sources::MOST;
use crate::stop::Stop;
use crate::texts::{texts_of, views_of};
use asn_published::{
    Flattened, Options, PublishedFault, Status, TypeReport, flatten_type_within, flatten_within,
    missing_json, missing_text, report_json, report_text, summary_of,
};
use asn_request::request::Form;
use std::alloc::{AllocError, Global};

/// Writes the module that the published modules of these files become to standard output, and what became of each type
/// to standard error; where a type is named, of this one and those that it leads to alone. The constraints of a module of
/// the profile stay. The exit status is 0, or 1 where a type is refused.
pub fn flatten_files<'a>(
    rt: &HostRuntime,
    files: &[&'a str],
    type_name: &Option<String>,
    options: Options,
    form: Form,
) -> Result<u8, Stop<'a>> {
    let texts = texts_of(rt, files)?;
    let views = views_of(rt, texts.as_slice())?;
    let views = views.as_slice();
    let flattened = match type_name {
        Some(name) => type_flattened(rt, files, views, name.as_str(), options)?,
        None => flattened_of(rt, files, views, options)?,
    };
    let told = told_in(rt.alloc(), files, &flattened, form)?;
    let text = match text_of(rt.alloc(), views, &flattened) {
        Ok(text) => text,
        Err(fault) => return Err(Stop::of(files, fault)),
    };
    write_both(rt, text.as_str(), told.as_str())?;
    Ok(flatten_ending(flattened.report.as_slice()))
}

/// The module of the type of a name, and of those that it leads to, in the published modules of these files.
fn type_flattened<'a>(
    rt: &HostRuntime,
    files: &[&'a str],
    texts: &[&str],
    name: &str,
    options: Options,
) -> Result<Flattened, Stop<'a>> {
    match flatten_type_within(rt.alloc(), texts, options, name, MOST) {
        Ok(flattened) if !is_told_of(flattened.report.as_slice(), name) => {
            Err(Stop::NoType(String::from_str(rt.alloc(), name)?))
        }
        Ok(flattened) => Ok(flattened),
        Err(fault) => Err(Stop::of(files, fault)),
    }
}

/// Whether there is a type of this name, refused or not.
fn is_told_of(report: &[TypeReport], name: &str) -> bool {
    report.iter().any(|one| *one.name.as_str() == *name)
}

/// The module that the published modules of these files become.
fn flattened_of<'a>(
    rt: &HostRuntime,
    files: &[&'a str],
    texts: &[&str],
    options: Options,
) -> Result<Flattened, Stop<'a>> {
    match flatten_within(rt.alloc(), texts, options, MOST) {
        Ok(flattened) => Ok(flattened),
        Err(fault) => Err(Stop::of(files, fault)),
    }
}

/// The text of a module, with a line for the constraint of each type that has one.
fn text_of(alloc: Global, texts: &[&str], flattened: &Flattened) -> Result<String, PublishedFault> {
    let own = constrained_of(alloc, texts)?;
    let lines = lines_of_flattened(alloc, flattened, &own)?;
    Ok(lines.put_into(alloc, flattened.text.as_str())?)
}

/// Writes the one text to standard output, and the other to standard error.
fn write_both(rt: &HostRuntime, text: &str, told: &str) -> Result<(), Stop<'static>> {
    if let Err(fault) = rt.print(text) {
        return Err(Stop::of_print(&fault));
    }
    match rt.eprint(told) {
        Ok(()) => Ok(()),
        Err(_) => Err(Stop::Write),
    }
}

/// The modules that are not given, and what became of the types, in this form.
fn told_in(
    alloc: Global,
    files: &[&str],
    flattened: &Flattened,
    form: Form,
) -> Result<String, AllocError> {
    let missing = flattened.missing.as_slice();
    let mut told = match form {
        Form::Summary | Form::Text => missing_text(alloc, files, missing)?,
        Form::Json => missing_json(alloc, files, missing)?,
    };
    let report = report_in(alloc, files, flattened.report.as_slice(), form)?;
    told.push_str(report.as_str())?;
    Ok(told)
}

/// What became of the types, in this form.
fn report_in(
    alloc: Global,
    files: &[&str],
    report: &[TypeReport],
    form: Form,
) -> Result<String, AllocError> {
    match form {
        Form::Summary => summary_of(alloc, report),
        Form::Text => report_text(alloc, files, report),
        Form::Json => report_json(alloc, files, report),
    }
}

/// The exit status: 1 where a type is refused.
fn flatten_ending(report: &[TypeReport]) -> u8 {
    if report.iter().any(|one| one.status == Status::Refused) {
        1
    } else {
        0
    }
}
