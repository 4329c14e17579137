//! The input of a job, and what is told on standard error of its module.
use crate::published::Published;
use crate::refused::{advice_told, line_told, text_told};
use crate::sources::{Instead, input_with, instead_of};
use crate::stop::Stop;
use crate::terminal::printable;
use crate::texts::{texts_of, views_of};
use asn_jobs::Job;
use asn_published::{Options, PublishedFault};
use asn_request::asking::Asking;
use std::alloc::AllocError;
use std::io::IsTerminal;

/// Whether standard error says why a module is refused: where that is asked for, or standard error is a terminal.
pub fn tells_of_module(rt: &HostRuntime, asking: &Asking<'_>) -> bool {
    asking.is_explained || rt.stderr().is_terminal()
}

/// The octets that a job reads instead of standard input, what its published type has in addition to the type of the profile,
/// and whether no type of its module is refused.
#[derive(Drop)]
pub struct Input {
    pub octets: Vec<u8>,
    pub published: Published,
    pub is_whole: bool,
}

/// The input of a job whose standard input is these octets, with its module in front; the remarks on published modules
/// go to standard error.
///
/// # Errors
/// Those of `instead_of`.
pub fn input_given(
    rt: &HostRuntime,
    given: Vec<u8>,
    options: Options,
    job: &Job,
    is_told: bool,
) -> Result<Input, Stop<'static>> {
    let Instead {
        octets,
        remarks,
        published,
        is_whole,
    } = instead_of(rt.alloc(), given.as_slice(), options, job)?;
    tell_remarks(rt, remarks.as_str(), is_told)?;
    Ok(Input {
        octets: octets.unwrap_or(given),
        published,
        is_whole,
    })
}

/// The input of a job whose module is that of the files, up to the line ====; the remarks on published modules go to
/// standard error, and the line of a fault too, where that is asked for. There is none where the job is to print the
/// module, and a type is refused.
///
/// # Errors
/// Where a file is not read, or the texts become no module.
pub fn input_of_files<'a>(
    rt: &HostRuntime,
    files: &[&'a str],
    options: Options,
    job: &Job,
    is_told: bool,
) -> Result<Option<Input>, Stop<'a>> {
    let texts = texts_of(rt, files)?;
    let views = views_of(rt, texts.as_slice())?;
    let views = views.as_slice();
    match input_with(rt.alloc(), files, views, b"".as_slice(), options, job) {
        Ok(
            Instead {
                octets,
                remarks,
                published,
                is_whole,
            },
        ) => {
            tell_remarks(rt, remarks.as_str(), is_told)?;
            match octets {
                Some(octets) => Ok(Some(Input {
                    octets,
                    published,
                    is_whole,
                })),
                None => Ok(None),
            }
        }
        Err(fault) => Err(stop_told(rt, files, views, fault, is_told)),
    }
}

/// Writes the remarks on published modules to standard error, and where that is asked for, what can be done about them.
fn tell_remarks(rt: &HostRuntime, remarks: &str, is_told: bool) -> Result<(), AllocError> {
    let _ = rt.eprint(remarks);
    if is_told {
        let advice = advice_told(rt.alloc(), remarks)?;
        let _ = rt.eprint(advice.as_str());
    }
    Ok(())
}

/// Why the texts of these files become no module, after the line of the fault, where that is told.
fn stop_told<'a>(
    rt: &HostRuntime,
    files: &[&'a str],
    texts: &[&str],
    fault: PublishedFault,
    is_told: bool,
) -> Stop<'a> {
    if is_told && tell_line(rt, texts, &fault).is_err() {
        return Stop::Memory;
    }
    Stop::of(files, fault)
}

/// Writes the line of a fault in one of these texts to standard error.
fn tell_line(rt: &HostRuntime, texts: &[&str], fault: &PublishedFault) -> Result<(), AllocError> {
    let PublishedFault::Text { text, line, .. } = fault else {
        return Ok(());
    };
    let Some(text) = texts.get(*text) else {
        return Ok(());
    };
    let told = line_told(rt.alloc(), *text, *line)?;
    tell(rt, told.as_str())
}

/// Writes words that have a stranger's text in them to standard error.
fn tell(rt: &HostRuntime, words: &str) -> Result<(), AllocError> {
    let shown = printable(rt.alloc(), words)?;
    let _ = rt.eprint(shown.as_str());
    Ok(())
}

/// Writes to standard error what `text_told` says of the text of the module of a job, as `printable` has it.
///
/// # Errors
/// `Memory` where an allocation failed.
pub fn tell_text(
    rt: &HostRuntime,
    text: &[u8],
    options: Options,
    job: &Job,
    is_all: bool,
) -> Result<(), Stop<'static>> {
    let told = text_told(rt.alloc(), text, options, job, is_all)?;
    Ok(tell(rt, told.as_str())?)
}
