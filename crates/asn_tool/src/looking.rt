//! What is shown of the module of files or of standard input.
use crate::demands::{Demands, messages_of};
use crate::running::run_on;
use asn_convert::{Job, Order, cut_input, read_all};
use asn_look::{MessageType, ShowFault, show_of};
use asn_module::Module;
use asn_module_files::{
    Input, Published, Stop, input_given, input_of_files, module_of, tell_text, tells_of_module,
};
use asn_published::Options;
use asn_request::asking::Asking;
use asn_request::look::{Look, Looking};
use asn_rules::Counted;
use std::alloc::{AllocError, Global};
use std::io::{BufRead, BufReader};

/// Shows what is asked for of the module of the files, or of standard input where there are none. Gives the exit status.
pub fn show<'a>(
    rt: &HostRuntime,
    look: &Look,
    files: &[&'a str],
    options: Options,
    asking: &Asking<'a>,
) -> Result<u8, Stop<'a>> {
    if let Some(words) = look.unserved() {
        return Err(Stop::Unserved(words));
    }
    let job = job_for(rt.alloc(), look)?;
    if files.is_empty() {
        show_given(rt, look, &job, options, asking)
    } else {
        show_with_files(rt, look, &job, files, options, asking)
    }
}

/// The job by whose rules the text of the module is read, and refused: one over lines of the type, or of no type where none
/// is named.
fn job_for(alloc: Global, look: &Look) -> Result<Job, AllocError> {
    let name = match &look.type_name {
        Some(name) => name.as_str(),
        None => "",
    };
    Ok(Job::Lines {
        order: Order::Show,
        type_name: String::from_str(alloc, name)?,
        rules: look.rules,
    })
}

/// Shows what is asked for, the module standing on standard input.
fn show_given<'a>(
    rt: &HostRuntime,
    look: &Look,
    job: &Job,
    options: Options,
    asking: &Asking<'a>,
) -> Result<u8, Stop<'a>> {
    let is_told = tells_of_module(rt, asking);
    let given = read_all(rt.alloc(), &mut Counted::new(rt.reader()))?;
    let Input {
        octets,
        published,
        is_whole,
    } = input_given(rt, given, options, job, is_told)?;
    let (text, lines) = cut_input(octets.as_slice());
    if is_told {
        let is_all = text.len() == octets.len()
            && look.what == Looking::Fields
            && asking.messages.is_empty();
        tell_of(rt, look, job, text, options, is_all)?;
    }
    let mut lines = lines;
    let status = show_or_refuse(rt, look, job, text, &published, asking, &mut lines)?;
    Ok(listed(look, status, is_whole))
}

/// Shows what is asked for, the module being that of the files.
fn show_with_files<'a>(
    rt: &HostRuntime,
    look: &Look,
    job: &Job,
    files: &[&'a str],
    options: Options,
    asking: &Asking<'a>,
) -> Result<u8, Stop<'a>> {
    let is_told = tells_of_module(rt, asking);
    let Some(
        Input {
            octets,
            published,
            is_whole,
        },
    ) = input_of_files(rt, files, options, job, is_told)?
    else {
        return Ok(2);
    };
    let (text, _) = cut_input(octets.as_slice());
    if is_told {
        tell_of(rt, look, job, text, options, false)?;
    }
    let Ok(mut lines) = BufReader::new(rt.alloc(), rt.reader()) else {
        return Err(Stop::Memory);
    };
    let status = show_or_refuse(rt, look, job, text, &published, asking, &mut lines)?;
    Ok(listed(look, status, is_whole))
}

/// The exit status of what was shown: 1 where all was well, and a list of the types leaves some out.
fn listed(look: &Look, status: u8, is_whole: bool) -> u8 {
    if status == 0 && look.type_name.is_none() && !is_whole {
        1
    } else {
        status
    }
}

/// Tells on standard error why the text of the module is refused, or has not the type that is named, and where all of
/// standard input is that text, why there are no messages.
fn tell_of(
    rt: &HostRuntime,
    look: &Look,
    job: &Job,
    text: &[u8],
    options: Options,
    is_all: bool,
) -> Result<(), Stop<'static>> {
    let of_module = Job::Module;
    let job = if look.type_name.is_some() {
        job
    } else {
        &of_module
    };
    tell_text(rt, text, options, job, is_all)
}

/// Shows what is asked for of the module that is this text; where it is none, or has no type of the name, the job on it
/// tells so.
fn show_or_refuse<'a, R: BufRead>(
    rt: &HostRuntime,
    look: &Look,
    job: &Job,
    text: &[u8],
    published: &Published,
    asking: &Asking<'a>,
    lines: &mut R,
) -> Result<u8, Stop<'a>> {
    let Some(module) = module_of(rt.alloc(), text)? else {
        return run_on(rt, job, text);
    };
    let messages = demanded(rt.alloc(), look, &module, published, asking)?;
    match show_of(rt, look, &module, messages.as_ref(), asking, lines) {
        Ok(Some(status)) => Ok(status),
        Ok(None) => run_on(rt, job, text),
        Err(fault) => Err(stop_of(fault)),
    }
}

/// The type that is named, with its constraint and contents, if it has some.
fn demanded(
    alloc: Global,
    look: &Look,
    module: &Module,
    published: &Published,
    asking: &Asking<'_>,
) -> Result<Option<MessageType>, AllocError> {
    let demands = Demands::of(asking, published);
    if demands.constraint.is_none() && !demands.has_contents {
        return Ok(None);
    }
    let Some(name) = &look.type_name else {
        return Ok(None);
    };
    match module.type_named(name.as_str()) {
        Some(ty) => Ok(Some(messages_of(alloc, module, ty, published)?)),
        None => Ok(None),
    }
}

/// Why the program stops where not all is shown.
fn stop_of(fault: ShowFault<'_>) -> Stop<'_> {
    match fault {
        ShowFault::Unread(file) => Stop::Unread(file),
        ShowFault::Read => Stop::Read,
        ShowFault::Write => Stop::Write,
        ShowFault::Closed => Stop::Closed,
        ShowFault::Memory => Stop::Memory,
    }
}
