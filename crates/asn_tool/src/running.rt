//! Jobs on standard input and output.
use crate::answering::{Answers, Asked};
use crate::demands::{Demands, messages_of};
use crate::messages::answer_input;
use asn_convert::{Job, Order, RunFault, Status, cut_input, read_all, run, run_on_lines};
use asn_jobs::{Piped, Progress, ending};
use asn_look::{Counts, MessageType};
use asn_module::Module;
use asn_module_files::{
    Input, Published, Stop, input_given, input_of_files, module_of, tell_text, tells_of_module,
};
use asn_published::Options;
use asn_request::asking::Asking;
use asn_rules::Counted;
use asn_values::Checked;
use std::alloc::AllocError;
use std::io::{BufRead, BufReader, BufWriter, ErrorKind, Write};
use std::{fs, io};

/// How many octets of answers are held back at once, until there is nothing more to be read.
const HELD: usize = 65536;

/// Does the job on standard input and output, its module being that of the files, or of standard input where there are
/// none. Gives the exit status.
pub fn run_job<'a>(
    rt: &HostRuntime,
    job: &Job,
    files: &[&'a str],
    options: Options,
    asking: &Asking<'a>,
) -> Result<u8, Stop<'a>> {
    if let Some(words) = asking.unserved(job) {
        return Err(Stop::Unserved(words));
    }
    if files.is_empty() {
        run_given(rt, job, options, asking)
    } else {
        run_with_files(rt, job, files, options, asking)
    }
}

/// Does the job, its module standing on standard input.
fn run_given<'a>(
    rt: &HostRuntime,
    job: &Job,
    options: Options,
    asking: &Asking<'a>,
) -> Result<u8, Stop<'a>> {
    let given = read_all(rt.alloc(), &mut Counted::new(rt.reader()))?;
    let Input {
        octets,
        published,
        ..
    } = input_given(rt, given, options, job, tells_of_module(rt, asking))?;
    run_text(rt, job, octets.as_slice(), options, asking, &published)
}

/// Does the job on these octets, the text of the module and the lines after the mark.
fn run_text<'a>(
    rt: &HostRuntime,
    job: &Job,
    octets: &[u8],
    options: Options,
    asking: &Asking<'a>,
    published: &Published,
) -> Result<u8, Stop<'a>> {
    let (text, lines) = cut_input(octets);
    if tells_of_module(rt, asking) {
        let is_all = text.len() == octets.len() && asking.messages.is_empty();
        tell_text(rt, text, options, job, is_all)?;
    }
    if let Some(status) = print_constrained(rt, text, published)? {
        return Ok(status);
    }
    let mut lines = lines;
    match run_asked(rt, job, text, asking, published, &mut lines)? {
        Some(status) => Ok(status),
        None => run_on(rt, job, octets),
    }
}

/// Prints the module of a text with the constraints of its types, where it is to be printed and a type has one. `None`, and
/// nothing is done, where that is not so.
fn print_constrained<'a>(
    rt: &HostRuntime,
    text: &[u8],
    published: &Published,
) -> Result<Option<u8>, Stop<'a>> {
    let Some(lines) = &published.lines else {
        return Ok(None);
    };
    if lines.is_empty() {
        return Ok(None);
    }
    let Some(module) = module_of(rt.alloc(), text)? else {
        return Ok(None);
    };
    let printed = module.print(rt.alloc())?;
    let text = lines.put_into(rt.alloc(), printed.as_str())?;
    match rt.print(text.as_str()) {
        Ok(()) => Ok(Some(0)),
        Err(fault) => Err(Stop::of_print(&fault)),
    }
}

/// The exit status of the job where more than lines of standard input is asked for: on the messages of the files, or on
/// these lines. `None`, and nothing is done, where it is not, or the text is no module with the type of the job.
fn run_asked<'a, R: BufRead>(
    rt: &HostRuntime,
    job: &Job,
    text: &[u8],
    asking: &Asking<'a>,
    published: &Published,
    lines: &mut R,
) -> Result<Option<u8>, Stop<'a>> {
    let demands = Demands::of(asking, published);
    if is_plain(job, asking) && demands.is_nothing() {
        return Ok(None);
    }
    let Some(module) = module_of(rt.alloc(), text)? else {
        return Ok(None);
    };
    match type_for(job, &module) {
        Some(ty) => {
            let messages = messages_of(rt.alloc(), &module, ty, published)?;
            run_for(rt, job, &messages, asking, demands, lines)
        }
        None => Ok(None),
    }
}

/// Whether the job is done as it is. Values of JSON have a bound on what they take.
fn is_plain(job: &Job, asking: &Asking<'_>) -> bool {
    let is_encode = matches!(
        job,
        Job::Lines {
            order: Order::Encode,
            ..
        }
    );
    asking.is_plain() && !is_encode
}

/// The same for this type.
fn run_for<'a, R: BufRead>(
    rt: &HostRuntime,
    job: &Job,
    messages: &MessageType,
    asking: &Asking<'a>,
    demands: Demands<'_>,
    lines: &mut R,
) -> Result<Option<u8>, Stop<'a>> {
    match Asked::of(asking, job, messages, demands) {
        Some(asked) => Ok(Some(answer_all(rt, asking, asked, lines)?)),
        None => Ok(None),
    }
}

/// The type that the module has of the name of a job over lines.
fn type_for<'m>(job: &Job, module: &'m Module) -> Option<&'m Checked> {
    match job {
        Job::Lines { type_name, .. } => module.type_named(type_name.as_str()),
        Job::Module => None,
    }
}

/// The exit status of the job, once the messages of the files, or these lines, are answered.
fn answer_all<'a, R: BufRead>(
    rt: &HostRuntime,
    asking: &Asking<'a>,
    asked: Asked<'_>,
    lines: &mut R,
) -> Result<u8, Stop<'a>> {
    let mut answers = Answers {
        output: Counted::new(Piped::new(io::writer(rt))),
        counts: Counts::new(rt.alloc()),
        progress: Progress::new(rt, asking.is_counted),
        has_unlooked: false,
    };
    let files = asking.messages.as_slice();
    let answer = if files.is_empty() {
        answer_input(rt, lines, &mut answers, "", asked)
    } else {
        answer_files(rt, &mut answers, files, asked)?
    };
    answers.progress.clear(rt);
    let answer = flushed(&mut answers.output, answer);
    if asking.is_counted && answer.is_ok() {
        tell_counts(rt, &answers.counts)?;
    }
    let has_unlooked = answers.has_unlooked;
    let status = ended(rt, &answer, answers.output.into_inner().is_closed());
    Ok(if status == 0 && has_unlooked {
        4
    } else {
        status
    })
}

/// Tells on standard error what was counted.
fn tell_counts(rt: &HostRuntime, counts: &Counts) -> Result<(), AllocError> {
    let told = counts.text(rt.alloc())?;
    let _ = rt.eprint(told.as_str());
    Ok(())
}

/// How a job ended whose messages were answered so, once the writer holds nothing back.
fn flushed<W: Write>(
    output: &mut Counted<W>,
    answer: Result<bool, RunFault>,
) -> Result<Status, RunFault> {
    let all_good = answer?;
    match output.flush() {
        Ok(()) if all_good => Ok(Status::Good),
        Ok(()) => Ok(Status::Marked),
        Err(_) => Err(RunFault::Write),
    }
}

/// Answers the messages of these files, and tells whether no answer is a refusal.
fn answer_files<'a, W: Write>(
    rt: &HostRuntime,
    answers: &mut Answers<W>,
    files: &[&'a str],
    asked: Asked<'_>,
) -> Result<Result<bool, RunFault>, Stop<'a>> {
    let mut all_good = true;
    for file in files {
        match answer_file(rt, answers, *file, asked)? {
            Ok(is_good) => all_good &= is_good,
            Err(RunFault::Read) => return Err(Stop::Unread(*file)),
            Err(fault) => return Ok(Err(fault)),
        }
    }
    Ok(Ok(all_good))
}

/// Answers the messages of this file.
fn answer_file<'a, W: Write>(
    rt: &HostRuntime,
    answers: &mut Answers<W>,
    file: &'a str,
    asked: Asked<'_>,
) -> Result<Result<bool, RunFault>, Stop<'a>> {
    let opened = match fs::open(rt, file) {
        Ok(opened) => opened,
        Err(fault) if fault.kind() == ErrorKind::OutOfMemory => return Err(Stop::Memory),
        Err(_) => return Err(Stop::Unread(file)),
    };
    let Ok(mut input) = BufReader::new(rt.alloc(), opened) else {
        return Err(Stop::Memory);
    };
    Ok(answer_input(rt, &mut input, answers, file, asked))
}

/// Does the job, its module being that of the files. The messages are answered as they come; where the module is to be
/// printed, standard input is not read.
fn run_with_files<'a>(
    rt: &HostRuntime,
    job: &Job,
    files: &[&'a str],
    options: Options,
    asking: &Asking<'a>,
) -> Result<u8, Stop<'a>> {
    match input_of_files(rt, files, options, job, tells_of_module(rt, asking))? {
        Some(
            Input {
                octets,
                published,
                ..
            },
        ) => run_coming(rt, job, octets.as_slice(), options, asking, &published),
        None => Ok(2),
    }
}

/// The exit status of the job on the messages of the files or of standard input, the text of its module and the mark being
/// the head, after the line on standard error, if there is one.
fn run_coming<'a>(
    rt: &HostRuntime,
    job: &Job,
    head: &[u8],
    options: Options,
    asking: &Asking<'a>,
    published: &Published,
) -> Result<u8, Stop<'a>> {
    let (text, _) = cut_input(head);
    if tells_of_module(rt, asking) {
        tell_text(rt, text, options, job, false)?;
    }
    if let Some(status) = print_constrained(rt, text, published)? {
        return Ok(status);
    }
    if !is_plain(job, asking) || !Demands::of(asking, published).is_nothing() {
        let Ok(mut lines) = BufReader::new(rt.alloc(), rt.reader()) else {
            return Err(Stop::Memory);
        };
        if let Some(status) = run_asked(rt, job, text, asking, published, &mut lines)? {
            return Ok(status);
        }
    }
    run_lines(rt, job, head)
}

/// The exit status of the job on the lines of standard input, as they come.
fn run_lines<'a>(rt: &HostRuntime, job: &Job, head: &[u8]) -> Result<u8, Stop<'a>> {
    let Ok(held) = BufWriter::with_capacity(rt.alloc(), HELD, Piped::new(io::writer(rt))) else {
        return Err(Stop::Memory);
    };
    let mut input = Counted::new(rt.reader());
    let mut output = Counted::new(held);
    let answer = run_on_lines(rt.alloc(), head, &mut input, &mut output, job);
    let is_closed = output.into_inner().get_ref().is_closed();
    Ok(ended(rt, &answer, is_closed))
}

/// The exit status of the job on these octets, after the line on standard error, if there is one.
pub fn run_on<'a>(rt: &HostRuntime, job: &Job, octets: &[u8]) -> Result<u8, Stop<'a>> {
    let Ok(held) = BufWriter::with_capacity(rt.alloc(), HELD, Piped::new(io::writer(rt))) else {
        return Err(Stop::Memory);
    };
    let mut input = Counted::new(octets);
    let mut output = Counted::new(held);
    let answer = run(rt.alloc(), &mut input, &mut output, job);
    let is_closed = output.into_inner().get_ref().is_closed();
    Ok(ended(rt, &answer, is_closed))
}

/// The exit status of a job that was answered so, after the line on standard error, if there is one; `is_closed` says
/// whether the reader of standard output has gone.
fn ended(rt: &HostRuntime, answer: &Result<Status, RunFault>, is_closed: bool) -> u8 {
    let (status, line) = ending(answer, is_closed);
    if !line.is_empty() {
        let _ = rt.eprintln(line);
    }
    status
}
