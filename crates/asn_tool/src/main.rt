//! Reads ASN.1 modules and lines, and prints or flattens the modules, or shows, checks, encodes or converts the message
//! of each line.
#![tactic(auto)]

mod answering;
mod budget;
mod demands;
mod looking;
mod marked;
mod marking;
mod messages;
mod running;
mod streaming;
mod writing;

use asn_jobs::refusal_ending;
use asn_module_files::{Stop, flatten_files};
use asn_request::request::{LineFault, Request, request_of};
use looking::show;
use running::run_job;
use std::io::ErrorKind;
use std::process::ExitCode;
use std::{env, io};

/// Does what the words after the program's name ask for. The exit status is 0 where all is well, after help and the
/// version too; 1 where a line or a type is refused; 2 where the words, a text or the module is; 3 where reading, writing
/// or memory failed; and 4 where no line is refused, and of one a part is not looked at.
fn main(rt: HostRuntime) -> ExitCode {
    match words_of(&rt) {
        Ok(words) => do_words(&rt, words.as_slice()),
        Err((status, line)) => told(&rt, status, line),
    }
}

/// The words after the program's name, or the exit status and the line that tells why they are not there.
fn words_of(rt: &HostRuntime) -> Result<Vec<String>, (u8, &'static str)> {
    let given = match env::args(rt) {
        Ok(given) => given,
        Err(fault) if fault.kind() == ErrorKind::OutOfMemory => return Err((3, "memory")),
        Err(_) => return Err((2, "the words are not text")),
    };
    let mut words = Vec::new(rt.alloc());
    for word in given.skip(1) {
        if words.push(word).is_err() {
            return Err((3, "memory"));
        }
    }
    Ok(words)
}

/// Does what these words ask for, and gives the exit status.
fn do_words(rt: &HostRuntime, words: &[String]) -> ExitCode {
    let mut texts = Vec::new(rt.alloc());
    for word in words {
        if texts.push(word.as_str()).is_err() {
            return told(rt, 3, "memory");
        }
    }
    match request_of(rt.alloc(), texts.as_slice()) {
        Ok(request) => match do_request(rt, &request) {
            Ok(status) => ExitCode::from(status),
            Err(stop) => stop_told(rt, &stop),
        },
        Err(fault) => fault_told(rt, &fault),
    }
}

/// Does what is asked for, and gives the exit status.
fn do_request<'a>(rt: &HostRuntime, request: &Request<'a>) -> Result<u8, Stop<'a>> {
    match request {
        Request::Flatten {
            files,
            type_name,
            options,
            form,
        } => flatten_files(rt, files.as_slice(), type_name, *options, *form),
        Request::Run {
            job,
            files,
            options,
            asking,
        } => run_job(rt, job, files.as_slice(), *options, asking),
        Request::Look {
            look,
            files,
            options,
            asking,
        } => show(rt, look, files.as_slice(), *options, asking),
    }
}

/// The exit status where the program stops before its work is done, after the line on standard error.
fn stop_told(rt: &HostRuntime, stop: &Stop<'_>) -> ExitCode {
    if !matches!(stop, Stop::Closed) {
        let _ = eprintln!(rt; "{stop}");
    }
    ExitCode::from(stop.status())
}

/// The exit status where there is no request. Help and the version go to standard output, the rest to standard error.
fn fault_told(rt: &HostRuntime, fault: &LineFault) -> ExitCode {
    match fault {
        LineFault::Line(error) => {
            let printed = error.print(rt);
            if !error.use_stderr() && is_closed(&printed) {
                return ExitCode::from(Stop::Closed.status());
            }
            let (status, line) = refusal_ending(error.use_stderr(), printed.is_ok());
            told(rt, status, line)
        }
        LineFault::Memory => told(rt, 3, "memory"),
    }
}

/// Whether what was printed was not written since its reader has gone.
fn is_closed(printed: &io::Result<()>) -> bool {
    match printed {
        Ok(()) => false,
        Err(fault) => fault.kind() == ErrorKind::BrokenPipe,
    }
}

/// The exit status, after the line on standard error, if there is one.
fn told(rt: &HostRuntime, status: u8, line: &str) -> ExitCode {
    if !line.is_empty() {
        let _ = rt.eprintln(line);
    }
    ExitCode::from(status)
}
