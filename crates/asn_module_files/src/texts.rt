//! The texts of files.
use crate::stop::Stop;
use asn_published::{NotText, text_of_octets};
use std::fs;
use std::io::ErrorKind;

/// The text of a file.
fn text_of<'a>(rt: &HostRuntime, file: &'a str) -> Result<String, Stop<'a>> {
    match fs::read(rt, file) {
        Ok(octets) => match text_of_octets(rt.alloc(), octets) {
            Ok(text) => Ok(text),
            Err(NotText { line, column }) => Err(Stop::NotText { file, line, column }),
        },
        Err(fault) if fault.kind() == ErrorKind::OutOfMemory => Err(Stop::Memory),
        Err(_) => Err(Stop::Unread(file)),
    }
}

/// The line, counted from 1, on which the octet at an index stands.
pub(crate) fn line_of_octet(octets: &[u8], at: usize) -> u32 {
    let mut line: u32 = 1;
    for octet in octets.iter().take(at) {
        if *octet == b'\n' {
            line = line.saturating_add(1);
        }
    }
    line
}

/// The texts of files, in their order.
pub fn texts_of<'a>(rt: &HostRuntime, files: &[&'a str]) -> Result<Vec<String>, Stop<'a>> {
    let mut texts = Vec::new(rt.alloc());
    for file in files {
        texts.push(text_of(rt, file)?)?;
    }
    Ok(texts)
}

/// The texts as they are borrowed.
pub fn views_of<'t>(rt: &HostRuntime, texts: &'t [String]) -> Result<Vec<&'t str>, Stop<'static>> {
    let mut views = Vec::new(rt.alloc());
    for text in texts {
        views.push(text.as_str())?;
    }
    Ok(views)
}
