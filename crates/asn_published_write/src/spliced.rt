//! The text of one type, with those that it refers to written out in it.
use crate::levels::assigned;
use crate::sources::Sources;
use asn_published_types::pieces::push_pieces;
use std::alloc::{AllocError, Global};
use std::collections::HashMap;

/// What is left of the text of a type that is being copied.
#[derive(Clone, Copy)]
struct Rest<'a> {
    text: &'a str,
    /// The size that a further constraint gives to the list that the text begins: what lies between `(SIZE` and `)`.
    size: Option<&'a str>,
    /// Whether the word that comes next is the value of a DEFAULT.
    is_value: bool,
}

/// Whether a word begins a type of the profile, so that it is the name of none.
pub(crate) fn is_own_word(word: &str) -> bool {
    match word {
        "BOOLEAN"
        | "NULL"
        | "INTEGER"
        | "ENUMERATED"
        | "BIT"
        | "OCTET"
        | "UTF8String"
        | "IA5String"
        | "NumericString"
        | "VisibleString"
        | "SEQUENCE"
        | "CHOICE" => true,
        _ => false,
    }
}

/// Whether a word belongs to the notation of a type and is the name of none.
pub(crate) fn is_other_word(word: &str) -> bool {
    match word {
        "OPTIONAL" | "DEFAULT" | "OF" | "STRING" => true,
        _ => false,
    }
}

/// The word without a comma behind it.
pub(crate) fn without_comma(word: &str) -> &str {
    match word.strip_suffix(",") {
        Some(word) => word,
        None => word,
    }
}

/// What comes behind the size that a text begins with, and the size; `None` where it begins with none.
fn size_in(text: &str) -> Option<(&str, &str)> {
    match text.strip_prefix(" (SIZE") {
        Some(rest) => rest.split_once("))"),
        None => None,
    }
}

/// The text behind the size that it begins with, if it begins with one.
fn behind_size(text: &str) -> &str {
    match size_in(text) {
        Some((_, behind)) => behind,
        None => text,
    }
}

/// The types as they are written, by their names.
#[derive(Drop)]
struct Splicing<'a> {
    lines: HashMap<&'a str, &'a str>,
    out: String,
    /// The texts that are being copied, from the outside.
    stack: Vec<Rest<'a>>,
}

impl<'a> Splicing<'a> {
    /// Nothing is copied yet; the types are those of these lines, and of these assignments.
    fn new(
        alloc: Global,
        sources: &'a Sources<'_>,
        lines: &'a [Option<String>],
        levels: &'a [String],
    ) -> Result<Splicing<'a>, AllocError> {
        let mut by_name = HashMap::new(alloc);
        for (name, line) in sources.names.iter().zip(lines) {
            if let Some(line) = line {
                by_name.insert(name.as_str(), line.as_str())?;
            }
        }
        for line in levels {
            if let Some((name, text)) = assigned(line.as_str()) {
                by_name.insert(name, text)?;
            }
        }
        Ok(Splicing {
            lines: by_name,
            out: String::new(alloc),
            stack: Vec::new(alloc),
        })
    }

    /// The text of the type that a word names, if it names one.
    fn line_named(&self, word: &str) -> Option<&'a str> {
        if is_own_word(word) || is_other_word(word) {
            return None;
        }
        match self.lines.get(word) {
            Some(line) => Some(*line),
            None => None,
        }
    }

    /// Takes a text that is to be copied next, with the size of its list, if a further one is given.
    fn push(&mut self, text: &'a str, size: Option<&'a str>) -> Result<(), AllocError> {
        Ok(
            self.stack.push(Rest {
                text,
                size,
                is_value: false,
            })?,
        )
    }

    /// Takes the type that a name stands for, `behind` being the text behind the name.
    fn refer(
        &mut self,
        line: &'a str,
        behind: &'a str,
        size: Option<&'a str>,
    ) -> Result<(), AllocError> {
        let own = match size_in(behind) {
            Some((own, _)) => Some(own),
            None => None,
        };
        let left = behind_size(behind);
        if !left.is_empty() {
            self.push(left, None)?;
        }
        // (a further size has what the size before it leaves)
        self.push(line, size.or(own))
    }

    /// Copies a word, which is no name of a type, and gives the text behind it.
    fn copy(&mut self, rest: Rest<'a>, word: &'a str, behind: &'a str) -> Result<(), AllocError> {
        push_pieces(&mut self.out, &[" ", word])?;
        let mut behind = behind;
        if let Some(size) = rest.size {
            // the first word of a list
            push_pieces(&mut self.out, &[" (SIZE", size, "))"])?;
            behind = behind_size(behind);
        }
        if behind.is_empty() {
            return Ok(());
        }
        Ok(
            self.stack.push(Rest {
                text: behind,
                size: None,
                is_value: word == "DEFAULT" && !rest.is_value,
            })?,
        )
    }

    /// Copies what is next of a text.
    fn take(&mut self, rest: Rest<'a>) -> Result<(), AllocError> {
        let Some(text) = rest.text.strip_prefix(" ") else {
            return self.take_rest(rest);
        };
        let word = match text.split_once(" ") {
            Some((word, _)) => word,
            None => text,
        };
        let name = without_comma(word);
        let line = if rest.is_value {
            None
        } else {
            self.line_named(name)
        };
        match (line, text.strip_prefix(name), text.strip_prefix(word)) {
            (Some(line), Some(behind), _) => self.refer(line, behind, rest.size),
            (None, _, Some(behind)) => self.copy(rest, word, behind),
            _ => Ok(()),
        }
    }

    /// Copies what is left of a text up to the next blank: the comma behind a name.
    fn take_rest(&mut self, rest: Rest<'a>) -> Result<(), AllocError> {
        match rest.text.split_once(" ") {
            Some((first, _)) => {
                self.out.push_str(first)?;
                match rest.text.strip_prefix(first) {
                    Some(behind) => self.push(behind, None),
                    None => Ok(()),
                }
            }
            None => self.out.push_str(rest.text),
        }
    }
}

/// The text of the type of a name, with those that it refers to written out in it: a name is replaced by the text of its
/// type, and the size of a list by a further one behind its name. Each type refers to others alone.
pub(crate) fn written_out<'a>(
    alloc: Global,
    sources: &'a Sources<'_>,
    lines: &'a [Option<String>],
    levels: &'a [String],
    line: &'a str,
) -> Result<String, AllocError> {
    let mut splicing = Splicing::new(alloc, sources, lines, levels)?;
    splicing.push(line, None)?;
    for _ in 0..u64::MAX {
        let Some(rest) = splicing.stack.pop() else {
            break;
        };
        splicing.take(rest)?;
    }
    let Splicing { out, .. } = splicing;
    Ok(out)
}
