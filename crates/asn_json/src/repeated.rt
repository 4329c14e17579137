//! The path to a key that an object has twice.
ghost use Rattle.std.specs.Prelude.{◌≡◌, IfOk, string_bytes};
ghost use Rattle.std.specs.List.{list_all};
ghost use Rattle.asn_json.specs.Texts.{IsPlainPath, is_graphic};

use json::{Reader, Scratch, Token};
use std::alloc::{AllocError, Global};
use std::collections::BTreeSet;

/// An array or object that has begun and not ended.
#[derive(Drop)]
struct Open<'a> {
    /// The keys of the object so far.
    keys: BTreeSet<&'a str>,
    /// The last key of the object; none in an array.
    key: Option<&'a str>,
    /// How many elements of the array have begun.
    begun: usize,
}

impl<'a> Open<'a> {
    /// One with nothing in it.
    fn new(alloc: Global) -> Open<'a> {
        Open {
            keys: BTreeSet::new(alloc),
            key: None,
            begun: 0,
        }
    }
}

/// The path to the first key of a JSON text that its object has before; `$` if there is none.
///
/// # Errors
/// `AllocError` if an allocation failed.
pub(crate) fn repeated_path(alloc: Global, text: &str) -> Result<String, AllocError>
    ensures { IfOk result (λ path. IsPlainPath (string_bytes path)) }
{
    let path = path_to_repeated(alloc, text)?;
    if are_graphic(path.as_bytes()) {
        Ok(path)
    } else {
        String::from_str(alloc, "$")
    }
}

/// Whether each octet is a printable character of ASCII and no blank.
fn are_graphic(octets: &[u8]) -> bool
    ensures { result ≡ list_all is_graphic octets.now }
{
    octets.iter().all(|octet| is_graphic(*octet))
}

/// Whether an octet is a printable character of ASCII and no blank.
fn is_graphic(octet: u8) -> bool
    ensures { result ≡ is_graphic octet }
{
    (33..=126).contains(&octet)
}

/// The path to the first key that its object has before.
fn path_to_repeated(alloc: Global, text: &str) -> Result<String, AllocError> {
    let mut scratch = Scratch::new(alloc);
    let mut reader = Reader::new(text, &mut scratch)?;
    let mut open: Vec<Open<'_>> = Vec::new(alloc);
    for _ in 0..text.len() {
        match reader.next() {
            None => return path_of(alloc, &[]),
            Some(Token::Key(key)) => {
                if is_repeated(&mut open, key)? {
                    return path_of(alloc, open.as_slice());
                }
            }
            Some(Token::BeginObject | Token::BeginArray) => {
                count_element(&mut open);
                open.push(Open::new(alloc))?;
            }
            Some(Token::EndObject | Token::EndArray) => {
                let _ = open.pop();
            }
            Some(_) => count_element(&mut open),
        }
    }
    path_of(alloc, &[])
}

/// Puts the key into the innermost object. Returns whether the object has it already.
fn is_repeated<'a>(open: &mut Vec<Open<'a>>, key: &'a str) -> Result<bool, AllocError> {
    let Some(object) = open.last_mut() else {
        return Ok(false);
    };
    object.key = Some(key);
    let is_new = object.keys.insert(key)?;
    Ok(!is_new)
}

/// Counts an element of the innermost array.
fn count_element(open: &mut Vec<Open<'_>>) {
    if let Some(array) = open.last_mut() {
        array.begun = array.begun.saturating_add(1);
    }
}

/// The path to the last key or element of each of these, one inside the other.
fn path_of(alloc: Global, open: &[Open<'_>]) -> Result<String, AllocError> {
    let mut path = String::from_str(alloc, "$")?;
    for part in open {
        let step = match part.key {
            Some(key) if is_name(key) => format!(in alloc; ".{key}")?,
            Some(_) => format!(in alloc; ".?")?,
            None => {
                let index = part.begun.saturating_sub(1);
                format!(in alloc; "[{index}]")?
            }
        };
        path.push_str(step.as_str())?;
    }
    Ok(path)
}

/// Whether a key may be the name of a component: letters, digits and hyphens.
fn is_name(key: &str) -> bool {
    !key.is_empty()
        && key
            .bytes()
            .all(|octet| octet.is_ascii_alphanumeric() || octet == b'-')
}
