//! Answers to lines of a published type of which a part is not looked at, or whose recursion ends.
ghost use Rattle.std.specs.Prelude.{◌≡◌, ◌++◌, IfOk, option_map, string_bytes};
ghost use Rattle.asn_tool.specs.Marked.{answer_beside, deeper_text, more_words, place_words, unlooked_words, words_behind};

use asn_jobs::Order;
use asn_published::{Looked, Place};
use std::alloc::{AllocError, Global};

/// The beginnings of those refusals that a message can get since it is deeper than its type.
static BY_DEPTH: [&str; 4] = ["! refused", "! cut short", "! octets left", "! shape"];

/// How many other parts there are, where there are some.
fn more_words(alloc: Global, others: usize) -> Result<String, AllocError>
    ensures { IfOk result (λ words. string_bytes words ≡ more_words others) }
{
    if others == 0 {
        return Ok(String::new(alloc));
    }
    format!(in alloc; ", and {others} more")
}

/// What is said of a part that is not looked at, and of others.
fn place_words(alloc: Global, place: &Place, others: usize) -> Result<String, AllocError>
    ensures { IfOk result (λ words. string_bytes words ≡ place_words place.now others) }
{
    let Place { path, said } = place;
    let path = path.as_str();
    let more = more_words(alloc, others)?;
    let more = more.as_str();
    format!(in alloc; "not looked at: {path} ({said}){more}")
}

/// What is said of a value of which a part is not looked at: the path of the first, the remark on it, and how many others
/// there are; `None` where there is none.
///
/// # Errors
/// `AllocError` where an allocation failed.
pub fn unlooked_words(alloc: Global, looked: &Looked) -> Result<Option<String>, AllocError>
    ensures { IfOk result (λ words. option_map string_bytes words ≡ unlooked_words looked.now) }
{
    match &looked.first {
        Some(place) => Ok(Some(place_words(alloc, place, looked.others)?)),
        None => Ok(None),
    }
}

/// A text, and behind it these words, if there are some.
fn said_behind(alloc: Global, text: &str, words: &Option<String>) -> Result<String, AllocError>
    ensures { IfOk result (λ said. string_bytes said
        ≡ text.now ++ words_behind (option_map string_bytes words.now)) }
{
    match words {
        Some(words) => {
            let words = words.as_str();
            format!(in alloc; "{text}, {words}")
        }
        None => String::from_str(alloc, text),
    }
}

/// The answer to a message, without its LF, of which these words are said, the plain answer being the text: where nothing
/// is said, the plain answer. Else `check` says it behind that; of the others the answer is the value, and stays so.
///
/// # Errors
/// `AllocError` where an allocation failed.
pub fn answer_beside(
    alloc: Global,
    order: Order,
    text: &str,
    words: &Option<String>,
) -> Result<String, AllocError>
    ensures { IfOk result (λ answer. string_bytes answer
        ≡ answer_beside order text.now (option_map string_bytes words.now)) }
{
    match order {
        Order::Check => said_behind(alloc, text, words),
        Order::Show | Order::Encode | Order::Convert | Order::Newer => {
            String::from_str(alloc, text)
        }
    }
}

/// The refusal, without its LF, of a value that goes on where the recursion of its type ends.
///
/// # Errors
/// `AllocError` where an allocation failed.
pub fn deeper_text(alloc: Global, levels: u32) -> Result<String, AllocError>
    ensures { IfOk result (λ text. string_bytes text ≡ deeper_text levels) }
{
    format!(in alloc; "! deeper than {levels} levels")
}

/// The refusal of a line, without its LF, the plain one being the text: where the recursion of the type ends, a message that
/// is deeper can be refused so too, and the line says it.
///
/// # Errors
/// `AllocError` where an allocation failed.
pub fn refusal_beside(
    alloc: Global,
    text: &str,
    levels: Option<u32>,
) -> Result<String, AllocError> {
    match levels {
        Some(levels) if BY_DEPTH.iter().any(|front| text.starts_with(*front)) => {
            format!(in alloc; "{text}, or deeper than {levels} levels")
        }
        _ => String::from_str(alloc, text),
    }
}
