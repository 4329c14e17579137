//! A stranger's text as it may be written to a terminal.
ghost use Rattle.std.specs.Prelude.{◌≡◌, IfOk, string_bytes};
ghost use Rattle.asn_module_files.specs.Terminal.{printable, printed};

use std::alloc::{AllocError, Global};

/// The words with U+FFFD instead of each control character (C0, DEL and C1), except LF and tab.
///
/// # Errors
/// `AllocError` where an allocation failed.
pub fn printable(alloc: Global, words: &str) -> Result<String, AllocError>
    ensures { IfOk result (λ out. string_bytes out ≡ printable words.now) }
{
    let mut out = String::new(alloc);
    for character in words.chars() {
        out.push(printed(character))?;
    }
    Ok(out)
}

/// The character that is printed for this one.
fn printed(character: char) -> char
    ensures { result ≡ printed character }
{
    match character {
        '\n' | '\t' => character,
        other if other.is_control() => '\u{FFFD}',
        other => other,
    }
}
