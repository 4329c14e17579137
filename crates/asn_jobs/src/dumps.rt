//! Hexadecimal dumps that are given as plain hexadecimal digits.
use crate::texts::{OctetForm, is_blank, uncommented, unprefixed};

/// The least number of digits of an offset.
const LEAST_DIGITS: usize = 4;

/// What is said of a text that may be a dump with offsets.
pub const OFFSETS: &str =
    "a line begins with a word that may be an offset: use --in dump, or write 0x in front of the word";

/// Whether a text of this form may be a dump with offsets, as `od -Ax` and Wireshark write it. A word may be an offset if
/// it begins a line, has four digits or more and no 0x, and has another length than the word after it. A word that is
/// alone on its line may be one if a line before it has several words, and the second of them has another length: `od`
/// ends with such a line.
pub fn is_dump(form: OctetForm, text: &[u8]) -> bool {
    if !matches!(form, OctetForm::Hex | OctetForm::HexBlock) {
        return false;
    }
    let mut second_len = None;
    for line in text.split(|octet| *octet == b'\n') {
        let mut words = uncommented(line)
            .split(|octet| is_blank(*octet))
            .filter(|word| !word.is_empty());
        let Some(first) = words.next() else {
            continue;
        };
        if let Some(second) = words.next() {
            second_len = Some(second.len());
        }
        if may_be_offset(first, second_len) {
            return true;
        }
    }
    false
}

/// Whether a word that begins a line may be an offset, where octets stand in words of this length.
fn may_be_offset(word: &[u8], octets: Option<usize>) -> bool {
    match octets {
        Some(length) => {
            word.len() >= LEAST_DIGITS
                && word.len() != length
                && unprefixed(word).len() == word.len()
        }
        None => false,
    }
}
