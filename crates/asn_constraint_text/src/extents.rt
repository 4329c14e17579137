//! How many octets what comes next has.
ghost use Rattle.std.specs.Prelude.{◌≤◌, length};

fn is_blank(octet: u8) -> bool {
    octet == b' ' || (9 <= octet && octet <= 13)
}

fn is_word_character(octet: u8) -> bool {
    octet.is_ascii_alphanumeric()
}

/// How many octets are blank at the start.
pub(crate) fn blank_len(text: &[u8]) -> usize
    ensures { result ≤ length text.now }
{
    for (index, octet) in text.iter().enumerate() {
        if !is_blank(*octet) {
            return index;
        }
    }
    text.len()
}

/// How many octets a word has at the start: letters, digits, and hyphens before these.
pub(crate) fn word_len(text: &[u8]) -> usize
    ensures { result ≤ length text.now }
{
    for (index, octet) in text.iter().enumerate() {
        let is_hyphen = *octet == b'-' && index > 0 && begins_word(&text[index + 1..]);
        if !is_word_character(*octet) && !is_hyphen {
            return index;
        }
    }
    text.len()
}

/// Whether a letter or a digit comes next.
fn begins_word(text: &[u8]) -> bool {
    match text {
        [first, ..] => is_word_character(*first),
        [] => false,
    }
}

/// How many digits are at the start.
pub(crate) fn digits_len(text: &[u8]) -> usize
    ensures { result ≤ length text.now }
{
    for (index, octet) in text.iter().enumerate() {
        if !octet.is_ascii_digit() {
            return index;
        }
    }
    text.len()
}

/// How many octets a minus sign has at the start.
pub(crate) fn sign_len(text: &[u8]) -> usize
    ensures { result ≤ length text.now }
{
    match text {
        [b'-', ..] => 1,
        _ => 0,
    }
}
