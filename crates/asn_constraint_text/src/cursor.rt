//! A text, and how far it is read.
ghost use Rattle.std.specs.Prelude.{◌≡◌, ◌≤◌, ◌<◌, true, length, IfOk, IfSome};

use crate::extents::{blank_len, digits_len, sign_len, word_len};
use crate::fault::ConstraintTextFault;
use crate::strings::hexadecimal_value;
use std::collections::HashMap;

/// A text, and how far it is read.
#[derive(Drop)]
pub(crate) struct Cursor<'t> {
    rest: &'t [u8],
    /// the length of the whole text
    total: usize,
    /// the names of types that CONTAINING may have, with the position of each
    names: Option<&'t HashMap<String, usize>>,
}

/// The number that digits write.
fn read_number(digits: &[u8]) -> Option<u32> {
    let Ok(digits) = std::str::from_utf8(digits) else {
        return None;
    };
    digits.parse::<u32>().ok()
}

/// The number that digits write, after a minus sign or none.
fn read_integer(number: &[u8]) -> Option<i128> {
    let Ok(number) = std::str::from_utf8(number) else {
        return None;
    };
    number.parse::<i128>().ok()
}

impl<'t> Cursor<'t> {
    /// Nothing is read yet.
    pub fn new(text: &'t str) -> Cursor<'t> {
        Cursor {
            rest: text.as_bytes(),
            total: text.len(),
            names: None,
        }
    }

    /// Takes the names of types that CONTAINING may have.
    pub fn take_names(&mut self, names: &'t HashMap<String, usize>) {
        self.names = Some(names);
    }

    /// The octet of the text that comes next, counted from 0.
    pub fn at(&self) -> usize {
        self.total.saturating_sub(self.rest.len())
    }

    /// What is not read yet.
    pub fn rest(&self) -> &'t [u8] {
        self.rest
    }

    /// Reads this many octets, or all that there are.
    pub fn skip(&mut self, count: usize) {
        match self.rest.get(count..) {
            Some(rest) => self.rest = rest,
            None => self.rest = &[],
        }
    }

    /// Reads what is blank.
    pub fn skip_blank(&mut self)
        ensures { length self.new.rest.now ≤ length self.old.rest.now }
    {
        self.rest = &self.rest[blank_len(self.rest)..];
    }

    /// Reads an octet, if there is one.
    pub fn octet(&mut self) -> Option<u8>
        ensures within { length self.new.rest.now ≤ length self.old.rest.now }
        ensures shorter { IfSome result (λ _. length self.new.rest.now < length self.old.rest.now) }
    {
        let (first, rest) = self.rest.split_first()?;
        self.rest = rest;
        Some(*first)
    }

    /// Whether this sign comes next.
    pub fn begins(&mut self, sign: u8) -> bool
        ensures { length self.new.rest.now ≤ length self.old.rest.now }
    {
        self.skip_blank();
        match self.rest {
            [first, ..] => *first == sign,
            [] => false,
        }
    }

    /// Reads this sign, if it comes next.
    pub fn takes(&mut self, sign: u8) -> bool
        ensures within { length self.new.rest.now ≤ length self.old.rest.now }
        ensures shorter { result ≡ true → length self.new.rest.now < length self.old.rest.now }
    {
        self.begins(sign) && self.octet().is_some()
    }

    /// Reads `..`, if it comes next.
    pub fn takes_range(&mut self) -> bool
        ensures within { length self.new.rest.now ≤ length self.old.rest.now }
    {
        self.skip_blank();
        match self.rest {
            [b'.', b'.', rest @ ..] => {
                self.rest = rest;
                true
            }
            _ => false,
        }
    }

    /// Reads `...`, if it comes next.
    pub fn takes_dots(&mut self) -> bool
        ensures within { length self.new.rest.now ≤ length self.old.rest.now }
    {
        self.skip_blank();
        match self.rest {
            [b'.', b'.', b'.', rest @ ..] => {
                self.rest = rest;
                true
            }
            _ => false,
        }
    }

    /// The word that comes next; nothing where none does.
    pub fn word(&mut self) -> &'t [u8]
        ensures within { length self.new.rest.now ≤ length self.old.rest.now }
    {
        self.skip_blank();
        &self.rest[..word_len(self.rest)]
    }

    /// Reads the word that comes next.
    pub fn take_word(&mut self) -> &'t [u8]
        ensures within { length self.new.rest.now ≤ length self.old.rest.now }
    {
        self.skip_blank();
        let (word, rest) = self.rest.split_at(word_len(self.rest));
        self.rest = rest;
        word
    }

    /// Reads the name of a type, if one comes next, and returns its position.
    pub fn type_name(&mut self) -> Option<usize>
        ensures within { length self.new.rest.now ≤ length self.old.rest.now }
    {
        let names = self.names?;
        let Ok(name) = std::str::from_utf8(self.word()) else {
            return None;
        };
        let position = *names.get(name)?;
        let _ = self.take_word();
        Some(position)
    }

    /// Reads this word, if it comes next.
    pub fn takes_word(&mut self, word: &[u8]) -> bool
        ensures within { length self.new.rest.now ≤ length self.old.rest.now }
    {
        if *self.word() == *word {
            let _ = self.take_word();
            true
        } else {
            false
        }
    }

    /// Reads `CONSTRAINED BY {selected`, if it comes next.
    pub fn takes_selected(&mut self) -> bool
        ensures within { length self.new.rest.now ≤ length self.old.rest.now }
    {
        let start = self.rest;
        if self.takes_word(b"CONSTRAINED")
            && self.takes_word(b"BY")
            && self.takes(b'{')
            && self.takes_word(b"selected")
        {
            return true;
        }
        self.rest = start;
        false
    }

    /// Reads this name if it comes next, after a comma where it is not the first one.
    pub fn takes_name(&mut self, name: &[u8], is_first: bool) -> bool
        ensures within { length self.new.rest.now ≤ length self.old.rest.now }
    {
        let start = self.rest;
        if (is_first || self.takes(b',')) && self.takes_word(name) {
            return true;
        }
        self.rest = start;
        false
    }

    /// Whether an identifier comes next.
    pub fn begins_identifier(&mut self) -> bool
        ensures { length self.new.rest.now ≤ length self.old.rest.now }
    {
        match self.word() {
            [first, ..] => first.is_ascii_lowercase(),
            [] => false,
        }
    }

    /// Whether a number comes next, or MIN or MAX.
    pub fn begins_number(&mut self) -> bool
        ensures { length self.new.rest.now ≤ length self.old.rest.now }
    {
        match self.word() {
            b"MIN" | b"MAX" => true,
            _ => match self.rest {
                [first, ..] => first.is_ascii_digit() || *first == b'-',
                [] => false,
            },
        }
    }

    /// Reads this sign.
    pub fn expect(&mut self, sign: u8, name: &'static str) -> Result<(), ConstraintTextFault>
        ensures within { length self.new.rest.now ≤ length self.old.rest.now }
    {
        if self.takes(sign) {
            Ok(())
        } else {
            Err(self.fault(name))
        }
    }

    /// Reads this word.
    pub fn expect_word(&mut self, word: &'static str) -> Result<(), ConstraintTextFault>
        ensures within { length self.new.rest.now ≤ length self.old.rest.now }
    {
        if self.takes_word(word.as_bytes()) {
            Ok(())
        } else {
            Err(self.fault(word))
        }
    }

    /// Reads a number without a sign.
    pub fn number(&mut self) -> Result<u32, ConstraintTextFault>
        ensures within { length self.new.rest.now ≤ length self.old.rest.now }
    {
        self.skip_blank();
        let (digits, rest) = self.rest.split_at(digits_len(self.rest));
        match read_number(digits) {
            Some(number) => {
                self.rest = rest;
                Ok(number)
            }
            None => Err(self.fault("a number of at most 32 bits")),
        }
    }

    /// Reads a number with or without a sign.
    pub fn integer(&mut self) -> Result<i128, ConstraintTextFault>
        ensures within { length self.new.rest.now ≤ length self.old.rest.now }
    {
        self.skip_blank();
        let sign = sign_len(self.rest);
        let digits = digits_len(&self.rest[sign..]);
        let (number, rest) = self.rest.split_at(sign + digits);
        match read_integer(number) {
            Some(number) => {
                self.rest = rest;
                Ok(number)
            }
            None => Err(self.fault("a number")),
        }
    }

    /// That something else was expected here.
    #[cold]
    pub fn fault(&self, expected: &'static str) -> ConstraintTextFault {
        ConstraintTextFault::Expected {
            at: self.at(),
            expected,
        }
    }

    /// Whether all of the text is read.
    pub fn is_at_end(&self) -> bool {
        self.rest.is_empty()
    }

    /// Reads this octet if it comes next, with nothing blank before it.
    pub fn takes_here(&mut self, octet: u8) -> bool
        ensures within { length self.new.rest.now ≤ length self.old.rest.now }
        ensures shorter { result ≡ true → length self.new.rest.now < length self.old.rest.now }
    {
        match self.rest {
            [first, ..] if *first == octet => self.octet().is_some(),
            _ => false,
        }
    }

    /// Whether this octet comes next, with nothing blank before it.
    pub fn is_here(&self, octet: u8) -> bool {
        match self.rest {
            [first, ..] => *first == octet,
            [] => false,
        }
    }

    /// Whether this octet comes next and once more, with nothing blank before it.
    pub fn is_doubled(&self, octet: u8) -> bool {
        match self.rest {
            [first, second, ..] => *first == octet && *second == octet,
            _ => false,
        }
    }

    /// Reads this octet, with nothing blank before it.
    pub fn expect_here(&mut self, octet: u8, name: &'static str) -> Result<(), ConstraintTextFault>
        ensures within { length self.new.rest.now ≤ length self.old.rest.now }
    {
        if self.takes_here(octet) {
            Ok(())
        } else {
            Err(self.fault(name))
        }
    }

    /// Reads a hexadecimal digit with a capital or none, if one comes next, with nothing blank before it.
    pub fn hexadecimal(&mut self) -> Option<u8>
        ensures value { IfSome result (λ d. d < 16) }
        ensures within { length self.new.rest.now ≤ length self.old.rest.now }
        ensures shorter { IfSome result (λ _. length self.new.rest.now < length self.old.rest.now) }
    {
        match self.rest {
            [first, rest @ ..] => {
                let digit = hexadecimal_value(*first)?;
                self.rest = rest;
                Some(digit)
            }
            [] => None,
        }
    }
}
