//! Single values and ranges of constraints.
use crate::numbers::{Scope, Values};
use crate::places::{after_value, letter_at};
use crate::ranges::{Range, Ranges};
use crate::seen::{MOST_RANGES, Mode, Seen};
use asn_published_text::refusal::{Refusal, Why, refused};
use asn_published_text::token::{Kind, Sign};
use asn_published_text::tokens::next;
use std::alloc::Global;

/// Where a range begins or ends.
#[derive(Clone, Copy)]
struct End {
    bound: Option<i128>,
    /// The index after it.
    behind: usize,
}

impl<'a, 't> Values<'a, 't> {
    /// The bound at `at`, which `open`, MIN or MAX, leaves open.
    fn bound_at(&self, scope: Scope, mode: Mode, at: usize, open: &str) -> Result<End, Refusal> {
        let tokens = self.tokens_in(scope)?;
        if tokens.is_word(at, open) {
            return Ok(End {
                bound: None,
                behind: next(at),
            });
        }
        if mode == Mode::Letters {
            return match letter_at(tokens, at) {
                Some(letter) => Ok(End {
                    bound: Some(letter),
                    behind: tokens.after(at),
                }),
                None => Err(refused(tokens.line(at), Why::Constraint)),
            };
        }
        let (number, behind) = self.number_at(scope, at)?;
        Ok(End {
            bound: Some(number),
            behind,
        })
    }

    /// The range or the single number at `at`, and the index after it.
    fn range_at(&self, scope: Scope, mode: Mode, at: usize) -> Result<(Range, usize), Refusal> {
        let tokens = self.tokens_in(scope)?;
        let line = tokens.line(at);
        let low = self.bound_at(scope, mode, at, "MIN")?;
        let mut behind = low.behind;
        let is_above = tokens.is(behind, Sign::Less);
        if is_above {
            behind = next(behind);
        }
        if !tokens.is(behind, Sign::UpTo) {
            return match low.bound {
                Some(_) if !is_above => Ok((single(low.bound), behind)),
                _ => Err(refused(line, Why::Constraint)),
            };
        }
        behind = next(behind);
        let is_below = tokens.is(behind, Sign::Less);
        if is_below {
            behind = next(behind);
        }
        let high = self.bound_at(scope, mode, behind, "MAX")?;
        let range = Range {
            low: moved(low.bound, scope.least, is_above, 1, line)?,
            high: moved(high.bound, scope.most, is_below, -1, line)?,
        };
        Ok((range, high.behind))
    }

    /// The characters of a text in quotes, a range for each.
    fn letters_of(&self, alloc: Global, text: &str, line: u32) -> Result<Seen, Refusal> {
        if text.len() > MOST_RANGES {
            return Err(refused(line, Why::Ranges));
        }
        let mut letters = Ranges::none(alloc);
        let mut quotes = 0u32;
        for letter in text.chars() {
            if letter == '"' {
                // the first one opens the text, and inside each is written twice
                quotes = quotes.saturating_add(1);
            }
            if letter != '"' || quotes == 3 {
                let code = i128::from(u32::from(letter));
                letters.join(&Ranges::of(alloc, single(Some(code)))?)?;
            }
        }
        Ok(Seen {
            numbers: Some(letters),
            ..Seen::all()
        })
    }

    /// A single value or a range at `at`, and the index after it.
    pub(crate) fn value_seen(
        &self,
        alloc: Global,
        scope: Scope,
        mode: Mode,
        at: usize,
    ) -> Result<(Seen, usize), Refusal> {
        let tokens = self.tokens_in(scope)?;
        let is_text = tokens.is_kind(at, Kind::Text);
        match mode {
            Mode::Letters if is_text && !tokens.is(next(at), Sign::UpTo) => {
                let seen = self.letters_of(alloc, tokens.text(at), tokens.line(at))?;
                Ok((seen, next(at)))
            }
            Mode::Numbers | Mode::Letters => {
                let (range, behind) = self.range_at(scope, mode, at)?;
                Ok((Seen::numbers(alloc, range)?, behind))
            }
            Mode::Others => {
                let mut behind = after_value(tokens, at)?;
                if tokens.is(behind, Sign::Less) {
                    behind = next(behind);
                }
                if tokens.is(behind, Sign::UpTo) {
                    behind = next(behind);
                    if tokens.is(behind, Sign::Less) {
                        behind = next(behind);
                    }
                    behind = after_value(tokens, behind)?;
                }
                Ok((Seen::unseen(), behind))
            }
        }
    }
}

/// The range of one number.
fn single(number: Option<i128>) -> Range {
    Range {
        low: number,
        high: number,
    }
}

/// A bound that `<` moves by one, where it stands; `open` is what MIN or MAX is, where that is known.
fn moved(
    bound: Option<i128>,
    open: Option<i128>,
    is_moved: bool,
    by: i128,
    line: u32,
) -> Result<Option<i128>, Refusal> {
    if !is_moved {
        return Ok(bound);
    }
    let from = if bound.is_some() { bound } else { open };
    let moved = match from {
        Some(number) => number.checked_add(by),
        None => None,
    };
    match moved {
        Some(_) => Ok(moved),
        None => Err(refused(line, Why::Constraint)),
    }
}
