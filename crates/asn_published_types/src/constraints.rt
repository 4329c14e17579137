//! Reads the constraints of a type: unions, intersections, exceptions, one constraint after another.
ghost use Rattle.std.specs.Prelude.{ℤ, ◌↔◌};
ghost use Rattle.asn_published_types.specs.Left.{IsLeft};

use crate::info::{Base, State};
use crate::numbers::{Scope, Values};
use crate::places::{after_table, after_unseen, mark_at, root_end};
use crate::seen::{Mode, Seen, both_of, either_of, every_number, exception, intersection};
use asn_published_text::places::{is_and, is_contained, is_or};
use asn_published_text::refusal::{Refusal, Why, refused};
use asn_published_text::token::Sign;
use asn_published_text::tokens::next;
use std::alloc::{AllocError, Global};

/// How deep constraints are read: four levels for each parenthesis.
const MOST_LEVELS: u32 = 96;

impl<'a, 't> Values<'a, 't> {
    /// The constraint in the parentheses at `at`, as one on lengths or characters.
    #[cycle(seen)]
    fn inner_seen(
        &self,
        alloc: Global,
        scope: Scope,
        mode: Mode,
        at: usize,
        levels: u32,
    ) -> Result<Seen, Refusal> {
        let tokens = self.tokens_in(scope)?;
        if !tokens.is(at, Sign::LeftParen) || levels == 0 {
            return Err(refused(tokens.line(at), Why::Constraint));
        }
        let end = tokens.other(at);
        let root = root_end(tokens, next(at), end);
        let marked = mark_at(tokens, root, end)?;
        let mut seen = self.set_seen(alloc, scope, mode, next(at), root, levels - 1)?;
        if seen.marked {
            return Err(refused(tokens.line(at), Why::Constraint));
        }
        seen.marked = marked;
        Ok(seen)
    }

    /// What the type at `at` leaves whose values are allowed (X.680, "contained subtype"), and the index after it.
    fn contained_seen(
        &self,
        alloc: Global,
        scope: Scope,
        mode: Mode,
        at: usize,
    ) -> Result<(Seen, usize), Refusal> {
        let tokens = self.tokens_in(scope)?;
        let start = if tokens.is_word(at, "INCLUDES") {
            next(at)
        } else {
            at
        };
        let line = tokens.line(start);
        let (to, behind) = match self.world.reference_at(scope.module, start) {
            Ok(found) => found,
            Err(why) => return Err(refused(line, why)),
        };
        let info = match self.states.get(to) {
            Some(State::Ready(info)) => info,
            _ => return Err(refused(line, Why::Constraint)),
        };
        let is_number = mode == Mode::Numbers && info.base == Base::Integer;
        if !is_number && (mode != Mode::Others || info.base == Base::Integer) {
            return Err(refused(line, Why::Constraint));
        }
        let mut seen = info.seen(alloc)?;
        seen.marked = false;
        Ok((seen, behind))
    }

    /// The single constraint at `at`, and the index after it.
    #[cycle(seen)]
    fn element_seen(
        &self,
        alloc: Global,
        scope: Scope,
        mode: Mode,
        at: usize,
        levels: u32,
    ) -> Result<(Seen, usize), Refusal> {
        let tokens = self.tokens_in(scope)?;
        if levels == 0 {
            return Err(refused(tokens.line(at), Why::Constraint));
        }
        let below = levels - 1;
        if tokens.is(at, Sign::LeftParen) {
            let seen = self.inner_seen(alloc, scope, mode, at, below)?;
            return Ok((seen, tokens.after(at)));
        }
        if tokens.is(at, Sign::LeftBrace) && mode != Mode::Letters {
            return Ok((Seen::unseen(), after_table(tokens, at)));
        }
        if tokens.is_word(at, "SIZE") && mode == Mode::Others {
            let scope = scope.of_sizes();
            let inner = self.inner_seen(alloc, scope, Mode::Numbers, next(at), below)?;
            return Ok((sizes_of(inner), tokens.after(next(at))));
        }
        if tokens.is_word(at, "FROM") && mode == Mode::Others {
            let scope = scope.of_letters();
            let inner = self.inner_seen(alloc, scope, Mode::Letters, next(at), below)?;
            return Ok((letters_of(inner), tokens.after(next(at))));
        }
        if tokens.is_word(at, "SIZE") || tokens.is_word(at, "FROM") {
            return Err(refused(tokens.line(at), Why::Misplaced));
        }
        if let Some(behind) = after_unseen(tokens, at) {
            return Ok((Seen::unseen(), behind));
        }
        if is_contained(tokens, at) {
            return self.contained_seen(alloc, scope, mode, at);
        }
        self.value_seen(alloc, scope, mode, at)
    }

    /// The single constraint at `at` without what EXCEPT takes out, and the index after both.
    #[cycle(seen)]
    fn exception_seen(
        &self,
        alloc: Global,
        scope: Scope,
        mode: Mode,
        at: usize,
        levels: u32,
    ) -> Result<(Seen, usize), Refusal> {
        let tokens = self.tokens_in(scope)?;
        if levels == 0 {
            return Err(refused(tokens.line(at), Why::Constraint));
        }
        let (seen, behind) = if tokens.is_word(at, "ALL") {
            (all_seen(alloc, mode)?, next(at))
        } else {
            self.element_seen(alloc, scope, mode, at, levels - 1)?
        };
        if !tokens.is_word(behind, "EXCEPT") {
            return Ok((seen, behind));
        }
        let (_, behind) = self.element_seen(alloc, scope, mode, next(behind), levels - 1)?;
        Ok((exception(seen), behind))
    }

    /// What a set of constraints leaves, from `start` to before `end`: intersections bind tighter than unions.
    #[cycle(seen)]
    fn set_seen(
        &self,
        alloc: Global,
        scope: Scope,
        mode: Mode,
        start: usize,
        end: usize,
        levels: u32,
    ) -> Result<Seen, Refusal> {
        let tokens = self.tokens_in(scope)?;
        if levels == 0 {
            return Err(refused(tokens.line(start), Why::Constraint));
        }
        let mut total = None;
        let mut current = None;
        let mut at = start;
        for _ in 0..tokens.len() {
            let line = tokens.line(at);
            let (seen, behind) = self.exception_seen(alloc, scope, mode, at, levels - 1)?;
            if seen.marked && (at != start || behind < end) {
                return Err(refused(line, Why::Constraint));
            }
            current = both_of(alloc, current, seen, line)?;
            at = behind;
            if at < end && is_and(tokens, at) {
                at = next(at);
                continue;
            }
            total = either_of(alloc, total, current, line)?;
            current = None;
            if at >= end {
                break;
            }
            if !is_or(tokens, at) {
                return Err(refused(line, Why::Constraint));
            }
            at = next(at);
        }
        match total {
            Some(seen) if at == end => Ok(seen),
            _ => Err(refused(tokens.line(start), Why::Constraint)),
        }
    }

    /// What the constraints from `start` to before `end` leave, each in its parentheses, one after the other.
    pub fn constraints_seen(
        &self,
        alloc: Global,
        scope: Scope,
        mode: Mode,
        start: usize,
        end: usize,
    ) -> Result<Seen, Refusal> {
        let tokens = self.tokens_in(scope)?;
        let mut seen = Seen::all();
        let mut at = start;
        for _ in 0..tokens.len() {
            if at >= end {
                break;
            }
            // a value set
            if tokens.is(at, Sign::Becomes) {
                at = next(at);
            }
            let line = tokens.line(at);
            let place = scope.after(&seen.numbers).after(&seen.sizes);
            let one = self.inner_or_size(alloc, place, mode, at)?;
            seen = intersection(alloc, seen, one, line)?;
            at = tokens.after(at);
        }
        Ok(seen)
    }

    /// What the size of a list leaves, as `SIZE (..)` or in parentheses, from `start` to before `end`.
    pub fn sizes_seen(
        &self,
        alloc: Global,
        scope: Scope,
        start: usize,
        end: usize,
    ) -> Result<Seen, Refusal> {
        let tokens = self.tokens_in(scope)?;
        if tokens.is_word(start, "SIZE") {
            self.set_seen(alloc, scope, Mode::Others, start, end, MOST_LEVELS)
        } else {
            self.constraints_seen(alloc, scope, Mode::Others, start, end)
        }
    }

    /// The constraint in the parentheses at `at`, whose mark may stand inside SIZE or after it.
    fn inner_or_size(
        &self,
        alloc: Global,
        scope: Scope,
        mode: Mode,
        at: usize,
    ) -> Result<Seen, Refusal> {
        let tokens = self.tokens_in(scope)?;
        let end = tokens.other(at);
        let root = root_end(tokens, next(at), end);
        let marked = mark_at(tokens, root, end)?;
        let seen = self.set_seen(alloc, scope, mode, next(at), root, MOST_LEVELS)?;
        let mut seen = if marked { with_mark(seen) } else { seen };
        // a constraint of which nothing is seen makes no type extensible
        seen.marked = (seen.marked || marked) && !seen.is_unseen();
        Ok(seen)
    }
}

/// What a constraint with an extension mark leaves: where it is on characters alone, they are not seen (X.691,
/// "PER-visible constraints").
fn with_mark(seen: Seen) -> Seen {
    if seen.letters.is_none() || seen.sizes.is_some() || seen.dropped {
        return seen;
    }
    Seen {
        letters: None,
        others: true,
        ..seen
    }
}

/// What ALL leaves: of numbers each, as MIN..MAX does.
fn all_seen(alloc: Global, mode: Mode) -> Result<Seen, AllocError> {
    if mode == Mode::Numbers {
        Seen::numbers(alloc, every_number())
    } else {
        Ok(Seen::all())
    }
}

/// What a constraint inside SIZE leaves.
fn sizes_of(inner: Seen) -> Seen
    ensures { (z : ℤ) → IsLeft result.sizes z ↔ IsLeft inner.numbers z }
{
    Seen {
        sizes: inner.numbers,
        marked: inner.marked,
        dropped: inner.dropped,
        ..Seen::all()
    }
}

/// What a constraint inside FROM leaves: with an extension mark encoding rules do not see it (X.691, "PER-visible
/// constraints").
fn letters_of(inner: Seen) -> Seen {
    if inner.marked {
        return Seen {
            others: true,
            ..Seen::all()
        };
    }
    Seen {
        letters: inner.numbers,
        dropped: inner.dropped,
        ..Seen::all()
    }
}
