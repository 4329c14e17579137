//! What is still to be judged of a SEQUENCE OF whose elements are being read.
ghost use Rattle.std.specs.Prelude.{◌≡◌, ◌++◌, ◌∷◌, [], ℕ, true, List, Option, None, IfSome, IsSome};
ghost use Rattle.std.specs.Borrow.{Bor};
ghost use Rattle.asn_values.specs.Datum.{Datum, elements, elements_of};
ghost use Rattle.asn_constraints.specs.Constraints.{meets};
ghost use Rattle.asn_constraints.specs.View.{constraint_of};
ghost use Rattle.asn_constraints.specs.declared.constraint.Constraint.{Constraint};
ghost use Rattle.asn_constrained.specs.Along.{MeetsDue, AllMeetDue, MayHaveLength, MeetAskedOfEach, AreRowed};

use asn_constraints::{Constraint, Lengths, is_length};

/// What the elements of a SEQUENCE OF have to be, and how many there are so far.
#[derive(Clone, Copy)]
pub struct Elements<'c> {
    /// What each of them has to meet.
    pub(crate) each: Option<&'c Constraint>,
    /// How many there have to be, if that is asked.
    pub(crate) lengths: Option<&'c [Lengths]>,
    pub(crate) count: usize,
}

impl<'c> Elements<'c> {
    /// Begins the elements of a SEQUENCE OF that has to meet what is due, which becomes what the first of them has to
    /// meet. `None` where that can only be judged of the whole value.
    #[inline(always)]
    pub(crate) fn begin(due: &mut Option<&'c Constraint>) -> Option<Elements<'c>>
        ensures { IfSome result (λ row. AreRowed due.old due.new row []) }
    {
        let Some(constraint) = *due else {
            return Some(Elements {
                each: None,
                lengths: None,
                count: 0,
            });
        };
        let asked = asked_of_elements(constraint)?;
        *due = asked.each;
        Some(Elements {
            each: asked.each,
            lengths: asked.lengths,
            count: 0,
        })
    }

    /// Goes on after an element, which met what was due.
    #[inline(always)]
    pub(crate) fn pass(&mut self, due: &mut Option<&'c Constraint>) -> Option<()>
        ensures { IsSome result → (s m : Option (Bor Constraint)) (ds : List Datum) (d : Datum)
            → AreRowed s m self.old ds → MeetsDue m d → AreRowed s due.new self.new (ds ++ d ∷ []) }
    {
        self.count = self.count.checked_add(1)?;
        *due = self.each;
        Some(())
    }

    /// Ends the elements, after which nothing is due; `None` where there may not be this many.
    #[inline(always)]
    pub(crate) fn end(&self, due: &mut Option<&'c Constraint>) -> Option<()>
        ensures { IsSome result → (s m : Option (Bor Constraint)) (ds : List Datum) → AreRowed s m self.now ds
            → MeetsDue s (elements (elements_of ds)) }
    {
        *due = None;
        let Some(lengths) = self.lengths else {
            return Some(());
        };
        if is_length(lengths, self.count) {
            return Some(());
        }
        None
    }
}

/// What the constraint on a SEQUENCE OF asks of its elements; `None` where it can only be judged of the whole value, or
/// where two constraints ask the same of them.
fn asked_of_elements<'c>(constraint: &'c Constraint) -> Option<Elements<'c>>
    ensures { IfSome result (λ row. (ds : List Datum) → MeetAskedOfEach row ds
        → meets (constraint_of constraint.now) (elements (elements_of ds)) ≡ true) }
{
    match constraint {
        Constraint::Elements(each) => Some(Elements {
            each: Some(each),
            lengths: None,
            count: 0,
        }),
        Constraint::Lengths(lengths) => Some(Elements {
            each: None,
            lengths: Some(lengths.as_slice()),
            count: 0,
        }),
        Constraint::Both(first, second) => {
            let of_first = asked_of_elements(first)?;
            let of_second = asked_of_elements(second)?;
            of_both(of_first, of_second)
        }
        Constraint::Free => Some(Elements {
            each: None,
            lengths: None,
            count: 0,
        }),
        Constraint::Barred
        | Constraint::Either(..)
        | Constraint::Numbers(_)
        | Constraint::Items(_)
        | Constraint::Characters(_)
        | Constraint::Trimmed(_)
        | Constraint::Time(_)
        | Constraint::Except(_)
        | Constraint::Components(_)
        | Constraint::Alternatives(_)
        | Constraint::SomePresent => None,
    }
}

/// What two constraints ask of elements; `None` where both ask the same.
#[inline(always)]
fn of_both<'c>(first: Elements<'c>, second: Elements<'c>) -> Option<Elements<'c>>
    ensures of_first { IfSome result (λ row. (ds : List Datum) → MeetAskedOfEach row ds
        → MeetAskedOfEach first.entry ds) }
    ensures of_second { IfSome result (λ row. (ds : List Datum) → MeetAskedOfEach row ds
        → MeetAskedOfEach second.entry ds) }
{
    let each = each_of_both(first.each, second.each)?;
    let lengths = lengths_of_both(first.lengths, second.lengths)?;
    Some(Elements {
        each,
        lengths,
        count: 0,
    })
}

/// The one of two constraints on each element that there is, `None` where there are both.
#[inline(always)]
fn each_of_both<'c>(
    first: Option<&'c Constraint>,
    second: Option<&'c Constraint>,
) -> Option<Option<&'c Constraint>>
    ensures of_first { IfSome result (λ each. (ds : List Datum) → AllMeetDue each ds → AllMeetDue first.entry ds) }
    ensures of_second { IfSome result (λ each. (ds : List Datum) → AllMeetDue each ds → AllMeetDue second.entry ds) }
{
    match (first, second) {
        (None, _) => Some(second),
        (Some(_), None) => Some(first),
        (Some(_), Some(_)) => None,
    }
}

/// The one of two lists of lengths that there is, `None` where there are both.
#[inline(always)]
fn lengths_of_both<'c>(
    first: Option<&'c [Lengths]>,
    second: Option<&'c [Lengths]>,
) -> Option<Option<&'c [Lengths]>>
    ensures of_first { IfSome result (λ lengths. (n : ℕ) → MayHaveLength lengths n → MayHaveLength first.entry n) }
    ensures of_second { IfSome result (λ lengths. (n : ℕ) → MayHaveLength lengths n → MayHaveLength second.entry n) }
{
    match (first, second) {
        (None, _) => Some(second),
        (Some(_), None) => Some(first),
        (Some(_), Some(_)) => None,
    }
}
