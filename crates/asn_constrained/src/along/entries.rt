//! What is still to be judged of a SEQUENCE whose components are being read.
ghost use Rattle.std.specs.Prelude.{◌≡◌, ◌++◌, ◌∷◌, [], true, List, Option, Some, None, IfSome, IsSome};
ghost use Rattle.std.specs.Borrow.{Bor};
ghost use Rattle.asn_values.specs.Datum.{Datum, components, components_of};
ghost use Rattle.asn_constraints.specs.Constraints.{meets};
ghost use Rattle.asn_constraints.specs.View.{constraint_of};
ghost use Rattle.asn_constraints.specs.declared.constraint.Constraint.{Constraint};
ghost use Rattle.asn_constrained.specs.Along.{MeetsDue, MeetsFirst, MeetAsked, AreListed};

use asn_constraints::{Component, Constraint, Presence};

/// What the components of a SEQUENCE have to be from the next one on.
#[derive(Clone, Copy)]
pub struct Entries<'c> {
    /// What is asked of each; nothing of those after the last.
    pub(crate) rest: &'c [Component],
    /// Whether one of them has to be present.
    pub(crate) some_due: bool,
}

impl<'c> Entries<'c> {
    /// Begins the components of a SEQUENCE that has to meet what is due, which becomes what the first of them has to
    /// meet. `None` where that can only be judged of the whole value.
    #[inline(always)]
    pub(crate) fn begin(due: &mut Option<&'c Constraint>) -> Option<Entries<'c>>
        ensures { IfSome result (λ entries. AreListed due.old due.new entries []) }
    {
        let Some(constraint) = *due else {
            return Some(Entries {
                rest: &[],
                some_due: false,
            });
        };
        let asked = asked_of(constraint)?;
        *due = due_of_first(asked.rest);
        Some(Entries {
            rest: asked.rest,
            some_due: asked.some_due,
        })
    }

    /// Goes on after a component that is absent; `None` where it has to be present.
    #[inline(always)]
    pub(crate) fn pass_absent(&mut self, due: &mut Option<&'c Constraint>) -> Option<()>
        ensures { IsSome result → (s : Option (Bor Constraint)) (es : List (Option Datum))
            → AreListed s due.old self.old es → AreListed s due.new self.new (es ++ None ∷ []) }
    {
        let Some((component, others)) = self.rest.split_first() else {
            return Some(());
        };
        if let Presence::Present = component.presence {
            return None;
        }
        self.rest = others;
        *due = due_of_first(others);
        Some(())
    }

    /// Goes on after a component that is present, and met what was due; `None` where it has to be absent.
    #[inline(always)]
    pub(crate) fn pass_present(&mut self, due: &mut Option<&'c Constraint>) -> Option<()>
        ensures { IsSome result → (s m : Option (Bor Constraint)) (es : List (Option Datum)) (d : Datum)
            → AreListed s m self.old es → MeetsDue m d → AreListed s due.new self.new (es ++ Some d ∷ []) }
    {
        self.some_due = false;
        let Some((component, others)) = self.rest.split_first() else {
            return Some(());
        };
        if let Presence::Absent = component.presence {
            return None;
        }
        self.rest = others;
        *due = due_of_first(others);
        Some(())
    }

    /// Ends the components; `None` where more is asked.
    #[inline(always)]
    pub(crate) fn end(&self) -> Option<()>
        ensures { IsSome result → (s m : Option (Bor Constraint)) (es : List (Option Datum))
            → AreListed s m self.now es → MeetsDue s (components (components_of es)) }
    {
        if self.some_due {
            return None;
        }
        if self.rest.is_empty() {
            return Some(());
        }
        None
    }
}

/// What is asked of the first of these components, if there is one.
#[inline(always)]
fn due_of_first<'c>(components: &'c [Component]) -> Option<&'c Constraint>
    ensures { (d : Datum) → MeetsDue result d → MeetsFirst components.now d }
{
    let (component, _) = components.split_first()?;
    match &component.constraint {
        Constraint::Free => None,
        asked => Some(asked),
    }
}

/// What the constraint on a SEQUENCE asks of its components, as `asked_of_components` does, which is called only where
/// the constraint is put together of others.
#[inline(always)]
fn asked_of<'c>(constraint: &'c Constraint) -> Option<Entries<'c>>
    ensures { IfSome result (λ entries. (es : List (Option Datum)) → MeetAsked entries es
        → meets (constraint_of constraint.now) (components (components_of es)) ≡ true) }
{
    match constraint {
        Constraint::Components(components) => Some(Entries {
            rest: components.as_slice(),
            some_due: false,
        }),
        Constraint::SomePresent => Some(Entries {
            rest: &[],
            some_due: true,
        }),
        other => asked_of_components(other),
    }
}

/// What the constraint on a SEQUENCE asks of its components; `None` where it can only be judged of the whole value, or
/// where two constraints ask of components one after the other.
#[inline(never)]
fn asked_of_components<'c>(constraint: &'c Constraint) -> Option<Entries<'c>>
    ensures { IfSome result (λ entries. (es : List (Option Datum)) → MeetAsked entries es
        → meets (constraint_of constraint.now) (components (components_of es)) ≡ true) }
{
    match constraint {
        Constraint::Components(components) => Some(Entries {
            rest: components.as_slice(),
            some_due: false,
        }),
        Constraint::SomePresent => Some(Entries {
            rest: &[],
            some_due: true,
        }),
        Constraint::Both(first, second) => {
            let of_first = asked_of_components(first)?;
            let of_second = asked_of_components(second)?;
            of_both(of_first, of_second)
        }
        Constraint::Free => Some(Entries {
            rest: &[],
            some_due: false,
        }),
        Constraint::Barred
        | Constraint::Either(..)
        | Constraint::Numbers(_)
        | Constraint::Items(_)
        | Constraint::Lengths(_)
        | Constraint::Characters(_)
        | Constraint::Trimmed(_)
        | Constraint::Time(_)
        | Constraint::Except(_)
        | Constraint::Elements(_)
        | Constraint::Alternatives(_) => None,
    }
}

/// What two constraints ask of components; `None` where both ask of them one after the other.
#[inline(always)]
fn of_both<'c>(first: Entries<'c>, second: Entries<'c>) -> Option<Entries<'c>>
    ensures of_first { IfSome result (λ entries. (es : List (Option Datum)) → MeetAsked entries es
        → MeetAsked first.entry es) }
    ensures of_second { IfSome result (λ entries. (es : List (Option Datum)) → MeetAsked entries es
        → MeetAsked second.entry es) }
{
    let some_due = first.some_due || second.some_due;
    if first.rest.is_empty() {
        return Some(Entries {
            rest: second.rest,
            some_due,
        });
    }
    if second.rest.is_empty() {
        return Some(Entries {
            rest: first.rest,
            some_due,
        });
    }
    None
}
