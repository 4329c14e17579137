//! Elements of a SEQUENCE OF that are put over those of a value before.
ghost use Rattle.std.specs.Prelude.{◌≡◌, ◌≤◌, ◌++◌, ◌∷◌, [], IsSome, vec_len};
ghost use Rattle.asn_values.specs.Datum.{Datum};
ghost use Rattle.asn_values.specs.View.{datum_of};
ghost use Rattle.asn_plan.specs.Placed.{taken, made, IsThere};

use crate::place::{Place, put_over};
use crate::reused::{ElementsOver, Spare};
use asn_values::Value;
use std::mem;

impl ElementsOver {
    /// Lays the element that stood at this place into the room, for its memory; after the last one, one that is kept.
    #[inline(always)]
    pub(crate) fn lay_next(&mut self, room: &mut Spare)
        ensures same { taken room.new.here ≡ taken room.old.here }
        ensures around { room.new.around ≡ room.old.around }
        ensures made { made self.new ≡ made self.old }
    {
        if self.count < self.items.len() {
            room.here.exchange(&mut self.items[self.count]);
            return;
        }
        if !room.kept.is_empty() {
            room.lay_kept();
        }
    }

    /// Adds the element that is in the room, and lays the next one there.
    #[inline(always)]
    pub(crate) fn go_on(&mut self, room: &mut Spare) -> Option<()>
        ensures same { IsSome result → taken room.new.here ≡ taken room.old.here }
        ensures around { room.new.around ≡ room.old.around }
        ensures made { IsSome result → (d : Datum) → IsThere room.old.here d → made self.new ≡ made self.old ++ d ∷ [] }
    {
        let at = self.count;
        if at < self.items.len() && at + 1 < self.items.len() {
            let here = &mut room.here;
            if here.at < here.items.len() {
                if let Some(place) = &mut here.items[here.at] {
                    let next = mem::replace(&mut self.items[at + 1], Value::Null);
                    let element = mem::replace(place, next);
                    put_over(element, &mut self.items[at]);
                    self.count = at + 1;
                    return Some(());
                }
            }
        }
        self.add_last(room)
    }

    /// Adds the element that is in the room, where it is the last one of the value before or comes after it.
    #[inline(never)]
    fn add_last(&mut self, room: &mut Spare) -> Option<()>
        ensures same { IsSome result → taken room.new.here ≡ taken room.old.here }
        ensures around { room.new.around ≡ room.old.around }
        ensures made { IsSome result → (d : Datum) → IsThere room.old.here d → made self.new ≡ made self.old ++ d ∷ [] }
    {
        self.add(&mut room.here)?;
        self.lay_next(room);
        Some(())
    }

    /// Adds the element that is in the room.
    fn add(&mut self, room: &mut Place) -> Option<()>
        ensures same { IsSome result → taken room.new ≡ taken room.old }
        ensures made { IsSome result → (d : Datum) → IsThere room.old d → made self.new ≡ made self.old ++ d ∷ [] }
    {
        let at = self.count;
        if at < self.items.len() {
            room.exchange(&mut self.items[at]);
            self.count = at + 1;
            return Some(());
        }
        self.push(room.take())?;
        Some(())
    }

    /// Adds an element after all others, which are new.
    fn push(&mut self, element: Value) -> Option<()>
        ensures { IsSome result → vec_len self.old.items ≤ self.old.count
            → made self.new ≡ made self.old ++ datum_of element ∷ [] }
    {
        self.items.push(element).ok()?;
        self.count = self.items.len();
        Some(())
    }
}
