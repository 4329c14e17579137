//! A builder that puts values into the memory of one that is there.
ghost use Rattle.std.specs.Prelude.{◌≡◌, ◌<◌, ◌++◌, ◌∷◌, [], List, Option, Some, None, IsSome, take, vec_len, vec_capacity};
ghost use Rattle.asn_values.specs.Datum.{Datum, components, components_of};
ghost use Rattle.asn_values.specs.View.{datum_of};
ghost use Rattle.asn_plan.specs.Placed.{taken, IsPutIn, AreEntries, AreElements, IsBegun};

use crate::build::Build;
use crate::fixed::FixedString;
use crate::place::{Place, put_over};
use asn_values::Value;
use std::alloc::Global;
use std::mem;

/// Makes values in the memory of one that is there. A part is put at its place among the entries of the SEQUENCE around
/// it, over what was there.
pub struct Reused;

/// Memory that serves from message to message: where the next value is put, the places of the SEQUENCEs around it that
/// are not complete, the innermost last, and SEQUENCEs of messages before that had no place in a later one.
#[derive(Drop)]
pub struct Spare {
    pub(crate) here: Place,
    pub(crate) around: Vec<Place>,
    pub(crate) kept: Vec<Value>,
}

/// The elements of a SEQUENCE OF, put over those of a value before.
#[derive(Drop)]
pub struct ElementsOver {
    pub(crate) items: Vec<Value>,
    /// How many of them are new.
    pub(crate) count: usize,
}

/// A CHOICE whose value is not there yet: the box of the one before.
#[derive(Drop)]
pub struct ChoiceOver {
    inner: Option<Box<Value>>,
}

impl Spare {
    /// Spare memory that holds nothing yet. Allocates nothing.
    pub fn new(alloc: Global) -> Spare {
        Spare {
            here: Place {
                items: Vec::new(alloc),
                at: 0,
            },
            around: Vec::new(alloc),
            kept: Vec::new(alloc),
        }
    }

    /// Begins with this value, for its memory.
    #[inline(always)]
    pub(crate) fn begin(&mut self, value: Value) -> Option<()> {
        self.around.truncate(0);
        self.here.items.truncate(1);
        self.here.at = 0;
        self.here.put_back(value)
    }

    /// Goes into the SEQUENCE that is here, of which no entry is new yet.
    #[inline(always)]
    fn enter(&mut self, alloc: Global, count: usize) -> Option<()>
        ensures { IsSome result → AreEntries self.old self.new [] }
    {
        if self.around.len() >= self.around.capacity() {
            self.grow()?;
        }
        let here = &mut self.here;
        if here.at < here.items.len() {
            if let Some(Value::Seq(entries)) = &mut here.items[here.at] {
                let items = mem::replace(entries, Vec::new(alloc));
                if items.len() == count {
                    let at = mem::replace(&mut here.at, 0);
                    let items = mem::replace(&mut here.items, items);
                    self.around.push_reserved(Place { items, at });
                    return Some(());
                }
                return self.enter_other(alloc, items, count);
            }
        }
        self.enter_other(alloc, Vec::new(alloc), count)
    }

    /// The same with entries for it in the memory of one of another length, where it serves, or new ones.
    #[inline(never)]
    fn enter_other(&mut self, alloc: Global, memory: Vec<Option<Value>>, count: usize) -> Option<()>
        ensures { IsSome result → AreEntries self.old self.new [] }
    {
        let items = if memory.capacity() < count {
            Vec::with_capacity(alloc, count).ok()?
        } else {
            let mut items = memory;
            items.truncate(count);
            items
        };
        let place = mem::replace(&mut self.here, Place { items, at: 0 });
        self.around.push(place).ok()
    }

    /// Makes room for one more place around.
    #[cold]
    #[inline(never)]
    fn grow(&mut self) -> Option<()>
        ensures here { self.new.here ≡ self.old.here }
        ensures around { self.new.around.items ≡ self.old.around.items }
        ensures room { IsSome result → vec_len self.new.around < vec_capacity self.new.around }
    {
        self.around.reserve(8).ok()
    }

    /// Goes out of the SEQUENCE, whose entries are all there, and puts it in its place.
    #[inline(always)]
    fn leave(&mut self) -> Option<()>
        ensures { IsSome result → (s : Spare) (es : List (Option Datum)) → AreEntries s self.old es
            → IsPutIn s self.new (components (components_of es)) }
    {
        let place = self.around.pop()?;
        let Place { items, at } = mem::replace(&mut self.here, place);
        if at != items.len() {
            return None;
        }
        self.here.put_entries(items)
    }

    /// Keeps a SEQUENCE for its memory.
    #[inline(always)]
    fn keep(&mut self, value: Value)
        ensures here { self.new.here ≡ self.old.here }
        ensures around { self.new.around ≡ self.old.around }
    {
        if let Value::Seq(_) = &value {
            let _ = self.kept.push(value);
        }
    }

    /// Lays a SEQUENCE that is kept here, for its memory.
    #[inline(never)]
    pub(crate) fn lay_kept(&mut self)
        ensures here { taken self.new.here ≡ taken self.old.here }
        ensures around { self.new.around ≡ self.old.around }
    {
        if let Some(value) = self.kept.pop() {
            self.here.lay(value);
        }
    }

    /// Keeps the value that was laid here, for its memory.
    #[inline(always)]
    fn keep_laid(&mut self)
        ensures here { taken self.new.here ≡ taken self.old.here }
        ensures around { self.new.around ≡ self.old.around }
    {
        let laid = self.here.take();
        self.keep(laid);
    }

    /// Cuts elements off until this many are left, and keeps them for their memory.
    #[inline(never)]
    fn cut(&mut self, items: &mut Vec<Value>, count: usize)
        ensures here { self.new.here ≡ self.old.here }
        ensures around { self.new.around ≡ self.old.around }
        ensures items { items.new.items ≡ take count items.old.items }
    {
        'elements: for at in count..items.len() {
            let element = mem::replace(&mut items[at], Value::Null);
            self.keep(element);
        }
        items.truncate(count);
    }
}

impl Build for Reused {
    type Room = Spare;

    type Part = ();

    type Entries = ();

    type Elements = ElementsOver;

    type Chosen = ChoiceOver;

    ghost built = { λ s r p d. IsPutIn s r d };

    ghost listed = { λ s r e es. AreEntries s r es };

    ghost rowed = { AreElements };

    ghost opened = { λ s r c n. IsBegun s r };

    #[inline(always)]
    fn number(room: &mut Spare, integer: i128) -> Option<()> {
        room.here.put_integer(integer)
    }

    #[inline(always)]
    fn truth(room: &mut Spare, is_true: bool) -> Option<()> {
        room.here.put_truth(is_true)
    }

    #[inline(always)]
    fn item(room: &mut Spare, position: u32) -> Option<()> {
        room.here.put_item(position)
    }

    #[inline(always)]
    fn takes_strings() -> bool {
        true
    }

    #[inline(always)]
    fn string(room: &mut Spare, fixed: &FixedString, number: u64) -> Option<()> {
        if fixed.of_octets {
            room.here.put_low_octets(fixed.length, number)?;
            return Some(());
        }
        room.here.put_low_bits(fixed.length, number)?;
        Some(())
    }

    #[inline(always)]
    fn value(room: &mut Spare, value: Value) -> Option<()> {
        match value {
            Value::Bool(is_true) => room.here.put_truth(is_true),
            Value::Int(integer) => room.here.put_integer(integer),
            Value::Enum(position) => room.here.put_item(position),
            other => room.here.put_back(other),
        }
    }

    #[inline(always)]
    fn kept(room: &mut Spare, value: &Value) -> Option<()> {
        match value {
            Value::Bool(is_true) => room.here.put_truth(*is_true),
            Value::Int(integer) => room.here.put_integer(*integer),
            Value::Enum(position) => room.here.put_item(*position),
            _ => None,
        }
    }

    #[inline(always)]
    fn spare(room: &mut Spare) -> Option<Value> {
        room.here.take_string()
    }

    #[inline(always)]
    fn entries(alloc: Global, room: &mut Spare, count: usize) -> Option<()> {
        room.enter(alloc, count)
    }

    #[inline(always)]
    fn absent(room: &mut Spare, _entries: &mut ()) -> Option<()> {
        if room.here.is_absent() {
            room.here.pass_absent();
            return Some(());
        }
        room.here.put_absent()
    }

    #[inline(always)]
    fn present(room: &mut Spare, _entries: &mut (), _part: ()) -> Option<()> {
        room.here.pass();
        Some(())
    }

    #[inline(always)]
    fn sequence(room: &mut Spare, _entries: ()) -> Option<()> {
        room.leave()?;
        Some(())
    }

    #[inline(always)]
    fn elements(alloc: Global, room: &mut Spare) -> Option<ElementsOver> {
        let items = match room.here.take() {
            Value::List(items) => items,
            _ => Vec::new(alloc),
        };
        let mut row = ElementsOver { items, count: 0 };
        row.lay_next(room);
        Some(row)
    }

    #[inline(always)]
    fn element(room: &mut Spare, row: &mut ElementsOver, _part: ()) -> Option<()> {
        row.go_on(room)?;
        Some(())
    }

    #[inline(always)]
    fn list(room: &mut Spare, row: ElementsOver) -> Option<()> {
        let ElementsOver { items, count } = row;
        let mut items = items;
        room.keep_laid();
        if items.len() > count {
            room.cut(&mut items, count);
        }
        room.here.put_back(Value::List(items))
    }

    #[inline(always)]
    fn choosing(room: &mut Spare, _place: usize) -> Option<ChoiceOver> {
        let Value::Choice(_, inner) = room.here.take() else {
            return Some(ChoiceOver { inner: None });
        };
        let mut inner = inner;
        room.here.lay(mem::replace(&mut *inner, Value::Null));
        Some(ChoiceOver { inner: Some(inner) })
    }

    #[inline(always)]
    fn choice(
        alloc: Global,
        room: &mut Spare,
        chosen: ChoiceOver,
        place: usize,
        _part: (),
    ) -> Option<()> {
        match chosen.inner {
            Some(inner) => {
                let mut inner = inner;
                put_over(room.here.take(), &mut *inner);
                room.here.put_back(Value::Choice(place as u32, inner))
            }
            None => {
                let inner = Box::new(alloc, room.here.take()).ok()?;
                room.here.put_back(Value::Choice(place as u32, inner))
            }
        }
    }
}
