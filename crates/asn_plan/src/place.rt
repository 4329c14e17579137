//! Where values are put over those of a value before.
ghost use Rattle.std.specs.Prelude.{◌≡◌, ◌++◌, ◌∷◌, [], Some, None, IsSome, true};
ghost use Rattle.asn_values.specs.Datum.{Datum, truth, number, item, components, components_of};
ghost use Rattle.asn_values.specs.View.{datum_of, entries_seen};
ghost use Rattle.asn_plan.specs.Placed.{IsAbsent, IsPut, IsThere, taken};

use asn_values::Value;
use std::alloc::Global;
use std::mem;

/// The entries of a SEQUENCE that are put over those of a value before, and how many of them are new: the next value is
/// put at this index. What is there and after it is kept for its memory alone.
#[derive(Drop)]
pub struct Place {
    pub(crate) items: Vec<Option<Value>>,
    pub(crate) at: usize,
}

impl Place {
    /// Puts an INTEGER here.
    #[inline(always)]
    pub(crate) fn put_integer(&mut self, integer: i128) -> Option<()>
        ensures { IsSome result → IsPut self.old self.new (number integer) }
    {
        if self.at < self.items.len() {
            if let Some(place) = &mut self.items[self.at] {
                set_integer(integer, place);
                return Some(());
            }
        }
        self.put_new_integer(integer)
    }

    /// Puts an INTEGER here, where no value is.
    #[inline(never)]
    fn put_new_integer(&mut self, integer: i128) -> Option<()>
        ensures { IsSome result → IsPut self.old self.new (number integer) }
    {
        self.put(Value::Int(integer))
    }

    /// Puts a BOOLEAN here.
    #[inline(always)]
    pub(crate) fn put_truth(&mut self, is_true: bool) -> Option<()>
        ensures { IsSome result → IsPut self.old self.new (truth is_true) }
    {
        if self.at < self.items.len() {
            if let Some(place) = &mut self.items[self.at] {
                set_boolean(is_true, place);
                return Some(());
            }
        }
        self.put_new_truth(is_true)
    }

    /// Puts a BOOLEAN here, where no value is.
    #[inline(never)]
    fn put_new_truth(&mut self, is_true: bool) -> Option<()>
        ensures { IsSome result → IsPut self.old self.new (truth is_true) }
    {
        self.put(Value::Bool(is_true))
    }

    /// Puts an item of an ENUMERATED here.
    #[inline(always)]
    pub(crate) fn put_item(&mut self, position: u32) -> Option<()>
        ensures { IsSome result → IsPut self.old self.new (item position) }
    {
        if self.at < self.items.len() {
            if let Some(place) = &mut self.items[self.at] {
                set_item(position, place);
                return Some(());
            }
        }
        self.put_new_item(position)
    }

    /// Puts an item of an ENUMERATED here, where no value is.
    #[inline(never)]
    fn put_new_item(&mut self, position: u32) -> Option<()>
        ensures { IsSome result → IsPut self.old self.new (item position) }
    {
        self.put(Value::Enum(position))
    }

    /// Puts a value here.
    #[inline(never)]
    pub(crate) fn put(&mut self, value: Value) -> Option<()>
        ensures { IsSome result → IsPut self.old self.new (datum_of value) }
    {
        let at = self.at;
        if at < self.items.len() {
            self.items[at] = Some(value);
            return Some(());
        }
        if at > self.items.len() {
            return None;
        }
        self.items.push(Some(value)).ok()?;
        Some(())
    }

    /// Puts a value here, where one was taken away.
    #[inline(always)]
    pub(crate) fn put_back(&mut self, value: Value) -> Option<()>
        ensures { IsSome result → IsPut self.old self.new (datum_of value) }
    {
        if self.at < self.items.len() {
            if let Some(place) = &mut self.items[self.at] {
                put_over(value, place);
                return Some(());
            }
        }
        self.put(value)
    }

    /// Takes the value away that is here, and leaves NULL; NULL where none is.
    #[inline(always)]
    pub(crate) fn take(&mut self) -> Value
        ensures same { taken self.new ≡ taken self.old }
        ensures value { (d : Datum) → IsThere self.old d → datum_of result ≡ d }
    {
        if self.at < self.items.len() {
            if let Some(place) = &mut self.items[self.at] {
                return mem::replace(place, Value::Null);
            }
        }
        Value::Null
    }

    /// Takes the string away that is here, for its memory, and leaves NULL.
    #[inline(always)]
    pub(crate) fn take_string(&mut self) -> Option<Value>
        ensures { taken self.new ≡ taken self.old }
    {
        if self.at < self.items.len() {
            if let Some(place) = &mut self.items[self.at] {
                if let Value::Bits(_) | Value::Octets(_) | Value::Text(_) | Value::Utf8(_) = place {
                    return Some(mem::replace(place, Value::Null));
                }
            }
        }
        None
    }

    /// Exchanges the value that is here, if one is, for another.
    #[inline(always)]
    pub(crate) fn exchange(&mut self, other: &mut Value)
        ensures same { taken self.new ≡ taken self.old }
        ensures value { (d : Datum) → IsThere self.old d → datum_of other.new ≡ d }
    {
        if self.at < self.items.len() {
            if let Some(place) = &mut self.items[self.at] {
                mem::swap(place, other);
            }
        }
    }

    /// Lays a value here for its memory, if a value is here.
    #[inline(always)]
    pub(crate) fn lay(&mut self, value: Value)
        ensures { taken self.new ≡ taken self.old }
    {
        if self.at < self.items.len() {
            if let Some(place) = &mut self.items[self.at] {
                put_over(value, place);
            }
        }
    }

    /// Puts a SEQUENCE of these entries here.
    #[inline(always)]
    pub(crate) fn put_entries(&mut self, entries: Vec<Option<Value>>) -> Option<()>
        ensures { IsSome result → IsPut self.old self.new (components (components_of (entries_seen entries.items))) }
    {
        if self.at < self.items.len() {
            if let Some(place) = &mut self.items[self.at] {
                set_entries(entries, place);
                return Some(());
            }
        }
        self.put_new_entries(entries)
    }

    /// Puts a SEQUENCE of these entries here, where no value is.
    #[inline(never)]
    fn put_new_entries(&mut self, entries: Vec<Option<Value>>) -> Option<()>
        ensures { IsSome result → IsPut self.old self.new (components (components_of (entries_seen entries.items))) }
    {
        self.put(Value::Seq(entries))
    }

    /// Goes on behind the entry that was put here.
    #[inline(always)]
    pub(crate) fn pass(&mut self)
        ensures { (s : Place) (d : Datum) → IsPut s self.old d → taken self.new ≡ taken s ++ Some d ∷ [] }
    {
        self.at = self.at.wrapping_add(1);
    }

    /// Whether an entry without a value is here.
    #[inline(always)]
    pub(crate) fn is_absent(&self) -> bool
        ensures { result ≡ true → IsAbsent self.now }
    {
        self.at < self.items.len() && self.items[self.at].is_none()
    }

    /// Goes on behind an entry without a value that is here.
    #[inline(always)]
    pub(crate) fn pass_absent(&mut self)
        ensures { IsAbsent self.old → taken self.new ≡ taken self.old ++ None ∷ [] }
    {
        self.at = self.at.wrapping_add(1);
    }

    /// Puts an entry without a value here, and goes on behind it.
    #[inline(never)]
    pub(crate) fn put_absent(&mut self) -> Option<()>
        ensures { IsSome result → taken self.new ≡ taken self.old ++ None ∷ [] }
    {
        let at = self.at;
        if at < self.items.len() {
            self.items[at] = None;
            self.at = at + 1;
            return Some(());
        }
        if at > self.items.len() {
            return None;
        }
        self.items.push(None).ok()?;
        self.at = self.items.len();
        Some(())
    }
}

/// Puts a value in the place of another.
#[inline(always)]
pub(crate) fn put_over(value: Value, place: &mut Value)
    ensures { datum_of place.new ≡ datum_of value }
{
    if let Value::Null = place {
        mem::forget(mem::replace(place, value));
        return;
    }
    replace(value, place);
}

/// Puts a value in the place of another, which is let go.
#[inline(never)]
fn replace(value: Value, place: &mut Value)
    ensures { datum_of place.new ≡ datum_of value }
{
    *place = value;
}

/// The value becomes a SEQUENCE of these entries: one whose entries were taken gets them, and any other is let go.
#[inline(always)]
fn set_entries(entries: Vec<Option<Value>>, place: &mut Value)
    ensures { datum_of place.new ≡ components (components_of (entries_seen entries.items)) }
{
    if let Value::Seq(old) = place
        && old.is_empty()
    {
        mem::forget(mem::replace(old, entries));
        return;
    }
    replace_by_entries(entries, place);
}

/// The value, which was another, becomes a SEQUENCE of these entries.
#[inline(never)]
fn replace_by_entries(entries: Vec<Option<Value>>, place: &mut Value)
    ensures { datum_of place.new ≡ components (components_of (entries_seen entries.items)) }
{
    *place = Value::Seq(entries);
}

/// The value becomes this INTEGER.
#[inline(always)]
fn set_integer(integer: i128, place: &mut Value)
    ensures { datum_of place.new ≡ number integer }
{
    if let Value::Int(old) = place {
        *old = integer;
        return;
    }
    replace_by_integer(integer, place);
}

/// The value, which was another, becomes this INTEGER.
#[inline(never)]
fn replace_by_integer(integer: i128, place: &mut Value)
    ensures { datum_of place.new ≡ number integer }
{
    *place = Value::Int(integer);
}

/// The value becomes this BOOLEAN.
#[inline(always)]
fn set_boolean(is_true: bool, place: &mut Value)
    ensures { datum_of place.new ≡ truth is_true }
{
    if let Value::Bool(old) = place {
        *old = is_true;
        return;
    }
    replace_by_boolean(is_true, place);
}

/// The value, which was another, becomes this BOOLEAN.
#[inline(never)]
fn replace_by_boolean(is_true: bool, place: &mut Value)
    ensures { datum_of place.new ≡ truth is_true }
{
    *place = Value::Bool(is_true);
}

/// The value becomes the item at this position.
#[inline(always)]
fn set_item(position: u32, place: &mut Value)
    ensures { datum_of place.new ≡ item position }
{
    if let Value::Enum(old) = place {
        *old = position;
        return;
    }
    replace_by_item(position, place);
}

/// The value, which was another, becomes the item at this position.
#[inline(never)]
fn replace_by_item(position: u32, place: &mut Value)
    ensures { datum_of place.new ≡ item position }
{
    *place = Value::Enum(position);
}
