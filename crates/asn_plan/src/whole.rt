//! Values as what the walk of a plan builds.
ghost use Rattle.std.specs.Prelude.{◌≡◌, map, ⊤};
ghost use Rattle.asn_values.specs.View.{datum_of, entries_seen};

use crate::build::Build;
use asn_values::Value;
use std::alloc::Global;

/// Builds values.
pub struct Values;

impl Build for Values {
    type Room = ();

    type Part = Value;

    type Entries = Vec<Option<Value>>;

    type Elements = Vec<Value>;

    type Chosen = ();

    ghost built = { λ s r p d. datum_of p ≡ d };

    ghost listed = { λ s r p es. entries_seen p.items ≡ es };

    ghost rowed = { λ s r p ds. map datum_of p.items ≡ ds };

    ghost opened = { λ s r c n. ⊤ };

    #[inline(always)]
    fn number(_room: &mut (), integer: i128) -> Option<Value> {
        Some(Value::Int(integer))
    }

    #[inline(always)]
    fn truth(_room: &mut (), is_true: bool) -> Option<Value> {
        Some(Value::Bool(is_true))
    }

    #[inline(always)]
    fn item(_room: &mut (), position: u32) -> Option<Value> {
        Some(Value::Enum(position))
    }

    #[inline(always)]
    fn value(_room: &mut (), value: Value) -> Option<Value> {
        Some(value)
    }

    #[inline(always)]
    fn entries(alloc: Global, _room: &mut (), count: usize) -> Option<Vec<Option<Value>>> {
        Vec::with_capacity(alloc, count).ok()
    }

    #[inline(always)]
    fn absent(_room: &mut (), entries: &mut Vec<Option<Value>>) -> Option<()> {
        if entries.len() >= entries.capacity() {
            return None;
        }
        entries.push_reserved(None);
        Some(())
    }

    #[inline(always)]
    fn present(_room: &mut (), entries: &mut Vec<Option<Value>>, part: Value) -> Option<()> {
        if entries.len() >= entries.capacity() {
            return None;
        }
        entries.push_reserved(Some(part));
        Some(())
    }

    #[inline(always)]
    fn sequence(_room: &mut (), entries: Vec<Option<Value>>) -> Option<Value> {
        Some(Value::Seq(entries))
    }

    #[inline(always)]
    fn elements(alloc: Global, _room: &mut ()) -> Option<Vec<Value>> {
        Some(Vec::new(alloc))
    }

    #[inline(always)]
    fn element(_room: &mut (), row: &mut Vec<Value>, part: Value) -> Option<()> {
        row.push(part).ok()
    }

    #[inline(always)]
    fn list(_room: &mut (), row: Vec<Value>) -> Option<Value> {
        Some(Value::List(row))
    }

    #[inline(always)]
    fn choosing(_room: &mut (), _place: usize) -> Option<()> {
        Some(())
    }

    #[inline(always)]
    fn choice(
        alloc: Global,
        _room: &mut (),
        _chosen: (),
        place: usize,
        part: Value,
    ) -> Option<Value> {
        let part = Box::new(alloc, part).ok()?;
        Some(Value::Choice(place as u32, part))
    }
}
