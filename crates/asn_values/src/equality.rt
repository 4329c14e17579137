//! Which values are the same.
ghost use Rattle.std.specs.Prelude.{◌≡◌, ◌↔◌, IsTrue, map};
ghost use Rattle.std.specs.Cmp.{on_per};
ghost use Rattle.std.specs.Ordering.{on};
ghost use Rattle.asn_values.specs.Equality.{datum_eq, datum_eq_per};
ghost use Rattle.asn_values.specs.View.{datum_of, entries_seen};

use crate::value::Value;

/// Whether both are the same value. Allocates nothing.
#[cycle(same)]
pub fn same(left: &Value, right: &Value) -> bool
    ensures { IsTrue result ↔ (datum_of left.now ≡ datum_of right.now) }
{
    match left {
        Value::Bool(truth) => matches!(right, Value::Bool(other) if *truth == *other),
        Value::Null => matches!(right, Value::Null),
        Value::Int(number) => matches!(right, Value::Int(other) if *number == *other),
        Value::Enum(index) => matches!(right, Value::Enum(other) if *index == *other),
        Value::Bits(bits) => matches!(right, Value::Bits(others) if same_bits(bits, others)),
        Value::Octets(octets) => matches!(right, Value::Octets(others) if **octets == **others),
        Value::Text(codes) => matches!(right, Value::Text(others) if **codes == **others),
        Value::Utf8(text) => matches!(right, Value::Utf8(other) if **text == **other),
        Value::Seq(entries) => match right {
            Value::Seq(others) => same_entries(entries, others),
            _ => false,
        },
        Value::List(elements) => match right {
            Value::List(others) => same_elements(elements, others),
            _ => false,
        },
        Value::Choice(tag, chosen) => match right {
            Value::Choice(other_tag, other) => *tag == *other_tag && same(chosen, other),
            _ => false,
        },
        Value::UnknownItem(number) => {
            matches!(right, Value::UnknownItem(other) if *number == *other)
        }
        Value::UnknownAlternative(tag) => {
            matches!(right, Value::UnknownAlternative(other) if *tag == *other)
        }
    }
}

/// Two values are equal where they are the same.
impl PartialEq for Value {
    ghost eq = { on datum_of datum_eq };

    ghost laws = { on_per datum_of datum_eq_per };

    fn eq(&self, other: &Self) -> bool {
        same(self, other)
    }
}

/// Whether both are the same bits.
fn same_bits(left: &[bool], right: &[bool]) -> bool
    ensures { IsTrue result ↔ (left.now ≡ right.now) }
{
    *left == *right
}

/// Whether both have the same entries, one after the other.
#[cycle(same)]
fn same_entries(left: &[Option<Value>], right: &[Option<Value>]) -> bool
    ensures { IsTrue result ↔ (entries_seen left.now ≡ entries_seen right.now) }
{
    if left.len() != right.len() {
        return false;
    }
    for (index, entry) in left.iter().enumerate() {
        let is_same = match entry {
            None => right[index].is_none(),
            Some(value) => match &right[index] {
                None => false,
                Some(other) => same(value, other),
            },
        };
        if !is_same {
            return false;
        }
    }
    true
}

/// Whether both have the same elements, one after the other.
#[cycle(same)]
fn same_elements(left: &[Value], right: &[Value]) -> bool
    ensures { IsTrue result ↔ (map datum_of left.now ≡ map datum_of right.now) }
{
    if right.len() != left.len() {
        return false;
    }
    for (index, element) in left.iter().enumerate() {
        if !same(element, &right[index]) {
            return false;
        }
    }
    true
}
