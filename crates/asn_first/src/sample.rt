//! The type that lines are decoded as.
ghost use Rattle.std.specs.Prelude.{◌≡◌, IfOk};
ghost use Rattle.asn_values.specs.View.{shape_of};
ghost use Rattle.asn_first.specs.Lines.{sample_shape};

use asn_values::{AsnType, Bounds, Checked, Field, TypeFault, Value};
use std::alloc::{AllocError, Global};

/// The type of the line: `SEQUENCE { id INTEGER (0..7), ok BOOLEAN DEFAULT TRUE, flag BOOLEAN OPTIONAL }`.
pub fn sample_type(alloc: Global) -> Result<Checked, AllocError>
    ensures { IfOk result (λ ty. shape_of ty ≡ sample_shape) }
{
    let fields = vec![in alloc;
        Field::new(alloc, "id", AsnType::Int(Bounds::between(0, 7)))?,
        Field::new(alloc, "ok", AsnType::Bool)?.default_to(Value::Bool(true)),
        Field::new(alloc, "flag", AsnType::Bool)?.optional(),
    ]?;
    match Checked::new(alloc, AsnType::sequence(fields)) {
        Ok(checked) => Ok(checked),
        Err(TypeFault::Memory) => Err(AllocError),
        Err(_) => unreachable!(),
    }
}
