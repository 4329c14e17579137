//! Laws of what readers of units answer, whatever the encoding rules are.

ghost use Rattle.std.specs.Prelude.{ℕ, List};
ghost use Rattle.asn_values.specs.Shape.{Shape};
ghost use Rattle.asn_values.specs.Profile.{InProfile};
ghost use Rattle.asn_rules.specs.Answer.{Ruling};
ghost use Rattle.asn_rules.specs.Reading.{RulesTell, HasOneReading, ReadingsAnswer};

/// A list of units has one reading: one value whose whole encoding it begins with, or one refused unit, or the need
/// of more units.
pub fn one_reading()
    ensures { (r : Ruling) (t : Shape) (us : List ℕ) → RulesTell r → InProfile t → HasOneReading r t us }
{}

/// What a reader says of the units of octets is the answer to the octets: the value whose encoding they begin with, the
/// refused unit, found from the number of units after it, or that more octets are wanted.
pub fn readings_answer()
    ensures { (r : Ruling) (t : Shape) (s : List ℕ) → RulesTell r → InProfile t → ReadingsAnswer r t s }
{}
