//! What holds of the definitions alone.
ghost use Rattle.asn_values.specs.Datum.{Datum};
ghost use Rattle.asn_values.specs.Defaults.{DefaultsAreJudged};
ghost use Rattle.asn_values.specs.Fits.{Limits, AreWider, limits, FitsUnder, Fits};
ghost use Rattle.asn_values.specs.Older.{older_limits, oldest_limits, NumbersStay};
ghost use Rattle.asn_values.specs.Profile.{InProfileUnder, InProfile};
ghost use Rattle.asn_values.specs.Shape.{Shape};

/// What the test of a DEFAULT lets pass are the values of types without an extension marker that
/// have another value.
pub fn defaults_are_judged()
    ensures { DefaultsAreJudged }
{}

/// A value of a type under some limits is one under wider ones. The call does nothing: its clause is what proofs cite.
pub fn values_fit_wider_limits()
    ensures { (l m : Limits) → AreWider l m → (t : Shape) (v : Datum) → FitsUnder l t v → FitsUnder m t v }
{}

/// A type of the profile under some limits is one under wider ones. The call does nothing: its clause is what proofs
/// cite.
pub fn types_keep_under_wider_limits()
    ensures { (l m : Limits) → AreWider l m → (t : Shape) → InProfileUnder l t → InProfileUnder m t }
{}

/// No limit of the profile is below that of the one before it. So each type of that profile is one of this, and each
/// value of it is a value of it here. The same holds between that profile and the one before it. Both had additions of an
/// ENUMERATED numbered above its root: by `numbers` what was good so is good still. The call does nothing: its clauses are
/// what proofs cite.
pub fn older_types_and_values_stay()
    ensures wider { AreWider older_limits limits }
    ensures types { (t : Shape) → InProfileUnder older_limits t → InProfile t }
    ensures numbers { NumbersStay }
    ensures values { (t : Shape) (v : Datum) → FitsUnder older_limits t v → Fits t v }
    ensures older { AreWider oldest_limits older_limits }
    ensures older_types { (t : Shape) → InProfileUnder oldest_limits t → InProfileUnder older_limits t }
    ensures older_values { (t : Shape) (v : Datum) → FitsUnder oldest_limits t v → FitsUnder older_limits t v }
{}
