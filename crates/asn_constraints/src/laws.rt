//! What holds of the definitions alone. The calls do nothing: their clauses are what proofs cite.
ghost use Rattle.std.specs.Prelude.{◌≡◌, ℕ, List, true, false};
ghost use Rattle.asn_values.specs.Datum.{Datum};
ghost use Rattle.asn_constraints.specs.declared.broken.Reason.{Reason};
ghost use Rattle.asn_constraints.specs.Constraints.{Constraint, meets, is_unknown};
ghost use Rattle.asn_constraints.specs.Broken.{BreaksAt};
ghost use Rattle.asn_constraints.specs.Spelling.{spelling};

/// A value that breaks a constraint somewhere does not meet it.
pub fn broken_values_meet_not()
    ensures { (c : Constraint) (d : Datum) (path : List ℕ) (r : Reason) → BreaksAt c d path r → meets c d ≡ false }
{}

/// A value that meets a constraint meets its spelling, and so does an item or an alternative that the type has not.
pub fn spelling_asks_no_more()
    ensures met { (c : Constraint) (d : Datum) → meets c d ≡ true → meets (spelling c) d ≡ true }
    ensures unknown { (c : Constraint) (d : Datum) → is_unknown d ≡ true → meets (spelling c) d ≡ true }
{}
