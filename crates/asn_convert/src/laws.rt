//! Laws of conversion and of answers to lines, whatever the encoding rules are.
ghost use Rattle.std.specs.Prelude.{ℕ, List};
ghost use Rattle.asn_rules.specs.Answer.{Ruling};
ghost use Rattle.asn_rules.specs.Laws.{RulesLaws};
ghost use Rattle.asn_convert.specs.Converted.{TurnsBack};
ghost use Rattle.asn_convert.specs.Parts.{LineHasAnswer};
ghost use Rattle.asn_jobs.specs.declared.job.Order.{Order};
ghost use Rattle.asn_jobs.specs.declared.job.RuleName.{RuleName};

use asn_newer::ReadNewer;
use asn_rules::Rules;
use asn_values::Checked;

/// What was converted, and is converted back, gives the octets that it was made of, unless an allocation failed.
pub fn conversion_turns_back()
    ensures { (a b : Ruling) → RulesLaws a → RulesLaws b → TurnsBack a b }
{}

/// Each line has an answer, whatever is made of it: it cannot be that no text is one. The call does nothing: its clause
/// is what proofs cite.
pub fn lines_have_answers<A: ReadNewer, B: Rules>(ty: &Checked)
    ensures { (by : Order) (name : RuleName) (line : List ℕ)
        → LineHasAnswer A.ruling B.ruling A.loose name by ty.now line }
{
    A::keep_laws();
    B::keep_laws();
    let _of_profile = ty.get();
}
