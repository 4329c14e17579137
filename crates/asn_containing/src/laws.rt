//! Laws of contents.
ghost use Rattle.asn_rules.specs.Answer.{Ruling};
ghost use Rattle.asn_containing.specs.Laws.{MoreLevelsServe};

/// What is an encoding, and so are the octets in its values, in at most so many contents, is one in at most more.
/// The call does nothing: its clause is what proofs cite.
pub fn more_levels_serve()
    ensures { (r : Ruling) → MoreLevelsServe r }
{}
