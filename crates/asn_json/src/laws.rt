//! What holds of the definitions alone.
ghost use Rattle.asn_json.specs.Laws.{IsReadBack};

/// What is written of a value of a type of the profile shows that value, and has no error of shape:
/// reading it gives the value back.
pub fn written_is_read_back()
    ensures { IsReadBack }
{}
