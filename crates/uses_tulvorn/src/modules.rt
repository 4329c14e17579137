//! The id in a message whose type a module has.

ghost use Rattle.std.specs.Prelude.{◌≡◌};
ghost use Rattle.tulvorn.specs.Seen.{seen};
ghost use Rattle.uses_tulvorn.specs.Id.{id_in};

use tulvorn::View;

/// The number of the component `id`; `None` if the type has none.
pub fn id_of(message: &View<'_>) -> Option<i128>
    ensures { result ≡ id_in (seen message.now) }
{
    message.get("id")?.as_int()
}
