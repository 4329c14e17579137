//! The station in a track that a stream or a session has read.

ghost use Rattle.std.specs.Prelude.{◌≡◌};
ghost use Rattle.tulvorn.specs.Seen.{seen};
ghost use Rattle.uses_tulvorn.specs.Station.{station_in};

use tulvorn::View;

/// The number of the component `station`; `None` if the type has none.
pub fn station_of(track: &View<'_>) -> Option<i128>
    ensures { result ≡ station_in (seen track.now) }
{
    track.get("station")?.as_int()
}
