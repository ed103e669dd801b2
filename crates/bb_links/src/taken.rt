//! What a link removes and adds. `Couples::link` returns it.

ghost use Rattle.std.specs.Prelude.{◌≡◌, None, false};

use bb_schema::UnitId;

/// What a link removes and adds. Each pair has the unit at side A first.
#[derive(Clone, Copy, Debug, PartialEq, Eq, Drop)]
pub struct Taken {
    /// The old pair of the unit at side A, if that side is singular and the unit had one.
    pub first: Option<(UnitId, UnitId)>,
    /// The old pair of the unit at side B, if that side is singular and the unit had one.
    pub second: Option<(UnitId, UnitId)>,
    /// Whether the pair of both units is added. If not, it existed, and nothing changes.
    pub added: bool,
}

impl Taken {
    /// Returns the value for a pair that exists already: nothing changes.
    pub(crate) fn nothing() -> Taken
        ensures { result ≡ record { first = None; second = None; added = false } }
    {
        Taken {
            first: None,
            second: None,
            added: false,
        }
    }
}
