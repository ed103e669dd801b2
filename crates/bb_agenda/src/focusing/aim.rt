//! What a focus adds to ratings, with its area looked up only once. steering.rt aims every focus that is set or removed
//! before it scans the sources; foci.rt aims the foci that it sums.

ghost use Rattle.std.specs.Prelude.{◌≡◌};
ghost use Rattle.bb_agenda.specs.focusing.proving.Aims.{aimed, aimed_part};

use crate::focusing::focus::Focus;
use crate::focusing::setting::{Area, Setting};
use std::marker::Model;

/// A focus with the setting it is matched with. Contracts see both.
#[derive(Drop)]
pub(crate) struct Aim<'a> {
    setting: &'a Setting,
    focus: &'a Focus,
    area: Area,
}

impl<'a> Model for Aim<'a> {
    ghost use Rattle.std.specs.Prelude.{◌≡◌};
    ghost use Rattle.bb_agenda.specs.focusing.proving.Aims.{Aimed, area_named};

    ghost Value = { Aimed };

    ghost view = { λ a. record { setting = a.setting.now; focus = a.focus.now } };

    ghost invariant = { λ a. a.area ≡ area_named a.setting.now.schema a.focus.now.area };
}

impl<'a> Aim<'a> {
    pub(crate) fn new(setting: &'a Setting, focus: &'a Focus) -> Aim<'a>
        ensures { result ≡ aimed setting.now focus.now }
    {
        let area = setting.area(&focus.area);
        Aim {
            setting,
            focus,
            area,
        }
    }

    /// Returns what the focus adds to the ratings of the source at an index.
    pub(crate) fn part(&self, place: usize) -> i64
        ensures { result ≡ aimed_part place self.now }
    {
        if !self.focus.active {
            return 0;
        }
        if !self.setting.has_source(place, &self.focus.source) {
            return 0;
        }
        if !self.setting.is_in(place, self.area) {
            return 0;
        }
        self.focus.weight
    }
}
