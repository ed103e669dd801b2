//! What foci are matched with: the schema, and the names and classes of the sources. steering.rt keeps it.

ghost use Rattle.std.specs.Prelude.{◌≡◌, ◌||◌};
ghost use Rattle.bb_agenda.specs.focusing.Matching.{is_empty, is_source};
ghost use Rattle.bb_agenda.specs.focusing.proving.Aims.{area_named, is_in};

use bb_basis::{Items, Text};
use bb_schema::{ClassId, SharedSchema};
use std::marker::Model;

/// What the agenda knows of a source.
#[derive(Drop)]
pub struct RatedSource {
    pub name: Text,
    /// The class of the units that it works on.
    pub class: ClassId,
}

/// The area of a focus, with its name looked up.
#[derive(Clone, Copy, Debug)]
pub(crate) enum Area {
    Everywhere,
    /// Sources on the class or its descendants.
    Of(ClassId),
    Nowhere,
}

/// The schema, and the sources in order.
pub struct Setting {
    schema: SharedSchema,
    sources: Items<RatedSource>,
}

// By hand: proofs then meet one call per drop, not one per part.
impl Drop for Setting {
    fn drop(self) {
        let Setting {
            schema: _,
            sources: _,
        } = self;
    }
}

impl Model for Setting {
    ghost use Rattle.bb_agenda.specs.focusing.Foci.{Setting as Kept};
    ghost use Rattle.bb_agenda.specs.focusing.proving.Codes.{setting_code};

    ghost Value = { Kept };

    ghost coded = { setting_code };

    ghost view = { λ s. record { schema = s.schema; sources = s.sources } };
}

// Whether a name is the name of the source at a place.
#[tactic(auto, unfolding(crate::specs::focusing::Matching::is_source))]
fn is_source(sources: &[RatedSource], place: usize, name: &str) -> bool
    ensures { result ≡ is_source sources.now place name.now }
{
    match sources.get(place) {
        None => false,
        Some(source) => name == source.name.as_str(),
    }
}

impl Setting {
    /// Creates the setting of a schema and sources on its classes.
    pub fn new(schema: SharedSchema, sources: Vec<RatedSource>) -> Setting
        ensures { result ≡ record { schema = schema; sources = sources.items } }
    {
        Setting {
            schema,
            sources: Items::from(sources),
        }
    }

    /// Returns how many sources there are.
    pub(crate) fn source_count(&self) -> usize {
        self.sources.as_slice().len()
    }

    /// Returns whether a text is empty or the name of the source at an index.
    pub(crate) fn has_source(&self, place: usize, name: &Text) -> bool
        ensures { result ≡ (is_empty name.now || is_source self.now.sources place name.now) }
    {
        if name.is_empty() {
            return true;
        }
        is_source(self.sources.as_slice(), place, name.as_str())
    }

    /// Returns the area that a text names: an empty text names all sources, and a text that is not a class names none.
    pub(crate) fn area(&self, name: &Text) -> Area
        ensures { result ≡ area_named self.now.schema name.now }
    {
        if name.is_empty() {
            return Area::Everywhere;
        }
        match self.schema.get().class(name.as_str()) {
            None => Area::Nowhere,
            Some(class) => Area::Of(class),
        }
    }

    /// Returns whether the source at an index is in an area.
    pub(crate) fn is_in(&self, place: usize, area: Area) -> bool
        ensures { result ≡ is_in self.now.schema self.now.sources place area }
    {
        match area {
            Area::Everywhere => true,
            Area::Nowhere => false,
            Area::Of(class) => match self.sources.as_slice().get(place) {
                None => false,
                Some(source) => self.schema.get().descends(source.class, class),
            },
        }
    }
}
