//! The document of initial units for a blackboard. bb_shell and bb_c_run call it.

ghost use Rattle.std.specs.Prelude.{◌≡◌, IfOk, Some, map, string_bytes};
ghost use Rattle.serde_json.specs.Read.{read};
ghost use Rattle.serde_json.specs.View.{view};
ghost use Rattle.bb_units.specs.Units.{live_units};
ghost use Rattle.bb_board.specs.World.{class_at};
ghost use Rattle.bb_board_document.specs.Loading.{LoadsAs};
ghost use Rattle.bb_board_document.specs.Renumbered.{renumbered, HasNoGap, with_same_numbers};
ghost use Rattle.bb_board_document.specs.Values.{list_data};
ghost use Rattle.bb_board_document.specs.Document.{unit_data, units_data, units_text};

use crate::given::given;
use crate::link::{links, members};
use crate::listing::Listing;
use crate::value::text_json;
use bb_basis::Memory;
use bb_native::View;
use bb_schema::UnitId;
use bb_schema_classes::ClassId;
use serde_json::{Value as Json, json};
use std::alloc::Global;

// The class of a unit, 0 if the unit is not live.
fn class_at(view: &View<'_>, unit: UnitId) -> ClassId
    ensures { result ≡ class_at view.now.world unit }
{
    if !view.live(unit) {
        return 0;
    }
    view.class_of(unit)
}

// The entry of a unit.
fn unit_json(alloc: Global, listing: &Listing<'_>, unit: UnitId) -> Result<Json, Memory>
    ensures { IfOk result (λ json. view json ≡ unit_data listing.now unit) }
{
    let class = class_at(listing.view(), unit);
    let name = listing.name(alloc, unit)?;
    let class_name = text_json(alloc, listing.schema().class_name(class))?;
    let slots = given(alloc, listing.view(), unit, class)?;
    json!(in alloc; {"class": class_name, "name": name, "slots": slots})
}

// The entries of all live units, ascending.
fn units(alloc: Global, listing: &Listing<'_>) -> Result<Json, Memory>
    ensures { IfOk result (λ json. view json ≡
        list_data (map (unit_data listing.now) (live_units listing.now.world.units))) }
{
    let mut list = Vec::new(alloc);
    for unit in listing.units() {
        list.push(unit_json(alloc, listing, *unit)?)?;
    }
    Ok(Json::Array(list))
}

// The whole document, as JSON.
fn document(alloc: Global, listing: &Listing<'_>) -> Result<Json, Memory>
    ensures { IfOk result (λ json. view json ≡ units_data listing.now) }
{
    let links = links(alloc, listing)?;
    let spaces = members(alloc, listing)?;
    let units = units(alloc, listing)?;
    json!(in alloc; {"links": links, "spaces": spaces, "units": units})
}

/// Writes the contents of a blackboard as a document of initial units (docs/users/formats/inputs.md): an entry for each
/// live unit, with its values that aren't defaults; for each link, association by association, in the order of linking;
/// and for each membership of a unit in a space. A fresh blackboard of the same schema that loads the document has the
/// same units, links and members. Its units are numbered from 1 in the same order; therefore they keep their numbers if
/// no number below the next one is missing. Notes are not written. Fails only if memory runs out.
pub fn units_document(alloc: Global, view: &View<'_>) -> Result<String, Memory>
    ensures text { IfOk result (λ text. string_bytes text ≡ units_text view.now) }
    ensures json { IfOk result (λ text. read (string_bytes text) ≡ Some (units_data view.now)) }
    ensures loads { IfOk result (λ text. LoadsAs view.now.schema (string_bytes text) (renumbered view.now)) }
    ensures kept { IfOk result (λ text. HasNoGap view.now.world →
        LoadsAs view.now.schema (string_bytes text) (with_same_numbers view.now)) }
{
    // For the proof: what holds of the schema and the blackboard.
    view.schema().fits();
    view.fits();
    let listing = Listing::new(view)?;
    document(alloc, &listing)?.to_string(alloc)
}
