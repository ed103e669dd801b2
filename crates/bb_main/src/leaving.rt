//! Runs an input and writes the document of the units it leaves, in a line. serving.rt calls this in the mode `units`.

ghost use Rattle.std.specs.Prelude.{◌≡◌, ◌≢◌, ◌==◌, ◌⊎◌, true, false, map, IsNone};
ghost use Rattle.bb_shell.specs.Fitting.{native_names};
ghost use Rattle.bb_shell.specs.Meaning.{meaning};
ghost use Rattle.bb_shell.specs.Roster.{all_open};
ghost use Rattle.bb_main.specs.Serve.{CutShort, Delivers, answer_to_units};
ghost use Rattle.bb_main.specs.declared.serving.TheConstants.{REFUSED, WRITE};

use crate::refusing::{refuse, write_line};
use crate::served::Served;
use crate::serving::{MEMORY, status};
use bb_main_input::Sections;
use bb_main_options::Options;
use bb_shell::{InputFault, NativeSource, Out, Texts, units_texts};
use std::alloc::Global;

/// Runs an input with these sections, and writes the units that are left.
pub(crate) fn units_sections<N: NativeSource, O: Out>(
    alloc: Global,
    options: Options,
    natives: Vec<N>,
    sections: Sections<'_>,
    writer: &mut O,
) -> Served
    requires natives { all_open (map N.meaning natives.items) ≡ true }
    requires open { O.has_failed writer.old ≡ false }
    ensures answer { let s = sections.entry in
        let a = answer_to_units (map N.meaning natives.items) options.limit
        (meaning (native_names (map N.meaning natives.items))
        s.schema.now s.units.now s.sources.now s.bundle.now options.floor) in
        Delivers a (O.taken writer.old) (O.taken writer.new) result.status
        ⊎ CutShort a (O.taken writer.old) (O.taken writer.new) result.status }
    ensures failed { O.has_failed writer.new ≡ (result.status == WRITE) }
    ensures silent { result.status ≢ REFUSED → IsNone result.report }
    ensures unasked { IsNone result.advice }
{
    let Sections {
        schema,
        units,
        sources,
        bundle,
        ..
    } = sections;
    let texts = Texts {
        schema,
        units,
        sources,
        bundle,
    };
    let Options { limit, floor, .. } = options;
    match units_texts(alloc, &texts, natives, limit, floor) {
        Ok(left) => {
            let status = status(left.finish);
            Served::quiet(write_line(left.document.as_str(), status, writer))
        }
        Err(InputFault::Memory) => Served::quiet(MEMORY),
        Err(fault) => refuse(alloc, &fault, sections, writer),
    }
}
