//! Runs the texts of a schema, initial units and sources. Programs (bb_main) call it.

ghost use Rattle.std.specs.Prelude.{◌≡◌, ◌⊎◌, true, false, map, All, IfOk, IfErr, IfSome, OnErr, Ok, Err, Some};
ghost use Rattle.std.specs.Io.KnownBytes.{Appends};
ghost use Rattle.bb_basis.specs.Results.{Gives, map_err};
ghost use Rattle.bb_schema.specs.Reading.{schema_of};
ghost use Rattle.bb_run.specs.Board.{is_fresh, new_board};
ghost use Rattle.bb_run.specs.Load.{loaded};
ghost use Rattle.bb_rules.specs.Law.{IsMade};
ghost use Rattle.bb_run.specs.Roster.{all_open};
ghost use Rattle.bb_run.specs.Finish.{WritesFront, end_of, is_write};
ghost use Rattle.bb_shell.specs.Fitting.{names_in, native_names};
ghost use Rattle.bb_shell.specs.Meaning.{Meaning, meaning};
ghost use Rattle.bb_run.specs.Run.{run};
ghost use Rattle.bb_run.specs.TraceText.{trace_text};
ghost use Rattle.bb_run.specs.Unstuck.{IsUnstuck};

use crate::given::given;
use crate::shell::Shell;
use bb_refusal::InputFault;
use bb_run::{Board, Closing, Finish, NativeSource, Out, Plan, UnitsFault};
use bb_schema::{Schema, SharedSchema};
use bb_schema_classes::SchemaFault;
use std::alloc::Global;

/// Runs a schema, its initial units, the sources that are text and then the sources of a bundle, for at most `limit`
/// cycles and with no activation rated below `floor`; writes the trace. An input is refused at the first step that
/// refuses it, in this order: schema, units, the text of sources, their compilation, bundle, codes, rules; then nothing
/// is written. Every native is closed once, in order, regardless of the result and of whether it was called. `Memory`,
/// as a refusal or a finish: memory ran out.
pub fn run_texts<N: NativeSource, O: Out>(
    alloc: Global,
    schema: &str,
    units: &str,
    sources: &str,
    bundle: &str,
    natives: Vec<N>,
    limit: u32,
    floor: i64,
    out: &mut O,
) -> Result<Finish, InputFault>
    requires open { O.has_failed out.old ≡ false }
    requires natives { all_open (map N.meaning natives.items) ≡ true }

    // `Ok`: the input has a meaning, the finish is its run's, and the output took the text of the run's trace.
    ensures finish { IfOk result (λ f. (m : Meaning)
        × (meaning (native_names (map N.meaning natives.items)) schema.now units.now sources.now bundle.now floor
        ≡ Ok m)
        × IfSome (end_of f) (λ end. (run m.plan m.board (map N.meaning natives.items) limit).end ≡ Some end)) }
    ensures text { IfOk result (λ f. (m : Meaning)
        × (meaning (native_names (map N.meaning natives.items)) schema.now units.now sources.now bundle.now floor
        ≡ Ok m)
        × IfSome (end_of f) (λ _. Appends (O.taken out.old) (O.taken out.new)
        (trace_text m.plan (run m.plan m.board (map N.meaning natives.items) limit).emitted))) }

    // At `Memory` the output took the text of the first segments of the run; at `Write`, a prefix of its trace.
    ensures front { IfOk result (λ f. (m : Meaning)
        × (meaning (native_names (map N.meaning natives.items)) schema.now units.now sources.now bundle.now floor
        ≡ Ok m)
        × WritesFront m.plan (run m.plan m.board (map N.meaning natives.items) limit) f
        (O.taken out.old) (O.taken out.new)) }

    // The run of the meaning is not stuck, and no execution in it makes more steps than its budget, also where the run
    // was cut short.
    ensures unstuck { IfOk result (λ _. (m : Meaning)
        × (meaning (native_names (map N.meaning natives.items)) schema.now units.now sources.now bundle.now floor
        ≡ Ok m)
        × IsUnstuck (run m.plan m.board (map N.meaning natives.items) limit)) }

    // `Write` means that the output has failed, and no other finish does.
    ensures failed { IfOk result (λ f. O.has_failed out.new ≡ is_write f) }

    // `Err`: the fault is the first refusal, and the output is unchanged.
    ensures refused { IfErr result (λ e. (e ≡ InputFault.Memory)
        ⊎ (meaning (native_names (map N.meaning natives.items)) schema.now units.now sources.now bundle.now floor
        ≡ Err e)) }
    ensures quiet { OnErr result (out.new ≡ out.old) }
{
    let texts = Texts {
        schema,
        units,
        sources,
        bundle,
    };
    let shell = Shell::of_texts(alloc, &texts, natives, floor)?;
    Ok(shell.run(alloc, limit, out))
}

/// The texts of an input.
#[derive(Clone, Copy)]
pub struct Texts<'a> {
    /// The document of the schema.
    pub schema: &'a str,
    /// The document of the initial units.
    pub units: &'a str,
    /// The sources that are text.
    pub sources: &'a str,
    /// The sources of a bundle.
    pub bundle: &'a str,
}

/// Returns the meaning of an input. The sources were made under its schema, from codes that the verifier accepted under
/// it.
pub(crate) fn read_input(
    alloc: Global,
    natives: &[Closing],
    texts: &Texts,
    floor: i64,
) -> Result<(Plan, Board), InputFault>
    ensures means { Gives InputFault.Memory (λ i. record { plan = i.0; board = i.1 }) result
        (meaning (names_in natives.now) texts.now.schema.now texts.now.units.now texts.now.sources.now
        texts.now.bundle.now floor) }
    ensures made { IfOk result (λ i. All (IsMade i.0.schema) i.0.sources) }
{
    let schema = read_schema(alloc, texts.schema)?;
    let (shared, board) = first_board(alloc, schema, texts.units)?;
    let sources = given(alloc, natives, shared.get(), texts.sources, texts.bundle)?;
    let plan = Plan::new(alloc, shared, sources, floor)?;
    Ok((plan, board))
}

pub(crate) fn read_schema(alloc: Global, text: &str) -> Result<Schema, InputFault>
    ensures { Gives InputFault.Memory (λ s. s) result (map_err InputFault.Schema (schema_of text.now)) }
{
    match Schema::read(alloc, text) {
        Ok(schema) => Ok(schema),
        Err(SchemaFault::Memory) => Err(InputFault::Memory),
        Err(fault) => Err(InputFault::Schema(fault)),
    }
}

// The blackboard with the initial units, and its schema.
fn first_board(
    alloc: Global,
    schema: Schema,
    units: &str,
) -> Result<(SharedSchema, Board), InputFault>
    ensures means { Gives InputFault.Memory (λ b. b.1) result
        (map_err InputFault.Units (loaded (new_board schema) units.now)) }
    ensures schema { IfOk result (λ b. b.0 ≡ schema) }
{
    let mut board = Board::new(alloc, schema)?;
    let schema = board.shared_schema()?;
    load_units(&mut board, units)?;
    Ok((schema, board))
}

fn load_units(board: &mut Board, text: &str) -> Result<(), InputFault>
    requires { is_fresh board.old ≡ true }
    ensures { Gives InputFault.Memory (λ _. board.new) result
        (map_err InputFault.Units (loaded board.old text.now)) }
{
    match board.load(text) {
        Ok(()) => Ok(()),
        Err(UnitsFault::Memory) => Err(InputFault::Memory),
        Err(fault) => Err(InputFault::Units(fault)),
    }
}
