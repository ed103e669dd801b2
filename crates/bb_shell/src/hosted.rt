//! A shell whose host answers for natives. Hosts that hold a run make one from an input.

ghost use Rattle.std.specs.Prelude.{◌≡◌, ◌++◌, true, false, map, All, None, IfOk, OnOk};
ghost use Rattle.bb_basis.specs.Results.{Gives};
ghost use Rattle.bb_rules.specs.Law.{IsMade};
ghost use Rattle.bb_run.specs.Roster.{all_open};
ghost use Rattle.bb_shell.specs.Fitting.{names_in, native_names};
ghost use Rattle.bb_shell.specs.Meaning.{meaning};

use crate::texts::{Texts, read_input};
use bb_basis::Text;
use bb_refusal::InputFault;
use bb_run::{Board, Closing, NativeSource, Plan, Roster};
use std::alloc::{AllocError, Global};

/// A blackboard and the sources that run on it, which may act by natives passed in, and by natives with names that the
/// host answers for. The host holds its run: it stops when one of the latter is due, and the host answers
/// (`Running::answer` of bb_run_held). It can't be dropped, because its natives must be closed: `into_parts` consumes
/// it.
pub struct HostedShell<N: NativeSource> {
    plan: Plan,
    board: Board,
    roster: Roster<N>,
    ghost of_schema: { board.schema ≡ plan.schema },
    ghost made: { ∥ All (IsMade plan.schema) plan.sources ∥₁ },
}

impl<N: NativeSource> HostedShell<N> {
    /// Creates a shell from the texts of an input, as `Shell::of_texts` does; but a source may also act by a native
    /// with one of the names `outside`. If the input is refused, every native passed in is closed, in order.
    pub fn of_texts(
        alloc: Global,
        texts: &Texts<'_>,
        natives: Vec<N>,
        outside: Vec<Text>,
        floor: i64,
    ) -> Result<HostedShell<N>, InputFault>
        requires { all_open (map N.meaning natives.items) ≡ true }
        ensures means { Gives InputFault.Memory (λ s. record { plan = s.plan; board = s.board }) result
            (meaning (native_names (map N.meaning natives.items) ++ outside.items) texts.now.schema.now
            texts.now.units.now texts.now.sources.now texts.now.bundle.now floor) }
        ensures natives { IfOk result (λ s. map N.meaning s.roster.natives.items ≡ map N.meaning natives.items) }
    {
        let roster = Roster::new(alloc, natives)?;
        match read_hosted(alloc, roster.handed_in(), outside, texts, floor) {
            Ok((plan, board)) => Ok(HostedShell {
                plan,
                board,
                roster,
            }),
            Err(fault) => {
                drop(roster.close_all());
                Err(fault)
            }
        }
    }

    /// Returns the plan: the sources, the schema and the floor.
    pub fn plan(&self) -> &Plan
        ensures { result.now ≡ self.now.plan }
    {
        &self.plan
    }

    /// Returns the plan, the blackboard and the natives, for `Running::of_hosted` (bb_run_held) to begin a run with.
    pub fn into_parts(self) -> (Plan, Board, Roster<N>)
        ensures plan { result.0 ≡ self.plan }
        ensures board { result.1 ≡ self.board }
        ensures natives { map N.meaning result.2.natives.items ≡ map N.meaning self.roster.natives.items }
        ensures of_schema { result.1.schema ≡ result.0.schema }
        ensures made { ∥ All (IsMade result.0.schema) result.0.sources ∥₁ }
    {
        let HostedShell {
            plan,
            board,
            roster,
        } = self;
        (plan, board, roster)
    }
}

// What an input means if the host answers for natives.
fn read_hosted(
    alloc: Global,
    natives: &[Closing],
    outside: Vec<Text>,
    texts: &Texts,
    floor: i64,
) -> Result<(Plan, Board), InputFault>
    ensures { Gives InputFault.Memory (λ i. record { plan = i.0; board = i.1 }) result
        (meaning (names_in natives.now ++ outside.items) texts.now.schema.now texts.now.units.now
        texts.now.sources.now texts.now.bundle.now floor) }
{
    let mut known = copied(alloc, natives)?;
    add_names(&mut known, outside)?;
    read_input(alloc, known.as_slice(), texts, floor)
}

// A copy of natives.
fn copied(alloc: Global, natives: &[Closing]) -> Result<Vec<Closing>, AllocError>
    ensures { IfOk result (λ v. names_in v.items ≡ names_in natives.now) }
{
    let mut made = Vec::new(alloc);
    for native in natives {
        made.push(Closing {
            name: native.name.clone()?,
            number: native.number,
        })?;
    }
    Ok(made)
}

// Adds natives with these names.
fn add_names(known: &mut Vec<Closing>, names: Vec<Text>) -> Result<(), AllocError>
    ensures { OnOk result (names_in known.new.items ≡ names_in known.old.items ++ names.items) }
{
    for name in names {
        known.push(Closing { name, number: 0 })?;
    }
    Ok(())
}
