//! What a host sees of the agenda of a held run. `Held` returns it.

ghost use Rattle.std.specs.Prelude.{◌≡◌, IfErr, IfOk, length, option_map};
ghost use Rattle.bb_agenda.specs.Agenda.{numbers_pending, pending_at};
ghost use Rattle.bb_c_run.specs.Looking.{filled};
ghost use Rattle.bb_c_run.specs.Waiting.{in_64_bits, waits_by};

use crate::looking::fill;
use bb_agenda::Status;
use bb_basis::Memory;
use bb_schema::UnitId;
use bb_shell::{Activation, Agenda, Plan};
use std::alloc::Global;

/// A pending activation.
#[derive(Clone, Copy, Debug, PartialEq, Eq)]
pub struct Waits {
    /// The unit of the event that triggered the source, or 0 if the event had none.
    pub unit: UnitId,
    /// The rating before foci count.
    pub base: i64,
    /// The rating: the base plus the weights of the foci that match. One that is too large or too small for 64 bits is
    /// the largest or the smallest number of 64 bits.
    pub rating: i64,
}

// Lists the numbers of the pending activations, ascending.
fn numbers(alloc: Global, agenda: &Agenda) -> Result<Vec<u64>, Memory>
    ensures { IfOk result (λ list. list.items ≡ numbers_pending agenda.now) }
{
    let mut list = Vec::new(alloc);
    for number in agenda.pending() {
        list.push(*number)?;
    }
    Ok(list)
}

/// Copies the numbers of the pending activations into `room`, ascending, up to its capacity, and returns how many
/// activations are pending. `Memory`: memory ran out.
pub(crate) fn pending(alloc: Global, agenda: &Agenda, room: &mut [u64]) -> Result<usize, Memory>
    ensures count { IfOk result (λ n. n ≡ length (numbers_pending agenda.now)) }
    ensures filled { IfOk result (λ _. room.new ≡ filled (numbers_pending agenda.now) room.old) }
    ensures err { IfErr result (λ _. room.new ≡ room.old) }
{
    let list = numbers(alloc, agenda)?;
    Ok(fill(list.as_slice(), room))
}

// Returns the activation with a number, if it is pending.
#[tactic(auto, using(crate::proofs::AgendaLemmas::is_pending, crate::proofs::AgendaLemmas::is_not_pending))]
fn pending_at(agenda: &Agenda, number: u64) -> Option<Activation>
    ensures { result ≡ pending_at agenda.now number }
{
    // For the proof: an activation is pending exactly if its status says so.
    agenda.fits();
    match agenda.status(number) {
        Some(Status::Pending) => Some(agenda.activation(number)),
        _ => None,
    }
}

// Returns a rating, or the greatest or least number of 64 bits.
fn in_64_bits(rating: i128) -> i64
    ensures { result ≡ in_64_bits rating }
{
    rating.clamp(i128::from(i64::MIN), i128::from(i64::MAX)) as i64
}

/// Returns the pending activation with a number and the name of its source, if it is pending.
pub(crate) fn waiting<'p>(plan: &'p Plan, agenda: &Agenda, number: u64) -> Option<(Waits, &'p str)>
    ensures { option_map (λ w. (w.0, w.1.now)) result ≡ waits_by plan.now agenda.now number }
{
    let activation = pending_at(agenda, number)?;
    let source = plan.sources().get(activation.source as usize)?;
    let waits = Waits {
        unit: activation.unit,
        base: activation.base,
        rating: in_64_bits(agenda.rating_of(&activation)),
    };
    Some((waits, source.parts().name.as_str()))
}
