//! The ops on numbers, truth values, texts, labels and intervals. A step calls them. bb_exec calls the functions that
//! compute results.

ghost use Rattle.std.specs.Prelude.{◌≡◌, ℤ, pos, ◌≤ℤ◌};
ghost use Rattle.bb_basis.specs.Results.{Gives};
ghost use Rattle.bb_machine.specs.declared.halt.Halt.TheVariants.{Memory as OutOfMemory};
ghost use Rattle.bb_machine.specs.Arithmetic as def;

use crate::halt::Halt;
use crate::machine::Machine;
use crate::outcome::Stuck;
use crate::value::Value;
use bb_code::{Bound, Calculation, Comparison, Division, Logic};

/// Calculates with two numbers. Results outside 64 bits saturate.
#[inline(always)]
pub fn calculated(calculation: Calculation, a: i64, b: i64) -> i64
    ensures { result ≡ def.calculated calculation a b }
{
    match calculation {
        Calculation::Add => a.saturating_add(b),
        Calculation::Sub => a.saturating_sub(b),
        Calculation::Mul => a.saturating_mul(b),
        Calculation::Min => a.min(b),
        Calculation::Max => a.max(b),
    }
}

/// Returns the quotient, rounded down, or the remainder of a number by a positive divisor.
#[inline(always)]
pub fn divided(division: Division, a: i64, divisor: i64) -> i64
    requires { pos 1 ≤ℤ divisor }
    ensures { result ≡ def.divided division a divisor }
{
    match division {
        Division::DivBy => a.div_euclid(divisor),
        Division::ModBy => a.rem_euclid(divisor),
    }
}

/// Returns whether a comparison of two numbers holds.
#[inline(always)]
pub fn compared(comparison: Comparison, a: i64, b: i64) -> bool
    ensures { result ≡ def.compared comparison a b }
{
    match comparison {
        Comparison::Lt => a < b,
        Comparison::Le => a <= b,
        Comparison::EqInt => a == b,
    }
}

/// Combines two truth values.
#[inline(always)]
pub fn combined(logic: Logic, a: bool, b: bool) -> bool
    ensures { result ≡ def.combined logic a b }
{
    match logic {
        Logic::And => a && b,
        Logic::Or => a || b,
    }
}

/// Pops two numbers and pushes the result of a calculation.
#[tactic(auto, unfolding(crate::specs::Arithmetic::calculate))]
pub(crate) fn calculate(machine: &mut Machine<'_>, calculation: Calculation) -> Result<(), Halt>
    ensures { Gives OutOfMemory (λ _. machine.new) result (def.calculate calculation machine.old) }
{
    let (a, b) = machine.pop_two()?;
    let a = a.int()?;
    let b = b.int()?;
    machine.push(Value::Int(calculated(calculation, a, b)))
}

/// Pops a number and pushes its quotient or remainder by a divisor.
#[tactic(auto, unfolding(crate::specs::Arithmetic::divide))]
pub(crate) fn divide(
    machine: &mut Machine<'_>,
    division: Division,
    divisor: i64,
) -> Result<(), Halt>
    requires { pos 1 ≤ℤ divisor }
    ensures { Gives OutOfMemory (λ _. machine.new) result (def.divide division divisor machine.old) }
{
    let value = machine.pop()?;
    let a = value.int()?;
    machine.push(Value::Int(divided(division, a, divisor)))
}

/// Pops two numbers and pushes whether a comparison of them holds.
#[tactic(auto, unfolding(crate::specs::Arithmetic::compare))]
pub(crate) fn compare(machine: &mut Machine<'_>, comparison: Comparison) -> Result<(), Halt>
    ensures { Gives OutOfMemory (λ _. machine.new) result (def.compare comparison machine.old) }
{
    let (a, b) = machine.pop_two()?;
    let a = a.int()?;
    let b = b.int()?;
    machine.push(Value::Bool(compared(comparison, a, b)))
}

/// Pops two texts and pushes whether they are equal.
#[tactic(auto, unfolding(crate::specs::Arithmetic::eq_text))]
pub(crate) fn eq_text(machine: &mut Machine<'_>) -> Result<(), Halt>
    ensures { Gives OutOfMemory (λ _. machine.new) result (def.eq_text machine.old) }
{
    let (a, b) = machine.pop_two()?;
    let a = a.text()?;
    let b = b.text()?;
    machine.push(Value::Bool(a == b))
}

/// Pops two labels of one set and pushes whether they are equal.
#[tactic(auto, unfolding(crate::specs::Arithmetic::eq_label))]
pub(crate) fn eq_label(machine: &mut Machine<'_>) -> Result<(), Halt>
    ensures { Gives OutOfMemory (λ _. machine.new) result (def.eq_label machine.old) }
{
    let (a, b) = machine.pop_two()?;
    let (a_set, a) = a.label()?;
    let (b_set, b) = b.label()?;
    if a_set == b_set {
        machine.push(Value::Bool(a == b))
    } else {
        Err(Halt::Stuck(Stuck::Kind))
    }
}

/// Pops two units, deleted or not, and pushes whether they are the same.
#[tactic(auto, unfolding(crate::specs::Arithmetic::eq_unit))]
pub(crate) fn eq_unit(machine: &mut Machine<'_>) -> Result<(), Halt>
    ensures { Gives OutOfMemory (λ _. machine.new) result (def.eq_unit machine.old) }
{
    let (a, b) = machine.pop_two()?;
    let a = a.unit()?;
    let b = b.unit()?;
    machine.push(Value::Bool(a == b))
}

/// Pops a truth value and pushes its negation.
#[tactic(auto, unfolding(crate::specs::Arithmetic::negate))]
pub(crate) fn negate(machine: &mut Machine<'_>) -> Result<(), Halt>
    ensures { Gives OutOfMemory (λ _. machine.new) result (def.negate machine.old) }
{
    let value = machine.pop()?;
    let truth = value.truth()?;
    machine.push(Value::Bool(!truth))
}

/// Pops two truth values and pushes their combination.
#[tactic(auto, unfolding(crate::specs::Arithmetic::combine))]
pub(crate) fn combine(machine: &mut Machine<'_>, logic: Logic) -> Result<(), Halt>
    ensures { Gives OutOfMemory (λ _. machine.new) result (def.combine logic machine.old) }
{
    let (a, b) = machine.pop_two()?;
    let a = a.truth()?;
    let b = b.truth()?;
    machine.push(Value::Bool(combined(logic, a, b)))
}

/// Pops two numbers and pushes the interval between them.
#[tactic(auto, unfolding(crate::specs::Arithmetic::make_interval))]
pub(crate) fn make_interval(machine: &mut Machine<'_>) -> Result<(), Halt>
    ensures { Gives OutOfMemory (λ _. machine.new) result (def.make_interval machine.old) }
{
    let (a, b) = machine.pop_two()?;
    let a = a.int()?;
    let b = b.int()?;
    machine.push(Value::Interval(a.min(b), a.max(b)))
}

/// Returns an end of an interval.
#[inline(always)]
pub fn bound_of(bound: Bound, interval: (i64, i64)) -> i64
    ensures { result ≡ def.bound_of bound interval }
{
    match bound {
        Bound::Low => interval.0,
        Bound::High => interval.1,
    }
}

/// Pops an interval and pushes one of its ends.
#[tactic(auto, unfolding(crate::specs::Arithmetic::bound))]
pub(crate) fn bound(machine: &mut Machine<'_>, bound: Bound) -> Result<(), Halt>
    ensures { Gives OutOfMemory (λ _. machine.new) result (def.bound bound machine.old) }
{
    let value = machine.pop()?;
    let interval = value.interval()?;
    machine.push(Value::Int(bound_of(bound, interval)))
}
