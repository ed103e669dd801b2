//! Checks and emits operations, after their operands. The emission of expressions calls it.

ghost use Rattle.std.specs.Prelude.{◌≡◌};
ghost use Rattle.bb_basis.specs.Results.{Gives};
ghost use Rattle.bb_compile_scope.specs.declared.fault.CompileFault.TheVariants.{Memory as OutOfMemory};
ghost use Rattle.bb_code.specs.declared.frame.Kind.TheVariants.{Int, Bool};
ghost use Rattle.bb_code.specs.declared.op.Op.TheVariants.{Calculate, Compare, Combine};
ghost use Rattle.bb_compile_buffer.specs.Operations.{one_due, two_due, unary_code, equality_code, binary_code, operator_code, division_op, divisor_noted, division_code};

use crate::buffer::Buffer;
use bb_code::{Bound, Calculation, Comparison, Division as OpDivision, Kind, Logic, Op};
use bb_compile_scope::{CompileFault, TextFlaw, equality};
use bb_lang::{Binary, Division, Operator, Unary};

// Emits an op on one operand of a kind.
#[tactic(auto, unfolding(crate::specs::Operations::one_due))]
fn emit_one(
    buffer: &mut Buffer,
    operand: Option<Kind>,
    wanted: Kind,
    op: Op,
    gives: Kind,
) -> Result<Option<Kind>, CompileFault>
    ensures { Gives OutOfMemory (λ kind. (kind, buffer.new)) result (one_due operand wanted op gives buffer.old) }
{
    buffer.due(operand, wanted);
    buffer.put(op)?;
    Ok(Some(gives))
}

// Emits an op on two operands of a kind.
#[tactic(auto, unfolding(crate::specs::Operations::two_due))]
fn emit_two(
    buffer: &mut Buffer,
    left: Option<Kind>,
    right: Option<Kind>,
    wanted: Kind,
    op: Op,
    gives: Kind,
) -> Result<Option<Kind>, CompileFault>
    ensures { Gives OutOfMemory (λ kind. (kind, buffer.new)) result (two_due left right wanted op gives buffer.old) }
{
    buffer.due(left, wanted);
    buffer.due(right, wanted);
    buffer.put(op)?;
    Ok(Some(gives))
}

/// Emits an operation on one operand, given the operand's kind. Returns the kind of the result.
pub fn emit_unary(
    buffer: &mut Buffer,
    operation: Unary,
    operand: Option<Kind>,
) -> Result<Option<Kind>, CompileFault>
    ensures { Gives OutOfMemory (λ kind. (kind, buffer.new)) result (unary_code operation operand buffer.old) }
{
    match operation {
        Unary::Not => emit_one(buffer, operand, Kind::Bool, Op::Not, Kind::Bool),
        Unary::Low => {
            let op = Op::BoundOf(Bound::Low);
            emit_one(buffer, operand, Kind::Interval, op, Kind::Int)
        }
        Unary::High => {
            let op = Op::BoundOf(Bound::High);
            emit_one(buffer, operand, Kind::Interval, op, Kind::Int)
        }
    }
}

// Emits the test whether two operands are equal.
fn emit_equality(
    buffer: &mut Buffer,
    left: Option<Kind>,
    right: Option<Kind>,
) -> Result<(), CompileFault>
    ensures { Gives OutOfMemory (λ _. buffer.new) result (equality_code left right buffer.old) }
{
    let Some(left) = left else {
        return Ok(());
    };
    let Some(right) = right else {
        return Ok(());
    };
    match equality(left, right) {
        None => {
            buffer.note(TextFlaw::Kind);
            Ok(())
        }
        Some(op) => buffer.put(op),
    }
}

// Emits a calculation with two numbers.
fn emit_calculation(
    buffer: &mut Buffer,
    calculation: Calculation,
    left: Option<Kind>,
    right: Option<Kind>,
) -> Result<Option<Kind>, CompileFault>
    ensures { Gives OutOfMemory (λ kind. (kind, buffer.new)) result
        (two_due left right Int (Calculate calculation) Int buffer.old) }
{
    let op = Op::Calculate(calculation);
    emit_two(buffer, left, right, Kind::Int, op, Kind::Int)
}

// Emits a comparison of two numbers.
fn emit_comparison(
    buffer: &mut Buffer,
    comparison: Comparison,
    left: Option<Kind>,
    right: Option<Kind>,
) -> Result<Option<Kind>, CompileFault>
    ensures { Gives OutOfMemory (λ kind. (kind, buffer.new)) result
        (two_due left right Int (Compare comparison) Bool buffer.old) }
{
    let op = Op::Compare(comparison);
    emit_two(buffer, left, right, Kind::Int, op, Kind::Bool)
}

// Emits a combination of two truth values.
fn emit_logic(
    buffer: &mut Buffer,
    logic: Logic,
    left: Option<Kind>,
    right: Option<Kind>,
) -> Result<Option<Kind>, CompileFault>
    ensures { Gives OutOfMemory (λ kind. (kind, buffer.new)) result
        (two_due left right Bool (Combine logic) Bool buffer.old) }
{
    let op = Op::Combine(logic);
    emit_two(buffer, left, right, Kind::Bool, op, Kind::Bool)
}

/// Emits an operation on two operands, given their kinds. Returns the kind of the result.
#[tactic(auto, unfolding(crate::specs::Operations::binary_code))]
pub fn emit_binary(
    buffer: &mut Buffer,
    operation: Binary,
    left: Option<Kind>,
    right: Option<Kind>,
) -> Result<Option<Kind>, CompileFault>
    ensures { Gives OutOfMemory (λ kind. (kind, buffer.new)) result (binary_code operation left right buffer.old) }
{
    match operation {
        Binary::Less => emit_comparison(buffer, Comparison::Lt, left, right),
        Binary::AtMost => emit_comparison(buffer, Comparison::Le, left, right),
        Binary::Equal => {
            emit_equality(buffer, left, right)?;
            Ok(Some(Kind::Bool))
        }
        Binary::Min => emit_calculation(buffer, Calculation::Min, left, right),
        Binary::Max => emit_calculation(buffer, Calculation::Max, left, right),
        Binary::Interval => {
            let op = Op::MakeInterval;
            emit_two(buffer, left, right, Kind::Int, op, Kind::Interval)
        }
    }
}

/// Emits an operator of a chain, given the kinds of its two operands. Returns the kind of the result.
pub fn emit_operator(
    buffer: &mut Buffer,
    operator: Operator,
    left: Option<Kind>,
    right: Option<Kind>,
) -> Result<Option<Kind>, CompileFault>
    ensures { Gives OutOfMemory (λ kind. (kind, buffer.new)) result (operator_code operator left right buffer.old) }
{
    match operator {
        Operator::Or => emit_logic(buffer, Logic::Or, left, right),
        Operator::And => emit_logic(buffer, Logic::And, left, right),
        Operator::Plus => emit_calculation(buffer, Calculation::Add, left, right),
        Operator::Minus => emit_calculation(buffer, Calculation::Sub, left, right),
        Operator::Times => emit_calculation(buffer, Calculation::Mul, left, right),
    }
}

// Returns the op of a division.
fn division_op(division: Division) -> OpDivision
    ensures { result ≡ division_op division }
{
    match division {
        Division::Quotient => OpDivision::DivBy,
        Division::Remainder => OpDivision::ModBy,
    }
}

// Notes `Limit` if a divisor is less than 1.
fn check_divisor(buffer: &mut Buffer, divisor: i64)
    ensures { buffer.new ≡ divisor_noted divisor buffer.old }
{
    if divisor < 1 {
        buffer.note(TextFlaw::Limit);
    }
}

/// Emits a division by a number, which must be at least 1. Returns the kind of the result.
#[tactic(auto, unfolding(crate::specs::Operations::division_code))]
pub fn emit_division(
    buffer: &mut Buffer,
    division: Division,
    divisor: i64,
    left: Option<Kind>,
) -> Result<Option<Kind>, CompileFault>
    ensures { Gives OutOfMemory (λ kind. (kind, buffer.new)) result (division_code division divisor left buffer.old) }
{
    check_divisor(buffer, divisor);
    let op = Op::Divide(division_op(division), divisor);
    emit_one(buffer, left, Kind::Int, op, Kind::Int)
}
