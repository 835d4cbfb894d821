//! The turns of loops.

ghost use Rattle.std.specs.Prelude.{◌≡◌, ℕ, List, drop, IfErr, IfOk};
ghost use Rattle.av_bits.specs.Pattern.{pattern_of};
ghost use Rattle.av_ir.specs.ScalarRun.{evaluated, first_result, greatest, least, operands_of, perform_loop, turns};
ghost use Rattle.av_ir.specs.Run.{Body, Memory, Value};
ghost use Rattle.av_ir.specs.WellFormed.{IsUsable};
ghost use Rattle.av_scalar.specs.Maps.{IsTurns, choice_of};
ghost use Rattle.av_scalar.specs.Meeting.{Stops};
ghost use Rattle.av_scalar.specs.Names.{values};

use super::maps::{behind, evaluate};
use super::words::index_word;
use av_affine::{AffMap, No, Seq};
use av_ir::RunStop;
use std::alloc::{AllocError, Global};

/// The turns of a loop: the pattern of its variable in the first one, by how much it grows with each,
/// and how many there are.
#[derive(Drop)]
pub struct Turns {
    pub first: u64,
    pub step: u64,
    pub count: u64,
}

/// Which result of a map is meant.
#[derive(Clone, Copy, Debug, PartialEq, Eq)]
pub enum Choice {
    First,
    Least,
    Greatest,
}

// The number that is meant, and 0 if there is none.
fn chosen(choice: Choice, numbers: &[i64]) -> i64
    ensures { result ≡ choice_of choice numbers.now }
{
    match choice {
        Choice::First => first(numbers),
        Choice::Least => least(numbers),
        Choice::Greatest => greatest(numbers),
    }
}

/// The word of the number that is meant.
pub fn chosen_word(choice: Choice, numbers: &[i64]) -> u64
    ensures { result ≡ pattern_of 64 (choice_of choice numbers.now) }
{
    index_word(chosen(choice, numbers))
}

fn first(numbers: &[i64]) -> i64
    ensures { result ≡ first_result numbers.now }
{
    if numbers.is_empty() { 0 } else { numbers[0] }
}

// The greatest number, and 0 if there is none.
fn greatest(numbers: &[i64]) -> i64
    ensures { result ≡ greatest numbers.now }
{
    if numbers.is_empty() {
        return 0;
    }
    let mut best = numbers[0];
    for number in behind(numbers, 1) {
        best = best.max(*number);
    }
    best
}

// The least number, and 0 if there is none.
fn least(numbers: &[i64]) -> i64
    ensures { result ≡ least numbers.now }
{
    if numbers.is_empty() {
        return 0;
    }
    let mut best = numbers[0];
    for number in behind(numbers, 1) {
        best = best.min(*number);
    }
    best
}

fn count(lower: i64, upper: i64, step: u64) -> u64
    ensures { result ≡ turns lower upper step }
{
    if step == 0 || lower >= upper {
        return 0;
    }
    upper.abs_diff(lower).div_ceil(step)
}

// The turns from the greatest of the lower bounds to below the least of the upper ones.
fn between(lower: &[i64], upper: &[i64], step: u64) -> Turns
    ensures first { result.first ≡ pattern_of 64 (greatest lower.now) }
    ensures step { result.step ≡ step }
    ensures count { result.count ≡ turns (greatest lower.now) (least upper.now) step }
{
    let first = greatest(lower);
    Turns {
        first: index_word(first),
        step,
        count: count(first, least(upper), step),
    }
}

/// The turns of a loop between bounds at the words of its operands, those of the lower one first.
///
/// # Errors
///
/// A bound is out of range, which traps at the operation of this number, or memory lacks.
pub fn turns_of(
    alloc: Global,
    number: No,
    lower: &AffMap,
    upper: &AffMap,
    step: u64,
    operands: &[u64],
) -> Result<Turns, RunStop>
    requires lower { IsUsable lower.now }
    requires upper { IsUsable upper.now }
    ensures turns { IfOk result (IsTurns (evaluated lower.now (values operands.now)) (evaluated upper.now (drop (operands_of lower.now) (values operands.now))) step) }
    ensures stop { (body : Body) (carried : List Value) (memory : Memory) (budget : ℕ) → IfErr result (Stops (perform_loop step body number (evaluated lower.now (values operands.now)) (evaluated upper.now (drop (operands_of lower.now) (values operands.now))) carried memory) budget) }
{
    let low = evaluate(alloc, number, lower, operands)?;
    let rest = behind(behind(operands, lower.dims), lower.syms);
    let high = evaluate(alloc, number, upper, rest)?;
    Ok(between(low.as_slice(), high.as_slice(), step))
}

/// What a loop carries into its first turn: the operands behind those of its bounds.
///
/// # Errors
///
/// Want of memory.
pub fn carried(
    alloc: Global,
    lower: &AffMap,
    upper: &AffMap,
    operands: &[u64],
) -> Result<Seq<u64>, AllocError>
    ensures { IfOk result (λ ws. values ws ≡ drop (operands_of upper.now) (drop (operands_of lower.now) (values operands.now))) }
{
    let rest = behind(behind(operands, lower.dims), lower.syms);
    Seq::from_slice(alloc, behind(behind(rest, upper.dims), upper.syms))
}
