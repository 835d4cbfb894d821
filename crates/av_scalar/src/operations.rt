//! The work of operations on words: of elements, maps and memory, without its step.

ghost use Rattle.std.specs.Prelude.{◌≡◌, ◌≤◌, ℕ, [], ◌∷◌, drop, length, IfErr, IfOk, MatchResult, Some, None};
ghost use Rattle.std.specs.List.{All};
ghost use Rattle.av_affine.specs.Limits.{Admissible};
ghost use Rattle.av_ir.specs.Elements.{element_given};
ghost use Rattle.av_ir.specs.Run.{Memory, gives, word, word_at};
ghost use Rattle.av_ir.specs.ScalarRun.{buffer_of, evaluated, index_at, index_value, load_at, mapped, size_at, size_given, store_at, subscripts};
ghost use Rattle.av_ir.specs.WellFormed.{IsUsable};
ghost use Rattle.av_scalar.specs.Machines.{given_with};
ghost use Rattle.av_scalar.specs.Maps.{choice_of};
ghost use Rattle.av_scalar.specs.Meeting.{EndsAt, Stops};
ghost use Rattle.av_scalar.specs.Names.{values};
ghost use Rattle.av_scalar.specs.Stores.{AreSmall, memory_of, sizes_of};

use super::bounds::{Choice, chosen_word};
use super::machine::Outcome;
use super::maps::{behind, evaluate, indices};
use super::memory::Standing;
use super::words::word_at;
use av_affine::{AffMap, No, Seq};
use av_bits::DivideTrap;
use av_ir::{Buffer, RunStop, TrapKind};
use std::alloc::Global;

/// The work that gives one word.
///
/// # Errors
///
/// Want of memory.
pub fn give_word(alloc: Global, pattern: u64) -> Result<Outcome, RunStop>
    ensures { (memory : Memory) (budget : ℕ) → MatchResult result
        (λ o. EndsAt (gives (word pattern ∷ []) memory) budget (given_with o memory) budget)
        (Stops (gives (word pattern ∷ []) memory) budget) }
{
    Ok(Outcome::one(alloc, pattern)?)
}

/// The work on one element that gives this pattern or traps.
///
/// # Errors
///
/// A division traps, at the operation of this number, or memory lacks.
pub fn give_element(
    alloc: Global,
    number: No,
    element: Result<u64, DivideTrap>,
) -> Result<Outcome, RunStop>
    ensures { (memory : Memory) (budget : ℕ) → MatchResult result
        (λ o. EndsAt (element_given number memory element) budget (given_with o memory) budget)
        (Stops (element_given number memory element) budget) }
{
    match element {
        Ok(pattern) => Ok(Outcome::one(alloc, pattern)?),
        Err(_) => Err(RunStop::Trap(TrapKind::Divide, number)),
    }
}

/// The work that gives one of the results of a map.
///
/// # Errors
///
/// A result is out of range, which traps at the operation of this number, or memory lacks.
pub fn give_mapped(
    alloc: Global,
    number: No,
    choice: Choice,
    map: &AffMap,
    operands: &[u64],
) -> Result<Outcome, RunStop>
    requires { IsUsable map.now }
    ensures { (memory : Memory) (budget : ℕ) → MatchResult result
        (λ o. EndsAt (mapped (choice_of choice) number (evaluated map.now (values operands.now)) memory) budget (given_with o memory) budget)
        (Stops (mapped (choice_of choice) number (evaluated map.now (values operands.now)) memory) budget) }
{
    let results = evaluate(alloc, number, map, operands)?;
    Ok(Outcome::one(alloc, chosen_word(choice, results.as_slice()))?)
}

// The load of the element at subscripts.
fn load_element(
    alloc: Global,
    number: No,
    memref: u64,
    at: &[i64],
    standing: &Standing,
    memory: &Vec<Buffer>,
) -> Result<Outcome, RunStop>
    requires { AreSmall memory.now.items }
    ensures { (budget : ℕ) → MatchResult result
        (λ o. EndsAt (load_at number (memory_of standing.now memory.now.items) memref (Some at.now)) budget (given_with o (memory_of standing.now memory.now.items)) budget)
        (Stops (load_at number (memory_of standing.now memory.now.items) memref (Some at.now)) budget) }
{
    match standing.place(memory, memref, at) {
        Some(place) => Ok(Outcome::one(alloc, standing.load(memory, memref, place))?),
        None => Err(RunStop::Trap(TrapKind::OutOfBounds, number)),
    }
}

/// The work of a load at the results of a map.
///
/// # Errors
///
/// A result of the map is out of range, or a subscript outside, which traps at the operation of this
/// number, or memory lacks.
pub fn load_mapped(
    alloc: Global,
    number: No,
    map: &AffMap,
    operands: &[u64],
    standing: &Standing,
    memory: &Vec<Buffer>,
) -> Result<Outcome, RunStop>
    requires map { IsUsable map.now }
    requires small { AreSmall memory.now.items }
    ensures { (budget : ℕ) → MatchResult result
        (λ o. EndsAt (load_at number (memory_of standing.now memory.now.items) (word_at (values operands.now) 0) (evaluated map.now (drop 1 (values operands.now)))) budget (given_with o (memory_of standing.now memory.now.items)) budget)
        (Stops (load_at number (memory_of standing.now memory.now.items) (word_at (values operands.now) 0) (evaluated map.now (drop 1 (values operands.now)))) budget) }
{
    let at = evaluate(alloc, number, map, behind(operands, 1))?;
    let memref = word_at(operands, 0);
    load_element(alloc, number, memref, at.as_slice(), standing, memory)
}

/// The work of a load at subscripts that are operands.
///
/// # Errors
///
/// A subscript is outside, which traps at the operation of this number, or memory lacks.
pub fn load(
    alloc: Global,
    number: No,
    operands: &[u64],
    standing: &Standing,
    memory: &Vec<Buffer>,
) -> Result<Outcome, RunStop>
    requires { AreSmall memory.now.items }
    ensures { (budget : ℕ) → MatchResult result
        (λ o. EndsAt (load_at number (memory_of standing.now memory.now.items) (word_at (values operands.now) 0) (Some (subscripts (drop 1 (values operands.now))))) budget (given_with o (memory_of standing.now memory.now.items)) budget)
        (Stops (load_at number (memory_of standing.now memory.now.items) (word_at (values operands.now) 0) (Some (subscripts (drop 1 (values operands.now))))) budget) }
{
    let at = indices(alloc, behind(operands, 1))?;
    let memref = word_at(operands, 0);
    load_element(alloc, number, memref, &at, standing, memory)
}

// The store of a pattern into the element at subscripts.
fn store_element(
    alloc: Global,
    number: No,
    memref: u64,
    pattern: u64,
    at: &[i64],
    standing: &Standing,
    memory: &mut Vec<Buffer>,
) -> Result<Outcome, RunStop>
    requires { AreSmall memory.old.items }
    ensures stored { (budget : ℕ) → MatchResult result
        (λ o. EndsAt (store_at number (memory_of standing.now memory.old.items) memref pattern (Some at.now)) budget (given_with o (memory_of standing.now memory.new.items)) budget)
        (Stops (store_at number (memory_of standing.now memory.old.items) memref pattern (Some at.now)) budget) }
    ensures sizes { sizes_of memory.new.items ≡ sizes_of memory.old.items }
{
    match standing.place(memory, memref, at) {
        Some(place) => {
            standing.store(memory, memref, place, pattern);
            Ok(Outcome::nothing(alloc))
        }
        None => Err(RunStop::Trap(TrapKind::OutOfBounds, number)),
    }
}

/// The work of a store at the results of a map.
///
/// # Errors
///
/// As for a load; then memory stays.
pub fn store_mapped(
    alloc: Global,
    number: No,
    map: &AffMap,
    operands: &[u64],
    standing: &Standing,
    memory: &mut Vec<Buffer>,
) -> Result<Outcome, RunStop>
    requires map { IsUsable map.now }
    requires small { AreSmall memory.old.items }
    ensures stored { (budget : ℕ) → MatchResult result
        (λ o. EndsAt (store_at number (memory_of standing.now memory.old.items) (word_at (values operands.now) 1) (word_at (values operands.now) 0) (evaluated map.now (drop 2 (values operands.now)))) budget (given_with o (memory_of standing.now memory.new.items)) budget)
        (Stops (store_at number (memory_of standing.now memory.old.items) (word_at (values operands.now) 1) (word_at (values operands.now) 0) (evaluated map.now (drop 2 (values operands.now)))) budget) }
    ensures sizes { sizes_of memory.new.items ≡ sizes_of memory.old.items }
{
    let at = evaluate(alloc, number, map, behind(operands, 2))?;
    let memref = word_at(operands, 1);
    let pattern = word_at(operands, 0);
    store_element(
        alloc,
        number,
        memref,
        pattern,
        at.as_slice(),
        standing,
        memory,
    )
}

/// The work of a store at subscripts that are operands.
///
/// # Errors
///
/// As for a load; then memory stays.
pub fn store(
    alloc: Global,
    number: No,
    operands: &[u64],
    standing: &Standing,
    memory: &mut Vec<Buffer>,
) -> Result<Outcome, RunStop>
    requires { AreSmall memory.old.items }
    ensures stored { (budget : ℕ) → MatchResult result
        (λ o. EndsAt (store_at number (memory_of standing.now memory.old.items) (word_at (values operands.now) 1) (word_at (values operands.now) 0) (Some (subscripts (drop 2 (values operands.now))))) budget (given_with o (memory_of standing.now memory.new.items)) budget)
        (Stops (store_at number (memory_of standing.now memory.old.items) (word_at (values operands.now) 1) (word_at (values operands.now) 0) (Some (subscripts (drop 2 (values operands.now))))) budget) }
    ensures sizes { sizes_of memory.new.items ≡ sizes_of memory.old.items }
{
    let at = indices(alloc, behind(operands, 2))?;
    let memref = word_at(operands, 1);
    let pattern = word_at(operands, 0);
    store_element(alloc, number, memref, pattern, &at, standing, memory)
}

/// The work that gives the size of a dimension.
///
/// # Errors
///
/// The dimension isn't there, which traps at the operation of this number, or memory lacks.
pub fn size(
    alloc: Global,
    number: No,
    operands: &[u64],
    standing: &Standing,
    memory: &Vec<Buffer>,
) -> Result<Outcome, RunStop>
    ensures { (budget : ℕ) → MatchResult result
        (λ o. EndsAt (size_given number (size_at (buffer_of (memory_of standing.now memory.now.items) (word_at (values operands.now) 0)).sizes (index_at (values operands.now) 1)) (memory_of standing.now memory.now.items)) budget (given_with o (memory_of standing.now memory.now.items)) budget)
        (Stops (size_given number (size_at (buffer_of (memory_of standing.now memory.now.items) (word_at (values operands.now) 0)).sizes (index_at (values operands.now) 1)) (memory_of standing.now memory.now.items)) budget) }
{
    match standing.size(memory, word_at(operands, 0), word_at(operands, 1)) {
        Some(size) => Ok(Outcome::one(alloc, size)?),
        None => Err(RunStop::Trap(TrapKind::OutOfBounds, number)),
    }
}
