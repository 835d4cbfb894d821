//! The walk over operations, regions and turns of loops.

ghost use Rattle.std.specs.Prelude.{◌≡◌, ℕ, ℤ, if◌then◌else◌, List, [], length, MatchResult, OnOk};
ghost use Rattle.std.specs.List.{All};
ghost use Rattle.av_bits.specs.Pattern.{pattern_of};
ghost use Rattle.av_ir.specs.Run.{Value, handed_on, run_acts, run_op, run_region};
ghost use Rattle.av_ir.specs.ScalarRun.{first_body, loop_from, perform, second_body};
ghost use Rattle.av_ir.specs.WellFormed.{IsWellFormedOp, IsWellFormedRegion};
ghost use Rattle.av_scalar.specs.Machines.{acts_of, bodies_of, ending_of, given_with, handed_of, memory_in, state_of, work_of};
ghost use Rattle.av_scalar.specs.Meeting.{EndsAt, Stops};
ghost use Rattle.av_scalar.specs.Names.{Since, env_of, values};
ghost use Rattle.av_scalar.specs.Stores.{AreSmall, sizes_of};

use super::bounds::{Turns, carried, turns_of};
use super::machine::{Machine, Outcome, handed_on, in_front, spend};
use super::maps::{behind, test};
use super::memory::Standing;
use super::plain::plain_work;
use av_affine::Seq;
use av_ir::{Op, OpKind, Region, RunStop, Ty};
use std::alloc::Global;

// An operation costs a step, reads its operands, works, and binds its results.
#[cycle(run)]
fn run_op(
    alloc: Global,
    types: &[Ty],
    standing: &Standing,
    op: &Op,
    machine: &mut Machine,
) -> Result<Option<Seq<u64>>, RunStop>
    requires formed { IsWellFormedOp (length machine.old.names.words) op.now }
    requires small { AreSmall machine.old.memory.items }
    ensures meets { (handed : List Value) → MatchResult result
        (λ own. EndsAt (run_op perform types.now op.now (env_of machine.old.names) (memory_in standing.now machine.old) handed) machine.old.left
        (state_of standing.now machine.new (handed_on (handed_of own) handed)) machine.new.left)
        (Stops (run_op perform types.now op.now (env_of machine.old.names) (memory_in standing.now machine.old) handed) machine.old.left) }
    ensures since { OnOk result (Since machine.old.names machine.new.names) }
    ensures sizes { OnOk result (sizes_of machine.new.memory.items ≡ sizes_of machine.old.memory.items) }
{
    spend(&mut machine.left)?;
    let operands = machine.names.read(alloc, op.operands.as_slice())?;
    let outcome = work(alloc, types, standing, op, operands, machine)?;
    machine
        .names
        .bind(op.results.as_slice(), outcome.words.as_slice())?;
    Ok(outcome.handed)
}

// The work of an operation, without its step.
#[cycle(run)]
fn work(
    alloc: Global,
    types: &[Ty],
    standing: &Standing,
    op: &Op,
    operands: Seq<u64>,
    machine: &mut Machine,
) -> Result<Outcome, RunStop>
    requires formed { IsWellFormedOp (length machine.old.names.words) op.now }
    requires small { AreSmall machine.old.memory.items }
    ensures meets { MatchResult result
        (λ o. EndsAt (work_of perform types.now op.now (values operands) (env_of machine.old.names) (memory_in standing.now machine.old)) machine.old.left
        (given_with o (memory_in standing.now machine.new)) machine.new.left)
        (Stops (work_of perform types.now op.now (values operands) (env_of machine.old.names) (memory_in standing.now machine.old)) machine.old.left) }
    ensures names { OnOk result (machine.new.names ≡ machine.old.names) }
    ensures sizes { OnOk result (sizes_of machine.new.memory.items ≡ sizes_of machine.old.memory.items) }
{
    match &op.kind {
        OpKind::AffineFor { lower, upper, step } => {
            let number = op.number;
            let turns = turns_of(alloc, number, lower, upper, *step, operands.as_slice())?;
            let carried = carried(alloc, lower, upper, operands.as_slice())?;
            let regions = op.regions.as_slice();
            let words = run_turns(alloc, types, standing, regions, &turns, carried, machine)?;
            Ok(Outcome {
                words,
                handed: None,
            })
        }
        OpKind::AffineIf(set) => {
            let held = test(alloc, set, operands.as_slice())?;
            let regions = op.regions.as_slice();
            let words = run_branch(alloc, types, standing, regions, held, machine)?;
            Ok(Outcome {
                words,
                handed: None,
            })
        }
        _ => plain_work(alloc, types, standing, op, operands, &mut machine.memory),
    }
}

// The turns of a loop, each of which is handed what the one before it hands on.
#[cycle(run)]
fn run_turns(
    alloc: Global,
    types: &[Ty],
    standing: &Standing,
    regions: &[Region],
    turns: &Turns,
    carried: Seq<u64>,
    machine: &mut Machine,
) -> Result<Seq<u64>, RunStop>
    requires formed { All (IsWellFormedRegion (length machine.old.names.words)) regions.now }
    requires small { AreSmall machine.old.memory.items }
    ensures meets { (first : ℤ) → turns.now.first ≡ pattern_of 64 first → MatchResult result
        (λ ps. EndsAt (loop_from (first_body (bodies_of perform types.now regions.now (env_of machine.old.names))) turns.now.step turns.now.count first (values carried) (memory_in standing.now machine.old)) machine.old.left
        (ending_of standing.now machine.new ps) machine.new.left)
        (Stops (loop_from (first_body (bodies_of perform types.now regions.now (env_of machine.old.names))) turns.now.step turns.now.count first (values carried) (memory_in standing.now machine.old)) machine.old.left) }
    ensures names { OnOk result (machine.new.names ≡ machine.old.names) }
    ensures sizes { OnOk result (sizes_of machine.new.memory.items ≡ sizes_of machine.old.memory.items) }
{
    let mut carried = carried;
    let mut at = turns.first;
    for _turn in 0..turns.count {
        spend(&mut machine.left)?;
        let args = in_front(alloc, at, carried.as_slice())?;
        carried = run_body(alloc, types, standing, regions, args.as_slice(), machine)?;
        at = at.wrapping_add(turns.step);
    }
    Ok(carried)
}

// The first of the regions where the set held, and else the second.
#[cycle(run)]
fn run_branch(
    alloc: Global,
    types: &[Ty],
    standing: &Standing,
    regions: &[Region],
    held: bool,
    machine: &mut Machine,
) -> Result<Seq<u64>, RunStop>
    requires formed { All (IsWellFormedRegion (length machine.old.names.words)) regions.now }
    requires small { AreSmall machine.old.memory.items }
    ensures meets { MatchResult result
        (λ ps. EndsAt ((if held then first_body (bodies_of perform types.now regions.now (env_of machine.old.names)) else second_body (bodies_of perform types.now regions.now (env_of machine.old.names))) [] (memory_in standing.now machine.old)) machine.old.left
        (ending_of standing.now machine.new ps) machine.new.left)
        (Stops ((if held then first_body (bodies_of perform types.now regions.now (env_of machine.old.names)) else second_body (bodies_of perform types.now regions.now (env_of machine.old.names))) [] (memory_in standing.now machine.old)) machine.old.left) }
    ensures names { OnOk result (machine.new.names ≡ machine.old.names) }
    ensures sizes { OnOk result (sizes_of machine.new.memory.items ≡ sizes_of machine.old.memory.items) }
{
    if held {
        run_body(alloc, types, standing, regions, &[], machine)
    } else {
        run_body(alloc, types, standing, behind(regions, 1), &[], machine)
    }
}

// The first of the regions, if there is one.
#[cycle(run)]
fn run_body(
    alloc: Global,
    types: &[Ty],
    standing: &Standing,
    regions: &[Region],
    args: &[u64],
    machine: &mut Machine,
) -> Result<Seq<u64>, RunStop>
    requires formed { All (IsWellFormedRegion (length machine.old.names.words)) regions.now }
    requires small { AreSmall machine.old.memory.items }
    ensures meets { MatchResult result
        (λ ps. EndsAt (first_body (bodies_of perform types.now regions.now (env_of machine.old.names)) (values args.now) (memory_in standing.now machine.old)) machine.old.left
        (ending_of standing.now machine.new ps) machine.new.left)
        (Stops (first_body (bodies_of perform types.now regions.now (env_of machine.old.names)) (values args.now) (memory_in standing.now machine.old)) machine.old.left) }
    ensures names { OnOk result (machine.new.names ≡ machine.old.names) }
    ensures sizes { OnOk result (sizes_of machine.new.memory.items ≡ sizes_of machine.old.memory.items) }
{
    if regions.is_empty() {
        Ok(Seq::new(alloc))
    } else {
        run_region(alloc, types, standing, &regions[0], args, machine)
    }
}

// A region binds its arguments and runs its operations; what it bound is taken back behind it.
#[cycle(run)]
pub fn run_region(
    alloc: Global,
    types: &[Ty],
    standing: &Standing,
    region: &Region,
    args: &[u64],
    machine: &mut Machine,
) -> Result<Seq<u64>, RunStop>
    requires formed { IsWellFormedRegion (length machine.old.names.words) region.now }
    requires small { AreSmall machine.old.memory.items }
    ensures meets { MatchResult result
        (λ ps. EndsAt (run_region perform types.now region.now (env_of machine.old.names) (values args.now) (memory_in standing.now machine.old)) machine.old.left
        (ending_of standing.now machine.new ps) machine.new.left)
        (Stops (run_region perform types.now region.now (env_of machine.old.names) (values args.now) (memory_in standing.now machine.old)) machine.old.left) }
    ensures names { OnOk result (machine.new.names ≡ machine.old.names) }
    ensures sizes { OnOk result (sizes_of machine.new.memory.items ≡ sizes_of machine.old.memory.items) }
{
    let mark = machine.names.changes.len();
    machine.names.bind(region.args.as_slice(), args)?;
    let handed = run_ops(alloc, types, standing, region.ops.as_slice(), machine)?;
    machine.names.take_back(mark);
    Ok(handed)
}

// Operations in order.
#[cycle(run)]
fn run_ops(
    alloc: Global,
    types: &[Ty],
    standing: &Standing,
    ops: &[Op],
    machine: &mut Machine,
) -> Result<Seq<u64>, RunStop>
    requires formed { All (IsWellFormedOp (length machine.old.names.words)) ops.now }
    requires small { AreSmall machine.old.memory.items }
    ensures meets { MatchResult result
        (λ ps. EndsAt (run_acts (acts_of perform types.now ops.now) (env_of machine.old.names) (memory_in standing.now machine.old) []) machine.old.left
        (state_of standing.now machine.new (values ps)) machine.new.left)
        (Stops (run_acts (acts_of perform types.now ops.now) (env_of machine.old.names) (memory_in standing.now machine.old) []) machine.old.left) }
    ensures since { OnOk result (Since machine.old.names machine.new.names) }
    ensures sizes { OnOk result (sizes_of machine.new.memory.items ≡ sizes_of machine.old.memory.items) }
{
    let mut handed = Seq::new(alloc);
    for op in ops {
        let own = run_op(alloc, types, standing, op, machine)?;
        handed = handed_on(own, handed);
    }
    Ok(handed)
}
