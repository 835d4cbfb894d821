//! The work of each kind of operation without regions.

ghost use Rattle.std.specs.Prelude.{◌≡◌, ℕ, List, MatchResult};
ghost use Rattle.av_ir.specs.declared.module.Op.{out-Op};
ghost use Rattle.av_ir.specs.Run.{Body, types_at};
ghost use Rattle.av_ir.specs.ScalarRun.{perform};
ghost use Rattle.av_ir.specs.WellFormed.{HasUsableMaps};
ghost use Rattle.av_scalar.specs.Machines.{HasNoRegions, given_with};
ghost use Rattle.av_scalar.specs.Meeting.{EndsAt, Stops};
ghost use Rattle.av_scalar.specs.Names.{values};
ghost use Rattle.av_scalar.specs.Stores.{AreSmall, memory_of, sizes_of};

use super::bounds::Choice;
use super::elements::{
    binary_element, cast_element, compare_element, first_width, pattern_of, select_element,
};
use super::machine::Outcome;
use super::memory::Standing;
use super::operations::{
    give_element, give_mapped, give_word, load, load_mapped, size, store, store_mapped,
};
use av_affine::Seq;
use av_ir::{Buffer, Op, OpKind, RunStop, Ty};
use std::alloc::Global;

/// The work of an operation without regions, without its step.
///
/// # Errors
///
/// The operation traps, or memory lacks.
pub fn plain_work(
    alloc: Global,
    types: &[Ty],
    standing: &Standing,
    op: &Op,
    operands: Seq<u64>,
    memory: &mut Vec<Buffer>,
) -> Result<Outcome, RunStop>
    requires maps { HasUsableMaps (out-Op op.now).kind }
    requires small { AreSmall memory.old.items }
    ensures meets { (bodies : List Body) (budget : ℕ) → HasNoRegions (out-Op op.now).kind → MatchResult result
        (λ o. EndsAt (perform (types_at types.now (out-Op op.now).operands) (types_at types.now (out-Op op.now).results) (out-Op op.now).kind (out-Op op.now).number (values operands) bodies (memory_of standing.now memory.old.items)) budget (given_with o (memory_of standing.now memory.new.items)) budget)
        (Stops (perform (types_at types.now (out-Op op.now).operands) (types_at types.now (out-Op op.now).results) (out-Op op.now).kind (out-Op op.now).number (values operands) bodies (memory_of standing.now memory.old.items)) budget) }
    ensures sizes { sizes_of memory.new.items ≡ sizes_of memory.old.items }
{
    let number = op.number;
    let words = operands.as_slice();
    let from = first_width(types, op.operands.as_slice());
    let to = first_width(types, op.results.as_slice());
    match &op.kind {
        OpKind::FuncReturn | OpKind::AffineYield => Ok(Outcome::handing(alloc, operands)),
        OpKind::ArithConstant(value) => give_word(alloc, pattern_of(value)),
        OpKind::ArithBinary(op) => give_element(alloc, number, binary_element(*op, to, words)),
        OpKind::ArithCmpi(pred) => {
            give_element(alloc, number, Ok(compare_element(*pred, from, words)))
        }
        OpKind::ArithSelect => give_element(alloc, number, Ok(select_element(words))),
        OpKind::ArithCast(op) => {
            give_element(alloc, number, Ok(cast_element(*op, from, to, words)))
        }
        OpKind::AffineApply(map) => give_mapped(alloc, number, Choice::First, map, words),
        OpKind::AffineMin(map) => give_mapped(alloc, number, Choice::Least, map, words),
        OpKind::AffineMax(map) => give_mapped(alloc, number, Choice::Greatest, map, words),
        OpKind::AffineLoad(map) => load_mapped(alloc, number, map, words, standing, memory),
        OpKind::AffineStore(map) => store_mapped(alloc, number, map, words, standing, memory),
        OpKind::MemrefLoad => load(alloc, number, words, standing, memory),
        OpKind::MemrefStore => store(alloc, number, words, standing, memory),
        OpKind::MemrefDim => size(alloc, number, words, standing, memory),
        OpKind::AffineFor { .. }
        | OpKind::AffineIf(_)
        | OpKind::ScfFor
        | OpKind::ScfYield
        | OpKind::VectorLoad
        | OpKind::VectorStore
        | OpKind::VectorMaskedLoad
        | OpKind::VectorMaskedStore
        | OpKind::VectorGather
        | OpKind::VectorScatter
        | OpKind::VectorBroadcast
        | OpKind::VectorCreateMask
        | OpKind::VectorReduction(_)
        | OpKind::VectorExtract(_)
        | OpKind::VectorInsert(_)
        | OpKind::VectorShuffle(_)
        | OpKind::VectorStep
        | OpKind::VectorVscale => Ok(Outcome::nothing(alloc)),
    }
}
