//! The numbers of loops and accesses, as marks and as a list.
ghost use Rattle.std.specs.Prelude.{◌≡◌, ◌+◌, ◌++◌, ◌≤◌, drop, length, map, IfOk, OnOk};
ghost use Rattle.std.specs.List.{flat_map};
ghost use Rattle.av_ir.specs.Marks.{in_turn, inner_among, inner_loops_of, marked_func, marked_of, marked_op, marked_region, op_flags, own_loops, region_flags};
ghost use Rattle.av_ir.specs.Marks.{is_access as is_access_kind, is_loop as is_loop_kind, marks_of as marks_at};

use super::{Func, Marks, Module, Op, OpKind, Region};
use av_affine::{Duplicate, No, Seq, duplicate_all};
use std::alloc::{AllocError, Global};

/// A loop with no loop inside, at any depth.
#[derive(Clone, Copy, Debug, Drop, PartialEq, Eq)]
pub struct InnerLoop {
    /// The place of its function in the module's `funcs`.
    pub func: No,
    /// Its number, from 0 in the order of the text over all loops of the module.
    pub number: No,
}

/// The same module with each loop marked with its number, from 0 in the order of the text over all
/// loops of the module, and each access with the number of its operation. Marks of these two sorts
/// that the module had are gone.
///
/// # Errors
///
/// Want of memory.
pub fn marked(alloc: Global, module: &Module) -> Result<Module, AllocError>
    ensures { IfOk result (λ m. m ≡ marked_of «module».now) }
{
    let mut loops = Seq::new(alloc);
    let funcs = mark_funcs(alloc, module.funcs.as_slice(), &mut loops)?;
    Ok(Module {
        funcs,
        owners: module.owners.duplicate(alloc)?,
    })
}

// `loops` has an element for each loop before: its operation's number.
fn mark_funcs(alloc: Global, funcs: &[Func], loops: &mut Seq<No>) -> Result<Seq<Func>, AllocError>
    ensures made { IfOk result (λ c. c ≡ (in_turn (map marked_func funcs.now) (length loops.old)).made) }
    ensures count { OnOk result (length loops.new ≡ (in_turn (map marked_func funcs.now) (length loops.old)).loops) }
{
    let mut copies = Seq::new(alloc);
    for func in funcs {
        copies.push(mark_func(alloc, func, loops)?)?;
    }
    Ok(copies)
}

fn mark_func(alloc: Global, func: &Func, loops: &mut Seq<No>) -> Result<Func, AllocError>
    ensures made { IfOk result (λ c. c ≡ (marked_func func.now (length loops.old)).made) }
    ensures count { OnOk result (length loops.new ≡ (marked_func func.now (length loops.old)).loops) }
{
    let body = mark_region(alloc, &func.body, loops)?;
    Ok(Func {
        name: func.name.duplicate(alloc)?,
        number: func.number,
        values: duplicate_all(alloc, func.values.as_slice())?,
        results: duplicate_all(alloc, func.results.as_slice())?,
        body,
        marks: func.marks,
    })
}

#[cycle(marking)]
fn mark_region(alloc: Global, region: &Region, loops: &mut Seq<No>) -> Result<Region, AllocError>
    ensures made { IfOk result (λ c. c ≡ (marked_region region.now (length loops.old)).made) }
    ensures count { OnOk result (length loops.new ≡ (marked_region region.now (length loops.old)).loops) }
{
    Ok(Region {
        args: region.args.duplicate(alloc)?,
        ops: mark_ops(alloc, region.ops.as_slice(), loops)?,
    })
}

#[cycle(marking)]
fn mark_ops(alloc: Global, ops: &[Op], loops: &mut Seq<No>) -> Result<Seq<Op>, AllocError>
    ensures made { IfOk result (λ c. c ≡ (in_turn (map marked_op ops.now) (length loops.old)).made) }
    ensures count { OnOk result (length loops.new ≡ (in_turn (map marked_op ops.now) (length loops.old)).loops) }
{
    let mut copies = Seq::new(alloc);
    for op in ops {
        copies.push(mark_op(alloc, op, loops)?)?;
    }
    Ok(copies)
}

#[cycle(marking)]
fn mark_op(alloc: Global, op: &Op, loops: &mut Seq<No>) -> Result<Op, AllocError>
    ensures made { IfOk result (λ c. c ≡ (marked_op op.now (length loops.old)).made) }
    ensures count { OnOk result (length loops.new ≡ (marked_op op.now (length loops.old)).loops) }
{
    let marks = marks_of(&op.kind, loops.len() as No, op.number, op.marks.distinct);
    count_loop(&op.kind, op.number, loops)?;
    let regions = mark_regions(alloc, op.regions.as_slice(), loops)?;
    Ok(Op {
        number: op.number,
        kind: op.kind.duplicate(alloc)?,
        operands: op.operands.duplicate(alloc)?,
        results: op.results.duplicate(alloc)?,
        regions,
        marks,
    })
}

#[cycle(marking)]
fn mark_regions(
    alloc: Global,
    regions: &[Region],
    loops: &mut Seq<No>,
) -> Result<Seq<Region>, AllocError>
    ensures made { IfOk result (λ c. c ≡ (in_turn (map marked_region regions.now) (length loops.old)).made) }
    ensures count { OnOk result (length loops.new ≡ (in_turn (map marked_region regions.now) (length loops.old)).loops) }
{
    let mut copies = Seq::new(alloc);
    for region in regions {
        copies.push(mark_region(alloc, region, loops)?)?;
    }
    Ok(copies)
}

// The marks of an operation of a kind and number, so many loops being before it.
fn marks_of(kind: &OpKind, loops: No, number: No, distinct: bool) -> Marks
    ensures { result ≡ marks_at kind.now loops number distinct }
{
    Marks {
        loop_no: if is_loop(kind) { Some(loops) } else { None },
        source: if is_access(kind) { Some(number) } else { None },
        distinct,
    }
}

fn count_loop(kind: &OpKind, number: No, loops: &mut Seq<No>) -> Result<(), AllocError>
    ensures { OnOk result (length loops.new ≡ length loops.old + own_loops kind.now) }
{
    if is_loop(kind) {
        loops.push(number)?;
    }
    Ok(())
}

fn is_loop(kind: &OpKind) -> bool
    ensures { result ≡ is_loop_kind kind.now }
{
    matches!(kind, OpKind::AffineFor { .. } | OpKind::ScfFor)
}

fn is_access(kind: &OpKind) -> bool
    ensures { result ≡ is_access_kind kind.now }
{
    matches!(
        kind,
        OpKind::AffineLoad(_)
            | OpKind::AffineStore(_)
            | OpKind::MemrefLoad
            | OpKind::MemrefStore
            | OpKind::VectorLoad
            | OpKind::VectorStore
            | OpKind::VectorMaskedLoad
            | OpKind::VectorMaskedStore
            | OpKind::VectorGather
            | OpKind::VectorScatter
    )
}

/// The inner loops of a module, in the order of the text.
///
/// # Errors
///
/// Want of memory.
pub fn inner_loops(alloc: Global, module: &Module) -> Result<Seq<InnerLoop>, AllocError>
    ensures { IfOk result (λ loops. loops ≡ inner_loops_of «module».now) }
{
    let mut inner = Seq::new(alloc);
    let mut flags = Seq::new(alloc);
    for (place, func) in module.funcs.as_slice().iter().enumerate() {
        let first = flags.len();
        flag_ops(func.body.ops.as_slice(), &mut flags)?;
        push_inner(place as No, first, flags.as_slice(), &mut inner)?;
    }
    Ok(inner)
}

// Appends those loops of a function that have no loop inside. Their flags stand from `first` on.
fn push_inner(
    func: No,
    first: usize,
    flags: &[bool],
    inner: &mut Seq<InnerLoop>,
) -> Result<(), AllocError>
    requires { first ≤ length flags.now }
    ensures { OnOk result (inner.new ≡ inner.old ++ inner_among func first (drop first flags.now)) }
{
    for place in first..flags.len() {
        if flags[place] {
            let number = place as No;
            inner.push(InnerLoop { func, number })?;
        }
    }
    Ok(())
}

// Appends a flag for each loop, in the order of the text: whether no loop is inside it.
#[cycle(flagging)]
fn flag_ops(ops: &[Op], flags: &mut Seq<bool>) -> Result<(), AllocError>
    ensures { OnOk result (flags.new ≡ flags.old ++ flat_map op_flags ops.now) }
{
    for op in ops {
        flag_op(op, flags)?;
    }
    Ok(())
}

#[cycle(flagging)]
fn flag_op(op: &Op, flags: &mut Seq<bool>) -> Result<(), AllocError>
    ensures { OnOk result (flags.new ≡ flags.old ++ op_flags op.now) }
{
    if !is_loop(&op.kind) {
        return flag_regions(op.regions.as_slice(), flags);
    }
    let own = flags.len();
    flags.push(true)?;
    flag_regions(op.regions.as_slice(), flags)?;
    if flags.len() > own + 1 {
        flags.set(own, false);
    }
    Ok(())
}

#[cycle(flagging)]
fn flag_regions(regions: &[Region], flags: &mut Seq<bool>) -> Result<(), AllocError>
    ensures { OnOk result (flags.new ≡ flags.old ++ flat_map region_flags regions.now) }
{
    for region in regions {
        flag_ops(region.ops.as_slice(), flags)?;
    }
    Ok(())
}
