//! The test of modules that aren't read from a text.

ghost use Rattle.std.specs.Prelude.{◌≡◌, ◌↔◌, ◌≤◌, IsTrue, length};
ghost use Rattle.std.specs.List.{All};
ghost use Rattle.av_affine.specs.Limits.{Admissible};
ghost use Rattle.av_ir.specs.WellFormed.{AreValues, HasUsableMaps, IsUsable, IsUsableSet, IsWellFormedFunc, IsWellFormedOp, IsWellFormedRegion, WellFormed};

use av_affine::{AffMap, AffSet, Expr, SetRow, is_admissible};
use av_ir::{Func, Module, Op, OpKind, Region, ValueId};

const MAX_RESULTS: usize = 8;

const MAX_ROWS: usize = 64;

fn all_admissible(results: &[Expr]) -> bool
    ensures { IsTrue result ↔ All Admissible results.now }
{
    results.iter().all(|e| is_admissible(e))
}

fn is_usable(map: &AffMap) -> bool
    ensures { IsTrue result ↔ IsUsable map.now }
{
    map.results.len() <= MAX_RESULTS && all_admissible(map.results.as_slice())
}

fn all_rows_admissible(rows: &[SetRow]) -> bool
    ensures { IsTrue result ↔ All (λ row. Admissible row.left) rows.now }
{
    rows.iter().all(|row| is_admissible(&row.left))
}

fn is_usable_set(set: &AffSet) -> bool
    ensures { IsTrue result ↔ IsUsableSet set.now }
{
    set.rows.len() <= MAX_ROWS && all_rows_admissible(set.rows.as_slice())
}

fn has_usable_maps(kind: &OpKind) -> bool
    ensures { IsTrue result ↔ HasUsableMaps kind.now }
{
    match kind {
        OpKind::AffineFor { lower, upper, .. } => is_usable(lower) && is_usable(upper),
        OpKind::AffineIf(set) => is_usable_set(set),
        OpKind::AffineApply(map)
        | OpKind::AffineMin(map)
        | OpKind::AffineMax(map)
        | OpKind::AffineLoad(map)
        | OpKind::AffineStore(map) => is_usable(map),
        OpKind::FuncReturn
        | OpKind::ArithConstant(_)
        | OpKind::ArithBinary(_)
        | OpKind::ArithCmpi(_)
        | OpKind::ArithSelect
        | OpKind::ArithCast(_)
        | OpKind::AffineYield
        | OpKind::MemrefLoad
        | OpKind::MemrefStore
        | OpKind::MemrefDim
        | OpKind::ScfFor
        | OpKind::ScfYield
        | OpKind::VectorLoad
        | OpKind::VectorStore
        | OpKind::VectorMaskedLoad
        | OpKind::VectorMaskedStore
        | OpKind::VectorGather
        | OpKind::VectorScatter
        | OpKind::VectorBroadcast
        | OpKind::VectorCreateMask
        | OpKind::VectorReduction(_)
        | OpKind::VectorExtract(_)
        | OpKind::VectorInsert(_)
        | OpKind::VectorShuffle(_)
        | OpKind::VectorStep
        | OpKind::VectorVscale => true,
    }
}

fn are_values(count: usize, ids: &[ValueId]) -> bool
    ensures { IsTrue result ↔ AreValues count ids.now }
{
    ids.iter().all(|id| id.0 < count as u64)
}

#[cycle(forming)]
fn is_formed_op(count: usize, op: &Op) -> bool
    ensures { IsTrue result ↔ IsWellFormedOp count op.now }
{
    if !has_usable_maps(&op.kind) {
        return false;
    }
    if !are_values(count, op.results.as_slice()) {
        return false;
    }
    are_formed_regions(count, op.regions.as_slice())
}

#[cycle(forming)]
fn are_formed_regions(count: usize, regions: &[Region]) -> bool
    ensures { IsTrue result ↔ All (IsWellFormedRegion count) regions.now }
{
    for region in regions {
        if !is_formed_region(count, region) {
            return false;
        }
    }
    true
}

#[cycle(forming)]
fn is_formed_region(count: usize, region: &Region) -> bool
    ensures { IsTrue result ↔ IsWellFormedRegion count region.now }
{
    if !are_values(count, region.args.as_slice()) {
        return false;
    }
    are_formed_ops(count, region.ops.as_slice())
}

#[cycle(forming)]
fn are_formed_ops(count: usize, ops: &[Op]) -> bool
    ensures { IsTrue result ↔ All (IsWellFormedOp count) ops.now }
{
    for op in ops {
        if !is_formed_op(count, op) {
            return false;
        }
    }
    true
}

fn is_formed_func(f: &Func) -> bool
    ensures { IsTrue result ↔ IsWellFormedFunc f.now }
{
    is_formed_region(f.values.len(), &f.body)
}

fn are_formed_funcs(funcs: &[Func]) -> bool
    ensures { IsTrue result ↔ All IsWellFormedFunc funcs.now }
{
    funcs.iter().all(|f| is_formed_func(f))
}

/// Whether a module is as far well formed as a run needs it.
pub fn is_well_formed(m: &Module) -> bool
    ensures { IsTrue result ↔ WellFormed m.now }
{
    are_formed_funcs(m.funcs.as_slice())
}
