ghost use Rattle.std.specs.Prelude.{◌≡◌, IfOk};

use super::Ty;
use av_affine::{AffMap, AffSet, Duplicate, No, Seq, Text, duplicate_all};
use av_bits::{BinOp, CastOp, Kind9, Pred};
use std::alloc::{AllocError, Global};

/// A value of a function, by its place in the function's `values`.
#[derive(Clone, Copy, Debug, Drop, PartialEq, Eq)]
pub struct ValueId(pub No);

/// What the marks of an operation say: its loop's number, its source operation's number, and of a
/// function whether its buffers are told apart.
#[derive(Clone, Copy, Debug, Drop, PartialEq, Eq)]
pub struct Marks {
    /// `affvec.loop`, on a loop.
    pub loop_no: Option<No>,
    /// `affvec.of`, on an operation that touches elements of a buffer.
    pub source: Option<No>,
    /// `affvec.distinct`, on a function.
    pub distinct: bool,
}

/// A constant: one pattern for a scalar and where all elements are equal, else a pattern for each
/// element in row-major order.
#[derive(Debug, Drop, PartialEq)]
pub enum Const {
    Splat(u64),
    Each(Seq<u64>),
}

/// What an operation does, named after MLIR's operations.
#[derive(Debug, Drop, PartialEq)]
pub enum OpKind {
    FuncReturn,
    ArithConstant(Const),
    ArithBinary(BinOp),
    ArithCmpi(Pred),
    ArithSelect,
    ArithCast(CastOp),
    /// A loop over lower, lower + step, .. below upper; the greatest result of the lower map and the
    /// least of the upper one are its bounds.
    AffineFor {
        lower: AffMap,
        upper: AffMap,
        step: u64,
    },
    /// The choice between two regions: the first where all rows of the set hold.
    AffineIf(AffSet),
    AffineYield,
    AffineApply(AffMap),
    /// The least result of the map.
    AffineMin(AffMap),
    /// The greatest result of the map.
    AffineMax(AffMap),
    /// The load of the element at the map's results.
    AffineLoad(AffMap),
    /// The store of its first operand into the element at the map's results.
    AffineStore(AffMap),
    MemrefLoad,
    MemrefStore,
    MemrefDim,
    ScfFor,
    ScfYield,
    VectorLoad,
    VectorStore,
    VectorMaskedLoad,
    VectorMaskedStore,
    VectorGather,
    VectorScatter,
    VectorBroadcast,
    VectorCreateMask,
    VectorReduction(Kind9),
    /// The element or part at a position.
    VectorExtract(Seq<u16>),
    /// The first operand put at a position of the second.
    VectorInsert(Seq<u16>),
    /// The elements at these places of both operands, one after the other.
    VectorShuffle(Seq<u16>),
    VectorStep,
    VectorVscale,
}

/// An operation.
#[cycle(ir)]
#[derive(Debug, Drop, PartialEq)]
pub struct Op {
    /// Its number in the module's text, from 0, which is the module's own.
    pub number: No,
    pub kind: OpKind,
    pub operands: Seq<ValueId>,
    pub results: Seq<ValueId>,
    pub regions: Seq<Region>,
    pub marks: Marks,
}

/// A region: one block, with its arguments.
#[cycle(ir)]
#[derive(Debug, Drop, PartialEq)]
pub struct Region {
    pub args: Seq<ValueId>,
    pub ops: Seq<Op>,
}

/// A function.
#[derive(Drop, PartialEq)]
pub struct Func {
    /// Its name, without the `@`.
    pub name: Text,
    /// The number of its operation.
    pub number: No,
    /// The types of all its values, arguments first.
    pub values: Seq<Ty>,
    /// The types of its results.
    pub results: Seq<Ty>,
    pub body: Region,
    pub marks: Marks,
}

/// A module.
#[derive(Drop, PartialEq)]
pub struct Module {
    pub funcs: Seq<Func>,
    /// For each number of an operation, the place in `funcs` of the function that it is or stands in;
    /// 0 for the module.
    pub owners: Seq<No>,
}

impl Duplicate for Const {
    fn duplicate(&self, alloc: Global) -> Result<Const, AllocError> {
        match self {
            Const::Splat(pattern) => Ok(Const::Splat(*pattern)),
            Const::Each(patterns) => Ok(Const::Each(patterns.duplicate(alloc)?)),
        }
    }
}

impl Duplicate for OpKind {
    fn duplicate(&self, alloc: Global) -> Result<OpKind, AllocError> {
        match self {
            OpKind::FuncReturn => Ok(OpKind::FuncReturn),
            OpKind::ArithConstant(value) => Ok(OpKind::ArithConstant(value.duplicate(alloc)?)),
            OpKind::ArithBinary(op) => Ok(OpKind::ArithBinary(*op)),
            OpKind::ArithCmpi(pred) => Ok(OpKind::ArithCmpi(*pred)),
            OpKind::ArithSelect => Ok(OpKind::ArithSelect),
            OpKind::ArithCast(op) => Ok(OpKind::ArithCast(*op)),
            OpKind::AffineFor { lower, upper, step } => Ok(OpKind::AffineFor {
                lower: lower.duplicate(alloc)?,
                upper: upper.duplicate(alloc)?,
                step: *step,
            }),
            OpKind::AffineIf(set) => Ok(OpKind::AffineIf(set.duplicate(alloc)?)),
            OpKind::AffineYield => Ok(OpKind::AffineYield),
            OpKind::AffineApply(map) => Ok(OpKind::AffineApply(map.duplicate(alloc)?)),
            OpKind::AffineMin(map) => Ok(OpKind::AffineMin(map.duplicate(alloc)?)),
            OpKind::AffineMax(map) => Ok(OpKind::AffineMax(map.duplicate(alloc)?)),
            OpKind::AffineLoad(map) => Ok(OpKind::AffineLoad(map.duplicate(alloc)?)),
            OpKind::AffineStore(map) => Ok(OpKind::AffineStore(map.duplicate(alloc)?)),
            OpKind::MemrefLoad => Ok(OpKind::MemrefLoad),
            OpKind::MemrefStore => Ok(OpKind::MemrefStore),
            OpKind::MemrefDim => Ok(OpKind::MemrefDim),
            OpKind::ScfFor => Ok(OpKind::ScfFor),
            OpKind::ScfYield => Ok(OpKind::ScfYield),
            OpKind::VectorLoad => Ok(OpKind::VectorLoad),
            OpKind::VectorStore => Ok(OpKind::VectorStore),
            OpKind::VectorMaskedLoad => Ok(OpKind::VectorMaskedLoad),
            OpKind::VectorMaskedStore => Ok(OpKind::VectorMaskedStore),
            OpKind::VectorGather => Ok(OpKind::VectorGather),
            OpKind::VectorScatter => Ok(OpKind::VectorScatter),
            OpKind::VectorBroadcast => Ok(OpKind::VectorBroadcast),
            OpKind::VectorCreateMask => Ok(OpKind::VectorCreateMask),
            OpKind::VectorReduction(kind) => Ok(OpKind::VectorReduction(*kind)),
            OpKind::VectorExtract(at) => Ok(OpKind::VectorExtract(at.duplicate(alloc)?)),
            OpKind::VectorInsert(at) => Ok(OpKind::VectorInsert(at.duplicate(alloc)?)),
            OpKind::VectorShuffle(pick) => Ok(OpKind::VectorShuffle(pick.duplicate(alloc)?)),
            OpKind::VectorStep => Ok(OpKind::VectorStep),
            OpKind::VectorVscale => Ok(OpKind::VectorVscale),
        }
    }
}

#[cycle(copying)]
fn copy_op(alloc: Global, op: &Op) -> Result<Op, AllocError>
    ensures { IfOk result (λ c. c ≡ op.now) }
{
    Ok(Op {
        number: op.number,
        kind: op.kind.duplicate(alloc)?,
        operands: op.operands.duplicate(alloc)?,
        results: op.results.duplicate(alloc)?,
        regions: copy_regions(alloc, op.regions.as_slice())?,
        marks: op.marks,
    })
}

#[cycle(copying)]
fn copy_regions(alloc: Global, regions: &[Region]) -> Result<Seq<Region>, AllocError>
    ensures { IfOk result (λ c. c ≡ regions.now) }
{
    let mut copies = Seq::new(alloc);
    for region in regions {
        copies.push(copy_region(alloc, region)?)?;
    }
    Ok(copies)
}

#[cycle(copying)]
fn copy_region(alloc: Global, region: &Region) -> Result<Region, AllocError>
    ensures { IfOk result (λ c. c ≡ region.now) }
{
    Ok(Region {
        args: region.args.duplicate(alloc)?,
        ops: copy_ops(alloc, region.ops.as_slice())?,
    })
}

#[cycle(copying)]
fn copy_ops(alloc: Global, ops: &[Op]) -> Result<Seq<Op>, AllocError>
    ensures { IfOk result (λ c. c ≡ ops.now) }
{
    let mut copies = Seq::new(alloc);
    for op in ops {
        copies.push(copy_op(alloc, op)?)?;
    }
    Ok(copies)
}

impl Duplicate for Op {
    fn duplicate(&self, alloc: Global) -> Result<Op, AllocError> {
        copy_op(alloc, self)
    }
}

impl Duplicate for Region {
    fn duplicate(&self, alloc: Global) -> Result<Region, AllocError> {
        copy_region(alloc, self)
    }
}

impl Duplicate for Func {
    fn duplicate(&self, alloc: Global) -> Result<Func, AllocError> {
        Ok(Func {
            name: self.name.duplicate(alloc)?,
            number: self.number,
            values: duplicate_all(alloc, self.values.as_slice())?,
            results: duplicate_all(alloc, self.results.as_slice())?,
            body: self.body.duplicate(alloc)?,
            marks: self.marks,
        })
    }
}

impl Duplicate for Module {
    fn duplicate(&self, alloc: Global) -> Result<Module, AllocError> {
        Ok(Module {
            funcs: duplicate_all(alloc, self.funcs.as_slice())?,
            owners: self.owners.duplicate(alloc)?,
        })
    }
}
