//! The names of operations.

ghost use Rattle.std.specs.Prelude.{◌≡◌};
ghost use Rattle.av_totree.specs.Kinds.{binary_name as name_of_binary, cast_name as name_of_cast, combining_name as name_of_combining, kind_name};

use av_bits::{BinOp, CastOp, Kind9};
use av_ir::OpKind;

/// The name of an operation.
pub(crate) fn operation_name(kind: &OpKind) -> &'static [u8]
    ensures { result.now ≡ kind_name kind.now }
{
    match kind {
        OpKind::FuncReturn => b"func.return",
        OpKind::ArithConstant(_) => b"arith.constant",
        OpKind::ArithBinary(op) => binary_name(*op),
        OpKind::ArithCmpi(_) => b"arith.cmpi",
        OpKind::ArithSelect => b"arith.select",
        OpKind::ArithCast(op) => cast_name(*op),
        OpKind::AffineFor { .. } => b"affine.for",
        OpKind::AffineIf(_) => b"affine.if",
        OpKind::AffineYield => b"affine.yield",
        OpKind::AffineApply(_) => b"affine.apply",
        OpKind::AffineMin(_) => b"affine.min",
        OpKind::AffineMax(_) => b"affine.max",
        OpKind::AffineLoad(_) => b"affine.load",
        OpKind::AffineStore(_) => b"affine.store",
        OpKind::MemrefLoad => b"memref.load",
        OpKind::MemrefStore => b"memref.store",
        OpKind::MemrefDim => b"memref.dim",
        OpKind::ScfFor => b"scf.for",
        OpKind::ScfYield => b"scf.yield",
        OpKind::VectorLoad => b"vector.load",
        OpKind::VectorStore => b"vector.store",
        OpKind::VectorMaskedLoad => b"vector.maskedload",
        OpKind::VectorMaskedStore => b"vector.maskedstore",
        OpKind::VectorGather => b"vector.gather",
        OpKind::VectorScatter => b"vector.scatter",
        OpKind::VectorBroadcast => b"vector.broadcast",
        OpKind::VectorCreateMask => b"vector.create_mask",
        OpKind::VectorReduction(_) => b"vector.reduction",
        OpKind::VectorExtract(_) => b"vector.extract",
        OpKind::VectorInsert(_) => b"vector.insert",
        OpKind::VectorShuffle(_) => b"vector.shuffle",
        OpKind::VectorStep => b"vector.step",
        OpKind::VectorVscale => b"vector.vscale",
    }
}

fn binary_name(op: BinOp) -> &'static [u8]
    ensures { result.now ≡ name_of_binary op }
{
    match op {
        BinOp::Addi => b"arith.addi",
        BinOp::Subi => b"arith.subi",
        BinOp::Muli => b"arith.muli",
        BinOp::Divsi => b"arith.divsi",
        BinOp::Divui => b"arith.divui",
        BinOp::Remsi => b"arith.remsi",
        BinOp::Remui => b"arith.remui",
        BinOp::Floordivsi => b"arith.floordivsi",
        BinOp::Ceildivsi => b"arith.ceildivsi",
        BinOp::Ceildivui => b"arith.ceildivui",
        BinOp::Andi => b"arith.andi",
        BinOp::Ori => b"arith.ori",
        BinOp::Xori => b"arith.xori",
        BinOp::Shli => b"arith.shli",
        BinOp::Shrsi => b"arith.shrsi",
        BinOp::Shrui => b"arith.shrui",
        BinOp::Minsi => b"arith.minsi",
        BinOp::Minui => b"arith.minui",
        BinOp::Maxsi => b"arith.maxsi",
        BinOp::Maxui => b"arith.maxui",
    }
}

fn cast_name(op: CastOp) -> &'static [u8]
    ensures { result.now ≡ name_of_cast op }
{
    match op {
        CastOp::Extsi => b"arith.extsi",
        CastOp::Extui => b"arith.extui",
        CastOp::Trunci => b"arith.trunci",
        CastOp::IndexCast => b"arith.index_cast",
        CastOp::IndexCastui => b"arith.index_castui",
    }
}

/// The word of a kind by which elements are combined.
pub(crate) fn combining_name(kind: Kind9) -> &'static [u8]
    ensures { result.now ≡ name_of_combining kind }
{
    match kind {
        Kind9::Add => b"add",
        Kind9::Mul => b"mul",
        Kind9::And => b"and",
        Kind9::Or => b"or",
        Kind9::Xor => b"xor",
        Kind9::Minsi => b"minsi",
        Kind9::Minui => b"minui",
        Kind9::Maxsi => b"maxsi",
        Kind9::Maxui => b"maxui",
    }
}
