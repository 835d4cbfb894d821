/// The width of an integer type, in bits. MLIR's `index` has `W64`.
#[derive(Clone, Copy, Debug, PartialEq, Eq)]
pub enum Width {
    W1,
    W8,
    W16,
    W32,
    W64,
}

/// A binary operation of MLIR's `arith` dialect, named as there.
#[derive(Clone, Copy, Debug, PartialEq, Eq)]
pub enum BinOp {
    Addi,
    Subi,
    Muli,
    Divsi,
    Divui,
    Remsi,
    Remui,
    Floordivsi,
    Ceildivsi,
    Ceildivui,
    Andi,
    Ori,
    Xori,
    Shli,
    Shrsi,
    Shrui,
    Minsi,
    Minui,
    Maxsi,
    Maxui,
}

/// A predicate of `arith.cmpi`: equality of patterns, or an order of signed (`S`) or unsigned (`U`)
/// values.
#[derive(Clone, Copy, Debug, PartialEq, Eq)]
pub enum Pred {
    Eq,
    Ne,
    Slt,
    Sle,
    Sgt,
    Sge,
    Ult,
    Ule,
    Ugt,
    Uge,
}

/// A cast of MLIR's `arith` dialect from one width to another.
#[derive(Clone, Copy, Debug, PartialEq, Eq)]
pub enum CastOp {
    Extsi,
    Extui,
    Trunci,
    IndexCast,
    IndexCastui,
}

/// One of the nine integer kinds by which MLIR's `vector` dialect combines elements.
#[derive(Clone, Copy, Debug, PartialEq, Eq)]
pub enum Kind9 {
    Add,
    Mul,
    And,
    Or,
    Xor,
    Minsi,
    Minui,
    Maxsi,
    Maxui,
}

/// The trap of a division: its divisor is zero, or its signed quotient doesn't fit the width.
#[derive(Clone, Copy, Debug, PartialEq, Eq)]
pub struct DivideTrap;
