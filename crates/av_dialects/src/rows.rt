use super::Item::{
    Access, Angled, ByHand, Carried, ChoiceTypes, Constant, Counter, Element, Else, LowerBound,
    Map, Marks, Numbers, Operand, Operands, OptionalOperand, Overflow, Region, ResultTypes, Set,
    Step, Type, TypedOperands, UpperBound, Word,
};
use super::Key::{Kind, Mask, Predicate, StaticPosition};
use super::Results::{One as Single, Several, Zero};
use super::Slot::{Input, LastInput, Output};
use super::Slots::{One, Three, Two};
use super::Typing::{Follows, Written};
use super::Wanted::{Any, Buffer, Vector};
use super::{Lead, Mode, Part, Results};

/// An operation: its name, the first of the modes that take it, its results, and the parts of its
/// named form behind the name.
pub type Row = (&'static str, Mode, Results, &'static [Part]);

macro_rules! parts {
    ([$($lead:ident $item:expr),*]) => { &[$((Lead::$lead, $item)),*] };
    ($parts:ident) => { $parts };
}

macro_rules! rows {
    ($($name:literal $mode:ident $results:expr => $parts:tt;)*) => {
        &[$(($name, Mode::$mode, $results, parts!($parts)),)*]
    };
}

// `%a, %b : T`
const BINARY: &[Part] = parts!([
    Blank Operand(Written), Comma Operand(Written), Colon Type(Any, Three(Input(0), Input(1), Output))
]);

// `%a, %b overflow<nsw> : T`
const OVERFLOWING: &[Part] = parts!([
    Blank Operand(Written), Comma Operand(Written), Nothing Overflow,
    Colon Type(Any, Three(Input(0), Input(1), Output))
]);

// `%a : T to U`
const CAST: &[Part] = parts!([
    Blank Operand(Written), Colon Type(Any, One(Input(0))), To Type(Any, One(Output))
]);

/// The operations, in the order in which they are numbered.
pub const ROWS: &[Row] = rows! {
    "builtin.module" Scalar Zero => [Blank ByHand];
    "func.func" Scalar Zero => [Blank ByHand];
    "func.return" Scalar Zero => [Nothing TypedOperands];
    "arith.constant" Scalar Single(Written) => [Blank Constant];
    "arith.addi" Scalar Single(Written) => OVERFLOWING;
    "arith.subi" Scalar Single(Written) => OVERFLOWING;
    "arith.muli" Scalar Single(Written) => OVERFLOWING;
    "arith.divsi" Scalar Single(Written) => BINARY;
    "arith.divui" Scalar Single(Written) => BINARY;
    "arith.remsi" Scalar Single(Written) => BINARY;
    "arith.remui" Scalar Single(Written) => BINARY;
    "arith.floordivsi" Scalar Single(Written) => BINARY;
    "arith.ceildivsi" Scalar Single(Written) => BINARY;
    "arith.ceildivui" Scalar Single(Written) => BINARY;
    "arith.andi" Scalar Single(Written) => BINARY;
    "arith.ori" Scalar Single(Written) => BINARY;
    "arith.xori" Scalar Single(Written) => BINARY;
    "arith.shli" Scalar Single(Written) => OVERFLOWING;
    "arith.shrsi" Scalar Single(Written) => BINARY;
    "arith.shrui" Scalar Single(Written) => BINARY;
    "arith.minsi" Scalar Single(Written) => BINARY;
    "arith.minui" Scalar Single(Written) => BINARY;
    "arith.maxsi" Scalar Single(Written) => BINARY;
    "arith.maxui" Scalar Single(Written) => BINARY;
    "arith.cmpi" Scalar Single(Follows) => [Blank Word(Predicate), Comma Operand(Written), Comma Operand(Written), Colon Type(Any, Two(Input(0), Input(1)))];
    "arith.select" Scalar Single(Written) => [Blank Operand(Follows), Comma Operand(Written), Comma Operand(Written), Colon ChoiceTypes];
    "arith.extsi" Scalar Single(Written) => CAST;
    "arith.extui" Scalar Single(Written) => CAST;
    "arith.trunci" Scalar Single(Written) => CAST;
    "arith.index_cast" Scalar Single(Written) => CAST;
    "arith.index_castui" Scalar Single(Written) => CAST;
    "affine.for" Scalar Several => [Blank Counter, Equal LowerBound, To UpperBound, Nothing Step, Nothing Carried, Blank Region, Nothing Marks];
    "affine.if" Scalar Several => [Blank Set, Nothing ResultTypes, Blank Region, Nothing Else];
    "affine.yield" Scalar Zero => [Nothing TypedOperands];
    "affine.apply" Scalar Single(Follows) => [Blank Map];
    "affine.min" Scalar Single(Follows) => [Blank Map];
    "affine.max" Scalar Single(Follows) => [Blank Map];
    "affine.load" Scalar Single(Follows) => [Blank Access, Nothing Marks, Colon Type(Buffer, One(Input(0)))];
    "affine.store" Scalar Zero => [Blank Operand(Follows), Comma Access, Nothing Marks, Colon Type(Buffer, One(Input(1)))];
    "memref.load" Scalar Single(Follows) => [Blank Element, Nothing Marks, Colon Type(Buffer, One(Input(0)))];
    "memref.store" Scalar Zero => [Blank Operand(Follows), Comma Element, Nothing Marks, Colon Type(Buffer, One(Input(1)))];
    "memref.dim" Scalar Single(Follows) => [Blank Operand(Written), Comma Operand(Follows), Colon Type(Buffer, One(Input(0)))];
    "scf.for" Run Several => [Blank Counter, Equal Operand(Follows), To Operand(Follows), Step Operand(Follows), Nothing Carried, Blank Region, Nothing Marks];
    "scf.yield" Run Zero => [Nothing TypedOperands];
    "vector.load" Run Single(Written) => [Blank Element, Nothing Marks, Colon Type(Buffer, One(Input(0))), Comma Type(Vector, One(Output))];
    "vector.store" Run Zero => [Blank Operand(Written), Comma Element, Nothing Marks, Colon Type(Buffer, One(Input(1))), Comma Type(Vector, One(Input(0)))];
    "vector.maskedload" Run Single(Written) => [Blank Element, Comma Operand(Written), Comma Operand(Written), Nothing Marks, Colon Type(Buffer, One(Input(0))), Comma Type(Vector, One(LastInput(1))), Comma Type(Vector, One(LastInput(0))), Into Type(Vector, One(Output))];
    "vector.maskedstore" Run Zero => [Blank Element, Comma Operand(Written), Comma Operand(Written), Nothing Marks, Colon Type(Buffer, One(Input(0))), Comma Type(Vector, One(LastInput(1))), Comma Type(Vector, One(LastInput(0)))];
    "vector.broadcast" Run Single(Written) => [Blank Operand(Written), Colon Type(Any, One(Input(0))), To Type(Vector, One(Output))];
    "vector.create_mask" Run Single(Written) => [Blank Operands, Colon Type(Vector, One(Output))];
    "vector.reduction" Run Single(Written) => [Blank Angled(Kind), Comma Operand(Written), Nothing OptionalOperand, Colon Type(Vector, One(Input(0))), Into Type(Any, One(Output))];
    "vector.extract" Run Single(Written) => [Blank Operand(Written), Nothing Numbers(StaticPosition), Colon Type(Any, One(Output)), From Type(Vector, One(Input(0)))];
    "vector.insert" Run Single(Written) => [Blank Operand(Written), Comma Operand(Written), Nothing Numbers(StaticPosition), Colon Type(Any, One(Input(0))), Into Type(Vector, Two(Input(1), Output))];
    "vector.shuffle" Run Single(Follows) => [Blank Operand(Written), Comma Operand(Written), Blank Numbers(Mask), Colon Type(Vector, One(Input(0))), Comma Type(Vector, One(Input(1)))];
    "vector.step" Run Single(Written) => [Colon Type(Vector, One(Output))];
    "vector.vscale" Run Single(Follows) => [];
};

/// The words of `predicate`, each at the place of its number.
pub const PREDICATES: &[&str] = &[
    "eq", "ne", "slt", "sle", "sgt", "sge", "ult", "ule", "ugt", "uge",
];

/// The words of `kind`.
pub const KINDS: &[&str] = &[
    "add", "mul", "and", "or", "xor", "minsi", "minui", "maxsi", "maxui",
];

/// The words of `overflow`.
pub const OVERFLOW_FLAGS: &[&str] = &["nsw", "nuw"];
