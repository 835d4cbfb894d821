use super::Amount::AtLeastOne;
use super::Class::{
    Buffer, FixedFlat, Flat, FlatIndices, FlatTruths, Plain as PlainType, SizedBuffer, Truths,
    Vector,
};
use super::Count::{AtLeast, Between, Exactly, PerSize};
use super::Demand::{
    IfThere, Indices, Is, Picks, PlainResults, ShortPosition, Two, ValueAgrees, ValueFits, Within,
};
use super::Form::{
    Constant, FunctionType, Kind, Map, Numbers, Predicate, Segments, Set, Step, Symbol,
};
use super::Pair::{
    Broadcasts, Chooses, ElementOf, Narrower, OneIndex, PartOf, Same, SameElements, SameSizes,
    Wider,
};
use super::Place::{FromEnd, Operand, Result};
use super::Role::{Ends, Holds, Module, Plain};
use super::Segment::{Lower, Upper};
use super::Source::{
    AllWritten, Carried, Element, Index, Like, Nothing, Part, Picked, TruthLike, Written,
};
use super::{Amount, Arguments, Class, Count, Demand, Ending, Mark, Property, Role, Source, Uses};

/// An operation: its name, how many operands it has, where its results' types come from, its
/// properties, what is asked besides, what it is in the nesting of regions, and its mark.
pub type Row = (
    &'static str,
    Count,
    Source,
    &'static [Property],
    &'static [Demand],
    Role,
    Mark,
);

macro_rules! demands {
    ([$($demand:expr),*]) => { &[$($demand),*] };
    ($demands:ident) => { $demands };
}

// NAME : COUNT -> SOURCE, {PROPERTY FORM; ..}, [DEMAND, ..], ROLE MARK
macro_rules! signatures {
    ($($name:literal : $operands:expr => $source:expr, {$($property:literal $form:expr),*}, $demands:tt, $role:expr, $mark:ident;)*) => {
        &[$((
            $name,
            $operands,
            $source,
            &[$(($property, $form)),*],
            demands!($demands),
            $role,
            Mark::$mark,
        ),)*]
    };
}

// two operands of one type, and the result of the same
const ALIKE: &[Demand] = &[Is(Operand(0), PlainType), Two(Same, Operand(0), Operand(1))];

// an integer gets more bits
const EXTENDS: &[Demand] = &[
    Is(Operand(0), PlainType),
    Two(SameSizes, Operand(0), Result),
    Two(Narrower, Operand(0), Result),
];

const TRUNCATES: &[Demand] = &[
    Is(Operand(0), PlainType),
    Two(SameSizes, Operand(0), Result),
    Two(Wider, Operand(0), Result),
];

const CASTS_INDEX: &[Demand] = &[
    Is(Operand(0), PlainType),
    Two(SameSizes, Operand(0), Result),
    Two(OneIndex, Operand(0), Result),
];

/// What is asked of each operation, in the order in which they are numbered.
pub const SIGNATURES: &[Row] = signatures! {
    "builtin.module" : Exactly(0) => Nothing, {}, [], Module, None;
    "func.func" : Exactly(0) => Nothing, {"function_type" FunctionType, "sym_name" Symbol}, [], Holds(1, Arguments::Inputs, Ending::Return), Distinct;
    "func.return" : AtLeast(0) => Nothing, {}, [], Ends(Ending::Return), None;
    "arith.constant" : Exactly(0) => Written, {"value" Constant}, [Is(Result, PlainType), ValueAgrees, ValueFits], Plain, None;
    "arith.addi" : Exactly(2) => Like(Operand(0)), {}, ALIKE, Plain, None;
    "arith.subi" : Exactly(2) => Like(Operand(0)), {}, ALIKE, Plain, None;
    "arith.muli" : Exactly(2) => Like(Operand(0)), {}, ALIKE, Plain, None;
    "arith.divsi" : Exactly(2) => Like(Operand(0)), {}, ALIKE, Plain, None;
    "arith.divui" : Exactly(2) => Like(Operand(0)), {}, ALIKE, Plain, None;
    "arith.remsi" : Exactly(2) => Like(Operand(0)), {}, ALIKE, Plain, None;
    "arith.remui" : Exactly(2) => Like(Operand(0)), {}, ALIKE, Plain, None;
    "arith.floordivsi" : Exactly(2) => Like(Operand(0)), {}, ALIKE, Plain, None;
    "arith.ceildivsi" : Exactly(2) => Like(Operand(0)), {}, ALIKE, Plain, None;
    "arith.ceildivui" : Exactly(2) => Like(Operand(0)), {}, ALIKE, Plain, None;
    "arith.andi" : Exactly(2) => Like(Operand(0)), {}, ALIKE, Plain, None;
    "arith.ori" : Exactly(2) => Like(Operand(0)), {}, ALIKE, Plain, None;
    "arith.xori" : Exactly(2) => Like(Operand(0)), {}, ALIKE, Plain, None;
    "arith.shli" : Exactly(2) => Like(Operand(0)), {}, ALIKE, Plain, None;
    "arith.shrsi" : Exactly(2) => Like(Operand(0)), {}, ALIKE, Plain, None;
    "arith.shrui" : Exactly(2) => Like(Operand(0)), {}, ALIKE, Plain, None;
    "arith.minsi" : Exactly(2) => Like(Operand(0)), {}, ALIKE, Plain, None;
    "arith.minui" : Exactly(2) => Like(Operand(0)), {}, ALIKE, Plain, None;
    "arith.maxsi" : Exactly(2) => Like(Operand(0)), {}, ALIKE, Plain, None;
    "arith.maxui" : Exactly(2) => Like(Operand(0)), {}, ALIKE, Plain, None;
    "arith.cmpi" : Exactly(2) => TruthLike(Operand(0)), {"predicate" Predicate}, ALIKE, Plain, None;
    "arith.select" : Exactly(3) => Like(Operand(1)), {}, [Is(Operand(1), PlainType), Two(Same, Operand(1), Operand(2)), Two(Chooses, Operand(0), Operand(1))], Plain, None;
    "arith.extsi" : Exactly(1) => Written, {}, EXTENDS, Plain, None;
    "arith.extui" : Exactly(1) => Written, {}, EXTENDS, Plain, None;
    "arith.trunci" : Exactly(1) => Written, {}, TRUNCATES, Plain, None;
    "arith.index_cast" : Exactly(1) => Written, {}, CASTS_INDEX, Plain, None;
    "arith.index_castui" : Exactly(1) => Written, {}, CASTS_INDEX, Plain, None;
    "affine.for" : AtLeast(0) => Carried, {"lowerBoundMap" Map(Uses::Segment(Lower), AtLeastOne), "operandSegmentSizes" Segments, "step" Step, "upperBoundMap" Map(Uses::Segment(Upper), AtLeastOne)}, [PlainResults], Holds(1, Arguments::Turn, Ending::AffineYield), Loop;
    "affine.if" : AtLeast(0) => AllWritten, {"condition" Set(Uses::From(0))}, [PlainResults], Holds(2, Arguments::None, Ending::AffineYield), None;
    "affine.yield" : AtLeast(0) => Nothing, {}, [], Ends(Ending::AffineYield), None;
    "affine.apply" : AtLeast(0) => Index, {"map" Map(Uses::From(0), Amount::One)}, [], Plain, None;
    "affine.min" : AtLeast(0) => Index, {"map" Map(Uses::From(0), AtLeastOne)}, [], Plain, None;
    "affine.max" : AtLeast(0) => Index, {"map" Map(Uses::From(0), AtLeastOne)}, [], Plain, None;
    "affine.load" : AtLeast(1) => Element(Operand(0)), {"map" Map(Uses::From(1), Amount::PerSize(Operand(0)))}, [Is(Operand(0), Buffer)], Plain, Source;
    "affine.store" : AtLeast(2) => Nothing, {"map" Map(Uses::From(2), Amount::PerSize(Operand(1)))}, [Is(Operand(1), Buffer), Two(ElementOf, Operand(0), Operand(1))], Plain, Source;
    "memref.load" : PerSize(Operand(0), 1) => Element(Operand(0)), {}, [Is(Operand(0), Buffer), Indices(1, 0)], Plain, Source;
    "memref.store" : PerSize(Operand(1), 2) => Nothing, {}, [Is(Operand(1), Buffer), Two(ElementOf, Operand(0), Operand(1)), Indices(2, 0)], Plain, Source;
    "memref.dim" : Exactly(2) => Index, {}, [Is(Operand(0), Buffer), Is(Operand(1), Class::Index)], Plain, None;
    "scf.for" : AtLeast(3) => Carried, {}, [Is(Operand(0), Class::Index), Is(Operand(1), Class::Index), Is(Operand(2), Class::Index), PlainResults], Holds(1, Arguments::Turn, Ending::ScfYield), Loop;
    "scf.yield" : AtLeast(0) => Nothing, {}, [], Ends(Ending::ScfYield), None;
    "vector.load" : PerSize(Operand(0), 1) => Written, {}, [Is(Operand(0), SizedBuffer), Is(Result, Flat), Two(SameElements, Operand(0), Result), Indices(1, 0)], Plain, Source;
    "vector.store" : PerSize(Operand(1), 2) => Nothing, {}, [Is(Operand(1), SizedBuffer), Is(Operand(0), Flat), Two(SameElements, Operand(0), Operand(1)), Indices(2, 0)], Plain, Source;
    "vector.maskedload" : PerSize(Operand(0), 3) => Like(FromEnd(0)), {}, [Is(Operand(0), SizedBuffer), Is(FromEnd(0), Flat), Is(FromEnd(1), FlatTruths), Two(SameSizes, FromEnd(1), FromEnd(0)), Two(SameElements, Operand(0), FromEnd(0)), Indices(1, 2)], Plain, Source;
    "vector.maskedstore" : PerSize(Operand(0), 3) => Nothing, {}, [Is(Operand(0), SizedBuffer), Is(FromEnd(0), Flat), Is(FromEnd(1), FlatTruths), Two(SameSizes, FromEnd(1), FromEnd(0)), Two(SameElements, Operand(0), FromEnd(0)), Indices(1, 2)], Plain, Source;
    "vector.broadcast" : Exactly(1) => Written, {}, [Is(Result, Vector), Two(Broadcasts, Operand(0), Result)], Plain, None;
    "vector.create_mask" : PerSize(Result, 0) => Written, {}, [Is(Result, Truths), Indices(0, 0)], Plain, None;
    "vector.reduction" : Between(1, 2) => Element(Operand(0)), {"kind" Kind}, [Is(Operand(0), Flat), IfThere(ElementOf, Operand(1), Operand(0))], Plain, None;
    "vector.extract" : Exactly(1) => Part(Operand(0)), {"static_position" Numbers}, [Is(Operand(0), Vector), ShortPosition(Operand(0)), Within(Operand(0))], Plain, None;
    "vector.insert" : Exactly(2) => Like(Operand(1)), {"static_position" Numbers}, [Is(Operand(1), Vector), Two(PartOf, Operand(0), Operand(1)), ShortPosition(Operand(1)), Within(Operand(1))], Plain, None;
    "vector.shuffle" : Exactly(2) => Picked(Operand(0)), {"mask" Numbers}, [Is(Operand(0), FixedFlat), Is(Operand(1), FixedFlat), Two(SameElements, Operand(0), Operand(1)), Picks(Operand(0), Operand(1))], Plain, None;
    "vector.step" : Exactly(0) => Written, {}, [Is(Result, FlatIndices)], Plain, None;
    "vector.vscale" : Exactly(0) => Index, {}, [], Plain, None;
};

/// The names that are read and dropped wherever they stand.
pub const DROPPED: &[&str] = &[
    "arg_attrs",
    "fastmath",
    "nontemporal",
    "overflowFlags",
    "res_attrs",
];

/// What is read and dropped on functions alone.
pub const DROPPED_OF_FUNCTIONS: &[&str] = &["sym_visibility"];
