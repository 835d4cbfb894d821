/// An operand or the result of an operation.
#[derive(Clone, Copy)]
pub enum Place {
    /// The operand at a place, counted from the first.
    Operand(u8),
    /// The operand at a place, counted from the last.
    FromEnd(u8),
    Result,
}

/// How many operands an operation has.
#[derive(Clone, Copy)]
pub enum Count {
    Exactly(u8),
    Between(u8, u8),
    AtLeast(u8),
    /// One for each size of the type that is written at a place, and so many besides.
    PerSize(Place, u8),
}

/// Where the types of the results come from.
#[derive(Clone, Copy)]
pub enum Source {
    /// There is no result.
    Nothing,
    /// The type is written.
    Written,
    /// Types are written, of any number of results.
    AllWritten,
    /// `index`
    Index,
    /// The type at the place.
    Like(Place),
    /// The element of the type at the place.
    Element(Place),
    /// `i1`, in as many lanes as the type at the place has.
    TruthLike(Place),
    /// What is left of the vector at the place at the position that `static_position` says.
    Part(Place),
    /// The elements of the vector at the place, as many as `mask` picks.
    Picked(Place),
    /// The types of the values that a loop carries.
    Carried,
}

/// Which part of a loop's operands.
#[derive(Clone, Copy)]
pub enum Segment {
    Lower,
    Upper,
}

/// The operands of a map or set.
#[derive(Clone, Copy)]
pub enum Uses {
    /// Those from a place on.
    From(u8),
    /// Those of a part that the map itself and the maps before it measure.
    Segment(Segment),
}

/// How many results a map has.
#[derive(Clone, Copy)]
pub enum Amount {
    One,
    AtLeastOne,
    /// One for each size of the type at a place.
    PerSize(Place),
}

/// What the value of a property has to be.
#[derive(Clone, Copy)]
pub enum Form {
    /// A text that is spelled as a symbol behind its `@`.
    Symbol,
    FunctionType,
    /// A number, a truth value, or a list of elements.
    Constant,
    /// A number of type `i64` that is the place of a predicate.
    Predicate,
    /// A kind of combining.
    Kind,
    /// A number of type `index`.
    Step,
    /// `array<i64: ..>`
    Numbers,
    /// `array<i32: ..>`: how many operands each part of a loop's has.
    Segments,
    Map(Uses, Amount),
    Set(Uses),
}

/// A property that an operation has, and needs: its name and its form.
pub type Property = (&'static str, Form);

/// What a type at one place can be.
#[derive(Clone, Copy)]
pub enum Class {
    /// A scalar or a vector.
    Plain,
    /// `index`
    Index,
    /// A memref.
    Buffer,
    /// A memref of at least one size.
    SizedBuffer,
    /// A vector of any number of sizes.
    Vector,
    /// A vector of one size.
    Flat,
    /// A vector of one size that doesn't count times the scale.
    FixedFlat,
    /// A vector of one size, of `index`.
    FlatIndices,
    /// A vector of one size, of `i1`.
    FlatTruths,
    /// A vector of `i1`.
    Truths,
}

/// What two types can be to each other.
#[derive(Clone, Copy)]
pub enum Pair {
    Same,
    /// Both are scalars, or vectors of the same sizes.
    SameSizes,
    /// Their elements are the same; a scalar is its own element.
    SameElements,
    /// The first is the element of the second.
    ElementOf,
    /// Integers, the first with fewer bits.
    Narrower,
    /// Integers, the first with more bits.
    Wider,
    /// Just one of them has the elements `index`.
    OneIndex,
    /// The first is `i1`, or `i1` in as many lanes as the second.
    Chooses,
    /// The first, repeated, gives the second.
    Broadcasts,
    /// The first is what is left of the second at the position that `static_position` says.
    PartOf,
}

/// What is asked of the types, the properties and the values of an operation.
#[derive(Clone, Copy)]
pub enum Demand {
    /// A type at a place is of a class.
    Is(Place, Class),
    /// Types at two places are to each other like this.
    Two(Pair, Place, Place),
    /// The same, where there is an operand at the first place.
    IfThere(Pair, Place, Place),
    /// The operands from a place on, but for so many last ones, are of type `index`. (Of the operands of
    /// maps it is asked otherwise: they have to be dimensions or symbols.)
    Indices(u8, u8),
    /// All results are scalars or vectors.
    PlainResults,
    /// The constant's type is that which its value is written with.
    ValueAgrees,
    /// A position has at most as many numbers as the vector at the place has sizes.
    ShortPosition(Place),
    /// The constant's numbers fit its type.
    ValueFits,
    /// A position is within the vector at the place.
    Within(Place),
    /// What is picked is among the lanes of the vectors at both places.
    Picks(Place, Place),
}

/// The mark that an operation may have.
#[derive(Clone, Copy)]
pub enum Mark {
    None,
    /// `affvec.loop`: the number of a loop.
    Loop,
    /// `affvec.of`: the number of an access.
    Source,
    /// `affvec.distinct`, without a value.
    Distinct,
}

/// Which terminator ends a region.
#[derive(Clone, Copy)]
pub enum Ending {
    /// `func.return`, which hands on the results of the function.
    Return,
    /// `affine.yield`, which hands on the results of the operation.
    AffineYield,
    /// `scf.yield`, likewise.
    ScfYield,
}

/// The arguments of a region.
#[derive(Clone, Copy)]
pub enum Arguments {
    None,
    /// The inputs of the function type.
    Inputs,
    /// `index`, and the values that a loop carries.
    Turn,
}

/// What an operation is in the nesting of regions.
#[derive(Clone, Copy)]
pub enum Role {
    /// It has no region and ends none.
    Plain,
    /// It ends a region of an operation of this ending.
    Ends(Ending),
    /// The module: one region of functions, without a terminator.
    Module,
    /// So many regions, each with these arguments and this terminator.
    Holds(u8, Arguments, Ending),
}

/// What is asked of an operation.
#[derive(Clone, Copy)]
pub struct Signature {
    pub operands: Count,
    pub source: Source,
    pub properties: &'static [Property],
    pub demands: &'static [Demand],
    pub role: Role,
    pub mark: Mark,
}
