/// The first of the modes that take an operation: those after it take it too.
#[derive(Clone, Copy)]
pub enum Mode {
    /// All modes.
    Scalar,
    /// The mode of what is run, and that of vectors of several dimensions.
    Run,
    /// That of vectors of several dimensions alone.
    Vector,
}

/// Whether a named form writes a type.
#[derive(Clone, Copy)]
pub enum Typing {
    Written,
    /// It follows from other types, or is `index`.
    Follows,
}

/// The results of an operation.
#[derive(Clone, Copy)]
pub enum Results {
    Zero,
    One(Typing),
    /// Any number, whose types an item of the form writes.
    Several,
}

/// What stands before a part: nothing, a blank, or a sign or word.
#[derive(Clone, Copy)]
pub enum Lead {
    Nothing,
    Blank,
    /// `,`
    Comma,
    /// `:`
    Colon,
    /// `=`
    Equal,
    /// `to`
    To,
    /// `step`
    Step,
    /// `into`
    Into,
    /// `from`
    From,
}

/// A type of an operand or of the result.
#[derive(Clone, Copy)]
pub enum Slot {
    /// Of the operand at a place, counted from the first.
    Input(u8),
    /// Of the operand at a place, counted from the last.
    LastInput(u8),
    /// Of the result.
    Output,
}

/// Types that are equal, so that one stands for them.
#[derive(Clone, Copy)]
pub enum Slots {
    One(Slot),
    Two(Slot, Slot),
    Three(Slot, Slot, Slot),
}

/// Which types may stand at a place of a form.
#[derive(Clone, Copy)]
pub enum Wanted {
    /// Any but a function type.
    Any,
    Buffer,
    Vector,
}

/// A property that a form says in its own way.
#[derive(Clone, Copy)]
pub enum Key {
    /// `predicate`: the number of a word of `PREDICATES`.
    Predicate,
    /// `kind`: a word of `KINDS`.
    Kind,
    /// `static_position`
    StaticPosition,
    /// `mask`
    Mask,
}

/// What a part of a form is. An optional item has the sign before it within itself.
#[derive(Clone, Copy)]
pub enum Item {
    /// A form that no parts describe.
    ByHand,
    /// One operand.
    Operand(Typing),
    /// `, %a`: one operand more, or none. Its type follows.
    OptionalOperand,
    /// One operand or more with commas between them. Their types follow.
    Operands,
    /// `%a, %b : T, U`: any operands with their types, or nothing.
    TypedOperands,
    /// `%a[%i, ..]`: a buffer, whose type is written, and its indices, whose types follow.
    Element,
    /// One type, for all these slots.
    Type(Wanted, Slots),
    /// `T` or `C, T`: the types of a choice, where C stands for a vector of conditions.
    ChoiceTypes,
    /// One of the words that a property may have.
    Word(Key),
    /// `<word>`: the same in angle brackets.
    Angled(Key),
    /// `[1, 0]`: the numbers of a property.
    Numbers(Key),
    /// `overflow<nsw, nuw>`, or nothing.
    Overflow,
    /// `{affvec.of = 3 : i64}`: a dictionary, or nothing.
    Marks,
    /// A constant and its type; `true` and `false` stand alone.
    Constant,
    /// A map, or the name of one, with its operands.
    Map,
    /// A set, or the name of one, with its operands.
    Set,
    /// `%a[%i + 1, ..]`: a buffer, and expressions of operands, which are a map.
    Access,
    /// The counter of a loop, which is the first argument of its region.
    Counter,
    /// The lower bound of a loop: a number, a value, or a map with its operands.
    LowerBound,
    /// The upper bound of a loop.
    UpperBound,
    /// `step 2`, or nothing.
    Step,
    /// `iter_args(%a = %x, ..) -> (T, ..)`, or nothing.
    Carried,
    /// `-> R`, or nothing: the types of all results.
    ResultTypes,
    /// `{ .. }`: the next region.
    Region,
    /// `else { .. }`, or nothing: the next region.
    Else,
}

/// A part of a form, and what stands before it.
pub type Part = (Lead, Item);
