//! The operations that are known, and the properties of each.

ghost use Rattle.std.specs.Prelude.{◌≡◌, map};
ghost use Rattle.av_verify.specs.Rows.{mark_name, property_names, row_of};

use av_bits::BinOp;

/// An operation by its name.
#[derive(Clone, Copy)]
pub(crate) enum Row {
    Module,
    Function,
    Return,
    Constant,
    Binary(BinOp),
    Loop,
    Yield,
    Load,
    Store,
}

/// The operation of this name, if there is one.
pub(crate) fn row_of(name: &[u8]) -> Option<Row>
    ensures { result ≡ row_of name.now }
{
    if name == b"builtin.module".as_slice() {
        Some(Row::Module)
    } else if name == b"func.func".as_slice() {
        Some(Row::Function)
    } else if name == b"func.return".as_slice() {
        Some(Row::Return)
    } else if name == b"arith.constant".as_slice() {
        Some(Row::Constant)
    } else if name == b"arith.addi".as_slice() {
        Some(Row::Binary(BinOp::Addi))
    } else if name == b"affine.for".as_slice() {
        Some(Row::Loop)
    } else if name == b"affine.yield".as_slice() {
        Some(Row::Yield)
    } else if name == b"affine.load".as_slice() {
        Some(Row::Load)
    } else if name == b"affine.store".as_slice() {
        Some(Row::Store)
    } else {
        None
    }
}

/// The properties that an operation has, all of which it needs.
pub(crate) fn properties_of(row: Row) -> &'static [&'static [u8]]
    ensures { map (λ name. name.now) result.now ≡ property_names row }
{
    match row {
        Row::Function => &[b"sym_name", b"function_type"],
        Row::Constant => &[b"value"],
        Row::Loop => &[
            b"lowerBoundMap",
            b"upperBoundMap",
            b"step",
            b"operandSegmentSizes",
        ],
        Row::Load | Row::Store => &[b"map"],
        Row::Module | Row::Return | Row::Binary(_) | Row::Yield => &[],
    }
}

/// The mark that may stand on an operation, with a number; empty where there is none.
pub(crate) fn mark_of(row: Row) -> &'static [u8]
    ensures { result.now ≡ mark_name row }
{
    match row {
        Row::Loop => b"affvec.loop",
        Row::Load | Row::Store => b"affvec.of",
        _ => b"",
    }
}
