//! The map of an access: one parameter for each value in its subscripts, dimensions and symbols each
//! numbered from the left. Operands are the values of the dimensions and then those of the symbols.

ghost use Rattle.std.specs.Prelude.{◌≡◌, ◌++◌, [], ◌∷◌, decimal, length, reverse, IfErr, IfOk, OnOk};
ghost use Rattle.av_values.specs.Meanings.{IsFaithful};
ghost use Rattle.av_values.specs.Accesses.{first_names, name_of, next_parameter, numbered, numbered_all, numbering, turned};

use crate::stack::{Fault, in_order, text_of};
use crate::value::{Expression, LeafKind};
use av_affine::{Duplicate, Held, Seq, Text};
use av_tree::{ExprText, MapText};
use std::alloc::Global;

/// The map of an access, and the values of its dimensions and of its symbols, each from the left.
#[derive(Drop)]
pub struct Numbering {
    pub map: MapText,
    pub dims: Seq<Text>,
    pub syms: Seq<Text>,
}

/// The kinds of the leaves of a subscript that are to come, the next one last, and the values of the
/// dimensions and of the symbols so far.
#[derive(Drop)]
pub struct Leaves {
    kinds: Seq<LeafKind>,
    dims: Seq<Text>,
    syms: Seq<Text>,
}

/// The map of subscripts, which stand from the last to the first.
pub fn place_map(alloc: Global, subscripts: Seq<Expression>) -> Result<Numbering, Fault>
    ensures ok { IfOk result (λ n. n ≡ numbering (reverse subscripts)) }
    ensures err { IfErr result (λ fault. fault ≡ Fault.NoMemory) }
    ensures faithful { IfOk result (λ n. IsFaithful n (reverse subscripts)) }
{
    let mut leaves = Leaves {
        kinds: Seq::new(alloc),
        dims: Seq::new(alloc),
        syms: Seq::new(alloc),
    };
    let results = number_all(alloc, &mut leaves, subscripts)?;
    let Leaves {
        kinds: _,
        dims,
        syms,
    } = leaves;
    let dim_names = names(alloc, "d", dims.len())?;
    let sym_names = names(alloc, "s", syms.len())?;
    let map = MapText {
        dims: dim_names,
        syms: sym_names,
        results,
    };
    Ok(Numbering { map, dims, syms })
}

// The subscripts with parameters for their values.
fn number_all(
    alloc: Global,
    leaves: &mut Leaves,
    mut subscripts: Seq<Expression>,
) -> Result<Seq<ExprText>, Fault>
    ensures ok { IfOk result (λ results. numbered_all (reverse subscripts) (turned leaves.old) ≡ (results, turned leaves.new)) }
    ensures err { IfErr result (λ fault. fault ≡ Fault.NoMemory) }
{
    let mut results = Seq::new(alloc);
    while let Some(subscript) = subscripts.pop() {
        let result = number_one(alloc, leaves, subscript)?;
        results.push(result)?;
    }
    Ok(results)
}

fn number_one(alloc: Global, leaves: &mut Leaves, subscript: Expression) -> Result<ExprText, Fault>
    ensures ok { IfOk result (λ e. numbered subscript.expr (record leaves.old { kinds = subscript.leaves }) ≡ (e, turned leaves.new)) }
    ensures err { IfErr result (λ fault. fault ≡ Fault.NoMemory) }
{
    let Expression {
        expr,
        leaves: kinds,
    } = subscript;
    leaves.kinds = in_order(kinds);
    number(alloc, leaves, &expr)
}

// The expression with parameters for its values.
#[cycle(numbering)]
fn number(alloc: Global, leaves: &mut Leaves, expr: &ExprText) -> Result<ExprText, Fault>
    ensures ok { IfOk result (λ e. numbered expr.now (turned leaves.old) ≡ (e, turned leaves.new)) }
    ensures err { IfErr result (λ fault. fault ≡ Fault.NoMemory) }
{
    match expr {
        ExprText::Name(value) => {
            let name = parameter(alloc, leaves, value)?;
            Ok(ExprText::Name(name))
        }
        ExprText::Const(value) => Ok(ExprText::Const(*value)),
        ExprText::Neg(a) => {
            let a = side(alloc, leaves, a)?;
            Ok(ExprText::Neg(a))
        }
        ExprText::Add(a, b) => {
            let a = side(alloc, leaves, a)?;
            let b = side(alloc, leaves, b)?;
            Ok(ExprText::Add(a, b))
        }
        ExprText::Sub(a, b) => {
            let a = side(alloc, leaves, a)?;
            let b = side(alloc, leaves, b)?;
            Ok(ExprText::Sub(a, b))
        }
        ExprText::Mul(a, b) => {
            let a = side(alloc, leaves, a)?;
            let b = side(alloc, leaves, b)?;
            Ok(ExprText::Mul(a, b))
        }
        ExprText::Mod(a, b) => {
            let a = side(alloc, leaves, a)?;
            let b = side(alloc, leaves, b)?;
            Ok(ExprText::Mod(a, b))
        }
        ExprText::Floor(a, b) => {
            let a = side(alloc, leaves, a)?;
            let b = side(alloc, leaves, b)?;
            Ok(ExprText::Floor(a, b))
        }
        ExprText::Ceil(a, b) => {
            let a = side(alloc, leaves, a)?;
            let b = side(alloc, leaves, b)?;
            Ok(ExprText::Ceil(a, b))
        }
    }
}

#[cycle(numbering)]
fn side(alloc: Global, leaves: &mut Leaves, expr: &Held<ExprText>) -> Result<Held<ExprText>, Fault>
    ensures ok { IfOk result (λ e. numbered expr.now (turned leaves.old) ≡ (e, turned leaves.new)) }
    ensures err { IfErr result (λ fault. fault ≡ Fault.NoMemory) }
{
    let side = number(alloc, leaves, expr.get())?;
    let held = Held::new(alloc, side)?;
    Ok(held)
}

// The next parameter, for a value; a dimension where kinds lack.
fn parameter(alloc: Global, leaves: &mut Leaves, value: &Text) -> Result<Text, Fault>
    ensures ok { IfOk result (λ name. next_parameter (reverse leaves.old.kinds) value.now (turned leaves.old) ≡ (name, turned leaves.new)) }
    ensures err { IfErr result (λ fault. fault ≡ Fault.NoMemory) }
{
    match leaves.kinds.pop() {
        Some(LeafKind::Dimension) => numbered_value(alloc, "d", value, &mut leaves.dims),
        Some(LeafKind::Symbol) => numbered_value(alloc, "s", value, &mut leaves.syms),
        None => numbered_value(alloc, "d", value, &mut leaves.dims),
    }
}

// The name of the next parameter of a letter, whose value goes to the others.
fn numbered_value(
    alloc: Global,
    letter: &str,
    value: &Text,
    values: &mut Seq<Text>,
) -> Result<Text, Fault>
    ensures name { IfOk result (λ name. name ≡ name_of letter.now (length values.old)) }
    ensures values { OnOk result (values.new ≡ values.old ++ value.now ∷ []) }
    ensures err { IfErr result (λ fault. fault ≡ Fault.NoMemory) }
{
    let name = parameter_name(alloc, letter, values.len())?;
    values.push(value.duplicate(alloc)?)?;
    Ok(name)
}

// The names of so many parameters of a letter.
fn names(alloc: Global, letter: &str, count: usize) -> Result<Seq<Text>, Fault>
    ensures ok { IfOk result (λ names. names ≡ first_names letter.now count) }
    ensures err { IfErr result (λ fault. fault ≡ Fault.NoMemory) }
{
    let mut names = Seq::new(alloc);
    for number in 0..count {
        names.push(parameter_name(alloc, letter, number)?)?;
    }
    Ok(names)
}

fn parameter_name(alloc: Global, letter: &str, number: usize) -> Result<Text, Fault>
    ensures ok { IfOk result (λ name. name ≡ name_of letter.now number) }
    ensures err { IfErr result (λ fault. fault ≡ Fault.NoMemory) }
{
    let name = format!(in alloc; "{letter}{number}")?;
    text_of(alloc, name.as_bytes())
}
