//! Expressions of the parts that they are written with.

ghost use Rattle.std.specs.Prelude.{◌≡◌, map, reverse, IfErr, IfOk};
ghost use Rattle.av_values.specs.Expressions.{calculation, division_of, joined_left, with_part};

use crate::stack::Fault;
use crate::value::{Expression, Operator, Part};
use av_affine::{Held, Seq, Text};
use av_tree::ExprText;
use std::alloc::Global;

/// The expressions alone, in the order of the text; they stand from the last to the first.
pub fn results_of(alloc: Global, mut expressions: Seq<Expression>) -> Result<Seq<ExprText>, Fault>
    ensures ok { IfOk result (λ results. results ≡ map (λ e. e.expr) (reverse expressions)) }
    ensures err { IfErr result (λ fault. fault ≡ Fault.NoMemory) }
{
    let mut results = Seq::new(alloc);
    while let Some(expression) = expressions.pop() {
        results.push(expression.expr)?;
    }
    Ok(results)
}

/// The division of a word.
pub fn division(word: &Text) -> Operator
    ensures { result ≡ division_of word.now }
{
    let word = word.as_slice();
    if word == b"floordiv".as_slice() {
        Operator::Floor
    } else if word == b"ceildiv".as_slice() {
        Operator::Ceil
    } else {
        Operator::Mod
    }
}

/// An expression with the parts after it, which stand from the last to the first, joined from the left.
pub fn joined(
    alloc: Global,
    mut whole: Expression,
    mut parts: Seq<Part>,
) -> Result<Expression, Fault>
    ensures ok { IfOk result (λ e. e ≡ joined_left whole (reverse parts)) }
    ensures err { IfErr result (λ fault. fault ≡ Fault.NoMemory) }
{
    while let Some(part) = parts.pop() {
        whole = join(alloc, whole, part)?;
    }
    Ok(whole)
}

fn join(alloc: Global, left: Expression, part: Part) -> Result<Expression, Fault>
    ensures ok { IfOk result (λ e. e ≡ with_part left part) }
    ensures err { IfErr result (λ fault. fault ≡ Fault.NoMemory) }
{
    let Expression { expr, mut leaves } = left;
    let Part { operator, right } = part;
    let Expression {
        expr: right,
        leaves: more,
    } = right;
    leaves.append(more)?;
    let left = Held::new(alloc, expr)?;
    let right = Held::new(alloc, right)?;
    Ok(Expression {
        expr: calculated(operator, left, right),
        leaves,
    })
}

fn calculated(operator: Operator, left: Held<ExprText>, right: Held<ExprText>) -> ExprText
    ensures { result ≡ calculation operator left right }
{
    match operator {
        Operator::Add => ExprText::Add(left, right),
        Operator::Sub => ExprText::Sub(left, right),
        Operator::Mul => ExprText::Mul(left, right),
        Operator::Mod => ExprText::Mod(left, right),
        Operator::Floor => ExprText::Floor(left, right),
        Operator::Ceil => ExprText::Ceil(left, right),
    }
}
