//! Cases of affine maps and sets, which are written as in a text.
ghost use Rattle.std.specs.Prelude.{◌↔◌, ◌≤◌, ◌^◌, IfOk, IsTrue, length};
ghost use Rattle.std.specs.List.{All};
ghost use Rattle.av_affine.specs.Limits.{Admissible};

use av_affine::{
    AffMap, AffSet, Expr, Held, Leaf, No, Seq, SetRow, Text, eval, holds, is_admissible, linear_of,
    simplify,
};
use av_cases::Why;
use av_lex::lex;
use av_reader::read;
use av_tree::{Attr, ExprText, MapText, SetText};
use std::alloc::Global;

// The most results of a map.
const MAX_RESULTS: usize = 8;

// The names of the parameters of a map or set.
#[derive(Clone, Copy)]
struct Parameters<'t> {
    dims: &'t [Text],
    syms: &'t [Text],
}

/// The values of a map where its parameters have these values.
pub fn eval_case(alloc: Global, written: &[u8], dims: &[i64], syms: &[i64]) -> Result<String, Why> {
    evaluated(alloc, &map(alloc, written)?, dims, syms)
}

/// The same of the map with its results simplified.
pub fn simplified_case(
    alloc: Global,
    written: &[u8],
    dims: &[i64],
    syms: &[i64],
) -> Result<String, Why> {
    let map = map(alloc, written)?;
    let mut results = Seq::new(alloc);
    for e in map.results.as_slice() {
        if !is_admissible(e) {
            return Ok(String::from_str(alloc, "not admissible")?);
        }
        results.push(simplify(alloc, e)?)?;
    }
    let map = AffMap {
        dims: map.dims,
        syms: map.syms,
        results,
    };
    evaluated(alloc, &map, dims, syms)
}

fn evaluated(alloc: Global, map: &AffMap, dims: &[i64], syms: &[i64]) -> Result<String, Why> {
    let results = map.results.as_slice();
    if results.len() > MAX_RESULTS {
        return Err(Why::BadValue);
    }
    if !are_admissible(results) {
        return Ok(String::from_str(alloc, "not admissible")?);
    }
    match eval(map, dims, syms) {
        Ok(values) => shown(alloc, values.as_slice()),
        Err(_) => Ok(String::from_str(alloc, "out of range")?),
    }
}

fn are_admissible(results: &[Expr]) -> bool
    ensures { IsTrue result ↔ All Admissible results.now }
{
    results.iter().all(|e| is_admissible(e))
}

fn shown(alloc: Global, values: &[i64]) -> Result<String, Why> {
    let mut text = String::new(alloc);
    for value in values {
        if !text.is_empty() {
            text.push_str(" ")?;
        }
        let value = *value;
        write!(text, "{value}")?;
    }
    Ok(text)
}

/// The linear forms of a map's results, a line for each.
pub fn form_case(alloc: Global, written: &[u8]) -> Result<String, Why> {
    let mut text = String::new(alloc);
    for e in map(alloc, written)?.results.as_slice() {
        if !is_admissible(e) {
            return Ok(String::from_str(alloc, "not admissible")?);
        }
        let form = linear_of(alloc, e)?;
        write!(text, "{form:?}\n")?;
    }
    Ok(text)
}

/// Whether a set holds where its parameters have these values.
pub fn holds_case(
    alloc: Global,
    written: &[u8],
    dims: &[i64],
    syms: &[i64],
) -> Result<String, Why> {
    let set = set(alloc, written)?;
    if !are_rows_admissible(set.rows.as_slice()) {
        return Ok(String::from_str(alloc, "not admissible")?);
    }
    let holds = holds(&set, dims, syms);
    Ok(format!(in alloc; "{holds}")?)
}

fn are_rows_admissible(rows: &[SetRow]) -> bool
    ensures { IsTrue result ↔ All (λ row. Admissible row.left) rows.now }
{
    rows.iter().all(|row| is_admissible(&row.left))
}

/// The map of a text.
pub fn map(alloc: Global, written: &[u8]) -> Result<AffMap, Why> {
    map_in(alloc, &attribute(alloc, written)?)
}

fn map_in(alloc: Global, attribute: &Attr) -> Result<AffMap, Why> {
    match attribute {
        Attr::Map(map) => map_of(alloc, map),
        _ => Err(Why::BadValue),
    }
}

/// The set of a text.
pub fn set(alloc: Global, written: &[u8]) -> Result<AffSet, Why> {
    set_in(alloc, &attribute(alloc, written)?)
}

fn set_in(alloc: Global, attribute: &Attr) -> Result<AffSet, Why> {
    match attribute {
        Attr::Set(set) => set_of(alloc, set),
        _ => Err(Why::BadValue),
    }
}

// The map or set that is written, read as that of an alias.
fn attribute(alloc: Global, written: &[u8]) -> Result<Attr, Why> {
    let mut text = b"#0 = ".to_vec(alloc)?;
    text.extend_from_slice(written)?;
    if text.len() > 1 << 20 {
        return Err(Why::BadValue);
    }
    let Ok(tokens) = lex(alloc, &text) else {
        return Err(Why::BadValue);
    };
    let Ok(tree) = read(alloc, &text, tokens.as_slice()) else {
        return Err(Why::BadValue);
    };
    match tree.aliases.into_vec().pop() {
        Some(alias) => Ok(alias.value),
        None => Err(Why::BadValue),
    }
}

fn map_of(alloc: Global, map: &MapText) -> Result<AffMap, Why> {
    let parameters = Parameters {
        dims: map.dims.as_slice(),
        syms: map.syms.as_slice(),
    };
    let mut results = Seq::new(alloc);
    for e in map.results.as_slice() {
        results.push(expression(alloc, &parameters, e)?)?;
    }
    Ok(AffMap {
        dims: map.dims.len() as No,
        syms: map.syms.len() as No,
        results,
    })
}

fn set_of(alloc: Global, set: &SetText) -> Result<AffSet, Why> {
    let parameters = Parameters {
        dims: set.dims.as_slice(),
        syms: set.syms.as_slice(),
    };
    let mut rows = Seq::new(alloc);
    for row in set.rows.as_slice() {
        let left = expression(alloc, &parameters, &row.left)?;
        let equal = row.equal;
        rows.push(SetRow { left, equal })?;
    }
    Ok(AffSet {
        dims: set.dims.len() as No,
        syms: set.syms.len() as No,
        rows,
    })
}

#[cycle(converting)]
fn expression(alloc: Global, parameters: &Parameters, e: &ExprText) -> Result<Expr, Why> {
    match e {
        ExprText::Name(name) => parameter(parameters, name.as_slice()),
        ExprText::Const(value) => Ok(Expr::Const(*value)),
        ExprText::Neg(a) => Ok(Expr::Neg(side(alloc, parameters, a)?)),
        ExprText::Add(a, b)
        | ExprText::Sub(a, b)
        | ExprText::Mul(a, b)
        | ExprText::Mod(a, b)
        | ExprText::Floor(a, b)
        | ExprText::Ceil(a, b) => {
            let left = side(alloc, parameters, a)?;
            let right = side(alloc, parameters, b)?;
            Ok(joined(e, left, right))
        }
    }
}

// The expression of these sides with the sign of another.
fn joined(e: &ExprText, left: Held<Expr>, right: Held<Expr>) -> Expr {
    match e {
        ExprText::Sub(_, _) => Expr::Sub(left, right),
        ExprText::Mul(_, _) => Expr::Mul(left, right),
        ExprText::Mod(_, _) => Expr::Mod(left, right),
        ExprText::Floor(_, _) => Expr::Floor(left, right),
        ExprText::Ceil(_, _) => Expr::Ceil(left, right),
        _ => Expr::Add(left, right),
    }
}

#[cycle(converting)]
fn side(alloc: Global, parameters: &Parameters, e: &Held<ExprText>) -> Result<Held<Expr>, Why> {
    Ok(Held::new(alloc, expression(alloc, parameters, e.get())?)?)
}

fn parameter(parameters: &Parameters, name: &[u8]) -> Result<Expr, Why> {
    if let Some(place) = place_of(parameters.dims, name) {
        return Ok(Expr::Param(Leaf::Dim(place as No)));
    }
    match place_of(parameters.syms, name) {
        Some(place) => Ok(Expr::Param(Leaf::Sym(place as No))),
        None => Err(Why::BadValue),
    }
}

fn place_of(names: &[Text], name: &[u8]) -> Option<usize> {
    names.iter().position(|one| one.as_slice() == name)
}
