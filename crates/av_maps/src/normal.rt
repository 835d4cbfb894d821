//! A map with the values of its operands, normalised: parameters that don't occur are dropped, one stands for each value and kind, and those
//! of each kind are numbered by first occurrence.

ghost use Rattle.std.specs.Prelude.{◌≡◌, ◌==◌, ◌++◌, length, map as map_list, position, slice_index, IfOk, OnOk};
ghost use Rattle.av_affine_laws.specs.Normalised.{normalised, occur, occurring, over_values, parameter_for, place_among, renamed, with_parameter, with_value};
ghost use Rattle.av_maps.specs.Applying.{kinds, normal_use, numbers, renamed_by, use_of, used_kinds, value_of};

use av_affine::{AffMap, Expr, Held, Leaf, No, Seq};
use av_ir::ValueId;
use std::alloc::{AllocError, Global};

/// A map and the values of its parameters, dimensions first.
#[derive(Debug, Drop, PartialEq)]
pub struct MapUse {
    pub map: AffMap,
    pub operands: Seq<ValueId>,
}

/// The numbers of the values that occur, by the kind of their parameters: each once, in the order of first occurrence.
#[derive(Drop)]
struct Used {
    dims: Seq<No>,
    syms: Seq<No>,
}

/// The normal form of a map and its operands.
///
/// # Errors
///
/// Want of memory.
pub fn normal_use(alloc: Global, m: &AffMap, operands: &[ValueId]) -> Result<MapUse, AllocError>
    ensures { IfOk result (λ u. u ≡ normal_use m.now operands.now) }
{
    let given = numbers(alloc, operands)?;
    normal_numbers(alloc, m, given.as_slice())
}

fn numbers(alloc: Global, values: &[ValueId]) -> Result<Seq<No>, AllocError>
    ensures { IfOk result (λ ns. ns ≡ numbers values.now) }
{
    let mut numbers = Seq::new(alloc);
    for value in values {
        numbers.push(value.0)?;
    }
    Ok(numbers)
}

fn add_values(values: &mut Seq<ValueId>, numbers: &[No]) -> Result<(), AllocError>
    ensures { OnOk result (values.new ≡ values.old ++ map_list value_of numbers.now) }
{
    for number in numbers {
        values.push(ValueId(*number))?;
    }
    Ok(())
}

fn normal_numbers(alloc: Global, m: &AffMap, given: &[No]) -> Result<MapUse, AllocError>
    ensures { IfOk result (λ u. u ≡ use_of (normalised m.now given.now)) }
{
    let split = if m.dims < given.len() as No {
        m.dims as usize
    } else {
        given.len()
    };
    over_values(
        alloc,
        &given[..split],
        &given[split..],
        m.results.as_slice(),
    )
}

// Expressions over the values that occur, and these values.
#[tactic(auto, unfolding(crate::specs::Applying::renamed_by))]
fn over_values(
    alloc: Global,
    dims: &[No],
    syms: &[No],
    results: &[Expr],
) -> Result<MapUse, AllocError>
    ensures { IfOk result (λ u. u ≡ use_of (over_values (kinds dims.now syms.now) (occurring (kinds dims.now syms.now) results.now) results.now)) }
{
    let used = occurring(alloc, dims, syms, results)?;
    let results = renamed_all(alloc, dims, syms, &used, results)?;
    let mut operands = Seq::new(alloc);
    add_values(&mut operands, used.dims.as_slice())?;
    add_values(&mut operands, used.syms.as_slice())?;
    let map = AffMap {
        dims: used.dims.len() as No,
        syms: used.syms.len() as No,
        results,
    };
    Ok(MapUse { map, operands })
}

// The values that occur in expressions.
fn occurring(alloc: Global, dims: &[No], syms: &[No], results: &[Expr]) -> Result<Used, AllocError>
    ensures { IfOk result (λ used. used_kinds used ≡ occurring (kinds dims.now syms.now) results.now) }
{
    let mut used = Used {
        dims: Seq::new(alloc),
        syms: Seq::new(alloc),
    };
    for e in results {
        used = occur(dims, syms, used, e)?;
    }
    Ok(used)
}

// The values that occur in an expression, after others.
#[tactic(auto, using(crate::proofs::Variants::uses))]
fn occur(dims: &[No], syms: &[No], used: Used, e: &Expr) -> Result<Used, AllocError>
    ensures { IfOk result (λ u. used_kinds u ≡ occur (kinds dims.now syms.now) (used_kinds used) e.now) }
{
    match e {
        Expr::Param(leaf) => with_parameter(dims, syms, used, *leaf),
        Expr::Const(_) => Ok(used),
        Expr::Neg(a) => occur(dims, syms, used, a.get()),
        Expr::Add(a, b)
        | Expr::Sub(a, b)
        | Expr::Mul(a, b)
        | Expr::Mod(a, b)
        | Expr::Floor(a, b)
        | Expr::Ceil(a, b) => {
            let used = occur(dims, syms, used, a.get())?;
            occur(dims, syms, used, b.get())
        }
    }
}

// The value of a parameter, after others.
fn with_parameter(dims: &[No], syms: &[No], used: Used, leaf: Leaf) -> Result<Used, AllocError>
    ensures { IfOk result (λ u. used_kinds u ≡ with_parameter (kinds dims.now syms.now) (used_kinds used) leaf) }
{
    let Used {
        dims: used_dims,
        syms: used_syms,
    } = used;
    match leaf {
        Leaf::Dim(k) => Ok(Used {
            dims: with_value(used_dims, number_at(dims, k))?,
            syms: used_syms,
        }),
        Leaf::Sym(k) => Ok(Used {
            dims: used_dims,
            syms: with_value(used_syms, number_at(syms, k))?,
        }),
    }
}

// A value at the end, where it isn't there yet.
fn with_value(mut values: Seq<No>, value: No) -> Result<Seq<No>, AllocError>
    ensures { IfOk result (λ all. all ≡ with_value values value) }
{
    if place_among(values.as_slice(), value) == values.len() {
        values.push(value)?;
    }
    Ok(values)
}

// The value at a place; 0 past the end.
fn number_at(given: &[No], k: No) -> No
    ensures { result ≡ slice_index given.now k }
{
    if k < given.len() as No {
        given[k as usize]
    } else {
        0
    }
}

// The place of a value among others, or their number.
fn place_among(values: &[No], value: No) -> usize
    ensures { result ≡ place_among values.now value }
{
    first_place(values, value).unwrap_or(values.len())
}

fn first_place(values: &[No], value: No) -> Option<usize>
    ensures { result ≡ position (λ one. one == value) values.now }
{
    values.iter().position(|one| *one == value)
}

fn renamed_all(
    alloc: Global,
    dims: &[No],
    syms: &[No],
    used: &Used,
    results: &[Expr],
) -> Result<Seq<Expr>, AllocError>
    ensures { IfOk result (λ es. es ≡ map_list (renamed_by dims.now syms.now used.now) results.now) }
{
    let mut renamed_results = Seq::new(alloc);
    for e in results {
        renamed_results.push(renamed_by(alloc, dims, syms, used, e)?)?;
    }
    Ok(renamed_results)
}

#[tactic(auto, unfolding(crate::specs::Applying::renamed_by))]
fn renamed_by(
    alloc: Global,
    dims: &[No],
    syms: &[No],
    used: &Used,
    e: &Expr,
) -> Result<Expr, AllocError>
    ensures { IfOk result (λ r. r ≡ renamed_by dims.now syms.now used.now e.now) }
{
    renamed(alloc, dims, syms, used, e)
}

// The parameter of the normal form for one of the map.
fn parameter_for(dims: &[No], syms: &[No], used: &Used, leaf: Leaf) -> Leaf
    ensures { result ≡ parameter_for (kinds dims.now syms.now) (used_kinds used.now) leaf }
{
    match leaf {
        Leaf::Dim(k) => Leaf::Dim(place_among(used.dims.as_slice(), number_at(dims, k)) as No),
        Leaf::Sym(k) => Leaf::Sym(place_among(used.syms.as_slice(), number_at(syms, k)) as No),
    }
}

// The expression over the parameters of the normal form.
#[cycle(renaming)]
#[tactic(auto, using(crate::proofs::Variants::uses))]
fn renamed(
    alloc: Global,
    dims: &[No],
    syms: &[No],
    used: &Used,
    e: &Expr,
) -> Result<Expr, AllocError>
    ensures { IfOk result (λ r. r ≡ renamed (parameter_for (kinds dims.now syms.now) (used_kinds used.now)) e.now) }
{
    match e {
        Expr::Param(leaf) => Ok(Expr::Param(parameter_for(dims, syms, used, *leaf))),
        Expr::Const(value) => Ok(Expr::Const(*value)),
        Expr::Neg(a) => Ok(Expr::Neg(part(alloc, dims, syms, used, a)?)),
        Expr::Add(a, b) => {
            let a = part(alloc, dims, syms, used, a)?;
            Ok(Expr::Add(a, part(alloc, dims, syms, used, b)?))
        }
        Expr::Sub(a, b) => {
            let a = part(alloc, dims, syms, used, a)?;
            Ok(Expr::Sub(a, part(alloc, dims, syms, used, b)?))
        }
        Expr::Mul(a, b) => {
            let a = part(alloc, dims, syms, used, a)?;
            Ok(Expr::Mul(a, part(alloc, dims, syms, used, b)?))
        }
        Expr::Mod(a, b) => {
            let a = part(alloc, dims, syms, used, a)?;
            Ok(Expr::Mod(a, part(alloc, dims, syms, used, b)?))
        }
        Expr::Floor(a, b) => {
            let a = part(alloc, dims, syms, used, a)?;
            Ok(Expr::Floor(a, part(alloc, dims, syms, used, b)?))
        }
        Expr::Ceil(a, b) => {
            let a = part(alloc, dims, syms, used, a)?;
            Ok(Expr::Ceil(a, part(alloc, dims, syms, used, b)?))
        }
    }
}

#[cycle(renaming)]
fn part(
    alloc: Global,
    dims: &[No],
    syms: &[No],
    used: &Used,
    e: &Held<Expr>,
) -> Result<Held<Expr>, AllocError>
    ensures { IfOk result (λ r. r ≡ renamed (parameter_for (kinds dims.now syms.now) (used_kinds used.now)) e.now) }
{
    let e = renamed(alloc, dims, syms, used, e.get())?;
    Held::new(alloc, e)
}
