//! Affine expressions as they are written, and their limits.

ghost use Rattle.std.specs.Prelude.{◌≡◌, ◌-◌, ◌^◌, min, nat_le, if◌then◌else◌, []};
ghost use Rattle.std.specs.List.{list_all};
ghost use Rattle.std.specs.Option.{option_copied};
ghost use Rattle.av_affine.specs.Finding.{limited, sum_found};
ghost use Rattle.av_verify.specs.Expressions.{are_own, bound_found, is_admissible, is_affine, is_parameter, node_count, place_of};

use av_affine::Text;
use av_tree::{ExprText, MapText};

/// The greatest number of nodes of an expression.
const MAX_NODES: u64 = 64;

/// The greatest bound of an expression.
const MAX_BOUND: u128 = 1 << 110;

/// The bound of a parameter.
const PARAMETER_BOUND: u128 = 1 << 63;

/// Whether the parameters of a map differ, and its results are affine and within their limits.
pub(crate) fn is_affine(map: Option<&MapText>) -> bool
    ensures { result ≡ is_affine (option_copied map.entry) }
{
    match map {
        Some(map) => are_admissible(map)
            && are_own(map.dims.as_slice(), map.syms.as_slice())
            && are_own(map.syms.as_slice(), &[]),
        None => false,
    }
}

fn are_admissible(map: &MapText) -> bool
    ensures { result ≡ list_all (is_admissible map.now) map.now.results }
{
    map.results
        .as_slice()
        .iter()
        .all(|expr| is_admissible(map, expr))
}

fn is_admissible(map: &MapText, expr: &ExprText) -> bool
    ensures { result ≡ is_admissible map.now expr.now }
{
    has_few_nodes(expr) && bound(map, expr).is_some()
}

fn has_few_nodes(expr: &ExprText) -> bool
    ensures { result ≡ nat_le (node_count expr.now) 64 }
{
    nodes(expr) <= MAX_NODES
}

// Whether the names differ from each other and from others.
fn are_own(names: &[Text], others: &[Text]) -> bool
    ensures { result ≡ are_own [] names.now others.now }
{
    for at in 0..names.len() {
        let name = names[at].as_slice();
        if place_of(&names[..at], name).is_some() || place_of(others, name).is_some() {
            return false;
        }
    }
    true
}

/// The first place of a name among names.
pub(crate) fn place_of(names: &[Text], name: &[u8]) -> Option<usize>
    ensures { result ≡ place_of names.now name.now }
{
    names.iter().position(|one| one.as_slice() == name)
}

#[tactic(auto, using(crate::proofs::TextVariants::counts))]
fn nodes(expr: &ExprText) -> u64
    ensures { result ≡ min (node_count expr.now) (2 ^ 64 - 1) }
{
    match expr {
        ExprText::Name(_) | ExprText::Const(_) => 1,
        ExprText::Neg(a) => nodes(a.get()).saturating_add(1),
        ExprText::Add(a, b)
        | ExprText::Sub(a, b)
        | ExprText::Mul(a, b)
        | ExprText::Mod(a, b)
        | ExprText::Floor(a, b)
        | ExprText::Ceil(a, b) => nodes(a.get())
            .saturating_add(nodes(b.get()))
            .saturating_add(1),
    }
}

// The bound of an expression: none where it isn't affine or has a part over the limit. Negations,
// products and divisions aren't taken yet.
#[tactic(auto, using(crate::proofs::TextVariants::found))]
fn bound(map: &MapText, expr: &ExprText) -> Option<u128>
    ensures { result ≡ bound_found map.now expr.now }
{
    match expr {
        ExprText::Name(name) => parameter_bound(map, name.as_slice()),
        ExprText::Const(value) => limited(value.unsigned_abs()),
        ExprText::Add(a, b) => sum_bound(bound(map, a.get()), bound(map, b.get())),
        ExprText::Sub(a, b) => sum_bound(bound(map, a.get()), bound(map, b.get())),
        ExprText::Neg(_)
        | ExprText::Mul(_, _)
        | ExprText::Mod(_, _)
        | ExprText::Floor(_, _)
        | ExprText::Ceil(_, _) => None,
    }
}

fn sum_bound(left: Option<u128>, right: Option<u128>) -> Option<u128>
    ensures { result ≡ sum_found left right }
{
    limited(left?.saturating_add(right?))
}

fn parameter_bound(map: &MapText, name: &[u8]) -> Option<u128>
    ensures { result ≡ (if is_parameter map.now name.now then Some (2 ^ 63) else None) }
{
    let is_dim = place_of(map.dims.as_slice(), name).is_some();
    if is_dim || place_of(map.syms.as_slice(), name).is_some() {
        Some(PARAMETER_BOUND)
    } else {
        None
    }
}

fn limited(bound: u128) -> Option<u128>
    ensures { result ≡ limited bound }
{
    if bound <= MAX_BOUND {
        Some(bound)
    } else {
        None
    }
}
