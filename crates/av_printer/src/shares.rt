//! Which parts of a form take which operands, and which stand around its regions.
ghost use Rattle.std.specs.Prelude.{◌≡◌, ◌-◌, take, drop, length, if◌then◌else◌, Some, get_or, pos, option_copied};
ghost use Rattle.av_dialects.specs.Types.{needs, takes, takes_more};
ghost use Rattle.av_printer.specs.Operations.{head_of};
ghost use Rattle.av_printer.specs.Parts.{is_region, before_regions, behind_regions, share, bound_name, bound_place, bound_size, size_of, counted, natural};

use crate::entries::property;
use av_affine::Text;
use av_dialects::{Item, Part};
use av_tree::{Attr, Node};

fn is_region(item: Item) -> bool
    ensures { result ≡ is_region item }
{
    match item {
        Item::Region => true,
        Item::Else => true,
        _ => false,
    }
}

/// The parts before the regions.
pub(crate) fn before_regions(parts: &[Part]) -> &[Part]
    ensures { result.now ≡ before_regions parts.now }
{
    for (i, part) in parts.iter().enumerate() {
        if is_region(part.1) {
            let (first, _) = parts.split_at(i);
            return first;
        }
    }
    parts
}

/// The parts behind the regions.
pub(crate) fn behind_regions(parts: &[Part]) -> &[Part]
    ensures { result.now ≡ behind_regions parts.now }
{
    let mut seen = false;
    for (i, part) in parts.iter().enumerate() {
        if is_region(part.1) {
            seen = true;
        } else if seen {
            let (_, others) = parts.split_at(i);
            return others;
        }
    }
    &[]
}

// Whether an item takes what operands the parts behind it leave.
fn takes_more(item: Item) -> bool
    ensures { result ≡ takes_more item }
{
    match item {
        Item::OptionalOperand => true,
        Item::Operands => true,
        Item::TypedOperands => true,
        Item::Element => true,
        Item::Map => true,
        Item::Set => true,
        Item::Access => true,
        Item::LowerBound => true,
        Item::UpperBound => true,
        Item::Carried => true,
        _ => false,
    }
}

// How many operands an item takes at least.
fn takes(item: Item) -> usize
    ensures { result ≡ takes item }
{
    match item {
        Item::Operand(_) => 1,
        Item::Operands => 1,
        Item::Element => 1,
        Item::Access => 1,
        _ => 0,
    }
}

// How many operands parts take at least.
fn needs(parts: &[Part]) -> usize
    ensures { result ≡ needs parts.now }
{
    let mut count = 0;
    for part in parts {
        count += takes(part.1);
    }
    count
}

/// The operands that an item takes of those that are left, and those that it leaves to the parts
/// behind it.
pub(crate) fn shared<'a>(
    node: &Node,
    item: Item,
    left: &'a [Text],
    next: &[Part],
) -> (&'a [Text], &'a [Text])
    ensures taken { result.0.now ≡ take (share (head_of node.now) item (length left.now) (needs next.now)) left.now }
    ensures others { result.1.now ≡ drop (share (head_of node.now) item (length left.now) (needs next.now)) left.now }
{
    match item {
        Item::LowerBound => divided(left, bound_size(node, true)),
        Item::UpperBound => divided(left, bound_size(node, false)),
        _ => divided(left, share(item, left.len(), needs(next)) as u128),
    }
}

fn share(item: Item, left: usize, needed: usize) -> usize
    ensures { result ≡ (if takes_more item then left - needed else takes item) }
{
    if takes_more(item) {
        left.saturating_sub(needed)
    } else {
        takes(item)
    }
}

// The first so many, as far as there are some, and those behind them.
fn divided(items: &[Text], count: u128) -> (&[Text], &[Text])
    ensures first { result.0.now ≡ take count items.now }
    ensures others { result.1.now ≡ drop count items.now }
{
    items.split_at(count.min(items.len() as u128) as usize)
}

// How many operands a bound of a loop takes.
fn bound_size(node: &Node, lower: bool) -> u128
    ensures { result ≡ bound_size (head_of node.now) lower }
{
    let properties = node.properties.as_slice();
    let counts = property(properties, b"operandSegmentSizes");
    size_of(
        property(properties, bound_name(lower)),
        counted(counts, bound_place(lower)),
    )
}

fn bound_name(lower: bool) -> &'static [u8]
    ensures { result.now ≡ bound_name lower }
{
    if lower {
        b"lowerBoundMap"
    } else {
        b"upperBoundMap"
    }
}

fn bound_place(lower: bool) -> usize
    ensures { result ≡ bound_place lower }
{
    if lower { 0 } else { 1 }
}

#[tactic(auto, using(crate::proofs::PartSteps::size_steps))]
fn size_of(attr: Option<&Attr>, counted: u128) -> u128
    ensures { result ≡ size_of counted (option_copied attr.entry) }
{
    match attr {
        Some(attr) => size_in(attr, counted),
        None => 0,
    }
}

#[tactic(auto, using(crate::proofs::PartSteps::size_steps))]
fn size_in(attr: &Attr, counted: u128) -> u128
    ensures { result ≡ size_of counted (Some attr.now) }
{
    match attr {
        Attr::Map(map) => map.dims.len() as u128 + map.syms.len() as u128,
        Attr::AliasUse(_) => counted,
        _ => 0,
    }
}

#[tactic(auto, using(crate::proofs::PartSteps::size_steps))]
fn counted(attr: Option<&Attr>, place: usize) -> u128
    ensures { result ≡ counted place (option_copied attr.entry) }
{
    match attr {
        Some(attr) => counted_in(attr, place),
        None => 0,
    }
}

#[tactic(auto, using(crate::proofs::PartSteps::size_steps))]
fn counted_in(attr: &Attr, place: usize) -> u128
    ensures { result ≡ counted place (Some attr.now) }
{
    match attr {
        Attr::Array { elem: _, numbers } => number_at(numbers.as_slice(), place),
        _ => 0,
    }
}

fn number_at(numbers: &[i128], place: usize) -> u128
    ensures { result ≡ natural (get_or numbers.now place (pos 0)) }
{
    if place < numbers.len() {
        natural(numbers[place])
    } else {
        0
    }
}

fn natural(number: i128) -> u128
    ensures { result ≡ natural number }
{
    if number < 0 { 0 } else { number as u128 }
}
