//! What the items of forms give to an operation, by the values on the stack.

ghost use Rattle.std.specs.Prelude.{◌≡◌, [], ◌∷◌, None, Some, IfErr, IfOk};
ghost use Rattle.av_dialects.specs.declared.item.Item.TheVariants as items;
ghost use Rattle.av_values.specs.Made.{access as the_access, applied as the_applied, carrying as the_carrying, gift as the_gift, operands_alone as the_operands_alone, property_alone as the_property_alone};
ghost use Rattle.av_operations.specs.Taking.{item_taken};

use av_affine::{Seq, Text};
use av_dialects::{Item, Key, Slots, Typing, Wanted, property};
use av_tree::Attr;
use av_values::gifts::{Change, Gift, only};
use av_values::loops::{CarriedLists, carried_of, step_of};
use av_values::spellings::{kind, positions, predicate};
use av_values::stack::{Fault, Stack, in_order};
use av_values::subscripts::{Numbering, place_map};
use av_values::value::{Carried, Expression, MapUse, TypedValues};
use std::alloc::Global;

/// What an item gives.
pub(super) fn take_gift(stack: &mut Stack, item: Item) -> Result<Gift, Fault>
    ensures ok { IfOk result (λ gift. item_taken item stack.old ≡ Some (gift, stack.new)) }
    ensures misshapen { IfErr result (λ fault. fault ≡ Fault.Misshapen → item_taken item stack.old ≡ None) }
{
    match item {
        Item::ByHand => by_hand(stack),
        Item::Operand(typing) => operand(stack, typing),
        Item::OptionalOperand => several(stack),
        Item::Operands => operands(stack),
        Item::Element => element(stack),
        Item::TypedOperands => typed(stack),
        Item::Type(wanted, slots) => a_type(stack, wanted, slots),
        Item::ChoiceTypes => chosen(stack),
        Item::Word(key) => word(stack, key),
        Item::Angled(key) => angled(stack, key),
        Item::Numbers(key) => numbers(stack, key),
        Item::Overflow => overflow(stack),
        Item::Marks => marks(stack),
        Item::Constant => constant(stack),
        Item::Map => a_map(stack),
        Item::Set => a_set(stack),
        Item::Access => access(stack),
        Item::Counter => counter(stack),
        Item::LowerBound => lower_bound(stack),
        Item::UpperBound => upper_bound(stack),
        Item::Step => step(stack),
        Item::Carried => carried(stack),
        Item::ResultTypes => result_types(stack),
        Item::Region => region(stack),
        Item::Else => otherwise(stack),
    }
}

#[tactic(auto, using(crate::proofs::Items::taking), unfolding(crate::specs::Taking::item_taken))]
fn operand(stack: &mut Stack, typing: Typing) -> Result<Gift, Fault>
    ensures ok { IfOk result (λ gift. item_taken (items.Operand typing) stack.old ≡ Some (gift, stack.new)) }
    ensures misshapen { IfErr result (λ fault. fault ≡ Fault.Misshapen → item_taken (items.Operand typing) stack.old ≡ None) }
{
    let value = stack.text()?;
    let operands = one_before(value, Seq::new(stack.alloc()))?;
    Ok(operands_alone(operands))
}

#[tactic(auto, using(crate::proofs::Items::taking), unfolding(crate::specs::Taking::item_taken))]
fn several(stack: &mut Stack) -> Result<Gift, Fault>
    ensures ok { IfOk result (λ gift. item_taken items.OptionalOperand stack.old ≡ Some (gift, stack.new)) }
    ensures misshapen { IfErr result (λ fault. fault ≡ Fault.Misshapen → item_taken items.OptionalOperand stack.old ≡ None) }
{
    let values = stack.texts()?;
    Ok(operands_alone(in_order(values)))
}

#[tactic(auto, using(crate::proofs::Items::taking), unfolding(crate::specs::Taking::item_taken))]
fn operands(stack: &mut Stack) -> Result<Gift, Fault>
    ensures ok { IfOk result (λ gift. item_taken items.Operands stack.old ≡ Some (gift, stack.new)) }
    ensures misshapen { IfErr result (λ fault. fault ≡ Fault.Misshapen → item_taken items.Operands stack.old ≡ None) }
{
    let first = stack.text()?;
    let others = stack.texts()?;
    let operands = one_before(first, in_order(others))?;
    Ok(operands_alone(operands))
}

#[tactic(auto, using(crate::proofs::Items::taking), unfolding(crate::specs::Taking::item_taken))]
fn element(stack: &mut Stack) -> Result<Gift, Fault>
    ensures ok { IfOk result (λ gift. item_taken items.Element stack.old ≡ Some (gift, stack.new)) }
    ensures misshapen { IfErr result (λ fault. fault ≡ Fault.Misshapen → item_taken items.Element stack.old ≡ None) }
{
    let first = stack.text()?;
    let others = stack.texts()?;
    let operands = one_before(first, in_order(others))?;
    Ok(operands_alone(operands))
}

#[tactic(auto, using(crate::proofs::Items::taking), unfolding(crate::specs::Taking::item_taken))]
fn typed(stack: &mut Stack) -> Result<Gift, Fault>
    ensures ok { IfOk result (λ gift. item_taken items.TypedOperands stack.old ≡ Some (gift, stack.new)) }
    ensures misshapen { IfErr result (λ fault. fault ≡ Fault.Misshapen → item_taken items.TypedOperands stack.old ≡ None) }
{
    let both = stack.typed_values()?;
    let TypedValues { values, types } = both;
    let operands = in_order(values);
    let types = in_order(types);
    Ok(Gift {
        operands,
        change: Change::Typed(types),
    })
}

#[tactic(auto, using(crate::proofs::Items::taking), unfolding(crate::specs::Taking::item_taken))]
fn a_type(stack: &mut Stack, wanted: Wanted, slots: Slots) -> Result<Gift, Fault>
    ensures ok { IfOk result (λ gift. item_taken (items.Type wanted slots) stack.old ≡ Some (gift, stack.new)) }
    ensures misshapen { IfErr result (λ fault. fault ≡ Fault.Misshapen → item_taken (items.Type wanted slots) stack.old ≡ None) }
{
    let ty = stack.ty()?;
    Ok(change_alone(stack.alloc(), Change::Filled(slots, ty)))
}

#[tactic(auto, using(crate::proofs::Items::taking), unfolding(crate::specs::Taking::item_taken))]
fn chosen(stack: &mut Stack) -> Result<Gift, Fault>
    ensures ok { IfOk result (λ gift. item_taken items.ChoiceTypes stack.old ≡ Some (gift, stack.new)) }
    ensures misshapen { IfErr result (λ fault. fault ≡ Fault.Misshapen → item_taken items.ChoiceTypes stack.old ≡ None) }
{
    let types = stack.selected()?;
    Ok(change_alone(stack.alloc(), Change::Chosen(types)))
}

#[tactic(auto, using(crate::proofs::Items::taking), unfolding(crate::specs::Taking::item_taken))]
fn word(stack: &mut Stack, key: Key) -> Result<Gift, Fault>
    ensures ok { IfOk result (λ gift. item_taken (items.Word key) stack.old ≡ Some (gift, stack.new)) }
    ensures misshapen { IfErr result (λ fault. fault ≡ Fault.Misshapen → item_taken (items.Word key) stack.old ≡ None) }
{
    let alloc = stack.alloc();
    match key {
        Key::Predicate => {
            let word = stack.text()?;
            let value = predicate(alloc, &word)?;
            let gift = property_alone(alloc, b"predicate", value)?;
            Ok(gift)
        }
        Key::Kind => {
            let word = stack.text()?;
            let value = kind(alloc, word)?;
            let gift = property_alone(alloc, b"kind", value)?;
            Ok(gift)
        }
        Key::StaticPosition | Key::Mask => Ok(operands_alone(Seq::new(alloc))),
    }
}

fn angled(stack: &mut Stack, key: Key) -> Result<Gift, Fault>
    ensures ok { IfOk result (λ gift. item_taken (items.Angled key) stack.old ≡ Some (gift, stack.new)) }
    ensures misshapen { IfErr result (λ fault. fault ≡ Fault.Misshapen → item_taken (items.Angled key) stack.old ≡ None) }
{
    word(stack, key)
}

#[tactic(auto, using(crate::proofs::Items::taking), unfolding(crate::specs::Taking::item_taken))]
fn numbers(stack: &mut Stack, key: Key) -> Result<Gift, Fault>
    ensures ok { IfOk result (λ gift. item_taken (items.Numbers key) stack.old ≡ Some (gift, stack.new)) }
    ensures misshapen { IfErr result (λ fault. fault ≡ Fault.Misshapen → item_taken (items.Numbers key) stack.old ≡ None) }
{
    let alloc = stack.alloc();
    let numbers = stack.numbers()?;
    let value = positions(alloc, in_order(numbers))?;
    let gift = property_alone(alloc, property(key).as_bytes(), value)?;
    Ok(gift)
}

#[tactic(auto, using(crate::proofs::Items::taking), unfolding(crate::specs::Taking::item_taken))]
fn overflow(stack: &mut Stack) -> Result<Gift, Fault>
    ensures ok { IfOk result (λ gift. item_taken items.Overflow stack.old ≡ Some (gift, stack.new)) }
    ensures misshapen { IfErr result (λ fault. fault ≡ Fault.Misshapen → item_taken items.Overflow stack.old ≡ None) }
{
    let entries = stack.entries()?;
    Ok(change_alone(stack.alloc(), Change::Properties(in_order(entries))))
}

#[tactic(auto, using(crate::proofs::Items::taking), unfolding(crate::specs::Taking::item_taken))]
fn marks(stack: &mut Stack) -> Result<Gift, Fault>
    ensures ok { IfOk result (λ gift. item_taken items.Marks stack.old ≡ Some (gift, stack.new)) }
    ensures misshapen { IfErr result (λ fault. fault ≡ Fault.Misshapen → item_taken items.Marks stack.old ≡ None) }
{
    let entries = stack.entries()?;
    Ok(change_alone(stack.alloc(), Change::Attributes(in_order(entries))))
}

#[tactic(auto, using(crate::proofs::Items::taking), unfolding(crate::specs::Taking::item_taken))]
fn constant(stack: &mut Stack) -> Result<Gift, Fault>
    ensures ok { IfOk result (λ gift. item_taken items.Constant stack.old ≡ Some (gift, stack.new)) }
    ensures misshapen { IfErr result (λ fault. fault ≡ Fault.Misshapen → item_taken items.Constant stack.old ≡ None) }
{
    let constant = stack.constant()?;
    Ok(change_alone(stack.alloc(), Change::Valued(constant)))
}

#[tactic(auto, using(crate::proofs::Items::taking), unfolding(crate::specs::Taking::item_taken))]
fn a_map(stack: &mut Stack) -> Result<Gift, Fault>
    ensures ok { IfOk result (λ gift. item_taken items.Map stack.old ≡ Some (gift, stack.new)) }
    ensures misshapen { IfErr result (λ fault. fault ≡ Fault.Misshapen → item_taken items.Map stack.old ≡ None) }
{
    let alloc = stack.alloc();
    let map_use = stack.map_use()?;
    let gift = applied(alloc, b"map", map_use)?;
    Ok(gift)
}

#[tactic(auto, using(crate::proofs::Items::taking), unfolding(crate::specs::Taking::item_taken))]
fn a_set(stack: &mut Stack) -> Result<Gift, Fault>
    ensures ok { IfOk result (λ gift. item_taken items.Set stack.old ≡ Some (gift, stack.new)) }
    ensures misshapen { IfErr result (λ fault. fault ≡ Fault.Misshapen → item_taken items.Set stack.old ≡ None) }
{
    let alloc = stack.alloc();
    let map_use = stack.map_use()?;
    let gift = applied(alloc, b"condition", map_use)?;
    Ok(gift)
}

#[tactic(auto, using(crate::proofs::Items::taking), unfolding(crate::specs::Taking::item_taken))]
fn access(stack: &mut Stack) -> Result<Gift, Fault>
    ensures ok { IfOk result (λ gift. item_taken items.Access stack.old ≡ Some (gift, stack.new)) }
    ensures misshapen { IfErr result (λ fault. fault ≡ Fault.Misshapen → item_taken items.Access stack.old ≡ None) }
{
    let alloc = stack.alloc();
    let buffer = stack.text()?;
    let subscripts = stack.expressions()?;
    let gift = place_of(alloc, buffer, subscripts)?;
    Ok(gift)
}

#[tactic(auto, using(crate::proofs::Items::taking), unfolding(crate::specs::Taking::item_taken))]
fn counter(stack: &mut Stack) -> Result<Gift, Fault>
    ensures ok { IfOk result (λ gift. item_taken items.Counter stack.old ≡ Some (gift, stack.new)) }
    ensures misshapen { IfErr result (λ fault. fault ≡ Fault.Misshapen → item_taken items.Counter stack.old ≡ None) }
{
    let name = stack.text()?;
    Ok(change_alone(stack.alloc(), Change::Counting(name)))
}

#[tactic(auto, using(crate::proofs::Items::taking), unfolding(crate::specs::Taking::item_taken))]
fn lower_bound(stack: &mut Stack) -> Result<Gift, Fault>
    ensures ok { IfOk result (λ gift. item_taken items.LowerBound stack.old ≡ Some (gift, stack.new)) }
    ensures misshapen { IfErr result (λ fault. fault ≡ Fault.Misshapen → item_taken items.LowerBound stack.old ≡ None) }
{
    let bound = stack.map_use()?;
    let MapUse { map, operands } = bound;
    let size = operands.len();
    Ok(Gift {
        operands,
        change: Change::Lower(map, size),
    })
}

#[tactic(auto, using(crate::proofs::Items::taking), unfolding(crate::specs::Taking::item_taken))]
fn upper_bound(stack: &mut Stack) -> Result<Gift, Fault>
    ensures ok { IfOk result (λ gift. item_taken items.UpperBound stack.old ≡ Some (gift, stack.new)) }
    ensures misshapen { IfErr result (λ fault. fault ≡ Fault.Misshapen → item_taken items.UpperBound stack.old ≡ None) }
{
    let bound = stack.map_use()?;
    let MapUse { map, operands } = bound;
    let size = operands.len();
    Ok(Gift {
        operands,
        change: Change::Upper(map, size),
    })
}

#[tactic(auto, using(crate::proofs::Items::taking), unfolding(crate::specs::Taking::item_taken))]
fn step(stack: &mut Stack) -> Result<Gift, Fault>
    ensures ok { IfOk result (λ gift. item_taken items.Step stack.old ≡ Some (gift, stack.new)) }
    ensures misshapen { IfErr result (λ fault. fault ≡ Fault.Misshapen → item_taken items.Step stack.old ≡ None) }
{
    let alloc = stack.alloc();
    let by = stack.number()?;
    let value = step_of(alloc, by)?;
    let gift = property_alone(alloc, b"step", value)?;
    Ok(gift)
}

#[tactic(auto, using(crate::proofs::Items::taking), unfolding(crate::specs::Taking::item_taken))]
fn carried(stack: &mut Stack) -> Result<Gift, Fault>
    ensures ok { IfOk result (λ gift. item_taken items.Carried stack.old ≡ Some (gift, stack.new)) }
    ensures misshapen { IfErr result (λ fault. fault ≡ Fault.Misshapen → item_taken items.Carried stack.old ≡ None) }
{
    let alloc = stack.alloc();
    let carried = stack.carried()?;
    let gift = carrying(alloc, carried)?;
    Ok(gift)
}

#[tactic(auto, using(crate::proofs::Items::taking), unfolding(crate::specs::Taking::item_taken))]
fn result_types(stack: &mut Stack) -> Result<Gift, Fault>
    ensures ok { IfOk result (λ gift. item_taken items.ResultTypes stack.old ≡ Some (gift, stack.new)) }
    ensures misshapen { IfErr result (λ fault. fault ≡ Fault.Misshapen → item_taken items.ResultTypes stack.old ≡ None) }
{
    let types = stack.types()?;
    Ok(change_alone(stack.alloc(), Change::Results(in_order(types))))
}

#[tactic(auto, using(crate::proofs::Items::taking), unfolding(crate::specs::Taking::item_taken))]
fn region(stack: &mut Stack) -> Result<Gift, Fault>
    ensures ok { IfOk result (λ gift. item_taken items.Region stack.old ≡ Some (gift, stack.new)) }
    ensures misshapen { IfErr result (λ fault. fault ≡ Fault.Misshapen → item_taken items.Region stack.old ≡ None) }
{
    let nodes = stack.nodes()?;
    Ok(change_alone(stack.alloc(), Change::Region(in_order(nodes))))
}

#[tactic(auto, using(crate::proofs::Items::taking), unfolding(crate::specs::Taking::item_taken))]
fn otherwise(stack: &mut Stack) -> Result<Gift, Fault>
    ensures ok { IfOk result (λ gift. item_taken items.Else stack.old ≡ Some (gift, stack.new)) }
    ensures misshapen { IfErr result (λ fault. fault ≡ Fault.Misshapen → item_taken items.Else stack.old ≡ None) }
{
    let nodes = stack.nodes()?;
    Ok(change_alone(stack.alloc(), Change::Region(in_order(nodes))))
}

#[tactic(auto, using(crate::proofs::Items::taking), unfolding(crate::specs::Taking::item_taken))]
fn by_hand(stack: &mut Stack) -> Result<Gift, Fault>
    ensures ok { IfOk result (λ gift. item_taken items.ByHand stack.old ≡ Some (gift, stack.new)) }
    ensures misshapen { IfErr result (λ fault. fault ≡ Fault.Misshapen → item_taken items.ByHand stack.old ≡ None) }
{
    Ok(operands_alone(Seq::new(stack.alloc())))
}

fn operands_alone(operands: Seq<Text>) -> Gift
    ensures { result ≡ the_operands_alone operands }
{
    Gift {
        operands,
        change: Change::Nothing,
    }
}

fn change_alone(alloc: Global, change: Change) -> Gift
    ensures { result ≡ the_gift [] change }
{
    Gift {
        operands: Seq::new(alloc),
        change,
    }
}

fn property_alone(alloc: Global, name: &[u8], value: Attr) -> Result<Gift, Fault>
    ensures ok { IfOk result (λ gift. gift ≡ the_property_alone name.now value) }
    ensures err { IfErr result (λ fault. fault ≡ Fault.NoMemory) }
{
    let entries = only(alloc, name, value)?;
    Ok(change_alone(alloc, Change::Properties(entries)))
}

// A map or set as this property, with its operands.
fn applied(alloc: Global, name: &[u8], map_use: MapUse) -> Result<Gift, Fault>
    ensures ok { IfOk result (λ gift. gift ≡ the_applied name.now map_use) }
    ensures err { IfErr result (λ fault. fault ≡ Fault.NoMemory) }
{
    let MapUse { map, operands } = map_use;
    let entries = only(alloc, name, map)?;
    Ok(Gift {
        operands,
        change: Change::Properties(entries),
    })
}

// A buffer, and the operands and the map of its subscripts, which stand from the last to the first.
fn place_of(alloc: Global, buffer: Text, subscripts: Seq<Expression>) -> Result<Gift, Fault>
    ensures ok { IfOk result (λ gift. gift ≡ the_access buffer subscripts) }
    ensures err { IfErr result (λ fault. fault ≡ Fault.NoMemory) }
{
    let Numbering {
        map,
        mut dims,
        syms,
    } = place_map(alloc, subscripts)?;
    dims.append(syms)?;
    let operands = one_before(buffer, dims)?;
    applied(
        alloc,
        b"map",
        MapUse {
            map: Attr::Map(map),
            operands,
        },
    )
}

fn carrying(alloc: Global, carried: Carried) -> Result<Gift, Fault>
    ensures ok { IfOk result (λ gift. gift ≡ the_carrying carried) }
    ensures err { IfErr result (λ fault. fault ≡ Fault.NoMemory) }
{
    let Carried { pairs, types } = carried;
    let (lists, types) = carried_of(alloc, pairs, types)?;
    let CarriedLists { inits, args } = lists;
    Ok(Gift {
        operands: inits,
        change: Change::Carrying(args, types),
    })
}

// A text before others.
fn one_before(first: Text, mut others: Seq<Text>) -> Result<Seq<Text>, Fault>
    ensures ok { IfOk result (λ texts. texts ≡ first ∷ others) }
    ensures err { IfErr result (λ fault. fault ≡ Fault.NoMemory) }
{
    others.insert(0, first)?;
    Ok(others)
}
