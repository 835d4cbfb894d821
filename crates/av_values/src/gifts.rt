//! What an item of a form gives to an operation. Items give from the last to the first.

ghost use Rattle.std.specs.Prelude.{◌≡◌, ◌++◌, ◌∷◌, [], pos, slice_set, Some, IfErr, IfOk, OnOk};
ghost use Rattle.av_tree.specs.declared.attribute.Attr.{out-Attr};
ghost use Rattle.av_tree.specs.declared.node.Node.{out-Node, roll-Node};
ghost use Rattle.av_values.specs.Gifts.{changed, front, end_of as the_end_of, filled, given, last_numbers as the_last_numbers, numbers_in as the_numbers_in, region_of as the_region_of, sizes_entry as the_sizes_entry, with_args_before, put_at_slot, with_last};
ghost use Rattle.av_values.specs.Nodes.{entry};

use crate::loops::{loop_variable, with_terminator};
use crate::nodes::{property, written_types};
use crate::stack::{Fault, text_of};
use crate::value::{Constant, Selected};
use av_affine::{Duplicate, Seq, Text};
use av_dialects::{Slot, Slots};
use av_tree::{Attr, Body, BodyArg, Named, Node, TypeText};
use std::alloc::Global;

/// A change of an operation, but for its operands. Lists stand in order.
#[derive(Drop)]
pub enum Change {
    Nothing,
    /// The types of all operands, which are written.
    Typed(Seq<TypeText>),
    /// A type at these slots.
    Filled(Slots, TypeText),
    /// The types of a choice.
    Chosen(Selected),
    /// Properties before those that it has.
    Properties(Seq<Named>),
    Attributes(Seq<Named>),
    /// The value of a constant, and its type.
    Valued(Constant),
    /// The argument that counts, before those that the first region has.
    Counting(Text),
    /// A lower bound, and how many operands it has.
    Lower(Attr, usize),
    /// An upper bound, and how many operands it has.
    Upper(Attr, usize),
    /// Carried arguments, and their types.
    Carrying(Seq<BodyArg>, Seq<TypeText>),
    /// The types of all results, which are written.
    Results(Seq<TypeText>),
    /// A region of these operations before those that it has.
    Region(Seq<Node>),
}

/// Operands, which are put before those that an operation has, and a change.
#[derive(Drop)]
pub struct Gift {
    pub operands: Seq<Text>,
    pub change: Change,
}

/// Gives an operation what an item has for it.
pub fn give(alloc: Global, node: &mut Node, gift: Gift) -> Result<(), Fault>
    ensures ok { OnOk result (node.new ≡ roll-Node (given gift (out-Node node.old))) }
    ensures err { IfErr result (λ fault. fault ≡ Fault.NoMemory) }
{
    let Gift {
        mut operands,
        change,
    } = gift;
    make_change(alloc, node, change)?;
    operands.append(std::mem::replace(&mut node.operands, Seq::new(alloc)))?;
    node.operands = operands;
    Ok(())
}

fn make_change(alloc: Global, node: &mut Node, change: Change) -> Result<(), Fault>
    ensures ok { OnOk result (node.new ≡ roll-Node (changed change (out-Node node.old))) }
    ensures err { IfErr result (λ fault. fault ≡ Fault.NoMemory) }
{
    match change {
        Change::Nothing => Ok(()),
        Change::Typed(types) => put_in_types(alloc, node, types),
        Change::Filled(slots, ty) => fill(alloc, node, slots, ty),
        Change::Chosen(types) => put_chosen(alloc, node, types),
        Change::Properties(entries) => put_properties(alloc, node, entries),
        Change::Attributes(entries) => put_attributes(node, entries),
        Change::Valued(constant) => put_constant(alloc, node, constant),
        Change::Counting(name) => put_counter(alloc, node, name),
        Change::Lower(map, size) => put_lower(alloc, node, map, size),
        Change::Upper(map, size) => put_upper(alloc, node, map, size),
        Change::Carrying(args, types) => put_carried(alloc, node, args, types),
        Change::Results(types) => put_out_types(alloc, node, types),
        Change::Region(nodes) => put_region(alloc, node, nodes),
    }
}

fn put_in_types(alloc: Global, node: &mut Node, types: Seq<TypeText>) -> Result<(), Fault>
    ensures ok { OnOk result (node.new ≡ roll-Node (changed (Change.Typed types) (out-Node node.old))) }
    ensures err { IfErr result (λ fault. fault ≡ Fault.NoMemory) }
{
    node.in_types = written_types(alloc, types.as_slice())?;
    Ok(())
}

fn put_out_types(alloc: Global, node: &mut Node, types: Seq<TypeText>) -> Result<(), Fault>
    ensures ok { OnOk result (node.new ≡ roll-Node (changed (Change.Results types) (out-Node node.old))) }
    ensures err { IfErr result (λ fault. fault ≡ Fault.NoMemory) }
{
    node.out_types = written_types(alloc, types.as_slice())?;
    Ok(())
}

fn fill(alloc: Global, node: &mut Node, slots: Slots, ty: TypeText) -> Result<(), Fault>
    ensures ok { OnOk result (node.new ≡ roll-Node (filled slots ty (out-Node node.old))) }
    ensures err { IfErr result (λ fault. fault ≡ Fault.NoMemory) }
{
    match slots {
        Slots::One(slot) => put_type(node, slot, ty),
        Slots::Two(slot, other) => {
            put_type(node, other, ty.duplicate(alloc)?);
            put_type(node, slot, ty);
        }
        Slots::Three(slot, other, last) => {
            put_type(node, last, ty.duplicate(alloc)?);
            put_type(node, other, ty.duplicate(alloc)?);
            put_type(node, slot, ty);
        }
    }
    Ok(())
}

fn put_type(node: &mut Node, slot: Slot, ty: TypeText)
    ensures { node.new ≡ roll-Node (put_at_slot slot (Some ty) (out-Node node.old)) }
{
    match slot {
        Slot::Output => set_type(&mut node.out_types, 0, ty),
        Slot::Input(place) => set_type(&mut node.in_types, place as usize, ty),
        Slot::LastInput(behind) => {
            let place = node.in_types.len().saturating_sub(behind as usize + 1);
            set_type(&mut node.in_types, place, ty)
        }
    }
}

// Writes a type at a place, if there is such a place.
fn set_type(types: &mut Seq<Option<TypeText>>, place: usize, ty: TypeText)
    ensures { types.new ≡ slice_set types.old place (Some ty) }
{
    if place < types.len() {
        types.set(place, Some(ty));
    }
}

fn put_chosen(alloc: Global, node: &mut Node, types: Selected) -> Result<(), Fault>
    ensures ok { OnOk result (node.new ≡ roll-Node (changed (Change.Chosen types) (out-Node node.old))) }
    ensures err { IfErr result (λ fault. fault ≡ Fault.NoMemory) }
{
    let Selected {
        condition,
        operands,
    } = types;
    let mut in_types = Seq::new(alloc);
    in_types.push(condition)?;
    in_types.push(Some(operands.duplicate(alloc)?))?;
    in_types.push(Some(operands.duplicate(alloc)?))?;
    let mut out_types = Seq::new(alloc);
    out_types.push(Some(operands))?;
    node.in_types = in_types;
    node.out_types = out_types;
    Ok(())
}

fn put_properties(alloc: Global, node: &mut Node, mut entries: Seq<Named>) -> Result<(), Fault>
    ensures ok { OnOk result (node.new ≡ roll-Node (changed (Change.Properties entries) (out-Node node.old))) }
    ensures err { IfErr result (λ fault. fault ≡ Fault.NoMemory) }
{
    entries.append(std::mem::replace(&mut node.properties, Seq::new(alloc)))?;
    node.properties = entries;
    Ok(())
}

fn put_attributes(node: &mut Node, entries: Seq<Named>) -> Result<(), Fault>
    ensures ok { OnOk result (node.new ≡ roll-Node (changed (Change.Attributes entries) (out-Node node.old))) }
    ensures err { IfErr result (λ fault. fault ≡ Fault.NoMemory) }
{
    node.attrs = entries;
    Ok(())
}

fn put_constant(alloc: Global, node: &mut Node, constant: Constant) -> Result<(), Fault>
    ensures ok { OnOk result (node.new ≡ roll-Node (changed (Change.Valued constant) (out-Node node.old))) }
    ensures err { IfErr result (λ fault. fault ≡ Fault.NoMemory) }
{
    let Constant { value, ty } = constant;
    let mut out_types = Seq::new(alloc);
    out_types.push(ty)?;
    let entries = only(alloc, b"value", value)?;
    put_properties(alloc, node, entries)?;
    node.out_types = out_types;
    Ok(())
}

/// One entry alone.
pub fn only(alloc: Global, name: &[u8], value: Attr) -> Result<Seq<Named>, Fault>
    ensures ok { IfOk result (λ entries. entries ≡ entry name.now value ∷ []) }
    ensures err { IfErr result (λ fault. fault ≡ Fault.NoMemory) }
{
    let mut entries = Seq::new(alloc);
    let one = property(alloc, name, value)?;
    entries.push(one)?;
    Ok(entries)
}

fn put_counter(alloc: Global, node: &mut Node, name: Text) -> Result<(), Fault>
    ensures ok { OnOk result (node.new ≡ roll-Node (changed (Change.Counting name) (out-Node node.old))) }
    ensures err { IfErr result (λ fault. fault ≡ Fault.NoMemory) }
{
    let mut args = Seq::new(alloc);
    args.push(loop_variable(alloc, name)?)?;
    put_args(&mut node.regions, args)
}

// Arguments of the first region before its own.
fn put_args(regions: &mut Seq<Body>, mut args: Seq<BodyArg>) -> Result<(), Fault>
    ensures ok { OnOk result (regions.new ≡ with_args_before args regions.old) }
    ensures err { IfErr result (λ fault. fault ≡ Fault.NoMemory) }
{
    if !regions.is_empty() {
        let Body { args: own, nodes } = regions.remove(0);
        args.append(own)?;
        regions.insert(0, Body { args, nodes })?;
    }
    Ok(())
}

fn put_lower(alloc: Global, node: &mut Node, map: Attr, size: usize) -> Result<(), Fault>
    ensures ok { OnOk result (node.new ≡ roll-Node (changed (Change.Lower map size) (out-Node node.old))) }
    ensures err { IfErr result (λ fault. fault ≡ Fault.NoMemory) }
{
    let entries = only(alloc, b"lowerBoundMap", map)?;
    put_lower_size(alloc, &mut node.properties, size)?;
    put_properties(alloc, node, entries)
}

fn put_lower_size(alloc: Global, entries: &mut Seq<Named>, size: usize) -> Result<(), Fault>
    ensures ok { OnOk result (entries.new ≡ front 1 entries.old ++ the_sizes_entry (pos size ∷ the_last_numbers entries.old) ∷ []) }
    ensures err { IfErr result (λ fault. fault ≡ Fault.NoMemory) }
{
    let numbers = take_numbers(alloc, entries);
    let sizes = sizes_before(alloc, size, numbers)?;
    let last = sizes_entry(alloc, sizes)?;
    entries.push(last)?;
    Ok(())
}

fn sizes_before(alloc: Global, size: usize, numbers: Seq<i128>) -> Result<Seq<i128>, Fault>
    ensures ok { IfOk result (λ sizes. sizes ≡ pos size ∷ numbers) }
    ensures err { IfErr result (λ fault. fault ≡ Fault.NoMemory) }
{
    let mut sizes = Seq::new(alloc);
    sizes.push(size as i128)?;
    sizes.append(numbers)?;
    Ok(sizes)
}

// The numbers of the last entry, which is taken away.
fn take_numbers(alloc: Global, entries: &mut Seq<Named>) -> Seq<i128>
    ensures numbers { result ≡ the_last_numbers entries.old }
    ensures rest { entries.new ≡ front 1 entries.old }
{
    match entries.pop() {
        Some(last) => numbers_in(alloc, last.value),
        None => Seq::new(alloc),
    }
}

fn numbers_in(alloc: Global, value: Attr) -> Seq<i128>
    ensures { result ≡ the_numbers_in (out-Attr value) }
{
    match value {
        Attr::Array { elem: _, numbers } => numbers,
        _ => Seq::new(alloc),
    }
}

fn put_upper(alloc: Global, node: &mut Node, map: Attr, size: usize) -> Result<(), Fault>
    ensures ok { OnOk result (node.new ≡ roll-Node (changed (Change.Upper map size) (out-Node node.old))) }
    ensures err { IfErr result (λ fault. fault ≡ Fault.NoMemory) }
{
    let entries = only(alloc, b"upperBoundMap", map)?;
    let behind = node.operands.len();
    put_upper_size(alloc, &mut node.properties, size, behind)?;
    put_properties(alloc, node, entries)
}

fn put_upper_size(
    alloc: Global,
    entries: &mut Seq<Named>,
    size: usize,
    behind: usize,
) -> Result<(), Fault>
    ensures ok { OnOk result (entries.new ≡ entries.old ++ the_sizes_entry (pos size ∷ pos behind ∷ []) ∷ []) }
    ensures err { IfErr result (λ fault. fault ≡ Fault.NoMemory) }
{
    let mut numbers = Seq::new(alloc);
    numbers.push(behind as i128)?;
    let sizes = sizes_before(alloc, size, numbers)?;
    let last = sizes_entry(alloc, sizes)?;
    entries.push(last)?;
    Ok(())
}

fn sizes_entry(alloc: Global, numbers: Seq<i128>) -> Result<Named, Fault>
    ensures ok { IfOk result (λ one. one ≡ the_sizes_entry numbers) }
    ensures err { IfErr result (λ fault. fault ≡ Fault.NoMemory) }
{
    let elem = TypeText::Scalar(text_of(alloc, b"i32")?);
    property(alloc, b"operandSegmentSizes", Attr::Array { elem, numbers })
}

fn put_carried(
    alloc: Global,
    node: &mut Node,
    args: Seq<BodyArg>,
    types: Seq<TypeText>,
) -> Result<(), Fault>
    ensures ok { OnOk result (node.new ≡ roll-Node (changed (Change.Carrying args types) (out-Node node.old))) }
    ensures err { IfErr result (λ fault. fault ≡ Fault.NoMemory) }
{
    put_args(&mut node.regions, args)?;
    let own = written_types(alloc, types.as_slice())?;
    put_last(&mut node.in_types, own)?;
    node.out_types = written_types(alloc, types.as_slice())?;
    Ok(())
}

// Types in the place of the last ones, which are as many.
fn put_last(types: &mut Seq<Option<TypeText>>, own: Seq<Option<TypeText>>) -> Result<(), Fault>
    ensures ok { OnOk result (types.new ≡ with_last own types.old) }
    ensures err { IfErr result (λ fault. fault ≡ Fault.NoMemory) }
{
    types.truncate(types.len().saturating_sub(own.len()));
    types.append(own)?;
    Ok(())
}

fn put_region(alloc: Global, node: &mut Node, nodes: Seq<Node>) -> Result<(), Fault>
    ensures ok { OnOk result (node.new ≡ roll-Node (changed (Change.Region nodes) (out-Node node.old))) }
    ensures err { IfErr result (λ fault. fault ≡ Fault.NoMemory) }
{
    let region = region_of(alloc, node.name.as_slice(), nodes)?;
    node.regions.insert(0, region)?;
    Ok(())
}

fn region_of(alloc: Global, name: &[u8], nodes: Seq<Node>) -> Result<Body, Fault>
    ensures ok { IfOk result (λ body. body ≡ the_region_of name.now nodes) }
    ensures err { IfErr result (λ fault. fault ≡ Fault.NoMemory) }
{
    let nodes = with_terminator(alloc, end_of(name), nodes)?;
    Ok(Body {
        args: Seq::new(alloc),
        nodes,
    })
}

// What ends a region of an operation of this name where none is written.
fn end_of(name: &[u8]) -> &'static [u8]
    ensures { result.now ≡ the_end_of name.now }
{
    if name == b"scf.for".as_slice() {
        b"scf.yield"
    } else {
        b"affine.yield"
    }
}
