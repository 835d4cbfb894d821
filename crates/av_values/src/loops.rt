//! The parts of loops.

ghost use Rattle.std.specs.Prelude.{◌≡◌, reverse, Some, None, IfErr, IfOk, OnOk};
ghost use Rattle.av_values.specs.Loops.{carried_lists, counter, ended, ends_region, has_end, step, with_pair};

use crate::nodes::plain_node;
use crate::stack::{Fault, in_order, text_of};
use crate::value::CarriedPair;
use av_affine::{Duplicate, Seq, Text};
use av_tree::{Attr, BodyArg, Node, TypeText};
use std::alloc::Global;

/// The argument of a loop's region that counts.
pub fn loop_variable(alloc: Global, name: Text) -> Result<BodyArg, Fault>
    ensures ok { IfOk result (λ arg. arg ≡ counter name) }
    ensures err { IfErr result (λ fault. fault ≡ Fault.NoMemory) }
{
    let ty = TypeText::Scalar(text_of(alloc, b"index")?);
    Ok(BodyArg { name, ty })
}

/// The step of a loop.
pub fn step_of(alloc: Global, value: i128) -> Result<Attr, Fault>
    ensures ok { IfOk result (λ attr. attr ≡ step value) }
    ensures err { IfErr result (λ fault. fault ≡ Fault.NoMemory) }
{
    let ty = TypeText::Scalar(text_of(alloc, b"index")?);
    Ok(Attr::Number { value, ty })
}

/// The first values of carried arguments, and the arguments.
#[derive(Drop)]
pub struct CarriedLists {
    pub inits: Seq<Text>,
    pub args: Seq<BodyArg>,
}

/// The first values of carried arguments and the arguments, from the last to the first, with their types.
pub fn carried_of(
    alloc: Global,
    pairs: Seq<CarriedPair>,
    types: Seq<TypeText>,
) -> Result<(CarriedLists, Seq<TypeText>), Fault>
    ensures lists { IfOk result (λ made. made.0 ≡ carried_lists (reverse pairs) types) }
    ensures types { IfOk result (λ made. made.1 ≡ types) }
    ensures err { IfErr result (λ fault. fault ≡ Fault.NoMemory) }
{
    let own = copied(alloc, types.as_slice())?;
    let lists = paired(alloc, pairs, types)?;
    Ok((lists, own))
}

fn copied(alloc: Global, types: &[TypeText]) -> Result<Seq<TypeText>, Fault>
    ensures ok { IfOk result (λ list. list ≡ types.now) }
    ensures err { IfErr result (λ fault. fault ≡ Fault.NoMemory) }
{
    let mut list = Seq::new(alloc);
    for ty in types {
        list.push(ty.duplicate(alloc)?)?;
    }
    Ok(list)
}

// An argument of each of the types, as far as there are pairs, which stand from the last to the first.
fn paired(
    alloc: Global,
    mut pairs: Seq<CarriedPair>,
    types: Seq<TypeText>,
) -> Result<CarriedLists, Fault>
    ensures ok { IfOk result (λ lists. lists ≡ carried_lists (reverse pairs) types) }
    ensures err { IfErr result (λ fault. fault ≡ Fault.NoMemory) }
{
    let mut types = in_order(types);
    let mut lists = CarriedLists {
        inits: Seq::new(alloc),
        args: Seq::new(alloc),
    };
    while let Some(ty) = types.pop() {
        let Some(pair) = pairs.pop() else {
            return Ok(lists);
        };
        push_pair(&mut lists, pair, ty)?;
    }
    Ok(lists)
}

fn push_pair(lists: &mut CarriedLists, pair: CarriedPair, ty: TypeText) -> Result<(), Fault>
    ensures ok { OnOk result (lists.new ≡ with_pair lists.old pair ty) }
    ensures err { IfErr result (λ fault. fault ≡ Fault.NoMemory) }
{
    let CarriedPair { name, init } = pair;
    lists.inits.push(init)?;
    lists.args.push(BodyArg { name, ty })?;
    Ok(())
}

/// The operations of a region, with a terminator of this name where it is left out.
pub fn with_terminator(alloc: Global, name: &[u8], mut nodes: Seq<Node>) -> Result<Seq<Node>, Fault>
    ensures ok { IfOk result (λ made. made ≡ ended name.now nodes) }
    ensures err { IfErr result (λ fault. fault ≡ Fault.NoMemory) }
{
    if is_ended(nodes.as_slice()) {
        return Ok(nodes);
    }
    let name = text_of(alloc, name)?;
    nodes.push(plain_node(alloc, name, 0))?;
    Ok(nodes)
}

fn is_ended(nodes: &[Node]) -> bool
    ensures { result ≡ has_end nodes.now }
{
    match nodes.last() {
        Some(last) => is_terminator(last.name.as_slice()),
        None => false,
    }
}

fn is_terminator(name: &[u8]) -> bool
    ensures { result ≡ ends_region name.now }
{
    name == b"func.return".as_slice()
        || name == b"affine.yield".as_slice()
        || name == b"scf.yield".as_slice()
        || name == b"vector.yield".as_slice()
}
