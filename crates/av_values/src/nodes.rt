//! A bare operation, an entry of a dictionary, and lists of types that are written or not.

ghost use Rattle.std.specs.Prelude.{◌≡◌, map, None, Some, IfErr, IfOk};
ghost use Rattle.av_values.specs.Nodes.{entry, plain};

use crate::stack::{Fault, text_of};
use av_affine::{Duplicate, Seq, Text};
use av_tree::{Attr, Named, Node, TypeText};
use std::alloc::Global;

/// A node of a name and place, all else empty.
pub fn plain_node(alloc: Global, name: Text, place: u32) -> Node
    ensures { result ≡ plain name place }
{
    Node {
        name,
        place,
        results: Seq::new(alloc),
        operands: Seq::new(alloc),
        properties: Seq::new(alloc),
        attrs: Seq::new(alloc),
        regions: Seq::new(alloc),
        in_types: Seq::new(alloc),
        out_types: Seq::new(alloc),
    }
}

/// A property.
pub fn property(alloc: Global, name: &[u8], value: Attr) -> Result<Named, Fault>
    ensures ok { IfOk result (λ one. one ≡ entry name.now value) }
    ensures err { IfErr result (λ fault. fault ≡ Fault.NoMemory) }
{
    let name = text_of(alloc, name)?;
    Ok(Named { name, value })
}

/// Types that aren't written, one for each operand.
pub fn unwritten(alloc: Global, operands: &[Text]) -> Result<Seq<Option<TypeText>>, Fault>
    ensures ok { IfOk result (λ types. types ≡ map (λ _. None) operands.now) }
    ensures err { IfErr result (λ fault. fault ≡ Fault.NoMemory) }
{
    let mut types = Seq::new(alloc);
    for _operand in operands {
        types.push(None)?;
    }
    Ok(types)
}

/// The types, all of them written.
pub fn written_types(alloc: Global, types: &[TypeText]) -> Result<Seq<Option<TypeText>>, Fault>
    ensures ok { IfOk result (λ list. list ≡ map (λ type. Some type) types.now) }
    ensures err { IfErr result (λ fault. fault ≡ Fault.NoMemory) }
{
    let mut list = Seq::new(alloc);
    for ty in types {
        list.push(Some(ty.duplicate(alloc)?))?;
    }
    Ok(list)
}
