//! What the properties and the first region of an operation hold.
ghost use Rattle.std.specs.Prelude.{◌≡◌, Some, option_copied};
ghost use Rattle.av_printer.specs.Operations.{property, map_of, arguments_of};

use av_tree::{Attr, BodyArg, MapText, Named, Node};

/// The value of the first entry of a name.
#[tactic(auto, using(crate::proofs::OperationSteps::property_steps))]
pub(crate) fn property<'a>(entries: &'a [Named], name: &[u8]) -> Option<&'a Attr>
    ensures { option_copied result ≡ property entries.now name.now }
{
    for entry in entries {
        if entry.name.as_slice() == name {
            return Some(&entry.value);
        }
    }
    None
}

/// The arguments of the first region.
#[tactic(auto, using(crate::proofs::OperationSteps::argument_steps))]
pub(crate) fn arguments(node: &Node) -> &[BodyArg]
    ensures { result.now ≡ arguments_of node.now }
{
    match node.regions.as_slice() {
        [first, ..] => first.args.as_slice(),
        [] => &[],
    }
}

#[tactic(auto, using(crate::proofs::OperationSteps::map_steps))]
pub(crate) fn map_of(attr: Option<&Attr>) -> Option<&MapText>
    ensures { option_copied result ≡ map_of (option_copied attr.entry) }
{
    match attr {
        Some(attr) => map_in(attr),
        None => None,
    }
}

#[tactic(auto, using(crate::proofs::OperationSteps::map_steps))]
fn map_in(attr: &Attr) -> Option<&MapText>
    ensures { option_copied result ≡ map_of (Some attr.now) }
{
    match attr {
        Attr::Map(map) => Some(map),
        _ => None,
    }
}
