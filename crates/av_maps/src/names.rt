//! The parameters of maps and sets by their names, and what aliases stand for.

ghost use Rattle.std.specs.Prelude.{◌≡◌, None, count_by, find};
ghost use Rattle.std.specs.Option.{option_copied, option_map};
ghost use Rattle.av_maps.specs.Names.{aliased, are_own, is_alias, is_among, leaf_among, leaf_of, map_in, parameters_differ, place_of, set_in, unaliased};

use av_affine::{Leaf, No, Text};
use av_tree::{Alias, Attr, MapText, SetText};

/// The first place of a name among names.
pub(crate) fn place_of(names: &[Text], name: &[u8]) -> Option<usize>
    ensures { result ≡ place_of names.now name.now }
{
    names.iter().position(|one| one.as_slice() == name)
}

/// The parameter of a name; a name that is none is a dimension past the last.
pub(crate) fn leaf_of(dims: &[Text], syms: &[Text], name: &[u8]) -> Leaf
    ensures { result ≡ leaf_of dims.now syms.now name.now }
{
    match place_of(dims, name) {
        Some(at) => Leaf::Dim(at as No),
        None => symbol_of(dims.len(), syms, name),
    }
}

fn symbol_of(past: usize, syms: &[Text], name: &[u8]) -> Leaf
    ensures { result ≡ leaf_among None (place_of syms.now name.now) past }
{
    match place_of(syms, name) {
        Some(at) => Leaf::Sym(at as No),
        None => Leaf::Dim(past as No),
    }
}

/// Whether no parameter stands twice, as a dimension, as a symbol, or as both.
pub(crate) fn parameters_differ(dims: &[Text], syms: &[Text]) -> bool
    ensures { result ≡ parameters_differ dims.now syms.now }
{
    are_own(dims, syms) && are_own(syms, &[])
}

// Whether each of the names differs from those behind it, and from others.
fn are_own(names: &[Text], others: &[Text]) -> bool
    ensures { result ≡ are_own names.now others.now }
{
    for at in 0..names.len() {
        let name = names[at].as_slice();
        if is_among(&names[at + 1..], name) || is_among(others, name) {
            return false;
        }
    }
    true
}

fn is_among(names: &[Text], name: &[u8]) -> bool
    ensures { result ≡ is_among names.now name.now }
{
    names.iter().any(|one| one.as_slice() == name)
}

// The value of an alias that is defined just once.
fn aliased<'t>(aliases: &'t [Alias], name: &[u8]) -> Option<&'t Attr>
    ensures { option_copied result ≡ aliased aliases.now name.now }
{
    if times(aliases, name) == 1 {
        first(aliases, name)
    } else {
        None
    }
}

// How often an alias is defined.
fn times(aliases: &[Alias], name: &[u8]) -> usize
    ensures { result ≡ count_by (is_alias name.now) aliases.now }
{
    let named = aliases.iter().filter(|alias| alias.name.as_slice() == name);
    named.count()
}

// The value of the first alias of this name.
fn first<'t>(aliases: &'t [Alias], name: &[u8]) -> Option<&'t Attr>
    ensures { option_copied result ≡ option_map (λ alias. alias.value) (find (is_alias name.now) aliases.now) }
{
    let found = aliases.iter().find(|alias| alias.name.as_slice() == name)?;
    Some(&found.value)
}

// What an attribute is, where it may be the use of an alias.
fn unaliased<'t>(aliases: &'t [Alias], value: &'t Attr) -> Option<&'t Attr>
    ensures { option_copied result ≡ unaliased aliases.now value.now }
{
    match value {
        Attr::AliasUse(name) => aliased(aliases, name.as_slice()),
        _ => Some(value),
    }
}

/// The map that an attribute is, written out or by an alias that is defined just once.
pub fn map_in<'t>(aliases: &'t [Alias], value: &'t Attr) -> Option<&'t MapText>
    ensures { option_copied result ≡ map_in aliases.now value.now }
{
    match unaliased(aliases, value) {
        Some(Attr::Map(map)) => Some(map),
        _ => None,
    }
}

/// The set that an attribute is, likewise.
pub fn set_in<'t>(aliases: &'t [Alias], value: &'t Attr) -> Option<&'t SetText>
    ensures { option_copied result ≡ set_in aliases.now value.now }
{
    match unaliased(aliases, value) {
        Some(Attr::Set(set)) => Some(set),
        _ => None,
    }
}
