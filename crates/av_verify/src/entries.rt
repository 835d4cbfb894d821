//! Properties and attributes, which are one list of entries.

ghost use Rattle.std.specs.Prelude.{◌≡◌, ◌==◌, ◌≤◌, length, count_by, is_some, codes};
ghost use Rattle.std.specs.List.{list_all, list_any};
ghost use Rattle.std.specs.Str.{bytes_eq};
ghost use Rattle.av_verify.specs.Rows.{mark_name, property_names};
ghost use Rattle.std.specs.Option.{option_copied};
ghost use Rattle.av_verify.specs.Entries.{counted, counts, entry_of, first_of, has_good_entries, has_needed, is_dropped, is_entry, is_good_mark, is_known, is_mark, is_once, is_property, map_of, mark_number_of, marks_of, number_of};

use super::rows::{Row, mark_of, properties_of};
use av_affine::No;
use av_ir::Marks;
use av_tree::{Attr, MapText, Named, Node, TypeText};

/// The value of an operation's entry of this name, if it has one.
pub(crate) fn entry<'t>(node: &'t Node, name: &[u8]) -> Option<&'t Attr>
    ensures { option_copied result ≡ entry_of name.now node.now }
{
    let among_properties = first(node.properties.as_slice(), name);
    if among_properties.is_some() {
        among_properties
    } else {
        first(node.attrs.as_slice(), name)
    }
}

// The value of the first entry of this name.
fn first<'t>(entries: &'t [Named], name: &[u8]) -> Option<&'t Attr>
    ensures { option_copied result ≡ first_of name.now entries.now }
{
    let found = entries.iter().find(|entry| entry.name.as_slice() == name)?;
    Some(&found.value)
}

/// The number in an entry, of whatever type.
pub(crate) fn number_in(node: &Node, name: &[u8]) -> Option<i128>
    ensures { result ≡ number_of (entry_of name.now node.now) }
{
    match entry(node, name) {
        Some(Attr::Number { value, .. }) => Some(*value),
        _ => None,
    }
}

/// The map in an entry, written out.
pub(crate) fn map_in<'t>(node: &'t Node, name: &[u8]) -> Option<&'t MapText>
    ensures { option_copied result ≡ map_of (entry_of name.now node.now) }
{
    match entry(node, name) {
        Some(Attr::Map(map)) => Some(map),
        _ => None,
    }
}

/// The number of a mark: one of type i64 from 0 to 2^64 - 1.
pub(crate) fn mark_number(value: &Attr) -> Option<No>
    ensures { result ≡ mark_number_of value.now }
{
    match value {
        Attr::Number {
            value,
            ty: TypeText::Scalar(name),
        } => {
            if name.as_slice() == b"i64".as_slice() {
                No::try_from(*value).ok()
            } else {
                None
            }
        }
        _ => None,
    }
}

/// Whether an entry is read and dropped on every operation: nothing asks its value, or how often it stands.
pub(crate) fn is_dropped(entry: &Named) -> bool
    ensures { result ≡ is_dropped entry.now }
{
    entry.name.as_slice() == b"overflowFlags".as_slice()
}

// Whether an entry is the mark that the operation may have, with a number.
fn is_mark(row: Row, entry: &Named) -> bool
    ensures { result ≡ is_mark row entry.now }
{
    entry.name.as_slice() == mark_of(row) && mark_number(&entry.value).is_some()
}

// Whether an entry counts: it is no such mark, and isn't dropped.
fn counts(row: Row, entry: &Named) -> bool
    ensures { result ≡ counts row entry.now }
{
    !is_mark(row, entry) && !is_dropped(entry)
}

/// How many entries of an operation count, properties and attributes together.
pub(crate) fn counted(row: Row, node: &Node) -> usize
    ensures { result ≡ counted row node.now }
{
    counted_among(row, node.properties.as_slice()) + counted_among(row, node.attrs.as_slice())
}

fn counted_among(row: Row, entries: &[Named]) -> usize
    ensures value { result ≡ count_by (counts row) entries.now }
    ensures most { result ≤ length entries.now }
{
    entries.iter().filter(|entry| counts(row, entry)).count()
}

/// Whether all properties that an operation needs are there.
pub(crate) fn has_needed(row: Row, node: &Node) -> bool
    ensures { result ≡ has_needed row node.now }
{
    has_all(node, properties_of(row))
}

fn has_all(node: &Node, names: &[&[u8]]) -> bool
    ensures { result ≡ list_all (λ name. is_some (entry_of name.now node.now)) names.now }
{
    names.iter().all(|name| entry(node, name).is_some())
}

/// Whether each property of an operation stands once, each entry is known, and the mark is good.
pub(crate) fn has_good_entries(row: Row, node: &Node) -> bool
    ensures { result ≡ has_good_entries row node.now }
{
    has_each_once(row, node)
        && are_known(row, node.properties.as_slice())
        && are_known(row, node.attrs.as_slice())
        && has_good_mark(row, node)
}

fn has_each_once(row: Row, node: &Node) -> bool
    ensures { result ≡ list_all (λ name. is_once name node.now) (property_names row) }
{
    are_once(node, properties_of(row))
}

fn are_once(node: &Node, names: &[&[u8]]) -> bool
    ensures { result ≡ list_all (λ name. is_once name.now node.now) names.now }
{
    names.iter().all(|name| is_once(node, name))
}

// Whether an operation has one entry of this name.
fn is_once(node: &Node, name: &[u8]) -> bool
    ensures { result ≡ is_once name.now node.now }
{
    times(node.properties.as_slice(), name) + times(node.attrs.as_slice(), name) == 1
}

// How many entries have this name.
fn times(entries: &[Named], name: &[u8]) -> usize
    ensures value { result ≡ count_by (is_entry name.now) entries.now }
    ensures most { result ≤ length entries.now }
{
    entries
        .iter()
        .filter(|entry| entry.name.as_slice() == name)
        .count()
}

fn are_known(row: Row, entries: &[Named]) -> bool
    ensures { result ≡ list_all (is_known row) entries.now }
{
    entries.iter().all(|entry| is_known(row, entry))
}

// Whether an entry is a property or is dropped, or its name has a dot, as marks and other attributes that are dropped have.
fn is_known(row: Row, entry: &Named) -> bool
    ensures { result ≡ is_known row entry.now }
{
    is_property(row, entry.name.as_slice()) || is_dropped(entry) || has_dot(entry.name.as_slice())
}

fn has_dot(name: &[u8]) -> bool
    ensures { result ≡ list_any (λ byte. byte == 46) name.now }
{
    name.iter().any(|byte| *byte == b'.')
}

fn is_property(row: Row, name: &[u8]) -> bool
    ensures { result ≡ is_property row name.now }
{
    is_among(properties_of(row), name)
}

fn is_among(names: &[&[u8]], name: &[u8]) -> bool
    ensures { result ≡ list_any (λ one. bytes_eq one.now name.now) names.now }
{
    names.iter().any(|one| *one == name)
}

// The operation's mark, if it stands, stands once and with a number.
fn has_good_mark(row: Row, node: &Node) -> bool
    ensures { result ≡ is_good_mark (is_once (mark_name row) node.now) (entry_of (mark_name row) node.now) }
{
    let mark = mark_of(row);
    match entry(node, mark) {
        Some(value) => mark_number(value).is_some() && is_once(node, mark),
        None => true,
    }
}

/// The marks of an operation.
pub(crate) fn marks_of(row: Row, node: &Node) -> Marks
    ensures { result ≡ marks_of row node.now }
{
    let number = match entry(node, mark_of(row)) {
        Some(value) => mark_number(value),
        None => None,
    };
    let (loop_no, source) = match row {
        Row::Loop => (number, None),
        _ => (None, number),
    };
    Marks {
        loop_no,
        source,
        distinct: false,
    }
}
