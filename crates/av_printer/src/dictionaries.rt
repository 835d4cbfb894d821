//! Dictionaries: entries in order of name.
ghost use Rattle.std.specs.Prelude.{◌≡◌, ◌≤◌, ◌++◌, length, map, IfOk};
ghost use Rattle.std.specs.List.{insert};
ghost use Rattle.av_printer.specs.Pieces.{Piece, spelt, commas};
ghost use Rattle.av_printer.specs.Attributes.{entry_pieces};
ghost use Rattle.av_printer.specs.Dictionaries.{inserted, in_order, pointed, dictionary, stands_before};

use crate::attributes::print_entry;
use crate::writer::Writer;
use av_affine::Text;
use av_tree::Named;
use std::alloc::{AllocError, Global};

/// The entries of a dictionary between commas, in order of name.
pub(crate) fn print_dictionary(out: &mut Writer, entries: &[Named]) -> Result<(), AllocError>
    ensures { IfOk result (λ _. out.new ≡ out.old ++ spelt (dictionary entries.now)) }
{
    let alloc = out.alloc();
    let ordered = in_order(alloc, entries)?;
    print_ordered(out, ordered.as_slice())?;
    Ok(())
}

fn print_ordered(out: &mut Writer, entries: &[&Named]) -> Result<(), AllocError>
    ensures { IfOk result (λ _. out.new ≡ out.old ++ spelt (commas (map entry_pieces (pointed entries.now)))) }
{
    for (i, entry) in entries.iter().enumerate() {
        out.push_comma_after(i)?;
        print_entry(out, *entry)?;
    }
    Ok(())
}

// The entries in order of name; those of one name stay in their order.
fn in_order<'a>(alloc: Global, entries: &'a [Named]) -> Result<Vec<&'a Named>, AllocError>
    ensures { IfOk result (λ ordered. pointed ordered.items ≡ in_order entries.now) }
{
    let mut ordered = Vec::new(alloc);
    for entry in entries {
        let at = place_of(ordered.as_slice(), entry);
        ordered.insert(at, entry)?;
    }
    Ok(ordered)
}

// Where an entry is inserted: before the first of a later name.
fn place_of(ordered: &[&Named], entry: &Named) -> usize
    ensures within { result ≤ length ordered.now }
    ensures place { insert (pointed ordered.now) result entry.now ≡ inserted entry.now (pointed ordered.now) }
{
    for (i, other) in ordered.iter().enumerate() {
        if stands_before(&entry.name, &other.name) {
            return i;
        }
    }
    ordered.len()
}

fn stands_before(a: &Text, b: &Text) -> bool
    ensures { result ≡ stands_before a.now b.now }
{
    a.as_slice().cmp(b.as_slice()).is_lt()
}
