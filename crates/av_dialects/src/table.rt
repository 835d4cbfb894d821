ghost use Rattle.std.specs.Prelude.{◌≡◌, ◌<◌, ◌≤◌, ◌≢◌, ◌↔◌, [], get_or, length, map, slice_get, All, IfSome, IsTrue, MatchOption, Some};
ghost use Rattle.std.specs.List.{HoldsAt};
ghost use Rattle.av_dialects.specs.Rows.{form_of as the_form_of, name_at as the_name_at, results_at as the_results_at, number_of, HasForm, HasMode, HasName, HasResults, IsNoneOf, names, property_of, row_count};

use super::{Key, Mode, Part, ROWS, Results, Row};

/// The number of the operation of this name, or none exactly where no operation has it.
pub fn row_of(name: &[u8]) -> Option<u8>
    ensures found { MatchOption result (IsNoneOf names name.now) (λ number. HasName number name.now) }
    ensures within { IfSome result (λ number. number < row_count) }
    ensures number { result ≡ number_of name.now }
{
    number_in(ROWS, name)
}

fn number_in(rows: &[Row], name: &[u8]) -> Option<u8>
    requires { length rows.now ≤ 256 }
    ensures found { MatchOption result (IsNoneOf (map (λ row. row.0.now) rows.now) name.now) (λ k. slice_get (map (λ row. row.0.now) rows.now) k ≡ Some name.now) }
    ensures within { IfSome result (λ k. k < length rows.now) }
{
    place_of(rows, name)
}

// The place of the first row with this name.
fn place_of(rows: &[Row], name: &[u8]) -> Option<u8>
    requires { length rows.now ≤ 256 }
    ensures found { MatchOption result (All (λ row. row.0.now ≢ name.now) rows.now) (λ place. HoldsAt (λ row. row.0.now ≡ name.now) rows.now place) }
    ensures within { IfSome result (λ place. place < length rows.now) }
{
    for (place, row) in rows.iter().enumerate() {
        if has_name(row, name) {
            return Some(place as u8);
        }
    }
    None
}

fn has_name(row: &Row, name: &[u8]) -> bool
    ensures { IsTrue result ↔ (row.now.0.now ≡ name.now) }
{
    row.0.as_bytes() == name
}

/// The name of an operation.
pub fn name_of(number: u8) -> &'static str
    requires { number < row_count }
    ensures { HasName number result.now }
{
    row_at(number).0
}

/// The first of the modes that take an operation.
pub fn mode_of(number: u8) -> Mode
    requires { number < row_count }
    ensures { HasMode number result }
{
    row_at(number).1
}

/// The results of an operation.
pub fn results_of(number: u8) -> Results
    requires { number < row_count }
    ensures { HasResults number result }
{
    row_at(number).2
}

/// The parts of an operation's form, behind its name.
pub fn parts_of(number: u8) -> &'static [Part]
    requires { number < row_count }
    ensures { HasForm number result.now }
{
    row_at(number).3
}

/// The parts of an operation's form, or none where no operation has the number.
pub fn form_of(number: u8) -> &'static [Part]
    ensures { result.now ≡ the_form_of number }
{
    form_in(ROWS, number as usize)
}

/// The name of an operation, or none where no operation has the number.
pub fn name_at(number: u8) -> &'static str
    ensures { result.now ≡ the_name_at number }
{
    name_in(ROWS, number as usize)
}

fn name_in(rows: &[Row], place: usize) -> &'static str
    ensures { result.now ≡ get_or (map (λ row. row.0.now) rows.now) place [] }
{
    match rows.get(place) {
        Some(row) => row.0,
        None => "",
    }
}

/// The results of an operation, or none where no operation has the number.
pub fn results_at(number: u8) -> Results
    ensures { result ≡ the_results_at number }
{
    results_in(ROWS, number as usize)
}

fn results_in(rows: &[Row], place: usize) -> Results
    ensures { result ≡ get_or (map (λ row. row.2) rows.now) place Results.Zero }
{
    match rows.get(place) {
        Some(row) => row.2,
        None => Results::Zero,
    }
}

fn form_in(rows: &[Row], place: usize) -> &'static [Part]
    ensures { result.now ≡ get_or (map (λ row. row.3.now) rows.now) place [] }
{
    match rows.get(place) {
        Some(row) => row.3,
        None => &[],
    }
}

fn row_at(number: u8) -> Row
    requires { number < row_count }
    ensures name { HasName number result.0.now }
    ensures mode { HasMode number result.1 }
    ensures results { HasResults number result.2 }
    ensures form { HasForm number result.3.now }
{
    row_in(ROWS, number as usize)
}

fn row_in(rows: &[Row], place: usize) -> Row
    requires { place < length rows.now }
    ensures name { slice_get (map (λ row. row.0.now) rows.now) place ≡ Some result.0.now }
    ensures mode { slice_get (map (λ row. row.1) rows.now) place ≡ Some result.1 }
    ensures results { slice_get (map (λ row. row.2) rows.now) place ≡ Some result.2 }
    ensures form { slice_get (map (λ row. row.3.now) rows.now) place ≡ Some result.3.now }
{
    rows[place]
}

/// The name of a property.
pub fn property(key: Key) -> &'static str
    ensures { result.now ≡ property_of key }
{
    match key {
        Key::Predicate => "predicate",
        Key::Kind => "kind",
        Key::StaticPosition => "static_position",
        Key::Mask => "mask",
    }
}
