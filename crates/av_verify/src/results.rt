//! The names before `=`: `%r` names one result, `%r:2` two, which are used as `%r#0` and `%r#1`.

ghost use Rattle.std.specs.Prelude.{◌≡◌, ◌==◌, ◌≤◌, length, position, IfOk, IfSome};
ghost use Rattle.std.specs.List.{list_all};
ghost use Rattle.av_verify.specs.FirstPath.{is_last};
ghost use Rattle.av_verify.specs.Results.{colon, counts_one, has_no_result, has_one_result, is_one, result_name, stands_for_one, use_name};

use av_tree::Node;
use std::alloc::{AllocError, Global};

/// Whether the names before `=` stand for one result.
pub(crate) fn has_one_result(node: &Node) -> bool
    ensures { result ≡ has_one_result node.now }
{
    match node.results.as_slice() {
        [name] => stands_for_one(name.as_slice()),
        _ => false,
    }
}

/// Whether no name stands before `=`.
pub(crate) fn has_no_result(node: &Node) -> bool
    ensures { result ≡ has_no_result node.now }
{
    node.results.as_slice().is_empty()
}

// The place of the `:` in a name, or its end.
fn colon(name: &[u8]) -> usize
    ensures place { result ≡ colon name.now }
    ensures within { result ≤ length name.now }
{
    first_colon(name).unwrap_or(name.len())
}

fn first_colon(name: &[u8]) -> Option<usize>
    ensures place { result ≡ position (λ byte. byte == 58) name.now }
    ensures within { IfSome result (λ at. at ≤ length name.now) }
{
    name.iter().position(|byte| *byte == b':')
}

fn stands_for_one(name: &[u8]) -> bool
    ensures { result ≡ stands_for_one name.now }
{
    let (_, counted) = name.split_at(colon(name));
    counts_one(counted)
}

// Whether a name counts one result from its `:` on; where it has none, it does.
fn counts_one(counted: &[u8]) -> bool
    ensures { result ≡ counts_one counted.now }
{
    match counted {
        [] => true,
        [_, digits @ ..] => is_one(digits),
    }
}

fn is_one(digits: &[u8]) -> bool
    ensures { result ≡ is_one digits.now }
{
    ends_with_one(digits) && are_zeros(&digits[..digits.len().saturating_sub(1)])
}

fn ends_with_one(digits: &[u8]) -> bool
    ensures { result ≡ is_last (λ digit. digit == 49) digits.now }
{
    match digits.last() {
        Some(digit) => *digit == b'1',
        None => false,
    }
}

fn are_zeros(digits: &[u8]) -> bool
    ensures { result ≡ list_all (λ digit. digit == 48) digits.now }
{
    digits.iter().all(|digit| *digit == b'0')
}

/// The name by which the only result of an operation is used; no name where it isn't one.
pub(crate) fn result_name(alloc: Global, node: &Node) -> Result<Vec<u8>, AllocError>
    ensures { IfOk result (λ name. name.items ≡ result_name node.now) }
{
    match node.results.as_slice() {
        [only] => use_name(alloc, only.as_slice()),
        _ => Ok(Vec::new(alloc)),
    }
}

// `%r#0` for `%r:1`, and `%r` for `%r`.
fn use_name(alloc: Global, name: &[u8]) -> Result<Vec<u8>, AllocError>
    ensures { IfOk result (λ used. used.items ≡ use_name name.now) }
{
    let (stem, counted) = name.split_at(colon(name));
    let mut used = Vec::from_slice(alloc, stem)?;
    match counted {
        [] => Ok(used),
        _ => {
            used.extend_from_slice(b"#0")?;
            Ok(used)
        }
    }
}
