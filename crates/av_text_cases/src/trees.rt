//! What is made of the tree of a text.
ghost use Rattle.std.specs.Prelude.{◌≤◌, ◌^◌, length};

use crate::stop::Stop;
use crate::texts::tree;
use av_io::PlainSink;
use av_ir::{Module, marked};
use av_printer::{Form, print, spell};
use av_shapes::Shape;
use av_totree::to_tree;
use av_verify::{Mode, is_first_path, verify};
use std::alloc::{AllocError, Global};

/// The most bytes that a sink takes at a time.
const SINK_BYTES: usize = 7;

/// The size by which a module is to be vectorized.
const SIZE: u16 = 4;

/// The tree of a text, printed.
pub fn printed(alloc: Global, text: &[u8], form: Form) -> Result<String, Stop>
    requires { length text.now ≤ 2 ^ 20 }
{
    let tree = tree(alloc, text)?;
    let output = spell(alloc, &tree, form)?;
    Ok(string_of(alloc, output.as_slice())?)
}

/// The tree of a text, printed to a sink that takes a few bytes at a time.
pub fn sunk(alloc: Global, text: &[u8], form: Form) -> Result<String, Stop>
    requires { length text.now ≤ 2 ^ 20 }
{
    let tree = tree(alloc, text)?;
    let mut sink = PlainSink::new(alloc, SINK_BYTES);
    print(alloc, &tree, form, &mut sink)?;
    Ok(string_of(alloc, sink.bytes())?)
}

/// Whether the tree of a text has the forms that are taken so far.
pub fn path(alloc: Global, text: &[u8]) -> Result<String, Stop>
    requires { length text.now ≤ 2 ^ 20 }
{
    let tree = tree(alloc, text)?;
    let answer = if is_first_path(&tree) {
        "taken"
    } else {
        "not taken"
    };
    Ok(String::from_str(alloc, answer)?)
}

/// What answers a text whose module is to be vectorized: the module with marks, printed.
pub fn answer(alloc: Global, text: &[u8], form: Form) -> Result<String, Stop>
    requires { length text.now ≤ 2 ^ 20 }
{
    let read = tree(alloc, text)?;
    let mode = Mode::Scalar(Shape::new(alloc, &[SIZE], false));
    let module = verify(alloc, &read, &mode)?;
    let module = marked(alloc, &module)?;
    shown(alloc, &module, form)
}

/// The number of operations of the module of a text, itself included.
pub fn verified(alloc: Global, text: &[u8]) -> Result<String, Stop>
    requires { length text.now ≤ 2 ^ 20 }
{
    let tree = tree(alloc, text)?;
    let module = verify(alloc, &tree, &Mode::Run)?;
    let count = module.owners.len();
    Ok(format!(in alloc; "{count} operations")?)
}

/// The module of a text, printed.
pub fn written(alloc: Global, text: &[u8], form: Form) -> Result<String, Stop>
    requires { length text.now ≤ 2 ^ 20 }
{
    let read = tree(alloc, text)?;
    let module = verify(alloc, &read, &Mode::Run)?;
    shown(alloc, &module, form)
}

/// A module, printed.
pub fn shown(alloc: Global, module: &Module, form: Form) -> Result<String, Stop> {
    let tree = to_tree(alloc, module)?;
    let output = spell(alloc, &tree, form)?;
    Ok(string_of(alloc, output.as_slice())?)
}

// Bytes as text; nothing where they are none.
fn string_of(alloc: Global, bytes: &[u8]) -> Result<String, AllocError> {
    String::from_str(alloc, str::from_utf8(bytes).unwrap_or(""))
}
