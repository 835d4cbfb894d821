//! The forms that operations have of their own.
ghost use Rattle.std.specs.Prelude.{◌≡◌, ◌++◌, IfOk};
ghost use Rattle.av_dialects.specs.Rows.{number_of};
ghost use Rattle.av_printer.specs.Pieces.{spelt};
ghost use Rattle.av_printer.specs.Operations.{head_of};
ghost use Rattle.av_printer.specs.OwnForms.{own_line, own_end, by_row, own_form};

use crate::functions::print_function;
use crate::parts::{close_form, open_form};
use crate::writer::Writer;
use av_dialects::{form_of, row_of};
use av_tree::Node;
use std::alloc::AllocError;

/// An operation's own form.
#[derive(Clone, Copy, Debug, Drop)]
pub enum NamedForm {
    Module,
    Function,
    /// The name and the parts that this row of the table of operations has.
    Row(u8),
}

/// The form of the operation of this name, if it has one.
#[tactic(auto, unfolding(crate::specs::OwnForms::own_form))]
pub(crate) fn named_form(name: &[u8]) -> Option<NamedForm>
    ensures { result ≡ own_form name.now }
{
    if name == b"builtin.module".as_slice() {
        Some(NamedForm::Module)
    } else if name == b"func.func".as_slice() {
        Some(NamedForm::Function)
    } else {
        row_form(name)
    }
}

fn row_form(name: &[u8]) -> Option<NamedForm>
    ensures { result ≡ by_row (number_of name.now) }
{
    match row_of(name) {
        Some(number) => Some(NamedForm::Row(number)),
        None => None,
    }
}

/// What stands before the regions, or all of an operation without one.
pub(crate) fn open_named(out: &mut Writer, node: &Node, named: NamedForm) -> Result<(), AllocError>
    ensures { IfOk result (λ _. out.new ≡ out.old ++ spelt (own_line named (head_of node.now))) }
{
    match named {
        NamedForm::Module => out.push_bytes(b"module")?,
        NamedForm::Function => print_function(out, node)?,
        NamedForm::Row(number) => open_form(out, node, form_of(number))?,
    }
    Ok(())
}

/// What stands after the regions.
pub(crate) fn close_named(out: &mut Writer, node: &Node, named: NamedForm) -> Result<(), AllocError>
    ensures { IfOk result (λ _. out.new ≡ out.old ++ spelt (own_end named (head_of node.now))) }
{
    match named {
        NamedForm::Module => {}
        NamedForm::Function => {}
        NamedForm::Row(number) => close_form(out, node, form_of(number))?,
    }
    Ok(())
}
