//! Operations, line by line.
ghost use Rattle.std.specs.Prelude.{◌≡◌, ◌++◌, ◌+◌, None, map, IfOk};
ghost use Rattle.av_printer.specs.Pieces.{spelt, commas, joined};
ghost use Rattle.av_printer.specs.Operations.{results_before};
ghost use Rattle.av_printer.specs.Spelling.{operation_of, all_silent, node_line, own_body, else_body, own_bodies, label, common_body, common_regions, left_out, form_of, is_yield, is_silent, pieces_of, spelling};

use crate::expressions::print_texts;
use crate::form::Form;
use crate::generic::{close_generic, open_generic, print_arguments};
use crate::named::{NamedForm, close_named, named_form, open_named};
use crate::slices::behind;
use crate::writer::Writer;
use av_affine::Text;
use av_tree::{Body, BodyArg, Node, Tree};
use std::alloc::{AllocError, Global};

/// The whole text of a tree.
///
/// # Errors
///
/// Want of memory.
#[tactic(auto, using(crate::proofs::Steps::steps), unfolding(crate::specs::Spelling::spelling))]
pub fn spell(alloc: Global, tree: &Tree, form: Form) -> Result<Text, AllocError>
    ensures { IfOk result (λ text. text ≡ spelling form tree.now) }
{
    let mut out = Writer::new(alloc);
    print_node(&mut out, &tree.root, form, 0)?;
    out.push_line(0)?;
    Ok(out.finish())
}

// An operation, and those in its regions on lines of their own.
#[tactic(auto, using(crate::proofs::Steps::steps, crate::proofs::NodeSteps::node_steps))]
#[cycle(nodes)]
fn print_node(out: &mut Writer, node: &Node, form: Form, depth: usize) -> Result<(), AllocError>
    ensures { IfOk result (λ _. out.new ≡ out.old ++ spelt ((operation_of node.now).whole form depth)) }
{
    print_results(out, node.results.as_slice())?;
    match form_for(node.name.as_slice(), form) {
        Some(named) => {
            open_named(out, node, named)?;
            print_own_regions(out, node.regions.as_slice(), depth)?;
            close_named(out, node, named)?;
        }
        None => {
            open_generic(out, node)?;
            print_common_regions(out, node.regions.as_slice(), depth)?;
            close_generic(out, node)?;
        }
    }
    Ok(())
}

fn form_for(name: &[u8], form: Form) -> Option<NamedForm>
    ensures { result ≡ form_of form name.now }
{
    match form {
        Form::Named => named_form(name),
        Form::Generic => None,
    }
}

// The names of results and the sign behind them; nothing where there is none.
#[tactic(auto, using(crate::proofs::Steps::steps, crate::proofs::NodeSteps::results_steps, crate::proofs::ExpressionSteps::result_steps))]
fn print_results(out: &mut Writer, results: &[Text]) -> Result<(), AllocError>
    ensures { IfOk result (λ _. out.new ≡ out.old ++ spelt (results_before results.now)) }
{
    if !results.is_empty() {
        print_texts(out, results)?;
        out.push_bytes(b" = ")?;
    }
    Ok(())
}

// Regions of an operation in its own form: those behind the first stand behind `else`.
#[tactic(auto, using(crate::proofs::Steps::steps, crate::proofs::NodeSteps::branch_steps))]
#[cycle(nodes)]
fn print_own_regions(out: &mut Writer, regions: &[Body], depth: usize) -> Result<(), AllocError>
    ensures { IfOk result (λ _. out.new ≡ out.old ++ spelt (joined (own_bodies depth regions.now))) }
{
    match regions {
        [first, ..] => {
            print_own_region(out, first, depth)?;
            print_else_regions(out, behind(regions, 1), depth)?;
        }
        [] => {}
    }
    Ok(())
}

#[cycle(nodes)]
fn print_else_regions(out: &mut Writer, regions: &[Body], depth: usize) -> Result<(), AllocError>
    ensures { IfOk result (λ _. out.new ≡ out.old ++ spelt (joined (map (else_body depth) regions.now))) }
{
    for region in regions {
        print_else_region(out, region, depth)?;
    }
    Ok(())
}

// A region behind `else`, unless no line stands in it.
#[tactic(auto, using(crate::proofs::Steps::steps, crate::proofs::NodeSteps::branch_steps, crate::proofs::NodeSteps::region_silent_steps))]
#[cycle(nodes)]
fn print_else_region(out: &mut Writer, region: &Body, depth: usize) -> Result<(), AllocError>
    ensures { IfOk result (λ _. out.new ≡ out.old ++ spelt (else_body depth region.now)) }
{
    if !are_silent(region.nodes.as_slice()) {
        out.push_bytes(b" else")?;
        print_own_region(out, region, depth)?;
    }
    Ok(())
}

// Whether the named form leaves out each of several operations.
#[tactic(auto, using(crate::proofs::NodeSteps::region_silent_steps))]
fn are_silent(nodes: &[Node]) -> bool
    ensures { result ≡ all_silent (map operation_of nodes.now) }
{
    for node in nodes {
        if !is_silent(node.name.as_slice(), node.operands.as_slice()) {
            return false;
        }
    }
    true
}

#[tactic(auto, using(crate::proofs::Steps::steps, crate::proofs::NodeSteps::region_steps))]
#[cycle(nodes)]
fn print_own_region(out: &mut Writer, region: &Body, depth: usize) -> Result<(), AllocError>
    ensures { IfOk result (λ _. out.new ≡ out.old ++ spelt (own_body depth region.now)) }
{
    let inside = deeper(depth)?;
    out.push_bytes(b" {")?;
    print_operations(out, region.nodes.as_slice(), Form::Named, inside)?;
    out.push_line(depth)?;
    out.push_bytes(b"}")?;
    Ok(())
}

// Regions of an operation in the form that all have in common.
#[tactic(auto, using(crate::proofs::Steps::steps, crate::proofs::NodeSteps::region_steps))]
#[cycle(nodes)]
fn print_common_regions(out: &mut Writer, regions: &[Body], depth: usize) -> Result<(), AllocError>
    ensures { IfOk result (λ _. out.new ≡ out.old ++ spelt (common_regions (map (common_body depth) regions.now))) }
{
    if regions.is_empty() {
        return Ok(());
    }
    out.push_bytes(b" (")?;
    for (i, region) in regions.iter().enumerate() {
        out.push_comma_after(i)?;
        print_common_region(out, region, depth)?;
    }
    out.push_bytes(b")")?;
    Ok(())
}

#[tactic(auto, using(crate::proofs::Steps::steps, crate::proofs::NodeSteps::region_steps))]
#[cycle(nodes)]
fn print_common_region(out: &mut Writer, region: &Body, depth: usize) -> Result<(), AllocError>
    ensures { IfOk result (λ _. out.new ≡ out.old ++ spelt (common_body depth region.now)) }
{
    let inside = deeper(depth)?;
    out.push_bytes(b"{")?;
    print_label(out, region.args.as_slice(), depth)?;
    print_operations(out, region.nodes.as_slice(), Form::Generic, inside)?;
    out.push_line(depth)?;
    out.push_bytes(b"}")?;
    Ok(())
}

// A label with the arguments of a region, on a line of its own; nothing where there is none.
#[tactic(auto, using(crate::proofs::Steps::steps, crate::proofs::NodeSteps::label_steps))]
fn print_label(out: &mut Writer, args: &[BodyArg], depth: usize) -> Result<(), AllocError>
    ensures { IfOk result (λ _. out.new ≡ out.old ++ spelt (label depth args.now)) }
{
    if !args.is_empty() {
        out.push_line(depth)?;
        out.push_bytes(b"^bb0")?;
        print_arguments(out, args)?;
        out.push_bytes(b":")?;
    }
    Ok(())
}

// The depth of a region's lines. No tree in memory is as deep as numbers go.
fn deeper(depth: usize) -> Result<usize, AllocError>
    ensures { IfOk result (λ d. d ≡ depth + 1) }
{
    match depth.checked_add(1) {
        Some(inside) => Ok(inside),
        None => Err(AllocError),
    }
}

#[cycle(nodes)]
fn print_operations(
    out: &mut Writer,
    nodes: &[Node],
    form: Form,
    depth: usize,
) -> Result<(), AllocError>
    ensures { IfOk result (λ _. out.new ≡ out.old ++ spelt (joined (map (node_line form depth) nodes.now))) }
{
    for node in nodes {
        print_line(out, node, form, depth)?;
    }
    Ok(())
}

// An operation on a line of its own, unless its own form leaves it out.
#[tactic(auto, using(crate::proofs::Steps::steps, crate::proofs::NodeSteps::line_steps))]
#[cycle(nodes)]
fn print_line(out: &mut Writer, node: &Node, form: Form, depth: usize) -> Result<(), AllocError>
    ensures { IfOk result (λ _. out.new ≡ out.old ++ spelt (node_line form depth node.now)) }
{
    if !is_left_out(node, form) {
        out.push_line(depth)?;
        print_node(out, node, form, depth)?;
    }
    Ok(())
}

// Whether the named form leaves an operation out: a yield without values.
#[tactic(auto, using(crate::proofs::NodeSteps::silent_steps))]
fn is_left_out(node: &Node, form: Form) -> bool
    ensures { result ≡ left_out form (operation_of node.now) }
{
    match form {
        Form::Named => is_silent(node.name.as_slice(), node.operands.as_slice()),
        Form::Generic => false,
    }
}

#[tactic(auto, using(crate::proofs::NodeSteps::silent_steps))]
fn is_silent(name: &[u8], operands: &[Text]) -> bool
    ensures { result ≡ is_silent name.now operands.now }
{
    operands.is_empty() && is_yield(name)
}

#[tactic(auto, unfolding(crate::specs::Spelling::is_yield))]
fn is_yield(name: &[u8]) -> bool
    ensures { result ≡ is_yield name.now }
{
    name == b"affine.yield".as_slice()
        || name == b"scf.yield".as_slice()
        || name == b"vector.yield".as_slice()
}
