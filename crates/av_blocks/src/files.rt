//! Rows of files, modules and functions.

ghost use Rattle.std.specs.Prelude.{◌≡◌, [], ◌∷◌, ◌++◌, codes, drop, map, reverse, Some, None, IfErr, IfOk, OnOk};
ghost use Rattle.av_values.specs.Nodes.{entry};
ghost use Rattle.av_values.specs.Operations.{function_of as the_function_of, function_type as the_function_type, is_module as is_one_module, module_of as the_module_of, root_of as the_root_of, with_regions};
ghost use Rattle.av_blocks.specs.rows.FileRows.{by_row as by_file_row};
ghost use Rattle.av_blocks.specs.rows.FunctionRows.{by_row as by_function_row};

use super::generic::{generic_form, generic_node};
use super::regions::{named_node, onward, with_results};
use av_affine::{Duplicate, Seq, Text};
use av_tree::table::{FileRule, FunctionRule};
use av_tree::{Alias, Attr, Body, BodyArg, Named, Node, Tree, TypeText};
use av_values::nodes::{plain_node, property};
use av_values::puts::{no_entries, no_nodes};
use av_values::spellings::unquoted;
use av_values::stack::{Fault, Stack, before, in_order, text_of};
use av_values::value::Onward;
use std::alloc::Global;

/// Does what a row of a file does to the values of its symbols.
pub fn reduce_file(stack: &mut Stack, rule: FileRule, place: u32) -> Result<(), Fault>
    ensures ok { OnOk result (by_file_row rule place stack.old ≡ Some stack.new) }
    ensures misshapen { IfErr result (λ fault. fault ≡ Fault.Misshapen → by_file_row rule place stack.old ≡ None) }
{
    match rule {
        FileRule::WholeFile => whole_file(stack),
        FileRule::NoMoreAliases => no_aliases(stack),
        FileRule::NoContent => no_nodes(stack),
        FileRule::NoMoreFunctions => no_nodes(stack),
        FileRule::NamedContent => with_results(stack, place),
        FileRule::PlainContent => plain_content(stack),
        FileRule::WrittenFunction => same_node(stack),
        FileRule::OnlyModule => only_module(stack),
        FileRule::FirstFunction => onward(stack),
        FileRule::NextFunction => node_before(stack),
        FileRule::NextNamedFunction => named_node_before(stack, place),
        FileRule::NextAlias => alias_before(stack),
        FileRule::AliasOfMap => same_attr(stack),
        FileRule::AliasOfSet => same_attr(stack),
        FileRule::OnlyGenericModule => only_generic_module(stack, place),
        FileRule::GenericFunction => generic_form(stack, place),
    }
}

#[tactic(auto, using(av_values::proofs::Replacing::replacing))]
fn same_node(stack: &mut Stack) -> Result<(), Fault>
    ensures ok { OnOk result (by_file_row FileRule.WrittenFunction 0 stack.old ≡ Some stack.new) }
    ensures misshapen { IfErr result (λ fault. fault ≡ Fault.Misshapen → by_file_row FileRule.WrittenFunction 0 stack.old ≡ None) }
{
    let node = stack.node()?;
    stack.push_node(node)?;
    Ok(())
}

#[tactic(auto, using(av_values::proofs::Replacing::replacing))]
fn only_module(stack: &mut Stack) -> Result<(), Fault>
    ensures ok { OnOk result (by_file_row FileRule.OnlyModule 0 stack.old ≡ Some stack.new) }
    ensures misshapen { IfErr result (λ fault. fault ≡ Fault.Misshapen → by_file_row FileRule.OnlyModule 0 stack.old ≡ None) }
{
    let alloc = stack.alloc();
    let node = stack.node()?;
    stack.push_onward(Onward {
        node,
        others: Seq::new(alloc),
    })?;
    Ok(())
}

#[tactic(auto, using(av_values::proofs::Replacing::replacing))]
fn node_before(stack: &mut Stack) -> Result<(), Fault>
    ensures ok { OnOk result (by_file_row FileRule.NextFunction 0 stack.old ≡ Some stack.new) }
    ensures misshapen { IfErr result (λ fault. fault ≡ Fault.Misshapen → by_file_row FileRule.NextFunction 0 stack.old ≡ None) }
{
    let node = stack.node()?;
    let others = stack.nodes()?;
    let nodes = before(node, others)?;
    stack.push_nodes(nodes)?;
    Ok(())
}

#[tactic(auto, using(av_values::proofs::Replacing::replacing))]
fn named_node_before(stack: &mut Stack, place: u32) -> Result<(), Fault>
    ensures ok { OnOk result (by_file_row FileRule.NextNamedFunction place stack.old ≡ Some stack.new) }
    ensures misshapen { IfErr result (λ fault. fault ≡ Fault.Misshapen → by_file_row FileRule.NextNamedFunction place stack.old ≡ None) }
{
    let results = stack.texts()?;
    let node = stack.node()?;
    let others = stack.nodes()?;
    let named = named_node(node, in_order(results), place);
    let nodes = before(named, others)?;
    stack.push_nodes(nodes)?;
    Ok(())
}

#[tactic(auto, using(av_values::proofs::Replacing::replacing))]
fn whole_file(stack: &mut Stack) -> Result<(), Fault>
    ensures ok { OnOk result (by_file_row FileRule.WholeFile 0 stack.old ≡ Some stack.new) }
    ensures misshapen { IfErr result (λ fault. fault ≡ Fault.Misshapen → by_file_row FileRule.WholeFile 0 stack.old ≡ None) }
{
    let alloc = stack.alloc();
    let aliases = stack.aliases()?;
    let nodes = stack.nodes()?;
    let root = root_of(alloc, nodes)?;
    stack.push_tree(Tree {
        aliases: in_order(aliases),
        root,
    })?;
    Ok(())
}

// The module of a file, which is put in around functions.
fn root_of(alloc: Global, mut nodes: Seq<Node>) -> Result<Node, Fault>
    ensures ok { IfOk result (λ root. root ≡ the_root_of nodes) }
    ensures err { IfErr result (λ fault. fault ≡ Fault.NoMemory) }
{
    if is_module(nodes.as_slice()) {
        if let Some(node) = nodes.pop() {
            return Ok(node);
        }
    }
    module_of(alloc, Seq::new(alloc), Seq::new(alloc), nodes, 0)
}

fn is_module(nodes: &[Node]) -> bool
    ensures { result ≡ is_one_module nodes.now }
{
    match nodes {
        [node] => node.name.as_slice() == b"builtin.module".as_slice(),
        _ => false,
    }
}

// A module of these operations, which stand from the last to the first.
fn module_of(
    alloc: Global,
    properties: Seq<Named>,
    attrs: Seq<Named>,
    nodes: Seq<Node>,
    place: u32,
) -> Result<Node, Fault>
    ensures ok { IfOk result (λ node. node ≡ the_module_of properties attrs nodes place) }
    ensures err { IfErr result (λ fault. fault ≡ Fault.NoMemory) }
{
    let body = Body {
        args: Seq::new(alloc),
        nodes: in_order(nodes),
    };
    let name = text_of(alloc, b"builtin.module")?;
    with_body(
        alloc,
        plain_node(alloc, name, place),
        properties,
        attrs,
        body,
    )
}

// A node with these properties and attributes, and one region.
fn with_body(
    alloc: Global,
    mut node: Node,
    properties: Seq<Named>,
    attrs: Seq<Named>,
    body: Body,
) -> Result<Node, Fault>
    ensures ok { IfOk result (λ made. made ≡ with_regions node properties attrs (body ∷ [])) }
    ensures err { IfErr result (λ fault. fault ≡ Fault.NoMemory) }
{
    let mut regions = Seq::new(alloc);
    regions.push(body)?;
    node.properties = properties;
    node.attrs = attrs;
    node.regions = regions;
    Ok(node)
}

/// Does what a row of modules and functions does to the values of its symbols.
pub fn reduce_function(stack: &mut Stack, rule: FunctionRule, place: u32) -> Result<(), Fault>
    ensures ok { OnOk result (by_function_row rule place stack.old ≡ Some stack.new) }
    ensures misshapen { IfErr result (λ fault. fault ≡ Fault.Misshapen → by_function_row rule place stack.old ≡ None) }
{
    match rule {
        FunctionRule::BuiltinModule => builtin_module(stack, place),
        FunctionRule::NoSymbol => no_entries(stack),
        FunctionRule::NoVisibility => no_entries(stack),
        FunctionRule::WrittenSymbol => written_symbol(stack),
        FunctionRule::WrittenVisibility => written_visibility(stack),
        FunctionRule::FuncFunc => func_func(stack, place),
        FunctionRule::NoFunctionArguments => no_arguments(stack),
        FunctionRule::NoMoreFunctionArguments => no_arguments(stack),
        FunctionRule::FirstFunctionArgument => argument_before(stack),
        FunctionRule::NextFunctionArgument => argument_before(stack),
        FunctionRule::ArgumentOfFunction => argument(stack),
        FunctionRule::ModuleForm => same_node(stack),
        FunctionRule::FunctionForm => same_node(stack),
    }
}

#[tactic(auto, using(av_values::proofs::Replacing::replacing))]
pub(super) fn no_arguments(stack: &mut Stack) -> Result<(), Fault>
    ensures ok { OnOk result (by_function_row FunctionRule.NoFunctionArguments 0 stack.old ≡ Some stack.new) }
    ensures misshapen { IfErr result (λ fault. fault ≡ Fault.Misshapen → by_function_row FunctionRule.NoFunctionArguments 0 stack.old ≡ None) }
{
    stack.push_args(Seq::new(stack.alloc()))?;
    Ok(())
}

#[tactic(auto, using(av_values::proofs::Replacing::replacing))]
fn argument_before(stack: &mut Stack) -> Result<(), Fault>
    ensures ok { OnOk result (by_function_row FunctionRule.NextFunctionArgument 0 stack.old ≡ Some stack.new) }
    ensures misshapen { IfErr result (λ fault. fault ≡ Fault.Misshapen → by_function_row FunctionRule.NextFunctionArgument 0 stack.old ≡ None) }
{
    let arg = stack.arg()?;
    let others = stack.args()?;
    let args = before(arg, others)?;
    stack.push_args(args)?;
    Ok(())
}

// An argument; its dictionary is dropped.
#[tactic(auto, using(av_values::proofs::Replacing::replacing))]
fn argument(stack: &mut Stack) -> Result<(), Fault>
    ensures ok { OnOk result (by_function_row FunctionRule.ArgumentOfFunction 0 stack.old ≡ Some stack.new) }
    ensures misshapen { IfErr result (λ fault. fault ≡ Fault.Misshapen → by_function_row FunctionRule.ArgumentOfFunction 0 stack.old ≡ None) }
{
    let name = stack.text()?;
    let ty = stack.ty()?;
    let _dropped = stack.entries()?;
    stack.push_arg(BodyArg { name, ty })?;
    Ok(())
}

#[tactic(auto, using(av_values::proofs::Replacing::replacing))]
fn written_symbol(stack: &mut Stack) -> Result<(), Fault>
    ensures ok { OnOk result (by_function_row FunctionRule.WrittenSymbol 0 stack.old ≡ Some stack.new) }
    ensures misshapen { IfErr result (λ fault. fault ≡ Fault.Misshapen → by_function_row FunctionRule.WrittenSymbol 0 stack.old ≡ None) }
{
    let alloc = stack.alloc();
    let symbol = stack.text()?;
    let entry = symbol_entry(alloc, &symbol)?;
    let entries = before(entry, Seq::new(alloc))?;
    stack.push_entries(entries)?;
    Ok(())
}

#[tactic(auto, using(av_values::proofs::Replacing::replacing))]
fn written_visibility(stack: &mut Stack) -> Result<(), Fault>
    ensures ok { OnOk result (by_function_row FunctionRule.WrittenVisibility 0 stack.old ≡ Some stack.new) }
    ensures misshapen { IfErr result (λ fault. fault ≡ Fault.Misshapen → by_function_row FunctionRule.WrittenVisibility 0 stack.old ≡ None) }
{
    let alloc = stack.alloc();
    let word = stack.text()?;
    let entry = quoted(alloc, b"sym_visibility", word)?;
    let entries = before(entry, Seq::new(alloc))?;
    stack.push_entries(entries)?;
    Ok(())
}

// The property of the name of an operation, which is the symbol without the `@` before it.
fn symbol_entry(alloc: Global, symbol: &Text) -> Result<Named, Fault>
    ensures ok { IfOk result (λ one. one ≡ entry (codes "sym_name") (Attr.Quoted (drop 1 symbol.now))) }
    ensures err { IfErr result (λ fault. fault ≡ Fault.NoMemory) }
{
    let name = name_of_symbol(alloc, symbol)?;
    quoted(alloc, b"sym_name", name)
}

fn name_of_symbol(alloc: Global, symbol: &Text) -> Result<Text, Fault>
    ensures ok { IfOk result (λ name. name ≡ drop 1 symbol.now) }
    ensures err { IfErr result (λ fault. fault ≡ Fault.NoMemory) }
{
    match symbol.as_slice() {
        [_, name @ ..] => text_of(alloc, name),
        [] => Ok(Seq::new(alloc)),
    }
}

fn quoted(alloc: Global, name: &[u8], value: Text) -> Result<Named, Fault>
    ensures ok { IfOk result (λ one. one ≡ entry name.now (Attr.Quoted value)) }
    ensures err { IfErr result (λ fault. fault ≡ Fault.NoMemory) }
{
    property(alloc, name, Attr::Quoted(value))
}

#[tactic(auto, using(av_values::proofs::Replacing::replacing))]
fn builtin_module(stack: &mut Stack, place: u32) -> Result<(), Fault>
    ensures ok { OnOk result (by_function_row FunctionRule.BuiltinModule place stack.old ≡ Some stack.new) }
    ensures misshapen { IfErr result (λ fault. fault ≡ Fault.Misshapen → by_function_row FunctionRule.BuiltinModule place stack.old ≡ None) }
{
    let alloc = stack.alloc();
    let properties = stack.entries()?;
    let attrs = stack.entries()?;
    let nodes = stack.nodes()?;
    let properties = in_order(properties);
    let attrs = in_order(attrs);
    let node = module_of(alloc, properties, attrs, nodes, place)?;
    stack.push_node(node)?;
    Ok(())
}

// What a function is written with, each list from the last to the first.
#[derive(Drop)]
pub(super) struct WrittenFunction {
    properties: Seq<Named>,
    symbol: Text,
    args: Seq<BodyArg>,
    results: Seq<TypeText>,
    attrs: Seq<Named>,
    nodes: Seq<Node>,
}

#[tactic(auto, using(av_values::proofs::Replacing::replacing))]
fn func_func(stack: &mut Stack, place: u32) -> Result<(), Fault>
    ensures ok { OnOk result (by_function_row FunctionRule.FuncFunc place stack.old ≡ Some stack.new) }
    ensures misshapen { IfErr result (λ fault. fault ≡ Fault.Misshapen → by_function_row FunctionRule.FuncFunc place stack.old ≡ None) }
{
    let alloc = stack.alloc();
    let properties = stack.entries()?;
    let symbol = stack.text()?;
    let args = stack.args()?;
    let results = stack.types()?;
    let attrs = stack.entries()?;
    let nodes = stack.nodes()?;
    let written = WrittenFunction {
        properties,
        symbol,
        args,
        results,
        attrs,
        nodes,
    };
    let node = function_of(alloc, written, place)?;
    stack.push_node(node)?;
    Ok(())
}

fn function_of(alloc: Global, written: WrittenFunction, place: u32) -> Result<Node, Fault>
    ensures ok { IfOk result (λ node. node ≡ the_function_of written.properties written.symbol written.args written.results written.attrs written.nodes place) }
    ensures err { IfErr result (λ fault. fault ≡ Fault.NoMemory) }
{
    let WrittenFunction {
        properties,
        symbol,
        args,
        results,
        attrs,
        nodes,
    } = written;
    let args = in_order(args);
    let results = in_order(results);
    let signed = with_signature(alloc, properties, &args, results, &symbol)?;
    let name = text_of(alloc, b"func.func")?;
    let attrs = in_order(attrs);
    let nodes = in_order(nodes);
    let body = Body { args, nodes };
    with_body(alloc, plain_node(alloc, name, place), signed, attrs, body)
}

// Properties, and those of the type and the name of a function after them.
fn with_signature(
    alloc: Global,
    mut properties: Seq<Named>,
    args: &Seq<BodyArg>,
    results: Seq<TypeText>,
    symbol: &Text,
) -> Result<Seq<Named>, Fault>
    ensures ok { IfOk result (λ made. made ≡ properties ++ the_function_type args.now results ∷ entry (codes "sym_name") (Attr.Quoted (drop 1 symbol.now)) ∷ []) }
    ensures err { IfErr result (λ fault. fault ≡ Fault.NoMemory) }
{
    let ty = function_type(alloc, args, results)?;
    let name = symbol_entry(alloc, symbol)?;
    let mut more = Seq::new(alloc);
    more.push(ty)?;
    more.push(name)?;
    properties.append(more)?;
    Ok(properties)
}

fn function_type(alloc: Global, args: &Seq<BodyArg>, results: Seq<TypeText>) -> Result<Named, Fault>
    ensures ok { IfOk result (λ one. one ≡ the_function_type args.now results) }
    ensures err { IfErr result (λ fault. fault ≡ Fault.NoMemory) }
{
    let inputs = types_of(alloc, args.as_slice())?;
    property(
        alloc,
        b"function_type",
        Attr::Type(TypeText::Func { inputs, results }),
    )
}

fn types_of(alloc: Global, args: &[BodyArg]) -> Result<Seq<TypeText>, Fault>
    ensures ok { IfOk result (λ types. types ≡ map (λ arg. arg.ty) args.now) }
    ensures err { IfErr result (λ fault. fault ≡ Fault.NoMemory) }
{
    let mut types = Seq::new(alloc);
    for arg in args {
        types.push(arg.ty.duplicate(alloc)?)?;
    }
    Ok(types)
}

#[tactic(auto, using(av_values::proofs::Replacing::replacing))]
fn no_aliases(stack: &mut Stack) -> Result<(), Fault>
    ensures ok { OnOk result (by_file_row FileRule.NoMoreAliases 0 stack.old ≡ Some stack.new) }
    ensures misshapen { IfErr result (λ fault. fault ≡ Fault.Misshapen → by_file_row FileRule.NoMoreAliases 0 stack.old ≡ None) }
{
    stack.push_aliases(Seq::new(stack.alloc()))?;
    Ok(())
}

#[tactic(auto, using(av_values::proofs::Replacing::replacing))]
fn alias_before(stack: &mut Stack) -> Result<(), Fault>
    ensures ok { OnOk result (by_file_row FileRule.NextAlias 0 stack.old ≡ Some stack.new) }
    ensures misshapen { IfErr result (λ fault. fault ≡ Fault.Misshapen → by_file_row FileRule.NextAlias 0 stack.old ≡ None) }
{
    let name = stack.text()?;
    let value = stack.attr()?;
    let others = stack.aliases()?;
    let aliases = before(Alias { name, value }, others)?;
    stack.push_aliases(aliases)?;
    Ok(())
}

#[tactic(auto, using(av_values::proofs::Replacing::replacing))]
fn same_attr(stack: &mut Stack) -> Result<(), Fault>
    ensures ok { OnOk result (by_file_row FileRule.AliasOfMap 0 stack.old ≡ Some stack.new) }
    ensures misshapen { IfErr result (λ fault. fault ≡ Fault.Misshapen → by_file_row FileRule.AliasOfMap 0 stack.old ≡ None) }
{
    let attr = stack.attr()?;
    stack.push_attr(attr)?;
    Ok(())
}

#[tactic(auto, using(av_values::proofs::Replacing::replacing))]
fn only_generic_module(stack: &mut Stack, place: u32) -> Result<(), Fault>
    ensures ok { OnOk result (by_file_row FileRule.OnlyGenericModule place stack.old ≡ Some stack.new) }
    ensures misshapen { IfErr result (λ fault. fault ≡ Fault.Misshapen → by_file_row FileRule.OnlyGenericModule place stack.old ≡ None) }
{
    let alloc = stack.alloc();
    let string = stack.text()?;
    let parts = stack.generic()?;
    let name = unquoted(alloc, &string)?;
    let node = generic_node(alloc, name, parts, place)?;
    let onward = Onward {
        node,
        others: Seq::new(alloc),
    };
    stack.push_onward(onward)?;
    Ok(())
}

#[tactic(auto, using(av_values::proofs::Replacing::replacing))]
fn plain_content(stack: &mut Stack) -> Result<(), Fault>
    ensures ok { OnOk result (by_file_row FileRule.PlainContent 0 stack.old ≡ Some stack.new) }
    ensures misshapen { IfErr result (λ fault. fault ≡ Fault.Misshapen → by_file_row FileRule.PlainContent 0 stack.old ≡ None) }
{
    let first = stack.onward()?;
    let nodes = before(first.node, first.others)?;
    stack.push_nodes(nodes)?;
    Ok(())
}
