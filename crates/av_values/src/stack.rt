//! The stack of values, with one typed pop for each sort of value.

ghost use Rattle.std.specs.Prelude.{◌≡◌, [], ◌∷◌, ◌++◌, Some, None, reverse, IfErr, IfOk, OnOk, OnErr};
ghost use Rattle.av_values.specs.Sorts.{any, on_top, only_tree as the_only_tree};
ghost use Rattle.av_values.specs.Sorts as sorts;

use crate::value::{
    Carried, Constant, Dense, Expression, GenericParts, MapUse, Onward, Parameters, Part, Selected,
    Terminated, TypedValues, Value,
};
use av_affine::{Held, Seq, Text};
use av_tree::{
    Alias, Attr, Body, BodyArg, DimText, Element, LayoutText, Named, Node, RowText, SizeText, Tree,
    TypeText,
};
use std::alloc::{AllocError, AllocFailed, Global};
use std::marker::Model;

/// Why a tree can't be made.
#[derive(Clone, Copy, Debug, Drop, PartialEq)]
pub enum Fault {
    /// The values aren't those of the row's symbols. No derivation comes to this.
    Misshapen,
    NoMemory,
}

impl From<AllocError> for Fault {
    ghost use Rattle.std.specs.Prelude.{◌≡◌};
    ghost use Rattle.av_values.specs.declared.stack.Fault.TheVariants.{NoMemory};

    ghost from_gives = { λ _ fault. fault ≡ NoMemory };

    fn from(_fault: AllocError) -> Fault {
        Fault::NoMemory
    }
}

impl<T: Drop> From<AllocFailed<T>> for Fault {
    ghost use Rattle.std.specs.Prelude.{◌≡◌};
    ghost use Rattle.av_values.specs.declared.stack.Fault.TheVariants.{NoMemory};

    ghost from_gives = { λ _ fault. fault ≡ NoMemory };

    fn from(_fault: AllocFailed<T>) -> Fault {
        Fault::NoMemory
    }
}

/// A stack of values, which contracts see as the list of them from the top on.
#[derive(Drop)]
pub struct Stack {
    alloc: Global,
    values: Vec<Value>,
}

impl Model for Stack {
    ghost use Rattle.std.specs.Prelude.{List, reverse};
    ghost use Rattle.std.specs.Coded.{coded_list};
    ghost use Rattle.av_values.specs.declared.value.Value.{Value as OneValue};
    ghost use Rattle.av_values.specs.contracts.value.Value as one;

    ghost Value = { List OneValue };

    ghost coded = { coded_list one.the_row.coded };

    ghost view = { λ s. reverse s.values.items };
}

impl Stack {
    /// A stack with no values.
    pub fn new(alloc: Global) -> Stack
        ensures { result ≡ [] }
    {
        Stack {
            alloc,
            values: Vec::new(alloc),
        }
    }

    /// The allocator of the values.
    pub fn alloc(&self) -> Global {
        self.alloc
    }

    pub(crate) fn push(&mut self, value: Value) -> Result<(), Fault>
        ensures ok { OnOk result (self.new ≡ value ∷ self.old) }
        ensures err { IfErr result (λ fault. fault ≡ Fault.NoMemory) }
    {
        self.values.push(value)?;
        Ok(())
    }

    pub(crate) fn pop(&mut self) -> Result<Value, Fault>
        ensures ok { IfOk result (λ value. self.old ≡ value ∷ self.new) }
        ensures err { OnErr result (self.old ≡ []) }
    {
        self.values.pop().ok_or(Fault::Misshapen)
    }

    /// Puts the spelling of a token on top.
    pub fn push_spelling(&mut self, spelling: &[u8]) -> Result<(), Fault>
        ensures ok { OnOk result (self.new ≡ any sorts.a_text spelling.now ∷ self.old) }
        ensures err { IfErr result (λ fault. fault ≡ Fault.NoMemory) }
    {
        let text = Seq::from_slice(self.alloc, spelling)?;
        self.push(Value::Text(text))
    }

    /// Puts a text on top.
    pub fn push_text(&mut self, value: Text) -> Result<(), Fault>
        ensures ok { OnOk result (self.new ≡ any sorts.a_text value ∷ self.old) }
        ensures err { IfErr result (λ fault. fault ≡ Fault.NoMemory) }
    {
        self.push(Value::Text(value))
    }

    /// Takes a text off the top.
    #[tactic(auto, unfolding(crate::specs::Sorts::on_top))]
    pub fn text(&mut self) -> Result<Text, Fault>
        ensures ok { IfOk result (λ value. on_top sorts.a_text self.old ≡ Some (value, self.new)) }
        ensures err { OnErr result (on_top sorts.a_text self.old ≡ None) }
    {
        match self.pop()? {
            Value::Text(value) => Ok(value),
            other => Err(refused(other)),
        }
    }

    /// Puts the names of parameters on top.
    pub fn push_parameters(&mut self, value: Parameters) -> Result<(), Fault>
        ensures ok { OnOk result (self.new ≡ any sorts.a_parameters value ∷ self.old) }
        ensures err { IfErr result (λ fault. fault ≡ Fault.NoMemory) }
    {
        self.push(Value::Parameters(Held::new(self.alloc, value)?))
    }

    /// Takes the names of parameters off the top.
    #[tactic(auto, unfolding(crate::specs::Sorts::on_top))]
    pub fn parameters(&mut self) -> Result<Parameters, Fault>
        ensures ok { IfOk result (λ value. on_top sorts.a_parameters self.old ≡ Some (value, self.new)) }
        ensures err { OnErr result (on_top sorts.a_parameters self.old ≡ None) }
    {
        match self.pop()? {
            Value::Parameters(value) => Ok(value.into_inner()),
            other => Err(refused(other)),
        }
    }

    /// Puts a number on top.
    pub fn push_number(&mut self, value: i128) -> Result<(), Fault>
        ensures ok { OnOk result (self.new ≡ any sorts.a_number value ∷ self.old) }
        ensures err { IfErr result (λ fault. fault ≡ Fault.NoMemory) }
    {
        self.push(Value::Number(value))
    }

    /// Takes a number off the top.
    #[tactic(auto, unfolding(crate::specs::Sorts::on_top))]
    pub fn number(&mut self) -> Result<i128, Fault>
        ensures ok { IfOk result (λ value. on_top sorts.a_number self.old ≡ Some (value, self.new)) }
        ensures err { OnErr result (on_top sorts.a_number self.old ≡ None) }
    {
        match self.pop()? {
            Value::Number(value) => Ok(value),
            other => Err(refused(other)),
        }
    }

    /// Puts a type on top.
    pub fn push_ty(&mut self, value: TypeText) -> Result<(), Fault>
        ensures ok { OnOk result (self.new ≡ any sorts.a_type value ∷ self.old) }
        ensures err { IfErr result (λ fault. fault ≡ Fault.NoMemory) }
    {
        self.push(Value::Type(Held::new(self.alloc, value)?))
    }

    /// Takes a type off the top.
    #[tactic(auto, unfolding(crate::specs::Sorts::on_top))]
    pub fn ty(&mut self) -> Result<TypeText, Fault>
        ensures ok { IfOk result (λ value. on_top sorts.a_type self.old ≡ Some (value, self.new)) }
        ensures err { OnErr result (on_top sorts.a_type self.old ≡ None) }
    {
        match self.pop()? {
            Value::Type(value) => Ok(value.into_inner()),
            other => Err(refused(other)),
        }
    }

    /// Puts a layout, or that there is none on top.
    pub fn push_layout(&mut self, value: Option<LayoutText>) -> Result<(), Fault>
        ensures ok { OnOk result (self.new ≡ any sorts.a_layout value ∷ self.old) }
        ensures err { IfErr result (λ fault. fault ≡ Fault.NoMemory) }
    {
        self.push(Value::Layout(Held::new(self.alloc, value)?))
    }

    /// Takes a layout, or that there is none off the top.
    #[tactic(auto, unfolding(crate::specs::Sorts::on_top))]
    pub fn layout(&mut self) -> Result<Option<LayoutText>, Fault>
        ensures ok { IfOk result (λ value. on_top sorts.a_layout self.old ≡ Some (value, self.new)) }
        ensures err { OnErr result (on_top sorts.a_layout self.old ≡ None) }
    {
        match self.pop()? {
            Value::Layout(value) => Ok(value.into_inner()),
            other => Err(refused(other)),
        }
    }

    /// Puts a constant on top.
    pub fn push_constant(&mut self, value: Constant) -> Result<(), Fault>
        ensures ok { OnOk result (self.new ≡ any sorts.a_constant value ∷ self.old) }
        ensures err { IfErr result (λ fault. fault ≡ Fault.NoMemory) }
    {
        self.push(Value::Constant(Held::new(self.alloc, value)?))
    }

    /// Takes a constant off the top.
    #[tactic(auto, unfolding(crate::specs::Sorts::on_top))]
    pub fn constant(&mut self) -> Result<Constant, Fault>
        ensures ok { IfOk result (λ value. on_top sorts.a_constant self.old ≡ Some (value, self.new)) }
        ensures err { OnErr result (on_top sorts.a_constant self.old ≡ None) }
    {
        match self.pop()? {
            Value::Constant(value) => Ok(value.into_inner()),
            other => Err(refused(other)),
        }
    }

    /// Puts an attribute on top.
    pub fn push_attr(&mut self, value: Attr) -> Result<(), Fault>
        ensures ok { OnOk result (self.new ≡ any sorts.a_attr value ∷ self.old) }
        ensures err { IfErr result (λ fault. fault ≡ Fault.NoMemory) }
    {
        self.push(Value::Attr(Held::new(self.alloc, value)?))
    }

    /// Takes an attribute off the top.
    #[tactic(auto, unfolding(crate::specs::Sorts::on_top))]
    pub fn attr(&mut self) -> Result<Attr, Fault>
        ensures ok { IfOk result (λ value. on_top sorts.a_attr self.old ≡ Some (value, self.new)) }
        ensures err { OnErr result (on_top sorts.a_attr self.old ≡ None) }
    {
        match self.pop()? {
            Value::Attr(value) => Ok(value.into_inner()),
            other => Err(refused(other)),
        }
    }

    /// Puts an entry of a dictionary on top.
    pub fn push_entry(&mut self, value: Named) -> Result<(), Fault>
        ensures ok { OnOk result (self.new ≡ any sorts.a_entry value ∷ self.old) }
        ensures err { IfErr result (λ fault. fault ≡ Fault.NoMemory) }
    {
        self.push(Value::Entry(Held::new(self.alloc, value)?))
    }

    /// Takes an entry of a dictionary off the top.
    #[tactic(auto, unfolding(crate::specs::Sorts::on_top))]
    pub fn entry(&mut self) -> Result<Named, Fault>
        ensures ok { IfOk result (λ value. on_top sorts.a_entry self.old ≡ Some (value, self.new)) }
        ensures err { OnErr result (on_top sorts.a_entry self.old ≡ None) }
    {
        match self.pop()? {
            Value::Entry(value) => Ok(value.into_inner()),
            other => Err(refused(other)),
        }
    }

    /// Puts a map with its operands on top.
    pub fn push_map_use(&mut self, value: MapUse) -> Result<(), Fault>
        ensures ok { OnOk result (self.new ≡ any sorts.a_map_use value ∷ self.old) }
        ensures err { IfErr result (λ fault. fault ≡ Fault.NoMemory) }
    {
        self.push(Value::MapUse(Held::new(self.alloc, value)?))
    }

    /// Takes a map with its operands off the top.
    #[tactic(auto, unfolding(crate::specs::Sorts::on_top))]
    pub fn map_use(&mut self) -> Result<MapUse, Fault>
        ensures ok { IfOk result (λ value. on_top sorts.a_map_use self.old ≡ Some (value, self.new)) }
        ensures err { OnErr result (on_top sorts.a_map_use self.old ≡ None) }
    {
        match self.pop()? {
            Value::MapUse(value) => Ok(value.into_inner()),
            other => Err(refused(other)),
        }
    }

    /// Puts carried arguments on top.
    pub fn push_carried(&mut self, value: Carried) -> Result<(), Fault>
        ensures ok { OnOk result (self.new ≡ any sorts.a_carried value ∷ self.old) }
        ensures err { IfErr result (λ fault. fault ≡ Fault.NoMemory) }
    {
        self.push(Value::Carried(Held::new(self.alloc, value)?))
    }

    /// Takes carried arguments off the top.
    #[tactic(auto, unfolding(crate::specs::Sorts::on_top))]
    pub fn carried(&mut self) -> Result<Carried, Fault>
        ensures ok { IfOk result (λ value. on_top sorts.a_carried self.old ≡ Some (value, self.new)) }
        ensures err { OnErr result (on_top sorts.a_carried self.old ≡ None) }
    {
        match self.pop()? {
            Value::Carried(value) => Ok(value.into_inner()),
            other => Err(refused(other)),
        }
    }

    /// Puts an expression on top.
    pub fn push_expression(&mut self, value: Expression) -> Result<(), Fault>
        ensures ok { OnOk result (self.new ≡ any sorts.a_expression value ∷ self.old) }
        ensures err { IfErr result (λ fault. fault ≡ Fault.NoMemory) }
    {
        self.push(Value::Expression(Held::new(self.alloc, value)?))
    }

    /// Takes an expression off the top.
    #[tactic(auto, unfolding(crate::specs::Sorts::on_top))]
    pub fn expression(&mut self) -> Result<Expression, Fault>
        ensures ok { IfOk result (λ value. on_top sorts.a_expression self.old ≡ Some (value, self.new)) }
        ensures err { OnErr result (on_top sorts.a_expression self.old ≡ None) }
    {
        match self.pop()? {
            Value::Expression(value) => Ok(value.into_inner()),
            other => Err(refused(other)),
        }
    }

    /// Puts an operation on top.
    pub fn push_node(&mut self, value: Node) -> Result<(), Fault>
        ensures ok { OnOk result (self.new ≡ any sorts.a_node value ∷ self.old) }
        ensures err { IfErr result (λ fault. fault ≡ Fault.NoMemory) }
    {
        self.push(Value::Node(Held::new(self.alloc, value)?))
    }

    /// Takes an operation off the top.
    #[tactic(auto, unfolding(crate::specs::Sorts::on_top))]
    pub fn node(&mut self) -> Result<Node, Fault>
        ensures ok { IfOk result (λ value. on_top sorts.a_node self.old ≡ Some (value, self.new)) }
        ensures err { OnErr result (on_top sorts.a_node self.old ≡ None) }
    {
        match self.pop()? {
            Value::Node(value) => Ok(value.into_inner()),
            other => Err(refused(other)),
        }
    }

    /// Puts an operation and those after it on top.
    pub fn push_onward(&mut self, value: Onward) -> Result<(), Fault>
        ensures ok { OnOk result (self.new ≡ any sorts.a_onward value ∷ self.old) }
        ensures err { IfErr result (λ fault. fault ≡ Fault.NoMemory) }
    {
        self.push(Value::Onward(Held::new(self.alloc, value)?))
    }

    /// Takes an operation and those after it off the top.
    #[tactic(auto, unfolding(crate::specs::Sorts::on_top))]
    pub fn onward(&mut self) -> Result<Onward, Fault>
        ensures ok { IfOk result (λ value. on_top sorts.a_onward self.old ≡ Some (value, self.new)) }
        ensures err { OnErr result (on_top sorts.a_onward self.old ≡ None) }
    {
        match self.pop()? {
            Value::Onward(value) => Ok(value.into_inner()),
            other => Err(refused(other)),
        }
    }

    /// Puts what stands after the word of a terminator on top.
    pub fn push_terminated(&mut self, value: Terminated) -> Result<(), Fault>
        ensures ok { OnOk result (self.new ≡ any sorts.a_terminated value ∷ self.old) }
        ensures err { IfErr result (λ fault. fault ≡ Fault.NoMemory) }
    {
        self.push(Value::Terminated(Held::new(self.alloc, value)?))
    }

    /// Takes what stands after the word of a terminator off the top.
    #[tactic(auto, unfolding(crate::specs::Sorts::on_top))]
    pub fn terminated(&mut self) -> Result<Terminated, Fault>
        ensures ok { IfOk result (λ value. on_top sorts.a_terminated self.old ≡ Some (value, self.new)) }
        ensures err { OnErr result (on_top sorts.a_terminated self.old ≡ None) }
    {
        match self.pop()? {
            Value::Terminated(value) => Ok(value.into_inner()),
            other => Err(refused(other)),
        }
    }

    /// Puts a tree on top.
    pub fn push_tree(&mut self, value: Tree) -> Result<(), Fault>
        ensures ok { OnOk result (self.new ≡ any sorts.a_tree value ∷ self.old) }
        ensures err { IfErr result (λ fault. fault ≡ Fault.NoMemory) }
    {
        self.push(Value::Tree(Held::new(self.alloc, value)?))
    }

    /// Takes a tree off the top.
    #[tactic(auto, unfolding(crate::specs::Sorts::on_top))]
    pub fn tree(&mut self) -> Result<Tree, Fault>
        ensures ok { IfOk result (λ value. on_top sorts.a_tree self.old ≡ Some (value, self.new)) }
        ensures err { OnErr result (on_top sorts.a_tree self.old ≡ None) }
    {
        match self.pop()? {
            Value::Tree(value) => Ok(value.into_inner()),
            other => Err(refused(other)),
        }
    }

    /// The tree that is the one value.
    pub fn only_tree(mut self) -> Result<Tree, Fault>
        ensures ok { IfOk result (λ tree. the_only_tree self ≡ Some tree) }
        ensures misshapen { OnErr result (the_only_tree self ≡ None) }
    {
        let tree = self.tree()?;
        match self.pop() {
            Ok(value) => Err(refused(value)),
            Err(_) => Ok(tree),
        }
    }

    /// Puts an argument on top.
    pub fn push_arg(&mut self, value: BodyArg) -> Result<(), Fault>
        ensures ok { OnOk result (self.new ≡ any sorts.a_arg value ∷ self.old) }
        ensures err { IfErr result (λ fault. fault ≡ Fault.NoMemory) }
    {
        self.push(Value::Arg(Held::new(self.alloc, value)?))
    }

    /// Takes an argument off the top.
    #[tactic(auto, unfolding(crate::specs::Sorts::on_top))]
    pub fn arg(&mut self) -> Result<BodyArg, Fault>
        ensures ok { IfOk result (λ value. on_top sorts.a_arg self.old ≡ Some (value, self.new)) }
        ensures err { OnErr result (on_top sorts.a_arg self.old ≡ None) }
    {
        match self.pop()? {
            Value::Arg(value) => Ok(value.into_inner()),
            other => Err(refused(other)),
        }
    }

    /// Puts values and their types on top.
    pub fn push_typed_values(&mut self, value: TypedValues) -> Result<(), Fault>
        ensures ok { OnOk result (self.new ≡ any sorts.a_typed_values value ∷ self.old) }
        ensures err { IfErr result (λ fault. fault ≡ Fault.NoMemory) }
    {
        self.push(Value::TypedValues(Held::new(self.alloc, value)?))
    }

    /// Takes values and their types off the top.
    #[tactic(auto, unfolding(crate::specs::Sorts::on_top))]
    pub fn typed_values(&mut self) -> Result<TypedValues, Fault>
        ensures ok { IfOk result (λ value. on_top sorts.a_typed_values self.old ≡ Some (value, self.new)) }
        ensures err { OnErr result (on_top sorts.a_typed_values self.old ≡ None) }
    {
        match self.pop()? {
            Value::TypedValues(value) => Ok(value.into_inner()),
            other => Err(refused(other)),
        }
    }

    /// Puts the parts of the generic form on top.
    pub fn push_generic(&mut self, value: GenericParts) -> Result<(), Fault>
        ensures ok { OnOk result (self.new ≡ any sorts.a_generic value ∷ self.old) }
        ensures err { IfErr result (λ fault. fault ≡ Fault.NoMemory) }
    {
        self.push(Value::Generic(Held::new(self.alloc, value)?))
    }

    /// Takes the parts of the generic form off the top.
    #[tactic(auto, unfolding(crate::specs::Sorts::on_top))]
    pub fn generic(&mut self) -> Result<GenericParts, Fault>
        ensures ok { IfOk result (λ value. on_top sorts.a_generic self.old ≡ Some (value, self.new)) }
        ensures err { OnErr result (on_top sorts.a_generic self.old ≡ None) }
    {
        match self.pop()? {
            Value::Generic(value) => Ok(value.into_inner()),
            other => Err(refused(other)),
        }
    }

    /// Puts a region on top.
    pub fn push_body(&mut self, value: Body) -> Result<(), Fault>
        ensures ok { OnOk result (self.new ≡ any sorts.a_body value ∷ self.old) }
        ensures err { IfErr result (λ fault. fault ≡ Fault.NoMemory) }
    {
        self.push(Value::Body(Held::new(self.alloc, value)?))
    }

    /// Takes a region off the top.
    #[tactic(auto, unfolding(crate::specs::Sorts::on_top))]
    pub fn body(&mut self) -> Result<Body, Fault>
        ensures ok { IfOk result (λ value. on_top sorts.a_body self.old ≡ Some (value, self.new)) }
        ensures err { OnErr result (on_top sorts.a_body self.old ≡ None) }
    {
        match self.pop()? {
            Value::Body(value) => Ok(value.into_inner()),
            other => Err(refused(other)),
        }
    }

    /// Puts an element of a dense attribute on top.
    pub fn push_element(&mut self, value: Element) -> Result<(), Fault>
        ensures ok { OnOk result (self.new ≡ any sorts.a_element value ∷ self.old) }
        ensures err { IfErr result (λ fault. fault ≡ Fault.NoMemory) }
    {
        self.push(Value::Element(Held::new(self.alloc, value)?))
    }

    /// Takes an element of a dense attribute off the top.
    #[tactic(auto, unfolding(crate::specs::Sorts::on_top))]
    pub fn element(&mut self) -> Result<Element, Fault>
        ensures ok { IfOk result (λ value. on_top sorts.a_element self.old ≡ Some (value, self.new)) }
        ensures err { OnErr result (on_top sorts.a_element self.old ≡ None) }
    {
        match self.pop()? {
            Value::Element(value) => Ok(value.into_inner()),
            other => Err(refused(other)),
        }
    }

    /// Puts a dense attribute on top.
    pub fn push_dense(&mut self, value: Dense) -> Result<(), Fault>
        ensures ok { OnOk result (self.new ≡ any sorts.a_dense value ∷ self.old) }
        ensures err { IfErr result (λ fault. fault ≡ Fault.NoMemory) }
    {
        self.push(Value::Dense(Held::new(self.alloc, value)?))
    }

    /// Takes a dense attribute off the top.
    #[tactic(auto, unfolding(crate::specs::Sorts::on_top))]
    pub fn dense(&mut self) -> Result<Dense, Fault>
        ensures ok { IfOk result (λ value. on_top sorts.a_dense self.old ≡ Some (value, self.new)) }
        ensures err { OnErr result (on_top sorts.a_dense self.old ≡ None) }
    {
        match self.pop()? {
            Value::Dense(value) => Ok(value.into_inner()),
            other => Err(refused(other)),
        }
    }

    /// Puts a size on top.
    pub fn push_size(&mut self, value: SizeText) -> Result<(), Fault>
        ensures ok { OnOk result (self.new ≡ any sorts.a_size value ∷ self.old) }
        ensures err { IfErr result (λ fault. fault ≡ Fault.NoMemory) }
    {
        self.push(Value::Size(value))
    }

    /// Takes a size off the top.
    #[tactic(auto, unfolding(crate::specs::Sorts::on_top))]
    pub fn size(&mut self) -> Result<SizeText, Fault>
        ensures ok { IfOk result (λ value. on_top sorts.a_size self.old ≡ Some (value, self.new)) }
        ensures err { OnErr result (on_top sorts.a_size self.old ≡ None) }
    {
        match self.pop()? {
            Value::Size(value) => Ok(value),
            other => Err(refused(other)),
        }
    }

    /// Puts a row of a set on top.
    pub fn push_row(&mut self, value: RowText) -> Result<(), Fault>
        ensures ok { OnOk result (self.new ≡ any sorts.a_row value ∷ self.old) }
        ensures err { IfErr result (λ fault. fault ≡ Fault.NoMemory) }
    {
        self.push(Value::Row(Held::new(self.alloc, value)?))
    }

    /// Takes a row of a set off the top.
    #[tactic(auto, unfolding(crate::specs::Sorts::on_top))]
    pub fn row(&mut self) -> Result<RowText, Fault>
        ensures ok { IfOk result (λ value. on_top sorts.a_row self.old ≡ Some (value, self.new)) }
        ensures err { OnErr result (on_top sorts.a_row self.old ≡ None) }
    {
        match self.pop()? {
            Value::Row(value) => Ok(value.into_inner()),
            other => Err(refused(other)),
        }
    }

    /// Puts whether a row of a set is an equality on top.
    pub fn push_equal(&mut self, value: bool) -> Result<(), Fault>
        ensures ok { OnOk result (self.new ≡ any sorts.a_equal value ∷ self.old) }
        ensures err { IfErr result (λ fault. fault ≡ Fault.NoMemory) }
    {
        self.push(Value::Equal(value))
    }

    /// Takes whether a row of a set is an equality off the top.
    #[tactic(auto, unfolding(crate::specs::Sorts::on_top))]
    pub fn equal(&mut self) -> Result<bool, Fault>
        ensures ok { IfOk result (λ value. on_top sorts.a_equal self.old ≡ Some (value, self.new)) }
        ensures err { OnErr result (on_top sorts.a_equal self.old ≡ None) }
    {
        match self.pop()? {
            Value::Equal(value) => Ok(value),
            other => Err(refused(other)),
        }
    }

    /// Puts the types of a choice on top.
    pub fn push_selected(&mut self, value: Selected) -> Result<(), Fault>
        ensures ok { OnOk result (self.new ≡ any sorts.a_selected value ∷ self.old) }
        ensures err { IfErr result (λ fault. fault ≡ Fault.NoMemory) }
    {
        self.push(Value::Selected(Held::new(self.alloc, value)?))
    }

    /// Takes the types of a choice off the top.
    #[tactic(auto, unfolding(crate::specs::Sorts::on_top))]
    pub fn selected(&mut self) -> Result<Selected, Fault>
        ensures ok { IfOk result (λ value. on_top sorts.a_selected self.old ≡ Some (value, self.new)) }
        ensures err { OnErr result (on_top sorts.a_selected self.old ≡ None) }
    {
        match self.pop()? {
            Value::Selected(value) => Ok(value.into_inner()),
            other => Err(refused(other)),
        }
    }

    /// Puts a type, or that there is none on top.
    pub fn push_optional_type(&mut self, value: Option<TypeText>) -> Result<(), Fault>
        ensures ok { OnOk result (self.new ≡ any sorts.a_optional_type value ∷ self.old) }
        ensures err { IfErr result (λ fault. fault ≡ Fault.NoMemory) }
    {
        self.push(Value::OptionalType(Held::new(self.alloc, value)?))
    }

    /// Takes a type, or that there is none off the top.
    #[tactic(auto, unfolding(crate::specs::Sorts::on_top))]
    pub fn optional_type(&mut self) -> Result<Option<TypeText>, Fault>
        ensures ok { IfOk result (λ value. on_top sorts.a_optional_type self.old ≡ Some (value, self.new)) }
        ensures err { OnErr result (on_top sorts.a_optional_type self.old ≡ None) }
    {
        match self.pop()? {
            Value::OptionalType(value) => Ok(value.into_inner()),
            other => Err(refused(other)),
        }
    }
}

// Drops a value of another sort than is wanted. A call that drops it as a whole is proved far sooner than
// an arm that drops what each of its variants holds.
pub(crate) fn refused(value: Value) -> Fault
    ensures { result ≡ Fault.Misshapen }
{
    drop(value);
    Fault::Misshapen
}

/// A list in the order of the text.
pub fn in_order<T: Drop>(items: Seq<T>) -> Seq<T>
    ensures { result ≡ reverse items }
{
    let mut items = items.into_vec();
    items.reverse();
    Seq::from_vec(items)
}

/// A list with one item more at its front.
pub fn before<T: Drop>(item: T, mut others: Seq<T>) -> Result<Seq<T>, Fault>
    ensures ok { IfOk result (λ items. items ≡ others ++ item ∷ []) }
    ensures err { IfErr result (λ fault. fault ≡ Fault.NoMemory) }
{
    others.push(item)?;
    Ok(others)
}

/// A text of these bytes.
pub fn text_of(alloc: Global, bytes: &[u8]) -> Result<Text, Fault>
    ensures ok { IfOk result (λ text. text ≡ bytes.now) }
    ensures err { IfErr result (λ fault. fault ≡ Fault.NoMemory) }
{
    Ok(Seq::from_slice(alloc, bytes)?)
}
