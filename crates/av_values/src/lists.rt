//! The lists among the values of the stack, with one typed pop for each sort.

ghost use Rattle.std.specs.Prelude.{◌≡◌, ◌∷◌, Some, None, IfErr, IfOk, OnOk, OnErr};
ghost use Rattle.av_values.specs.Sorts.{any, on_top};
ghost use Rattle.av_values.specs.Sorts as sorts;

use crate::stack::{Fault, Stack, refused};
use crate::value::{Expression, Part, Value};
use av_affine::{Held, Seq, Text};
use av_tree::{
    Alias, Attr, Body, BodyArg, DimText, Element, Named, Node, RowText, SizeText, TypeText,
};

impl Stack {
    /// Puts texts on top.
    pub fn push_texts(&mut self, value: Seq<Text>) -> Result<(), Fault>
        ensures ok { OnOk result (self.new ≡ any sorts.a_texts value ∷ self.old) }
        ensures err { IfErr result (λ fault. fault ≡ Fault.NoMemory) }
    {
        self.push(Value::Texts(value))
    }

    /// Takes texts off the top.
    #[tactic(auto, unfolding(crate::specs::Sorts::on_top))]
    pub fn texts(&mut self) -> Result<Seq<Text>, Fault>
        ensures ok { IfOk result (λ value. on_top sorts.a_texts self.old ≡ Some (value, self.new)) }
        ensures err { OnErr result (on_top sorts.a_texts self.old ≡ None) }
    {
        match self.pop()? {
            Value::Texts(value) => Ok(value),
            other => Err(refused(other)),
        }
    }

    /// Puts types on top.
    pub fn push_types(&mut self, value: Seq<TypeText>) -> Result<(), Fault>
        ensures ok { OnOk result (self.new ≡ any sorts.a_types value ∷ self.old) }
        ensures err { IfErr result (λ fault. fault ≡ Fault.NoMemory) }
    {
        self.push(Value::Types(value))
    }

    /// Takes types off the top.
    #[tactic(auto, unfolding(crate::specs::Sorts::on_top))]
    pub fn types(&mut self) -> Result<Seq<TypeText>, Fault>
        ensures ok { IfOk result (λ value. on_top sorts.a_types self.old ≡ Some (value, self.new)) }
        ensures err { OnErr result (on_top sorts.a_types self.old ≡ None) }
    {
        match self.pop()? {
            Value::Types(value) => Ok(value),
            other => Err(refused(other)),
        }
    }

    /// Puts sizes on top.
    pub fn push_sizes(&mut self, value: Seq<SizeText>) -> Result<(), Fault>
        ensures ok { OnOk result (self.new ≡ any sorts.a_sizes value ∷ self.old) }
        ensures err { IfErr result (λ fault. fault ≡ Fault.NoMemory) }
    {
        self.push(Value::Sizes(value))
    }

    /// Takes sizes off the top.
    #[tactic(auto, unfolding(crate::specs::Sorts::on_top))]
    pub fn sizes(&mut self) -> Result<Seq<SizeText>, Fault>
        ensures ok { IfOk result (λ value. on_top sorts.a_sizes self.old ≡ Some (value, self.new)) }
        ensures err { OnErr result (on_top sorts.a_sizes self.old ≡ None) }
    {
        match self.pop()? {
            Value::Sizes(value) => Ok(value),
            other => Err(refused(other)),
        }
    }

    /// Puts entries of a dictionary on top.
    pub fn push_entries(&mut self, value: Seq<Named>) -> Result<(), Fault>
        ensures ok { OnOk result (self.new ≡ any sorts.a_entries value ∷ self.old) }
        ensures err { IfErr result (λ fault. fault ≡ Fault.NoMemory) }
    {
        self.push(Value::Entries(value))
    }

    /// Takes entries of a dictionary off the top.
    #[tactic(auto, unfolding(crate::specs::Sorts::on_top))]
    pub fn entries(&mut self) -> Result<Seq<Named>, Fault>
        ensures ok { IfOk result (λ value. on_top sorts.a_entries self.old ≡ Some (value, self.new)) }
        ensures err { OnErr result (on_top sorts.a_entries self.old ≡ None) }
    {
        match self.pop()? {
            Value::Entries(value) => Ok(value),
            other => Err(refused(other)),
        }
    }

    /// Puts expressions on top.
    pub fn push_expressions(&mut self, value: Seq<Expression>) -> Result<(), Fault>
        ensures ok { OnOk result (self.new ≡ any sorts.a_expressions value ∷ self.old) }
        ensures err { IfErr result (λ fault. fault ≡ Fault.NoMemory) }
    {
        self.push(Value::Expressions(value))
    }

    /// Takes expressions off the top.
    #[tactic(auto, unfolding(crate::specs::Sorts::on_top))]
    pub fn expressions(&mut self) -> Result<Seq<Expression>, Fault>
        ensures ok { IfOk result (λ value. on_top sorts.a_expressions self.old ≡ Some (value, self.new)) }
        ensures err { OnErr result (on_top sorts.a_expressions self.old ≡ None) }
    {
        match self.pop()? {
            Value::Expressions(value) => Ok(value),
            other => Err(refused(other)),
        }
    }

    /// Puts parts of an expression on top.
    pub fn push_parts(&mut self, value: Seq<Part>) -> Result<(), Fault>
        ensures ok { OnOk result (self.new ≡ any sorts.a_parts value ∷ self.old) }
        ensures err { IfErr result (λ fault. fault ≡ Fault.NoMemory) }
    {
        self.push(Value::Parts(value))
    }

    /// Takes parts of an expression off the top.
    #[tactic(auto, unfolding(crate::specs::Sorts::on_top))]
    pub fn parts(&mut self) -> Result<Seq<Part>, Fault>
        ensures ok { IfOk result (λ value. on_top sorts.a_parts self.old ≡ Some (value, self.new)) }
        ensures err { OnErr result (on_top sorts.a_parts self.old ≡ None) }
    {
        match self.pop()? {
            Value::Parts(value) => Ok(value),
            other => Err(refused(other)),
        }
    }

    /// Puts operations on top.
    pub fn push_nodes(&mut self, value: Seq<Node>) -> Result<(), Fault>
        ensures ok { OnOk result (self.new ≡ any sorts.a_nodes value ∷ self.old) }
        ensures err { IfErr result (λ fault. fault ≡ Fault.NoMemory) }
    {
        self.push(Value::Nodes(value))
    }

    /// Takes operations off the top.
    #[tactic(auto, unfolding(crate::specs::Sorts::on_top))]
    pub fn nodes(&mut self) -> Result<Seq<Node>, Fault>
        ensures ok { IfOk result (λ value. on_top sorts.a_nodes self.old ≡ Some (value, self.new)) }
        ensures err { OnErr result (on_top sorts.a_nodes self.old ≡ None) }
    {
        match self.pop()? {
            Value::Nodes(value) => Ok(value),
            other => Err(refused(other)),
        }
    }

    /// Puts arguments on top.
    pub fn push_args(&mut self, value: Seq<BodyArg>) -> Result<(), Fault>
        ensures ok { OnOk result (self.new ≡ any sorts.a_args value ∷ self.old) }
        ensures err { IfErr result (λ fault. fault ≡ Fault.NoMemory) }
    {
        self.push(Value::Args(value))
    }

    /// Takes arguments off the top.
    #[tactic(auto, unfolding(crate::specs::Sorts::on_top))]
    pub fn args(&mut self) -> Result<Seq<BodyArg>, Fault>
        ensures ok { IfOk result (λ value. on_top sorts.a_args self.old ≡ Some (value, self.new)) }
        ensures err { OnErr result (on_top sorts.a_args self.old ≡ None) }
    {
        match self.pop()? {
            Value::Args(value) => Ok(value),
            other => Err(refused(other)),
        }
    }

    /// Puts aliases on top.
    pub fn push_aliases(&mut self, value: Seq<Alias>) -> Result<(), Fault>
        ensures ok { OnOk result (self.new ≡ any sorts.a_aliases value ∷ self.old) }
        ensures err { IfErr result (λ fault. fault ≡ Fault.NoMemory) }
    {
        self.push(Value::Aliases(value))
    }

    /// Takes aliases off the top.
    #[tactic(auto, unfolding(crate::specs::Sorts::on_top))]
    pub fn aliases(&mut self) -> Result<Seq<Alias>, Fault>
        ensures ok { IfOk result (λ value. on_top sorts.a_aliases self.old ≡ Some (value, self.new)) }
        ensures err { OnErr result (on_top sorts.a_aliases self.old ≡ None) }
    {
        match self.pop()? {
            Value::Aliases(value) => Ok(value),
            other => Err(refused(other)),
        }
    }

    /// Puts regions on top.
    pub fn push_bodies(&mut self, value: Seq<Body>) -> Result<(), Fault>
        ensures ok { OnOk result (self.new ≡ any sorts.a_bodies value ∷ self.old) }
        ensures err { IfErr result (λ fault. fault ≡ Fault.NoMemory) }
    {
        self.push(Value::Bodies(value))
    }

    /// Takes regions off the top.
    #[tactic(auto, unfolding(crate::specs::Sorts::on_top))]
    pub fn bodies(&mut self) -> Result<Seq<Body>, Fault>
        ensures ok { IfOk result (λ value. on_top sorts.a_bodies self.old ≡ Some (value, self.new)) }
        ensures err { OnErr result (on_top sorts.a_bodies self.old ≡ None) }
    {
        match self.pop()? {
            Value::Bodies(value) => Ok(value),
            other => Err(refused(other)),
        }
    }

    /// Puts attributes on top.
    pub fn push_attrs(&mut self, value: Seq<Attr>) -> Result<(), Fault>
        ensures ok { OnOk result (self.new ≡ any sorts.a_attrs value ∷ self.old) }
        ensures err { IfErr result (λ fault. fault ≡ Fault.NoMemory) }
    {
        self.push(Value::Attrs(value))
    }

    /// Takes attributes off the top.
    #[tactic(auto, unfolding(crate::specs::Sorts::on_top))]
    pub fn attrs(&mut self) -> Result<Seq<Attr>, Fault>
        ensures ok { IfOk result (λ value. on_top sorts.a_attrs self.old ≡ Some (value, self.new)) }
        ensures err { OnErr result (on_top sorts.a_attrs self.old ≡ None) }
    {
        match self.pop()? {
            Value::Attrs(value) => Ok(value),
            other => Err(refused(other)),
        }
    }

    /// Puts words, or that there are none on top.
    pub fn push_words(&mut self, value: Option<Seq<Text>>) -> Result<(), Fault>
        ensures ok { OnOk result (self.new ≡ any sorts.a_words value ∷ self.old) }
        ensures err { IfErr result (λ fault. fault ≡ Fault.NoMemory) }
    {
        self.push(Value::Words(Held::new(self.alloc(), value)?))
    }

    /// Takes words, or that there are none off the top.
    #[tactic(auto, unfolding(crate::specs::Sorts::on_top))]
    pub fn words(&mut self) -> Result<Option<Seq<Text>>, Fault>
        ensures ok { IfOk result (λ value. on_top sorts.a_words self.old ≡ Some (value, self.new)) }
        ensures err { OnErr result (on_top sorts.a_words self.old ≡ None) }
    {
        match self.pop()? {
            Value::Words(value) => Ok(value.into_inner()),
            other => Err(refused(other)),
        }
    }

    /// Puts numbers on top.
    pub fn push_numbers(&mut self, value: Seq<i128>) -> Result<(), Fault>
        ensures ok { OnOk result (self.new ≡ any sorts.a_numbers value ∷ self.old) }
        ensures err { IfErr result (λ fault. fault ≡ Fault.NoMemory) }
    {
        self.push(Value::Numbers(value))
    }

    /// Takes numbers off the top.
    #[tactic(auto, unfolding(crate::specs::Sorts::on_top))]
    pub fn numbers(&mut self) -> Result<Seq<i128>, Fault>
        ensures ok { IfOk result (λ value. on_top sorts.a_numbers self.old ≡ Some (value, self.new)) }
        ensures err { OnErr result (on_top sorts.a_numbers self.old ≡ None) }
    {
        match self.pop()? {
            Value::Numbers(value) => Ok(value),
            other => Err(refused(other)),
        }
    }

    /// Puts elements of a dense attribute on top.
    pub fn push_elements(&mut self, value: Seq<Element>) -> Result<(), Fault>
        ensures ok { OnOk result (self.new ≡ any sorts.a_elements value ∷ self.old) }
        ensures err { IfErr result (λ fault. fault ≡ Fault.NoMemory) }
    {
        self.push(Value::Elements(value))
    }

    /// Takes elements of a dense attribute off the top.
    #[tactic(auto, unfolding(crate::specs::Sorts::on_top))]
    pub fn elements(&mut self) -> Result<Seq<Element>, Fault>
        ensures ok { IfOk result (λ value. on_top sorts.a_elements self.old ≡ Some (value, self.new)) }
        ensures err { OnErr result (on_top sorts.a_elements self.old ≡ None) }
    {
        match self.pop()? {
            Value::Elements(value) => Ok(value),
            other => Err(refused(other)),
        }
    }

    /// Puts dimensions of a vector on top.
    pub fn push_dims(&mut self, value: Seq<DimText>) -> Result<(), Fault>
        ensures ok { OnOk result (self.new ≡ any sorts.a_dims value ∷ self.old) }
        ensures err { IfErr result (λ fault. fault ≡ Fault.NoMemory) }
    {
        self.push(Value::Dims(value))
    }

    /// Takes dimensions of a vector off the top.
    #[tactic(auto, unfolding(crate::specs::Sorts::on_top))]
    pub fn dims(&mut self) -> Result<Seq<DimText>, Fault>
        ensures ok { IfOk result (λ value. on_top sorts.a_dims self.old ≡ Some (value, self.new)) }
        ensures err { OnErr result (on_top sorts.a_dims self.old ≡ None) }
    {
        match self.pop()? {
            Value::Dims(value) => Ok(value),
            other => Err(refused(other)),
        }
    }

    /// Puts rows of a set on top.
    pub fn push_rows(&mut self, value: Seq<RowText>) -> Result<(), Fault>
        ensures ok { OnOk result (self.new ≡ any sorts.a_rows value ∷ self.old) }
        ensures err { IfErr result (λ fault. fault ≡ Fault.NoMemory) }
    {
        self.push(Value::Rows(value))
    }

    /// Takes rows of a set off the top.
    #[tactic(auto, unfolding(crate::specs::Sorts::on_top))]
    pub fn rows(&mut self) -> Result<Seq<RowText>, Fault>
        ensures ok { IfOk result (λ value. on_top sorts.a_rows self.old ≡ Some (value, self.new)) }
        ensures err { OnErr result (on_top sorts.a_rows self.old ≡ None) }
    {
        match self.pop()? {
            Value::Rows(value) => Ok(value),
            other => Err(refused(other)),
        }
    }
}
