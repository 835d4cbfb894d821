//! What rows of several groups make: nothing of a sort, what there is, or one item before the others.

ghost use Rattle.std.specs.Prelude.{◌≡◌, [], ◌∷◌, ◌++◌, Some, None, IfErr, OnOk};
ghost use Rattle.av_values.specs.Puts.{put_before, put_new, put_same};
ghost use Rattle.av_values.specs.Sorts.{a_entries, a_nodes, a_text, a_texts, a_types};

use crate::stack::{Fault, Stack, before};
use av_affine::Seq;

/// No texts.
#[tactic(auto, using(crate::proofs::Replacing::replacing))]
pub fn no_texts(stack: &mut Stack) -> Result<(), Fault>
    ensures ok { OnOk result (put_new a_texts [] stack.old ≡ Some stack.new) }
    ensures misshapen { IfErr result (λ fault. fault ≡ Fault.Misshapen → put_new a_texts [] stack.old ≡ None) }
{
    stack.push_texts(Seq::new(stack.alloc()))?;
    Ok(())
}

/// Texts as they are.
#[tactic(auto, using(crate::proofs::Replacing::replacing))]
pub fn same_texts(stack: &mut Stack) -> Result<(), Fault>
    ensures ok { OnOk result (put_same a_texts stack.old ≡ Some stack.new) }
    ensures misshapen { IfErr result (λ fault. fault ≡ Fault.Misshapen → put_same a_texts stack.old ≡ None) }
{
    let texts = stack.texts()?;
    stack.push_texts(texts)?;
    Ok(())
}

/// The text on top before the texts under it.
#[tactic(auto, using(crate::proofs::Replacing::replacing))]
pub fn text_before(stack: &mut Stack) -> Result<(), Fault>
    ensures ok { OnOk result (put_before a_text a_texts (λ others one. others ++ one ∷ []) stack.old ≡ Some stack.new) }
    ensures misshapen { IfErr result (λ fault. fault ≡ Fault.Misshapen → put_before a_text a_texts (λ others one. others ++ one ∷ []) stack.old ≡ None) }
{
    let text = stack.text()?;
    let others = stack.texts()?;
    let texts = before(text, others)?;
    stack.push_texts(texts)?;
    Ok(())
}

/// No entries.
#[tactic(auto, using(crate::proofs::Replacing::replacing))]
pub fn no_entries(stack: &mut Stack) -> Result<(), Fault>
    ensures ok { OnOk result (put_new a_entries [] stack.old ≡ Some stack.new) }
    ensures misshapen { IfErr result (λ fault. fault ≡ Fault.Misshapen → put_new a_entries [] stack.old ≡ None) }
{
    stack.push_entries(Seq::new(stack.alloc()))?;
    Ok(())
}

/// No types.
#[tactic(auto, using(crate::proofs::Replacing::replacing))]
pub fn no_types(stack: &mut Stack) -> Result<(), Fault>
    ensures ok { OnOk result (put_new a_types [] stack.old ≡ Some stack.new) }
    ensures misshapen { IfErr result (λ fault. fault ≡ Fault.Misshapen → put_new a_types [] stack.old ≡ None) }
{
    stack.push_types(Seq::new(stack.alloc()))?;
    Ok(())
}

/// No operations.
#[tactic(auto, using(crate::proofs::Replacing::replacing))]
pub fn no_nodes(stack: &mut Stack) -> Result<(), Fault>
    ensures ok { OnOk result (put_new a_nodes [] stack.old ≡ Some stack.new) }
    ensures misshapen { IfErr result (λ fault. fault ≡ Fault.Misshapen → put_new a_nodes [] stack.old ≡ None) }
{
    stack.push_nodes(Seq::new(stack.alloc()))?;
    Ok(())
}

/// Operations as they are.
#[tactic(auto, using(crate::proofs::Replacing::replacing))]
pub fn same_nodes(stack: &mut Stack) -> Result<(), Fault>
    ensures ok { OnOk result (put_same a_nodes stack.old ≡ Some stack.new) }
    ensures misshapen { IfErr result (λ fault. fault ≡ Fault.Misshapen → put_same a_nodes stack.old ≡ None) }
{
    let nodes = stack.nodes()?;
    stack.push_nodes(nodes)?;
    Ok(())
}

/// Entries as they are.
#[tactic(auto, using(crate::proofs::Replacing::replacing))]
pub fn same_entries(stack: &mut Stack) -> Result<(), Fault>
    ensures ok { OnOk result (put_same a_entries stack.old ≡ Some stack.new) }
    ensures misshapen { IfErr result (λ fault. fault ≡ Fault.Misshapen → put_same a_entries stack.old ≡ None) }
{
    let entries = stack.entries()?;
    stack.push_entries(entries)?;
    Ok(())
}
