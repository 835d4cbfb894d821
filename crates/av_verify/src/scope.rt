//! The values of a function so far, and the names that are visible.

ghost use Rattle.std.specs.Prelude.{◌≡◌, ◌++◌, ◌∷◌, [], length, IfOk, OnOk};
ghost use Rattle.std.specs.Cmp.Lexicographic.{pointwise};
ghost use Rattle.std.specs.Option.{option_copied};
ghost use Rattle.av_verify.specs.Scopes.{agrees_at, defined, first_scope, is_dimension, next_value, type_at};

use super::names::Names;
use super::types::agrees;
use av_affine::{No, Seq};
use av_ir::{Ty, ValueId};
use av_tree::TypeText;
use std::alloc::{AllocError, Global};

/// What a value may be in the operands of a map.
#[derive(Clone, Copy, Drop)]
pub(crate) enum Role {
    /// Neither a dimension nor a symbol.
    Plain,
    Dimension,
}

/// The values of the function that is under way, and the names that are visible in it.
#[derive(Drop)]
pub(crate) struct Scope {
    /// The visible names, in the order of their definitions.
    pub(crate) names: Names,
    /// The types of all values of the function, visible or not.
    pub(crate) values: Seq<Ty>,
    /// What each value may be in a map.
    pub(crate) roles: Seq<Role>,
    /// For each operation so far, the place of its function.
    pub(crate) owners: Seq<No>,
}

/// Nothing but an open module.
pub(crate) fn new_scope(alloc: Global) -> Scope
    ensures { result ≡ first_scope }
{
    Scope {
        names: Names::new(alloc),
        values: Seq::new(alloc),
        roles: Seq::new(alloc),
        owners: Seq::new(alloc),
    }
}

/// Takes the number of the next operation, which is or stands in the function at a place.
pub(crate) fn take_number(owners: &mut Seq<No>, func: No) -> Result<No, AllocError>
    ensures number { IfOk result (λ number. number ≡ length owners.old) }
    ensures owner { OnOk result (owners.new ≡ owners.old ++ func ∷ []) }
{
    let number = owners.len() as No;
    owners.push(func)?;
    Ok(number)
}

/// The type of a value.
pub(crate) fn type_at(values: &[Ty], value: ValueId) -> Option<&Ty>
    ensures { option_copied result ≡ type_at values.now value }
{
    values.get(value.0 as usize)
}

/// Whether a value may be a dimension of a map.
pub(crate) fn is_dimension(roles: &[Role], value: ValueId) -> bool
    ensures { result ≡ is_dimension roles.now value }
{
    matches!(roles.get(value.0 as usize), Some(Role::Dimension))
}

/// The next value of the function, of this type, under a name.
pub(crate) fn define(
    scope: &mut Scope,
    name: Vec<u8>,
    ty: Ty,
    role: Role,
) -> Result<ValueId, AllocError>
    ensures value { IfOk result (λ value. value ≡ next_value scope.old) }
    ensures scope { OnOk result (scope.new ≡ defined scope.old name.items ty role) }
{
    let value = ValueId(scope.values.len() as No);
    scope.values.push(ty)?;
    scope.roles.push(role)?;
    scope.names.bind(name, value)?;
    Ok(value)
}

/// Whether the types that an operation writes of its operands are those of the values.
pub(crate) fn agree_on_operands(
    values: &[Ty],
    written: &[Option<TypeText>],
    operands: &[ValueId],
) -> bool
    ensures { result ≡ pointwise (agrees_at values.now) written.now operands.now }
{
    if written.len() != operands.len() {
        return false;
    }
    for at in 0..written.len() {
        if !agrees_at(values, &written[at], operands[at]) {
            return false;
        }
    }
    true
}

fn agrees_at(values: &[Ty], written: &Option<TypeText>, value: ValueId) -> bool
    ensures { result ≡ agrees_at values.now written.now value }
{
    match type_at(values, value) {
        Some(ty) => agrees(written, ty),
        None => false,
    }
}
