//! Which values may be dimensions and symbols.

ghost use Rattle.std.specs.Prelude.{◌≡◌, drop, take};
ghost use Rattle.std.specs.List.{list_all};
ghost use Rattle.av_maps.specs.Roles.{applied_role, are_in_place, may_be_dimension, may_be_symbol};

/// What a value may be in the operands of a map or set.
#[derive(Clone, Copy, Debug, Drop, PartialEq, Eq)]
pub enum Role {
    /// Neither a dimension nor a symbol.
    Plain,
    Dimension,
    /// A symbol, which may be a dimension too.
    Symbol,
}

/// Whether a value may be a symbol.
pub fn may_be_symbol(role: Role) -> bool
    ensures { result ≡ may_be_symbol role }
{
    matches!(role, Role::Symbol)
}

/// Whether a value may be a dimension.
pub fn may_be_dimension(role: Role) -> bool
    ensures { result ≡ may_be_dimension role }
{
    !matches!(role, Role::Plain)
}

/// Whether the operands of a map with so many dimensions may be what they stand for; those of the dimensions stand first.
pub fn are_in_place(dims: usize, roles: &[Role]) -> bool
    ensures { result ≡ are_in_place dims roles.now }
{
    let split = dims.min(roles.len());
    are_dimensions(&roles[..split]) && are_symbols(&roles[split..])
}

fn are_dimensions(roles: &[Role]) -> bool
    ensures { result ≡ list_all may_be_dimension roles.now }
{
    roles.iter().all(|role| may_be_dimension(*role))
}

fn are_symbols(roles: &[Role]) -> bool
    ensures { result ≡ list_all may_be_symbol roles.now }
{
    roles.iter().all(|role| may_be_symbol(*role))
}

/// What the result of an `affine.apply` at these operands may be.
pub fn applied_role(roles: &[Role]) -> Role
    ensures { result ≡ applied_role roles.now }
{
    if are_symbols(roles) {
        Role::Symbol
    } else {
        Role::Dimension
    }
}
