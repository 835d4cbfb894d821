/// How operations are spelled.
#[derive(Clone, Copy, Debug, Drop, PartialEq, Eq)]
pub enum Form {
    /// Each operation in the form of its own, where it has one.
    Named,
    /// Each operation in the form that all have in common.
    Generic,
}
