use av_shapes::Shape;

/// What a tree is checked for.
#[derive(Debug, Drop)]
pub enum Mode {
    /// A module of scalars, to be vectorized by this shape.
    Scalar(Shape),
    /// A module with vectors of any rank.
    Vector,
    /// A module that can be run.
    Run,
}
