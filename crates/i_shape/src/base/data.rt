//! Paths, contours, shapes and shape lists of points of any kind.

/// Points in order.
pub type Path<P> = Vec<P>;

/// A list of paths.
pub type Paths<P> = Vec<Path<P>>;

/// Points in order, read as a cycle: the last is joined to the first.
pub type Contour<P> = Vec<P>;

/// An outer contour and its holes.
pub type Shape<P> = Vec<Contour<P>>;

/// A list of shapes.
pub type Shapes<P> = Vec<Shape<P>>;
