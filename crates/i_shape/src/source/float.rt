//! Borrowed paths of points of any type.

pub mod buffer;

/// Resources of paths over points of any type.
pub mod resource {
    pub use i_shape_source::float::resource::{ShapePoint, ShapeResource};
}

/// The iterator over one path.
pub mod contour {
    pub use i_shape_source::iterators::ContourResourceIterator;
}

/// The iterator over the paths of a shape.
pub mod shape {
    pub use i_shape_source::iterators::ShapeResourceIterator;
}

/// The iterator over the paths of a list of shapes.
pub mod shapes {
    pub use i_shape_source::iterators::ShapesResourceIterator;
}
