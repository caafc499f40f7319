//! Borrowed paths of integer points.

pub mod buffer;

/// Resources of integer paths.
pub mod resource {
    pub use i_shape_source::int::resource::IntShapeResource;
}

/// The iterator over one path.
pub mod contour {
    pub use i_shape_source::iterators::ContourResourceIterator;
}

/// The iterator over the paths of a shape.
pub mod shape {
    pub use i_shape_source::iterators::ShapeResourceIterator;
}

/// The iterator over the paths of a list of shapes.
pub mod shapes {
    pub use i_shape_source::iterators::ShapesResourceIterator;
}
