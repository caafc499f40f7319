//! Flat buffers of contours and shapes over integer points.

mod cleaning;
mod contours;
mod shapes;

pub use contours::FlatContoursBuffer;
pub use shapes::FlatShapesBuffer;
