//! Flat buffers of contours and shapes over points of any type.

mod contours;
mod fill;
mod shapes;

pub use contours::FloatFlatContoursBuffer;
pub use shapes::FloatFlatShapesBuffer;
