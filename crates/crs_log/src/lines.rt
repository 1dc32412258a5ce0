mod given;
mod parts;
mod reader;
mod told;

pub use given::Line;
pub use reader::Lines;
pub use told::{Told, lines_of_pieces};
