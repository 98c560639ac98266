// Message 6 with application 412/11, an area marked off: its record and its calls, from crate `area`.
pub use area::{Area, Shape, correct, read, write};
