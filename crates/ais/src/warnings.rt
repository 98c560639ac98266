// Message 8 with application 412/03, a warning: its record and its calls, from crate `warning`.
pub use warning::bodies::Body;
pub use warning::{Warning, correct, read, write};
