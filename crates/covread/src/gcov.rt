//! Reads gcov's annotated source (gcov(1), and the GCC manual's chapter on gcov).

mod laws;
mod line;
mod read;
mod reader;
mod shape;
mod text;

pub use laws::{an_early_fault_is_told, each_gcov_text_has_one_outcome};
pub use read::{read_gcov, read_gcov_packed};
pub use shape::fits_no_shape;
