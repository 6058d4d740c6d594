//! What a command leaves to be written and put.

use fz_shelf::Line;

/// The lines for out, and the file to write, if there is one.
#[derive(Drop)]
pub struct Output {
    /// The lines, which are put one by one.
    pub lines: Vec<Line>,
    /// The index of the word that names the file, and what the file is to hold.
    pub file: Option<(u32, Vec<u8>)>,
}
