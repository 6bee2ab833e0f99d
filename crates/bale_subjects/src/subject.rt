//! What a command is asked of.

use app_tally::Lines;
use mtx_text::Matrix;

/// What a command is asked of.
#[derive(Drop)]
pub enum Subject {
    /// The matrix of the text, or the generated one.
    Matrix(Matrix),
    /// The lines of the text, for tally.
    Lines(Lines),
}
