//! What one class answers.

use pc_presentation::Answer;

/// The answer of one class.
#[derive(Drop)]
pub enum Step {
    /// The next answer.
    Next(Answer),
    /// Every tail is in the span: the answer is the same at the next class.
    Same,
    /// The next answer would have a rank above `RANK`, which is named.
    TooLarge {
        /// The rank of the answer plus the number of kept tails.
        rank: u32,
    },
}
