// The bench's script: its lines as values, and the lines that the bench prints.
// Promised: a script is cut into its lines; a line is read as the one thing that it says, and refused with 12 exactly
// where it says nothing; and each printed line is, byte by byte, the number, letters, words and counts that belong to it.
#![tactic(auto)]

pub mod call;
pub mod line;
pub mod lines;
pub mod print;
pub mod read;
#[cfg(test)]
mod tests;
