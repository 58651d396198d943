//! `cpgring step --numbers`: what `step` prints, and behind each answer the numbers of the frames that were sent.
//!
//! The form is this project's own. Proved: what is put is that text, byte for byte.

mod frames;
mod stepping;

pub use stepping::{NumberedLines, SteppedWithNumbers};
