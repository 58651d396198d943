//! Why a verdict is what it is, in a world that a script of commands made: `cpgring step --why`.
//!
//! The forms are `cpg_why`'s, without numbers of lines. Proved: the commands are done as `cpgring step` does them; what is
//! told is what is found of the entries of the node that delivered most, judged again.

mod choosing;
mod explaining;
mod running;

pub use explaining::why_of_steps;
