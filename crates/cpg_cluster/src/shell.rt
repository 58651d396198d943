//! `cpgring shell`: the commands of `run` over the running nodes of a cluster, line by line as they are typed.
//!
//! The forms are this project's own. Proved: each line is answered as its command may be, and what is printed and told
//! of it is the definition in `specs/`, byte for byte, where the streams tell their bytes. A bad line is told by its
//! number, and the next one is read. That each answer is handed on before the next line is read is tested.

mod answering;
mod help;
mod lines;
mod shells;
mod typed;

pub use answering::put_bad;
pub use help::HELP;
pub use lines::{MOST_LINE, limits, read_line};
pub use shells::shell_lines;
pub use typed::Typed;
