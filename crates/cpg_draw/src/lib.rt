//! A script of `step` as a picture, with nodes as columns and time downwards: as lines, or as one SVG (`svg`).
//!
//! Each command is a row, and an excerpt says which rows are shown (`specs/Excerpts.antt`). An arrow goes from the row that
//! sent a frame to the row that brings it. A frame that did not come to a node is lost for it where a later frame of its
//! sender came there, and under way where none did. Proved: the picture as values, rows, arrows and frames that did not
//! come (`specs/Rows.antt`), is that of the world's run. Letters and shapes are plain code, which `examples/` holds.
#![tactic(auto)]

mod arrows;
mod columns;
mod drawing;
mod entries;
mod excerpts;
mod frames;
mod lines;
mod misses;
mod pictures;
mod rows;
mod sets;
mod svg;
mod words;

pub use cpg_text::Fault;
pub use drawing::{Shape, draw_script};
pub use excerpts::{Excerpt, Spot};
pub use pictures::{Picture, picture_of};
