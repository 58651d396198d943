//! Scripts that check themselves, the `--checked` of `step`, `run` and `shell`: `=> TEXT` after a command says what it
//! prints. Over a running cluster sessions have names, `drain` and `wait` take events, and `hold`, `let`, `cut` and `mend`
//! hold nodes and lose frames.
//!
//! The forms are this project's own. Proved: over a world, what a script writes and whether all was as its lines want it;
//! over a cluster, that what a line says is done as `cpg_cluster` does it, and what a line wants is compared with the
//! next printed line. What such a line says, switches, and how differences are worded is tested.
#![tactic(auto)]

mod checking;
mod clusters;
mod deeds;
mod names;
mod performing;
mod switches;
mod telling;
mod walks;
mod worlds;

pub use checking::Printed;
pub use clusters::OverCluster;
pub use performing::{Live, Played, Stage, perform_play};
pub use switches::{Switch, Switched, Switches};
pub use walks::{Plays, play_lines, play_script};
pub use worlds::OverWorld;
