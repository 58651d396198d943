//! One node with its clients: a client's bytes become calls of the node by that client's own connection alone, and
//! what the node answers and tells becomes bytes for the client.
//!
//! Asks and tells are those of `cpg_ask`, calls and events those of `cpg_node`. Desk n is the client of the node's
//! connection n. Nothing here reads, writes or waits. Proved: see each call of `Served`.
#![tactic(auto)]

mod answers;
mod calls;
mod carrying;
mod deeds;
mod desks;
mod events;
mod hearing;
mod laws;
mod moving;
mod nexts;
mod renewing;
mod served;
mod telling;
mod turning;

pub use deeds::{Deed, Frames, Outcome};
pub use desks::{Desk, Owed};
pub use hearing::{Heard, Stop};
pub use laws::{
    all_that_is_told, all_that_rings_tell, clients_go_over, delivery_tells, hears_as_its_own,
    nothing_after_the_end, renewal_keeps_all, rings_of_one_answer_calls, rings_of_one_stay_so,
    stories_go_on, verdicts_answer_their_calls, verdicts_are_its_own, verdicts_in_order,
};
pub use served::Served;
