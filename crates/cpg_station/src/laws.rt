//! What follows from the definitions. The function has nothing to do: its contract is the law.

ghost use Rattle.cpg_station.specs.Laws.{InboxesKeepTheirItems};

/// An item of a connection's inbox over the first of some records is that item of its inbox over all of
/// them. So a count of the events that were taken stays right while a node goes on.
pub fn inboxes_keep_their_items()
    ensures { InboxesKeepTheirItems }
{}
