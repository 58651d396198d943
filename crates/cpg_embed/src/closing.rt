//! Closing an endpoint whose memory is freed piece by piece.

ghost use Rattle.std.specs.Prelude.{◌≡◌};
ghost use Rattle.cpg_embed.specs.Closing.{some_left, places_left, with_remains, after_shedding};

use crate::endpoints::Endpoint;
use cpg_node::Remains;

/// What is left, where a place is.
fn if_any(remains: Remains) -> Option<Remains>
    ensures { result ≡ some_left remains }
{
    if remains.left() == 0 {
        None
    } else {
        Some(remains)
    }
}

impl Endpoint {
    /// Ends an endpoint, and keeps what is left of its node to be freed piece by piece. What was left of an earlier one
    /// is freed at once.
    pub fn keep_remains(&mut self, ended: Endpoint)
        ensures { self.new ≡ with_remains self.old ended.node }
    {
        self.remains = if_any(ended.node.into_remains());
    }

    /// Frees what is left of the last places of the ended endpoint, of `most` places or of all that are left, and tells
    /// how many are left.
    pub fn shed(&mut self, most: usize) -> usize
        ensures left { result ≡ places_left self.new.remains }
        ensures new { self.new ≡ after_shedding self.old most }
    {
        let Some(mut remains) = self.remains.take() else {
            return 0;
        };
        let left = remains.shed(most);
        self.remains = if_any(remains);
        left
    }
}
