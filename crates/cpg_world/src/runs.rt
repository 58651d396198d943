//! What a run of events answers.

ghost use Rattle.std.specs.Prelude.{◌≡◌, length};

use cpg_cred::Refusal;
use cpg_world_laws::Reply;
use std::marker::Model;

/// The replies to events, in their order. Contracts see them as their list.
#[derive(Debug, Drop)]
pub struct Replies {
    replies: Vec<Result<Reply, Refusal>>,
}

impl Model for Replies {
    ghost use Rattle.std.specs.Prelude.{List};
    ghost use Rattle.cpg_world_laws.specs.Replies.{Answer};

    ghost Value = { List Answer };

    ghost view = { λ replies. replies.replies.items };
}

impl Replies {
    /// The list of those replies, which takes no memory.
    pub(crate) fn from_vec(replies: Vec<Result<Reply, Refusal>>) -> Replies
        ensures { result ≡ replies.items }
    {
        Replies { replies }
    }

    /// The replies.
    pub fn as_slice(&self) -> &[Result<Reply, Refusal>]
        ensures { result.now ≡ self.now }
    {
        self.replies.as_slice()
    }

    /// How many there are.
    pub fn len(&self) -> usize
        ensures { result ≡ length self.now }
    {
        self.replies.len()
    }
}

/// What a run of events answers.
#[derive(Debug, Drop)]
pub struct Run {
    /// The replies to the events that happened, refusals among them.
    pub replies: Replies,
    /// How many events happened: all, or those before the one that met Memory.
    pub done: usize,
}
