//! What members send.

ghost use Rattle.std.specs.Prelude.{◌≡◌, ◌<◌, ◌≤◌, ◌-◌, ◌↔◌, length, drop, IsTrue, IfOk, OnErr, IsOkUnless, vec_len};

use crate::bodies::{Body, Few, KEPT_INSIDE};
use bytes::Bytes;
use cpg_rules::Refusal;
use std::alloc::Global;
use std::marker::Model;
use std::sync::Arc;

/// How many bytes a message has at most.
pub const MOST_MESSAGE_BYTES: usize = 8192;

/// What a member sends. Contracts see it as the list of its bytes. Copies of a long one share them.
#[derive(Debug, Drop)]
pub struct Message {
    body: Body,
}

impl Model for Message {
    ghost use Rattle.std.specs.Prelude.{List, ℕ};
    ghost use Rattle.cpg_entry.specs.Bodies.{bytes_of, IsKept};

    ghost Value = { List ℕ };

    ghost view = { λ message. bytes_of message.body };

    ghost invariant = { λ message. IsKept message.body };
}

impl Message {
    /// The message of those bytes.
    pub fn from_slice(alloc: Global, bytes: &[u8]) -> Result<Message, Refusal>
        ensures ok { IfOk result (λ message. message ≡ bytes.now) }
        ensures memory { IsOkUnless result Refusal.Memory }

        // Bytes that are kept inside take no memory.
        ensures outside { OnErr result (KEPT_INSIDE < length bytes.now) }
    {
        let body = if bytes.len() <= KEPT_INSIDE {
            Body::Few(Few::of(bytes))
        } else {
            Body::List(Arc::new(alloc, Vec::from_slice(alloc, bytes)?)?)
        };
        Ok(Message { body })
    }

    /// The message of those bytes. A long one keeps their list, to be shared.
    pub fn from_vec(bytes: Vec<u8>) -> Result<Message, Refusal>
        ensures ok { IfOk result (λ message. message ≡ bytes.items) }
        ensures memory { IsOkUnless result Refusal.Memory }
        ensures outside { OnErr result (KEPT_INSIDE < vec_len bytes) }
    {
        let body = if bytes.len() <= KEPT_INSIDE {
            Body::Few(Few::of(bytes.as_slice()))
        } else {
            Body::List(Arc::new(*bytes.allocator(), bytes)?)
        };
        Ok(Message { body })
    }

    /// The message of a frame's last bytes, so many, which a long one shares with the frame.
    pub fn from_end(alloc: Global, frame: &Bytes, count: usize) -> Result<Message, Refusal>
        requires { count ≤ length frame.now }
        ensures ok { IfOk result (λ message. message ≡ drop (length frame.now - count) frame.now) }
        ensures memory { IsOkUnless result Refusal.Memory }
        ensures outside { OnErr result (KEPT_INSIDE < count) }
    {
        let start = frame.len() - count;
        if count <= KEPT_INSIDE {
            return Message::from_slice(alloc, &frame.as_slice()[start..]);
        }
        let part = Arc::new(alloc, frame.slice(start..)?)?;
        Ok(Message {
            body: Body::Part(part),
        })
    }

    /// A message of the same bytes, which the two share where they are many.
    pub fn copy(&self, _alloc: Global) -> Result<Message, Refusal>
        ensures ok { IfOk result (λ message. message ≡ self.now) }
        ensures memory { IsOkUnless result Refusal.Memory }
        ensures outside { OnErr result (KEPT_INSIDE < length self.now) }
    {
        let body = match &self.body {
            Body::Few(few) => Body::Few(few.twin()),
            Body::List(list) => Body::List(Arc::try_clone(list)?),
            Body::Part(part) => Body::Part(Arc::try_clone(part)?),
        };
        Ok(Message { body })
    }

    /// The bytes.
    pub fn as_slice(&self) -> &[u8]
        ensures { result.now ≡ self.now }
    {
        match &self.body {
            Body::Few(few) => few.as_slice(),
            Body::List(list) => list.as_slice(),
            Body::Part(part) => part.as_slice(),
        }
    }

    /// Whether the messages have the same bytes.
    pub fn equals(&self, other: &Message) -> bool
        ensures { IsTrue result ↔ (self.now ≡ other.now) }
    {
        *self == *other
    }
}

impl PartialEq for Message {
    ghost use Rattle.std.specs.Str.{bytes_eq};
    ghost use Rattle.std.proofs.Common.{rules};
    ghost use Rattle.std.specs.Cmp.Rules.{comparing};

    ghost eq = { bytes_eq };

    ghost laws = { Prim.search (comparing, rules) };

    fn eq(&self, other: &Message) -> bool {
        self.as_slice() == other.as_slice()
    }
}

impl Eq for Message {
    ghost use Rattle.std.proofs.Common.{rules};
    ghost use Rattle.std.specs.Cmp.Rules.{comparing};

    ghost laws = { Prim.search (comparing, rules) };
}
