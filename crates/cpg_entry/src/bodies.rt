//! Where a message keeps its bytes.

ghost use Rattle.std.specs.Prelude.{◌≡◌, ◌≤◌, length};

use bytes::Bytes;
use std::marker::Model;
use std::sync::Arc;

/// How many bytes a message keeps in itself: as many as stand in the place that a longer one's pointer takes with the
/// marks beside it. Those of a longer one are shared with its copies.
pub(crate) const KEPT_INSIDE: usize = 22;

/// A few bytes in place. Contracts see them as their list.
#[derive(Debug, Drop)]
pub(crate) struct Few {
    count: u8,
    bytes: [u8; KEPT_INSIDE],
}

impl Model for Few {
    ghost use Rattle.std.specs.Prelude.{List, ℕ, ◌≤◌, take};
    ghost use Rattle.cpg_entry.specs.declared.bodies.TheConstants.{KEPT_INSIDE};

    ghost Value = { List ℕ };

    ghost view = { λ few. take few.count few.bytes };

    ghost invariant = { λ few. few.count ≤ KEPT_INSIDE };
}

impl Few {
    /// Those bytes.
    pub(crate) fn of(bytes: &[u8]) -> Few
        requires { length bytes.now ≤ KEPT_INSIDE }
        ensures { result ≡ bytes.now }
    {
        let mut kept = [0; KEPT_INSIDE];
        kept[..bytes.len()].copy_from_slice(bytes);
        Few {
            count: bytes.len() as u8,
            bytes: kept,
        }
    }

    /// The same bytes.
    pub(crate) fn twin(&self) -> Few
        ensures { result ≡ self.now }
    {
        Few {
            count: self.count,
            bytes: self.bytes,
        }
    }

    /// The bytes.
    pub(crate) fn as_slice(&self) -> &[u8]
        ensures { result.now ≡ self.now }
    {
        &self.bytes[..usize::from(self.count)]
    }
}

/// The bytes of a message. What is shared stands behind one pointer, as records and slots have room for the largest
/// of these.
#[derive(Debug, Drop)]
pub(crate) enum Body {
    /// Its own.
    Few(Few),
    /// A list that is shared with its copies.
    List(Arc<Vec<u8>>),
    /// A part of the frame that brought it, shared with its copies.
    Part(Arc<Bytes>),
}
