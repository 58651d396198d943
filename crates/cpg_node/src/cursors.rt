//! Up to where connections' inboxes were looked through.

ghost use Rattle.std.specs.Prelude.{◌≡◌, ◌+◌, ◌<◌, ◌≤◌, ◌==◌, if◌then◌else◌};

use cpg_group::Hint;
use cpg_record::ConnId;

/// How many events the places up to one tell a connection.
#[derive(Debug, Clone, Copy, PartialEq, Eq)]
pub struct Cursor {
    pub conn: ConnId,
    /// The last place that was looked at; 0 before the first.
    pub place: u32,
    pub told: usize,
    /// Where the search for the last place ended that was found: the next search looks there first.
    pub hint: Hint,
}

impl Cursor {
    /// The cursor before all places.
    pub fn start(conn: ConnId) -> Cursor
        ensures conn { result.conn ≡ conn }
        ensures place { result.place ≡ 0 }
        ensures told { result.told ≡ 0 }
    {
        Cursor {
            conn,
            place: 0,
            told: 0,
            hint: Hint::default(),
        }
    }

    /// The cursor at a later place, which tells so many events, where none between tells any.
    pub fn past(self, place: u32, events: usize, hint: Hint) -> Cursor
        requires { self.told + events ≤ 4294967295 }
        ensures { result ≡ record { conn = self.conn; place = place; told = self.told + events; hint = hint } }
    {
        Cursor {
            conn: self.conn,
            place,
            told: self.told + events,
            hint,
        }
    }

    /// The cursor once the event of that index, of so many at a later place, was told, where none between tells
    /// any: past the place where it was the last one there.
    pub fn behind(self, place: u32, events: usize, index: usize, hint: Hint) -> Cursor
        requires few { self.told + events ≤ 4294967295 }
        requires index { index < events }
        ensures { result ≡ (if (index + 1) == events then record { conn = self.conn; place = place; told = self.told + events; hint = hint } else self) }
    {
        if index + 1 == events {
            self.past(place, events, hint)
        } else {
            self
        }
    }
}
