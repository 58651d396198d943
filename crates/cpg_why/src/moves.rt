//! At which place each connection last joined, left or ended, kept as the records come.

ghost use Rattle.std.specs.Prelude.{◌≡◌, [], OnOk, IsOkUnless};
ghost use Rattle.cpg_record.specs.declared.connections.ConnId.{ConnId};
ghost use Rattle.cpg_why.specs.Moves.{kept_move, moved};

use cpg_cred::Refusal;
use cpg_record::{ConnId, Record};
use indexmap::IndexMap;
use std::alloc::Global;

/// The place of the last allowed join, leave or end of each connection that made one.
#[derive(Drop)]
pub(crate) struct Moves {
    pub(crate) kept: IndexMap<ConnId, u32>,
}

impl Moves {
    /// Nobody moved.
    pub(crate) fn new(alloc: Global) -> Moves
        ensures { result.kept.entries ≡ [] }
    {
        Moves {
            kept: IndexMap::new(alloc),
        }
    }

    /// The place at which the connection last moved, if it did.
    pub(crate) fn last(&self, conn: &ConnId) -> Option<u32>
        ensures { result ≡ kept_move self.now.kept.entries conn.now }
    {
        self.kept.get(conn).copied()
    }

    /// Takes in the record of the place.
    pub(crate) fn take_in(&mut self, place: u32, past: &Record) -> Result<(), Refusal>
        ensures ok { OnOk result ((conn : ConnId) → kept_move self.new.kept.entries conn ≡ moved conn (kept_move self.old.kept.entries conn) (place, past.now)) }
        ensures memory { IsOkUnless result Refusal.Memory }
    {
        let entry = &past.entry;
        if past.verdict.is_allowed() && entry.op.is_move() {
            self.kept.insert(ConnId::of(entry), place)?;
        }
        Ok(())
    }
}
