//! The forms in which judged entries are told.

use crate::output::write_inbox;
use crate::texts::{Placed, Texts};
use cpg_cred::Refusal;
use cpg_group::Policy;
use cpg_print::put_count;
use cpg_record::ConnId;
use std::alloc::Global;
use std::io::Write;

/// What puts the lines of judged entries: of their records by place, of their count, and of the inboxes. It keeps what
/// it needs of the places that it took in.
pub trait PutsJudged: Drop {
    ghost use Rattle.std.specs.Prelude.{◌≡◌, ◌≤◌, ◌-◌, ◌++◌, ℕ, List, Some, length, OnOk, IsOkUnless};
    ghost use Rattle.std.specs.List.{concat};
    ghost use Rattle.cpg_entry.specs.declared.entries.Entry.{Entry};
    ghost use Rattle.cpg_record.specs.Judging.{judged};
    ghost use Rattle.cpg_record.specs.Places.{record_at};
    ghost use Rattle.cpg_judge.specs.Gathering.{Gathers};
    ghost use Rattle.cpg_judge.specs.Judging.{Form, count_by, inbox_by, record_by};

    // The form.
    ghost form: { Self → Form };

    // So many places of the entries were taken in.
    ghost stands: { Self → List Entry → ℕ → Type 0 };

    /// Takes in the record of the place, the one after those that were taken in, and puts its lines at the lines' end.
    fn put_record(&mut self, lines: &mut Vec<u8>, placed: &Placed<'_>) -> Result<(), Refusal>
        requires place { (1 ≤ placed.now.place) × (placed.now.place ≤ length placed.now.policy.now) }
        requires past { record_at (judged placed.now.policy.now) placed.now.place ≡ Some placed.now.past.now }
        requires before { stands self.old placed.now.policy.now (placed.now.place - 1) }
        ensures ok { OnOk result (lines.new.items ≡ lines.old.items ++ concat (record_by (form self.old) placed.now.place placed.now.past.now)) }
        ensures same { OnOk result (form self.new ≡ form self.old) }
        ensures taken { OnOk result (stands self.new placed.now.policy.now placed.now.place) }
        ensures memory { IsOkUnless result Refusal.Memory };

    /// Puts the line of the count of records at the lines' end.
    fn put_count(&self, lines: &mut Vec<u8>, count: u32) -> Result<(), Refusal>
        ensures ok { OnOk result (lines.new.items ≡ lines.old.items ++ count_by (form self.now) count) }
        ensures memory { IsOkUnless result Refusal.Memory };

    /// Writes the inbox of a connection behind the lines; all places were taken in.
    fn write_inbox<W: Write>(
        &mut self,
        writer: &mut W,
        lines: &mut Vec<u8>,
        policy: &Policy,
        conn: &ConnId,
    ) -> Result<(), Refusal>
        requires { stands self.old policy.now (length (judged policy.now)) }
        ensures lines { Gathers result (W.contents writer.old) lines.old.items (W.contents writer.new) lines.new.items (inbox_by (form self.old) (judged policy.now) conn.now) }
        ensures same { OnOk result (form self.new ≡ form self.old) }
        ensures taken { OnOk result (stands self.new policy.now (length (judged policy.now))) };
}

/// A form in which the entries of a script are told.
pub trait TellsJudged {
    ghost use Rattle.std.specs.Prelude.{◌≡◌, ◌≤◌, ℕ, List, length, IfOk, IsOkUnless};
    ghost use Rattle.cpg_text.specs.declared.streams.TheConstants.{MOST_BYTES};
    ghost use Rattle.cpg_judge.specs.Judging.{Form};

    /// What puts its lines.
    type Puts: PutsJudged;

    // The form of what is told of a script.
    ghost form: { Self → List ℕ → Form };

    /// What puts the lines of the judged entries of that script, of which none was taken in.
    fn begin(&self, alloc: Global, policy: &Policy, script: Vec<u8>) -> Result<Self::Puts, Refusal>
        requires { length script.items ≤ MOST_BYTES }
        ensures form { IfOk result (λ puts. Self.Puts.form puts ≡ form self.now script.items) }
        ensures none { IfOk result (λ puts. Self.Puts.stands puts policy.now 0) }
        ensures memory { IsOkUnless result Refusal.Memory };
}

/// Lines of text.
#[derive(Debug, Clone, Copy)]
pub struct JudgedAsText;

impl TellsJudged for JudgedAsText {
    type Puts = Texts;

    ghost use Rattle.cpg_judge.specs.Judging.{judged_text};

    ghost form = { λ told script. judged_text };

    fn begin(&self, alloc: Global, _policy: &Policy, _script: Vec<u8>) -> Result<Texts, Refusal> {
        let texts = Texts::new(alloc)?;
        Ok(texts)
    }
}

impl PutsJudged for Texts {
    ghost use Rattle.cpg_record.specs.Judging.{judged};
    ghost use Rattle.cpg_judge.specs.Judging.{judged_text};
    ghost use Rattle.cpg_judge.specs.Texts.{AreShown, AreTexts};

    ghost form = { λ texts. judged_text };

    ghost stands = { λ texts entries count. AreTexts texts (judged entries) count × AreShown texts (judged entries) count };

    fn put_record(&mut self, lines: &mut Vec<u8>, placed: &Placed<'_>) -> Result<(), Refusal> {
        self.put_place(lines, placed)
    }

    fn put_count(&self, lines: &mut Vec<u8>, count: u32) -> Result<(), Refusal> {
        put_count(lines, count)
    }

    fn write_inbox<W: Write>(
        &mut self,
        writer: &mut W,
        lines: &mut Vec<u8>,
        policy: &Policy,
        conn: &ConnId,
    ) -> Result<(), Refusal> {
        write_inbox(writer, lines, policy, self, conn)
    }
}
