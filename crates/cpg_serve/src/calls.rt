//! The calls that a client asks for.

ghost use Rattle.std.specs.Prelude.{◌≡◌, IfOk, OnOk, OnErr, IsOkUnless};
ghost use Rattle.cpg_ask.specs.Asks.{want_seen, ask_seen};
ghost use Rattle.cpg_serve.specs.Telling.{told, is_send};
ghost use Rattle.cpg_ask.specs.Naming.{coded_name};
ghost use Rattle.cpg_ask.specs.Rules.{insert_meant};
ghost use Rattle.cpg_serve.specs.Asking.{at_of, IsAt, insert_of, call_of, owed_to, refused_tell, goes_on, called};
ghost use Rattle.cpg_node.specs.Calls.{submit_refusal};

use crate::desks::{Desk, Owed};
use cpg_ask::{AskCode, AskView, Denial, RuleWords, WantView, code_name, status_of_refusal};
use cpg_cred::Refusal;
use cpg_entry::{Call, Message, SharedRule};
use cpg_node::Node;
use std::alloc::Global;

/// The call that is asked for, if one is: none where the name is too long, or the words of a rule mean none.
pub(crate) fn call_asked(alloc: Global, want: &WantView<'_>) -> Result<Option<Call>, Refusal>
    ensures ok { IfOk result (λ call. call ≡ call_of (want_seen want.now)) }
    ensures memory { IsOkUnless result Refusal.Memory }
{
    Ok(match want {
        WantView::Hello(_, _) | WantView::Members(_) | WantView::Groups(_) => None,
        WantView::Leave => Some(Call::Leave),
        WantView::Send(message) => Some(Call::Send(Message::from_slice(alloc, message)?)),
        WantView::Join(name) => match code_name(alloc, name)? {
            None => None,
            Some(group) => Some(Call::Join(group)),
        },
        WantView::Insert(rule, name) => insert_asked(alloc, rule, name)?,
        WantView::Remove(id, name) => match code_name(alloc, name)? {
            None => None,
            Some(group) => Some(Call::Remove(group, *id)),
        },
    })
}

fn insert_asked(alloc: Global, rule: &RuleWords, name: &[u8]) -> Result<Option<Call>, Refusal>
    ensures ok { IfOk result (λ call. call ≡ insert_of (coded_name name.now) (insert_meant rule.now)) }
    ensures memory { IsOkUnless result Refusal.Memory }
{
    let Some(group) = code_name(alloc, name)? else {
        return Ok(None);
    };
    Ok(match rule.meant() {
        None => None,
        Some((index, rule)) => {
            let rule = SharedRule::new(alloc, rule)?;
            Some(Call::Insert(group, index, rule))
        }
    })
}

impl Owed {
    /// What is owed to an ask that is a call.
    pub(crate) fn to(ask: &AskView<'_>) -> Owed
        ensures { result ≡ owed_to (ask_seen ask.now) }
    {
        Owed {
            code: ask.want.code(),
            tag: ask.tag,
        }
    }
}

/// Whether that is asked by a message.
pub(crate) fn is_send(code: AskCode) -> bool
    ensures { result ≡ is_send code }
{
    matches!(code, AskCode::Send)
}

impl Desk {
    /// Tells the client why the node refused its call.
    fn refuse(&mut self, owed: Owed, refusal: Refusal) -> Result<(), Refusal>
        ensures ok { OnOk result (self.new ≡ told self.old (refused_tell owed refusal)) }
        ensures err { OnErr result (self.new ≡ self.old) }
        ensures memory { IsOkUnless result Refusal.Memory }
    {
        let status = status_of_refusal(refusal);
        if is_send(owed.code) {
            self.deny(status, Denial::none())
        } else {
            self.answer(owed.code, owed.tag, status)
        }
    }

    /// Makes a call, or tells the client why not. False where the node's queue is full: then nothing was done.
    pub(crate) fn call(
        &mut self,
        node: &mut Node,
        conn: u16,
        owed: Owed,
        call: Call,
    ) -> Result<bool, Refusal>
        ensures ok { let at = at_of node.old self.old in IfOk result (λ done. (done ≡ goes_on (submit_refusal node.old conn call)) × IsAt node.new self.new (called conn at owed call)) }
        ensures err { OnErr result ((node.new ≡ node.old) × (self.new ≡ self.old)) }
        ensures memory { IsOkUnless result Refusal.Memory }
    {
        self.owed.reserve(1)?;
        match node.submit(conn, call) {
            Ok(()) => {
                self.owed.push_back_reserved(owed);
                Ok(true)
            }
            Err(refused) => match refused.into_refusal() {
                Refusal::Memory => Err(Refusal::Memory),
                Refusal::QueueFull => Ok(false),
                refusal => {
                    self.refuse(owed, refusal)?;
                    Ok(true)
                }
            },
        }
    }
}
