//! What a client is answered at once.

ghost use Rattle.std.specs.Prelude.{◌≡◌, ◌++◌, ℕ, [], List, map, is_some, Some, IfOk, IfErr, OnOk, OnErr, IsOkUnless, if◌then◌else◌, ◌==◌};
ghost use Rattle.std.specs.List.{flat_map};
ghost use Rattle.cpg_ask.specs.Asks.{want_seen, ask_seen};
ghost use Rattle.cpg_ask.specs.Naming.{coded_name};
ghost use Rattle.cpg_ask.specs.Tells.{Named, listing_bytes};
ghost use Rattle.cpg_ask.specs.declared.statuses.Status.TheVariants as status;
ghost use Rattle.cpg_node.specs.Nodes.{records_of};
ghost use Rattle.cpg_record.specs.Listings.{AreGroups};
ghost use Rattle.cpg_serve.specs.Telling.{told};
ghost use Rattle.cpg_serve.specs.Answering.{asker_of, hello_status, members_tell, members_of, listing_of, wrong_status, wrong_tell};
ghost use Rattle.cpg_serve.specs.Asking.{at_of, IsAnswered, IsAsked, ToldGroups, PutsGroups};

use crate::calls::call_asked;
use crate::desks::{Desk, Owed};
use cpg_ask::{
    AskView, RuleWords, Status, WantView, code_name, plain_name, put_group, put_listed, put_named,
};
use cpg_cred::{NodeId, Refusal};
use cpg_entry::Name;
use cpg_node::Node;
use std::alloc::Global;

fn hello_status(version: u32) -> Status
    ensures { result ≡ hello_status version }
{
    if version == 1 {
        Status::Fine
    } else {
        Status::Version
    }
}

/// What is wrong with a call that names no group, or no rule.
fn wrong_status(alloc: Global, want: &WantView<'_>) -> Result<Status, Refusal>
    ensures ok { IfOk result (λ status. status ≡ wrong_status (want_seen want.now)) }
    ensures memory { IsOkUnless result Refusal.Memory }
{
    Ok(match want {
        WantView::Insert(_, name) => match code_name(alloc, name)? {
            Some(_) => Status::Param,
            None => Status::LongName,
        },
        _ => Status::LongName,
    })
}

impl Desk {
    /// Tells the client the members of a group, if it may list them.
    fn answer_members(
        &mut self,
        node: &Node,
        conn: u16,
        tag: u16,
        name: &[u8],
    ) -> Result<(), Refusal>
        ensures ok { OnOk result (self.new ≡ told self.old (members_tell tag (records_of node.now) (asker_of node.now conn) (coded_name name.now))) }
        ensures err { OnErr result (self.new ≡ self.old) }
        ensures memory { IsOkUnless result Refusal.Memory }
    {
        let Some(group) = code_name(self.alloc, name)? else {
            return put_listed(self.alloc, &mut self.out, tag, Status::LongName, &[]);
        };
        match node.list(conn, group.as_slice()) {
            Ok(list) => put_listed(
                self.alloc,
                &mut self.out,
                tag,
                Status::Fine,
                list.as_slice(),
            ),
            Err(Refusal::Memory) => Err(Refusal::Memory),
            Err(Refusal::Denied(_)) => {
                put_listed(self.alloc, &mut self.out, tag, Status::Access, &[])
            }
            Err(_) => put_listed(self.alloc, &mut self.out, tag, Status::Library, &[]),
        }
    }

    /// Tells the client that what it asked for is no call.
    fn answer_wrong(&mut self, tag: u16, want: &WantView<'_>) -> Result<(), Refusal>
        ensures ok { OnOk result (self.new ≡ told self.old (wrong_tell tag (want_seen want.now))) }
        ensures err { OnErr result (self.new ≡ self.old) }
        ensures memory { IsOkUnless result Refusal.Memory }
    {
        let status = wrong_status(self.alloc, want)?;
        self.answer(want.code(), tag, status)
    }

    /// Tells the client the groups that it may list.
    fn answer_groups(
        &mut self,
        node: &Node,
        conn: u16,
        tag: u16,
        wanted: u32,
    ) -> Result<(), Refusal>
        ensures ok { OnOk result (ToldGroups (records_of node.now) (asker_of node.now conn) tag wanted self.old self.new) }
        ensures err { OnErr result (self.new ≡ self.old) }
        ensures memory { IsOkUnless result Refusal.Memory }
    {
        put_groups(self.alloc, &mut self.out, node, conn, tag, wanted)
    }

    /// Answers what is no call.
    fn answer_plain(&mut self, node: &Node, conn: u16, ask: &AskView<'_>) -> Result<(), Refusal>
        ensures ok { OnOk result (IsAnswered conn (at_of node.now self.old) (ask_seen ask.now) self.new) }
        ensures err { OnErr result (self.new ≡ self.old) }
        ensures memory { IsOkUnless result Refusal.Memory }
    {
        match &ask.want {
            WantView::Hello(version, _) => self.greet(ask.tag, hello_status(*version)),
            WantView::Members(name) => self.answer_members(node, conn, ask.tag, name),
            WantView::Groups(wanted) => self.answer_groups(node, conn, ask.tag, *wanted),
            WantView::Join(_)
            | WantView::Leave
            | WantView::Send(_)
            | WantView::Insert(_, _)
            | WantView::Remove(_, _) => self.answer_wrong(ask.tag, &ask.want),
        }
    }

    /// Does what the client asks, through its own connection alone. False where the node's queue is full: then
    /// nothing was done.
    pub(crate) fn ask(
        &mut self,
        node: &mut Node,
        conn: u16,
        ask: &AskView<'_>,
    ) -> Result<bool, Refusal>
        ensures ok { let at = at_of node.old self.old in IfOk result (λ done. IsAsked conn at (ask_seen ask.now) done (at_of node.new self.new)) }
        ensures err { OnErr result ((node.new ≡ node.old) × (self.new ≡ self.old)) }
        ensures memory { IsOkUnless result Refusal.Memory }
    {
        match call_asked(self.alloc, &ask.want)? {
            None => {
                self.answer_plain(node, conn, ask)?;
                Ok(true)
            }
            Some(call) => self.call(node, conn, Owed::to(ask), call),
        }
    }
}

/// Puts the answer with the groups that a connection may list last, or leaves all as it was.
fn put_groups(
    alloc: Global,
    out: &mut Vec<u8>,
    node: &Node,
    conn: u16,
    tag: u16,
    wanted: u32,
) -> Result<(), Refusal>
    ensures ok { OnOk result (PutsGroups (records_of node.now) (asker_of node.now conn) tag wanted out.old.items out.new.items) }
    ensures err { OnErr result (out.new.items ≡ out.old.items) }
    ensures memory { IsOkUnless result Refusal.Memory }
{
    let Ok(names) = node.groups(conn) else {
        return Err(Refusal::Memory);
    };
    let names = names.as_slice();
    let groups = list_groups(alloc, node, conn, wanted, names)?;
    put_named(
        alloc,
        out,
        tag,
        Status::Fine,
        names.len(),
        groups.as_slice(),
    )
}

/// The members of a group, as `put_group` takes them: none where they are not wanted, or may not be listed.
fn put_listing(
    alloc: Global,
    out: &mut Vec<u8>,
    node: &Node,
    conn: u16,
    wanted: u32,
    name: &Name,
) -> Result<(), Refusal>
    ensures ok { OnOk result (out.new.items ≡ out.old.items ++ listing_bytes (listing_of (records_of node.now) (asker_of node.now conn) wanted name.now)) }
    ensures memory { IsOkUnless result Refusal.Memory }
{
    let plain = plain_name(alloc, name.as_slice())?;
    if wanted == 0 {
        put_group(out, plain.as_slice(), &[])?;
        return Ok(());
    }
    match node.list(conn, name.as_slice()) {
        Ok(list) => put_group(out, plain.as_slice(), list.as_slice())?,
        Err(Refusal::Memory) => return Err(Refusal::Memory),
        Err(_) => put_group(out, plain.as_slice(), &[])?,
    }
    Ok(())
}

/// The groups of those names, as `put_group` puts them.
fn list_groups(
    alloc: Global,
    node: &Node,
    conn: u16,
    wanted: u32,
    names: &[Name],
) -> Result<Vec<u8>, Refusal>
    ensures ok { IfOk result (λ text. text.items ≡ flat_map (λ name. listing_bytes (listing_of (records_of node.now) (asker_of node.now conn) wanted name)) names.now) }
    ensures memory { IsOkUnless result Refusal.Memory }
{
    let mut text = Vec::new(alloc);
    for name in names {
        put_listing(alloc, &mut text, node, conn, wanted, name)?;
    }
    Ok(text)
}
