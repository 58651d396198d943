//! Opening: a node of some settings, with an accept list that is given as numbers or as texts.

ghost use Rattle.std.specs.Prelude.{◌≡◌, Ok, IfOk, IfErr};
ghost use Rattle.cpg_conf.specs.Listed.{Grows, listed, nothing};
ghost use Rattle.cpg_conf.specs.Names.{known_of};
ghost use Rattle.cpg_embed.specs.Opening.{IsOpened, IsNodeOpened, IsConfOpened, IsFaultOf, IsListOf, listing_of, line_in, settings_of};

use crate::endpoints::Endpoint;
use cpg_conf::{Names, read_conf};
use cpg_cred::{AcceptList, NodeId, Refusal};
use cpg_node::{Node, Settings};
use std::alloc::Global;

/// A ring's settings, and which of its nodes it is.
#[repr(C)]
#[derive(Clone, Copy)]
pub struct Setup {
    /// The ring's number.
    pub ring: u32,
    /// How many nodes the ring has, 1 to 8.
    pub nodes: u8,
    /// The node's own number, from 1.
    pub node: u8,
    /// How many places there are, 1 to 1,048,576.
    pub places: u32,
    /// How many hops the token makes, 1 to 2^62.
    pub hops: u64,
}

impl Setup {
    /// The ring's settings.
    pub fn settings(&self) -> Settings
        ensures { result ≡ settings_of self.now }
    {
        Settings {
            ring: self.ring,
            nodes: self.nodes,
            places: self.places,
            hops: self.hops,
        }
    }
}

/// The node of that setup with that list. Range where the ring has no such node, or a setting is out of range.
fn open_node(alloc: Global, setup: &Setup, list: AcceptList) -> Result<Node, Refusal>
    ensures { IsNodeOpened setup.now list result }
{
    let Some(id) = NodeId::new(setup.node) else {
        return Err(Refusal::Range);
    };
    match Node::new(alloc, setup.settings(), id, list) {
        Ok(node) => Ok(node),
        Err(refused) => Err(refused.refusal),
    }
}

/// An endpoint of a new node with that list.
fn open_list(alloc: Global, setup: &Setup, list: AcceptList) -> Result<Endpoint, u32>
    ensures { IsOpened setup.now list result }
{
    match open_node(alloc, setup, list) {
        Ok(node) => Ok(Endpoint::new(alloc, node)),
        Err(refusal) => Err(refusal.number()),
    }
}

/// An endpoint of a new node, which lets in those users and groups, beside user 0 and group 0.
pub fn open(alloc: Global, setup: &Setup, users: &[u32], groups: &[u32]) -> Result<Endpoint, u32>
    ensures { IsOpened setup.now (listing_of users.now groups.now) result }
{
    let mut list = AcceptList::new(alloc);
    if let Err(refusal) = list.add_all(users, groups) {
        return Err(refusal.number());
    }
    open_list(alloc, setup, list)
}

/// Where a text could not be read: 1 the names text, 2 the conf text, and the line where one is at fault,
/// else 0; two zeros where both were read.
#[repr(C)]
#[derive(Clone, Copy)]
pub struct Fault {
    pub text: u32,
    pub line: u32,
}

/// The line that a refusal tells, else 0.
fn line_in(refusal: Refusal) -> u32
    ensures { result ≡ line_in refusal }
{
    match refusal {
        Refusal::BadLine(line)
        | Refusal::Unopened(line)
        | Refusal::BadItem(line)
        | Refusal::BadValue(line)
        | Refusal::UnknownName(line) => line,
        _ => 0,
    }
}

/// The names of a text; else the status, and where the fault is.
#[tactic(auto, using(crate::proofs::Faults::refused_text))]
fn read_names(alloc: Global, text: &[u8], fault: &mut Fault) -> Result<Names, u32>
    ensures ok { IfOk result (λ names. (known_of text.now ≡ Ok names) × (fault.new ≡ fault.old)) }
    ensures err { IfErr result (λ status. IsFaultOf 1 (known_of text.now) status fault.new) }
{
    match Names::read(alloc, text) {
        Ok(names) => Ok(names),
        Err(refusal) => {
            *fault = Fault {
                text: 1,
                line: line_in(refusal),
            };
            Err(refusal.number())
        }
    }
}

/// The accept list of a conf text; else the status, and where the fault is.
#[tactic(auto, using(crate::proofs::Faults::refused_text))]
fn read_list(
    alloc: Global,
    text: &[u8],
    names: &Names,
    fault: &mut Fault,
) -> Result<AcceptList, u32>
    ensures ok { IfOk result (λ list. Grows (listed names.now text.now) nothing list × (fault.new ≡ fault.old)) }
    ensures err { IfErr result (λ status. IsFaultOf 2 (listed names.now text.now) status fault.new) }
{
    match read_conf(alloc, text, names, AcceptList::new(alloc)) {
        Ok(list) => Ok(list),
        Err(refused) => {
            *fault = Fault {
                text: 2,
                line: line_in(refused.refusal),
            };
            Err(refused.refusal.number())
        }
    }
}

/// The accept list of a conf text, its names by the names text; else the status, and where the fault is.
#[tactic(auto, using(crate::proofs::Faults::read_both, crate::proofs::Faults::unread_conf, crate::proofs::Faults::unread_names))]
pub fn list_of_conf(
    alloc: Global,
    names: &[u8],
    conf: &[u8],
    fault: &mut Fault,
) -> Result<AcceptList, u32>
    ensures { IsListOf (known_of names.now) conf.now result fault.new }
{
    *fault = Fault { text: 0, line: 0 };
    let names = read_names(alloc, names, fault)?;
    let list = read_list(alloc, conf, &names, fault)?;
    Ok(list)
}

/// An endpoint of a new node, which lets in whom the conf text lists, its names by the names text.
#[tactic(auto, using(crate::proofs::Faults::opened_conf, crate::proofs::Faults::unopened_conf))]
pub fn open_conf(
    alloc: Global,
    setup: &Setup,
    names: &[u8],
    conf: &[u8],
    fault: &mut Fault,
) -> Result<Endpoint, u32>
    ensures { IsConfOpened setup.now (known_of names.now) conf.now result fault.new }
{
    let list = list_of_conf(alloc, names, conf, fault)?;
    open_list(alloc, setup, list)
}
