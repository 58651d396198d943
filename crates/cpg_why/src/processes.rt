//! Which connections are of a process, by its pid, and how each stands to an entry.
//!
//! Proved: it is the definition of `specs/Processes.antt`.

ghost use Rattle.std.specs.Prelude.{◌≡◌, ◌≤◌, ◌++◌, length, OnOk, IsOkUnless};
ghost use Rattle.cpg_record.specs.Connections.{conns_of};
ghost use Rattle.cpg_record.specs.Judging.{judged};
ghost use Rattle.cpg_why.specs.Processes.{has_process, is_of, is_pid, pid_at, process_stands, stand_if};

use crate::findings::Finding;
use crate::numbers::find_record;
use crate::standings::{Spot, stand_at};
use cpg_cred::Refusal;
use cpg_group::Policy;
use cpg_record::{ConnId, Record};

/// The pid of the process that made the entry of a place.
fn pid_at(records: &[Record], place: Option<u32>) -> Option<u32>
    ensures { result ≡ pid_at records.now place }
{
    match find_record(records, place?) {
        None => None,
        Some(past) => Some(past.entry.pid),
    }
}

/// Whether it is that pid.
fn is_pid(pid: u32, own: Option<u32>) -> bool
    ensures { result ≡ is_pid pid own }
{
    match own {
        None => false,
        Some(own) => own == pid,
    }
}

/// Whether the process of that pid made the connection's first entry.
fn is_of(policy: &Policy, pid: u32, conn: &ConnId) -> bool
    ensures { result ≡ is_of (judged policy.now) pid conn.now }
{
    let first = policy.log(*conn).own(0);
    is_pid(pid, pid_at(policy.records(), first))
}

/// Whether one of the connections is of a process of that pid.
pub(crate) fn has_process(policy: &Policy, pid: u32) -> bool
    ensures { result ≡ has_process policy.now pid }
{
    policy
        .connections()
        .iter()
        .any(|conn| is_of(policy, pid, conn))
}

/// Puts how the connection stands to the entry of that place last, where it is of the process.
fn stand_if(
    list: &mut Vec<Finding>,
    policy: &Policy,
    pid: u32,
    place: u32,
    conn: &ConnId,
) -> Result<(), Refusal>
    requires { (1 ≤ place) × (place ≤ length policy.now) }
    ensures ok { OnOk result (list.new.items ≡ list.old.items ++ stand_if (judged policy.now) pid place conn.now) }
    ensures memory { IsOkUnless result Refusal.Memory }
{
    if is_of(policy, pid, conn) {
        stand_at(
            list,
            &Spot {
                policy,
                conn,
                place,
            },
        )
    } else {
        Ok(())
    }
}

/// Puts how each connection of the process stands to the entry of that place last.
pub(crate) fn stand_process(
    list: &mut Vec<Finding>,
    policy: &Policy,
    pid: u32,
    place: u32,
) -> Result<(), Refusal>
    requires { (1 ≤ place) × (place ≤ length policy.now) }
    ensures ok { OnOk result (list.new.items ≡ list.old.items ++ process_stands (judged policy.now) (conns_of policy.now) pid place) }
    ensures memory { IsOkUnless result Refusal.Memory }
{
    let conns = policy.connections();
    for conn in conns {
        stand_if(list, policy, pid, place, conn)?;
    }
    Ok(())
}
