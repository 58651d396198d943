//! Faults of scripts.

ghost use Rattle.std.specs.Prelude.{◌≡◌, ◌++◌, None, OnOk, IsOkUnless};
ghost use Rattle.cpg_cred.specs.Shown.{refusal_text};
ghost use Rattle.cpg_text.specs.Faults.{fault_text, part_text};

use crate::numbers::push_number;
use crate::small_words::{put, put_bytes};
use cpg_cred::Refusal;
use std::alloc::Global;
use std::fmt;
use thiserror::Error;

/// Why a script ended early. Printed as `41 BadCommand 2`, or with the part that it is a fault of as
/// `part 2: 35 BadValue 2`.
#[derive(Debug, Drop, Error)]
#[error("{}{refusal}", PartOf(*.part))]
pub struct Fault {
    /// The part of the script, from 1, where the fault is that of a part's text.
    pub part: Option<u32>,
    pub refusal: Refusal,
}

/// The part that a fault is of, as it is printed.
#[derive(Debug, Clone, Copy)]
struct PartOf(Option<u32>);

impl fmt::Display for PartOf {
    fn fmt<W: fmt::Write>(&self, f: &mut fmt::Formatter<W>) -> fmt::Result {
        match self.0 {
            None => Ok(()),
            Some(part) => write!(f, "part {part}: "),
        }
    }
}

impl From<Refusal> for Fault {
    ghost from_gives = { λ refusal fault. fault ≡ record { part = None; refusal = refusal } };

    fn from(refusal: Refusal) -> Fault {
        Fault {
            part: None,
            refusal,
        }
    }
}

/// Puts the fault, as it is printed, at the line's end.
pub fn put_fault(alloc: Global, line: &mut Vec<u8>, fault: &Fault) -> Result<(), Refusal>
    ensures ok { OnOk result (line.new.items ≡ line.old.items ++ fault_text fault.now) }
    ensures memory { IsOkUnless result Refusal.Memory }
{
    put_part(line, fault.part)?;
    put_refusal(alloc, line, fault.refusal)
}

fn put_part(line: &mut Vec<u8>, part: Option<u32>) -> Result<(), Refusal>
    ensures ok { OnOk result (line.new.items ≡ line.old.items ++ part_text part) }
    ensures memory { IsOkUnless result Refusal.Memory }
{
    match part {
        None => Ok(()),
        Some(part) => {
            put(line, "part ")?;
            push_number(line, u64::from(part))?;
            put(line, ": ")
        }
    }
}

/// Puts the refusal, as it is printed, at the line's end.
fn put_refusal(alloc: Global, line: &mut Vec<u8>, refusal: Refusal) -> Result<(), Refusal>
    ensures ok { OnOk result (line.new.items ≡ line.old.items ++ refusal_text refusal) }
    ensures memory { IsOkUnless result Refusal.Memory }
{
    let text = format!(in alloc; "{refusal}")?;
    put_bytes(line, text.as_bytes())
}
