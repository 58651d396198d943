//! The answers to asks for members and for groups.

ghost use Rattle.std.specs.Prelude.{◌≡◌, ◌++◌, List, length, OnOk, OnErr, IsOkUnless};
ghost use Rattle.std.specs.List.{flat_map};
ghost use Rattle.cpg_ask.specs.Tells.{Listing, Listed, Named, wide_name, pair_bytes, pairs_bytes, listing_bytes, tell_bytes};

use crate::frames::put_framed;
use crate::output::{put_length, put_number};
use crate::statuses::Status;
use bytes::BufMut;
use cpg_cred::{NodeId, Refusal};
use cpg_entry::MOST_NAME_BYTES;
use std::alloc::{AllocError, Global};

fn put_pair(out: &mut Vec<u8>, pair: &(NodeId, u32)) -> Result<(), AllocError>
    ensures { OnOk result (out.new.items ≡ out.old.items ++ pair_bytes pair.now) }
{
    put_number(out, u32::from(pair.0.get()))?;
    put_number(out, pair.1)
}

fn put_pairs(out: &mut Vec<u8>, pairs: &[(NodeId, u32)]) -> Result<(), AllocError>
    ensures { OnOk result (out.new.items ≡ out.old.items ++ pairs_bytes pairs.now) }
{
    for pair in pairs {
        put_pair(out, pair)?;
    }
    Ok(())
}

/// Puts the answer to Members last, or leaves all as it was.
pub fn put_listed(
    alloc: Global,
    out: &mut Vec<u8>,
    tag: u16,
    status: Status,
    members: &[(NodeId, u32)],
) -> Result<(), Refusal>
    ensures ok { OnOk result (out.new.items ≡ out.old.items ++ tell_bytes (Listed tag status members.now)) }
    ensures err { OnErr result (out.new.items ≡ out.old.items) }
    ensures memory { IsOkUnless result Refusal.Memory }
{
    let mut text = Vec::new(alloc);
    put_number(&mut text, u32::from(status.number()))?;
    put_length(&mut text, members.len())?;
    put_pairs(&mut text, members)?;
    put_framed(out, 261, tag, text.as_slice())
}

fn put_wide_name(out: &mut Vec<u8>, name: &[u8]) -> Result<(), AllocError>
    ensures { OnOk result (out.new.items ≡ out.old.items ++ wide_name name.now) }
{
    out.put_slice(name)?;
    out.put_bytes(0, MOST_NAME_BYTES.saturating_sub(name.len()))
}

/// Puts a group of the answer to Groups last, by its plain name. It may put a part of it where memory ends.
pub fn put_group(
    out: &mut Vec<u8>,
    name: &[u8],
    members: &[(NodeId, u32)],
) -> Result<(), AllocError>
    ensures { OnOk result (out.new.items ≡ out.old.items ++ listing_bytes (record { name = name.now; members = members.now })) }
{
    put_length(out, members.len())?;
    put_length(out, name.len())?;
    put_wide_name(out, name)?;
    put_pairs(out, members)
}

/// Puts the answer to Groups last, or leaves all as it was. The text is that of so many groups, as `put_group` puts
/// them one after another.
pub fn put_named(
    alloc: Global,
    out: &mut Vec<u8>,
    tag: u16,
    status: Status,
    count: usize,
    groups: &[u8],
) -> Result<(), Refusal>
    ensures ok { (listings : List Listing) → groups.now ≡ flat_map listing_bytes listings → count ≡ length listings
        → OnOk result (out.new.items ≡ out.old.items ++ tell_bytes (Named tag status listings)) }
    ensures err { OnErr result (out.new.items ≡ out.old.items) }
    ensures memory { IsOkUnless result Refusal.Memory }
{
    let mut text = Vec::new(alloc);
    put_number(&mut text, u32::from(status.number()))?;
    put_length(&mut text, count)?;
    text.put_slice(groups)?;
    put_framed(out, 262, tag, text.as_slice())
}
