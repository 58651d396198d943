//! Numbers at the end of what is spelled.

#![tactic(auto, using(crate::proofs::Begins::begins_self, crate::proofs::Begins::begins_before))]

ghost use Rattle.std.specs.Prelude.{◌++◌};
ghost use Rattle.byteorder.specs.Endian.{little_bytes};
ghost use Rattle.cpg_ask.specs.Adding.{Adds};
ghost use Rattle.cpg_ask.specs.Heads.{head_bytes};
ghost use Rattle.cpg_ask.specs.Tells.{number};

use bytes::BufMut;
use std::alloc::AllocError;

/// Two bytes, the lowest first.
pub(crate) fn put_u16(out: &mut Vec<u8>, number: u16) -> Result<(), AllocError>
    ensures { Adds result out.old.items out.new.items (little_bytes 2 number) }
{
    out.put_u16_le(number)
}

/// Four bytes, the lowest first.
pub(crate) fn put_u32(out: &mut Vec<u8>, number: u32) -> Result<(), AllocError>
    ensures { Adds result out.old.items out.new.items (little_bytes 4 number) }
{
    out.put_u32_le(number)
}

/// Eight bytes, the lowest first.
pub(crate) fn put_u64(out: &mut Vec<u8>, number: u64) -> Result<(), AllocError>
    ensures { Adds result out.old.items out.new.items (little_bytes 8 number) }
{
    out.put_u64_le(number)
}

/// The four lowest bytes of a count, the lowest first.
pub(crate) fn put_count(out: &mut Vec<u8>, count: usize) -> Result<(), AllocError>
    ensures { Adds result out.old.items out.new.items (little_bytes 4 count) }
{
    let bytes = (count as u64).to_le_bytes();
    out.put_slice(&bytes[..4])
}

/// A head, whose count may be any: its four lowest bytes are put.
pub(crate) fn put_head(
    out: &mut Vec<u8>,
    count: usize,
    kind: u16,
    tag: u16,
) -> Result<(), AllocError>
    ensures { Adds result out.old.items out.new.items (head_bytes (record { count = count; kind = kind; tag = tag })) }
{
    put_count(out, count)?;
    put_u16(out, kind)?;
    put_u16(out, tag)?;
    Ok(())
}

/// A number of what is told.
#[tactic(auto, unfolding(crate::specs::Tells::number))]
pub(crate) fn put_number(out: &mut Vec<u8>, value: u32) -> Result<(), AllocError>
    ensures { Adds result out.old.items out.new.items (number value) }
{
    put_u32(out, value)
}

/// How many there are of something that is told.
#[tactic(auto, unfolding(crate::specs::Tells::number))]
pub(crate) fn put_length(out: &mut Vec<u8>, length: usize) -> Result<(), AllocError>
    ensures { Adds result out.old.items out.new.items (number length) }
{
    put_count(out, length)
}

/// Four numbers of what is told.
pub(crate) fn put_four(
    out: &mut Vec<u8>,
    first: usize,
    second: usize,
    third: usize,
    fourth: usize,
) -> Result<(), AllocError>
    ensures { Adds result out.old.items out.new.items (number first ++ (number second ++ (number third ++ number fourth))) }
{
    put_length(out, first)?;
    put_length(out, second)?;
    put_length(out, third)?;
    put_length(out, fourth)?;
    Ok(())
}
