//! Streams read whole and written whole.
//!
//! Proved where the reader and the writer tell their bytes: what is read is all there was, and what is
//! written is the text, or after a fault a front of it.

ghost use Rattle.std.specs.Prelude.{◌≡◌, ◌≢◌, ◌<◌, ◌≤◌, ◌+◌, ◌⊎◌, Ok, Err, Some, None, true, false, length, take, ℕ, List, Option, unwrap_or, vec_len, MatchOption, IfOk, IfErr, IfSome, OnOk, OnErr, IsOkUnless};
ghost use Rattle.std.specs.Io.KnownBytes.{Appends, Keeps, ReadConsumes};
ghost use Rattle.std.specs.IoError.{error_kind};
ghost use Rattle.cpg_text.specs.Streams.{AppendsFront};
ghost use Rattle.cpg_text.specs.Reads.{RunsOut};

use cpg_cred::Refusal;
use std::alloc::Global;
use std::io::{self, ErrorKind, Read, Write};

/// The bytes of a stream that is read whole, at most.
pub const MOST_BYTES: usize = 16_777_216;

/// The reads that a stream may take, at most: one for each byte, and one that meets the end. A read counts
/// whether it gives bytes, nothing or is interrupted.
pub const MOST_READS: usize = 16_777_217;

/// The limits of a stream that is read whole: 16 MiB, and a read for each byte and one that meets the end.
pub fn limits()
    ensures bytes { MOST_BYTES ≡ 16777216 }
    ensures reads { MOST_READS ≡ 16777217 }
{}

/// What reads came to.
#[derive(Clone, Copy)]
struct Reads {
    /// How many there were.
    count: usize,
    /// How many bytes they gave.
    bytes: usize,
    /// Whether one failed, and not by an interruption.
    failed: bool,
}

/// What a read came to: how many bytes it gave, none where it was interrupted, else `Read`.
fn given_by(read: io::Result<usize>) -> Result<Option<usize>, Refusal>
    ensures given { IfOk read (λ count. result ≡ Ok (Some count)) }
    ensures interrupted { IfErr read (λ error. error_kind error ≡ ErrorKind.Interrupted → result ≡ Ok None) }
    ensures failed { IfErr read (λ error. error_kind error ≢ ErrorKind.Interrupted → result ≡ Err Refusal.Read) }
{
    match read {
        Ok(count) => Ok(Some(count)),
        Err(error) => match error.kind() {
            ErrorKind::Interrupted => Ok(None),
            _ => Err(Refusal::Read),
        },
    }
}

/// Asks for a piece once, and counts that: how many bytes came, none where the read was interrupted.
fn read_once<R: Read>(
    reader: &mut R,
    reads: &mut Reads,
    piece: &mut [u8; 4096],
) -> Result<Option<usize>, Refusal>
    requires count { reads.old.count < MOST_READS }
    requires bytes { reads.old.bytes ≤ MOST_BYTES }
    ensures given { IfOk result (λ found. MatchOption found (Keeps (R.remaining reader.old) (R.remaining reader.new)) (λ count.
        ReadConsumes {E = Refusal} (R.remaining reader.old) (R.remaining reader.new) (Ok count) piece.new)) }
    ensures within { IfOk result (λ found. unwrap_or found 0 ≤ 4096) }
    ensures counted { reads.new.count ≡ reads.old.count + 1 }
    ensures gathered { IfOk result (λ found. reads.new.bytes ≡ reads.old.bytes + unwrap_or found 0) }
    ensures noted { OnOk result (reads.new.failed ≡ reads.old.failed) }
    ensures failed { OnErr result (reads.new.failed ≡ true) }
    ensures errors { IsOkUnless result Refusal.Read }
{
    reads.count += 1;
    let found = given_by(reader.read(piece));
    match &found {
        Ok(Some(count)) => reads.bytes += *count,
        Ok(None) => {}
        Err(_) => reads.failed = true,
    }
    found
}

/// All that the reader gives, `MOST_BYTES` bytes in `MOST_READS` reads at most (`limits`). `Read` where a read
/// fails, and where the stream has more bytes or takes more reads.
pub fn read_whole<R: Read>(alloc: Global, reader: &mut R) -> Result<Vec<u8>, Refusal>
    ensures whole { IfOk result (λ text. IfSome (R.remaining reader.old) (λ bytes. text.items ≡ bytes)) }
    ensures short { IfOk result (λ text. vec_len text ≤ MOST_BYTES) }
    ensures errors { IfErr result (λ refusal. (refusal ≡ Refusal.Memory) ⊎ (refusal ≡ Refusal.Read)) }
{
    let mut reads = Reads {
        count: 0,
        bytes: 0,
        failed: false,
    };
    read_counted(alloc, reader, &mut reads)
}

/// All that the reader gives, with what the reads came to: `Read` only where one failed or they ran out of
/// reads or of bytes.
fn read_counted<R: Read>(
    alloc: Global,
    reader: &mut R,
    reads: &mut Reads,
) -> Result<Vec<u8>, Refusal>
    requires { reads.old ≡ record { count = 0; bytes = 0; failed = false } }
    ensures whole { IfOk result (λ text. IfSome (R.remaining reader.old) (λ bytes. text.items ≡ bytes)) }
    ensures short { IfOk result (λ text. vec_len text ≤ MOST_BYTES) }
    ensures errors { IfErr result (λ refusal. (refusal ≡ Refusal.Memory) ⊎ ((refusal ≡ Refusal.Read) × RunsOut reads.new)) }
{
    let mut text = Vec::new(alloc);
    let mut piece = [0u8; 4096];
    while reads.count < MOST_READS {
        if let Some(count) = read_once(reader, reads, &mut piece)? {
            if count == 0 {
                return Ok(text);
            }
            if reads.bytes > MOST_BYTES {
                return Err(Refusal::Read);
            }
            text.extend_from_slice(&piece[..count])?;
        }
    }
    Err(Refusal::Read)
}

/// What a write came to: how many bytes were taken, nothing where it was interrupted; else `Write`, also
/// where nothing was taken.
fn taken_by(write: io::Result<usize>) -> Result<usize, Refusal>
    ensures taken { IfOk write (λ count. 0 < count → result ≡ Ok count) }
    ensures nothing { IfOk write (λ count. count ≡ 0 → result ≡ Err Refusal.Write) }
    ensures interrupted { IfErr write (λ error. error_kind error ≡ ErrorKind.Interrupted → result ≡ Ok 0) }
    ensures failed { IfErr write (λ error. error_kind error ≢ ErrorKind.Interrupted → result ≡ Err Refusal.Write) }
{
    match write {
        Ok(0) => Err(Refusal::Write),
        Ok(count) => Ok(count),
        Err(error) => match error.kind() {
            ErrorKind::Interrupted => Ok(0),
            _ => Err(Refusal::Write),
        },
    }
}

/// Writes a front of the text, and says how long it is: nothing where the write was interrupted.
#[tactic(auto, using(crate::proofs::Known::Appends_none))]
fn write_some<W: Write>(writer: &mut W, text: &[u8]) -> Result<usize, Refusal>
    requires { 0 < length text.now }
    ensures ok { IfOk result (λ count. (count ≤ length text.now) × Appends (W.contents writer.old) (W.contents writer.new) (take count text.now)) }
    ensures err { OnErr result (Keeps (W.contents writer.old) (W.contents writer.new)) }
    ensures errors { IsOkUnless result Refusal.Write }
{
    taken_by(writer.write(text))
}

/// Writes the text. After `Write` a front of it is written: a write failed, or the writer took nothing of
/// a piece that was not empty. Most writers take a text at once.
#[tactic(auto, using(crate::proofs::Known::Appends_more, crate::proofs::Known::Appends_kept, crate::proofs::Known::front_taken))]
pub fn write_whole<W: Write>(writer: &mut W, text: &[u8]) -> Result<(), Refusal>
    ensures ok { OnOk result (Appends (W.contents writer.old) (W.contents writer.new) text.now) }
    ensures err { OnErr result (AppendsFront (W.contents writer.old) (W.contents writer.new) text.now) }
    ensures errors { IsOkUnless result Refusal.Write }
{
    if text.is_empty() {
        return Ok(());
    }
    let done = write_some(writer, text)?;
    if done == text.len() {
        return Ok(());
    }
    write_rest(writer, text, done)
}

/// Writes what follows a front of the text that was written. It stands apart, as it is seldom called.
#[inline(never)]
#[tactic(auto, using(crate::proofs::Known::Appends_more, crate::proofs::Known::Appends_kept, crate::proofs::Known::front_taken))]
fn write_rest<W: Write>(writer: &mut W, text: &[u8], from: usize) -> Result<(), Refusal>
    requires { from ≤ length text.now }
    ensures ok { (was : Option (List ℕ)) → Appends was (W.contents writer.old) (take from text.now) → OnOk result (Appends was (W.contents writer.new) text.now) }
    ensures err { (was : Option (List ℕ)) → Appends was (W.contents writer.old) (take from text.now) → OnErr result (AppendsFront was (W.contents writer.new) text.now) }
    ensures errors { IsOkUnless result Refusal.Write }
{
    let mut done = from;
    for _turn in 0..u64::MAX {
        if done == text.len() {
            return Ok(());
        }
        done += write_some(writer, &text[done..])?;
    }
    Err(Refusal::Write)
}
