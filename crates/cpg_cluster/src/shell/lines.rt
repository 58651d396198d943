//! A line of a stream, read byte by byte as the stream gives it: no more is asked for than the line.
//!
//! Proved where the reader tells its bytes: the line is the first of them, and of a line that is too long as much is
//! kept as tells that.

ghost use Rattle.std.specs.Prelude.{◌≡◌, ◌≤◌, ◌<◌, ◌⊎◌, ◌++◌, ◌∷◌, [], ℕ, List, length, IfOk, IfErr, OnOk, IsOkUnless};
ghost use Rattle.cpg_cluster.specs.ShellSteps.{HasCome, StandsFor, IsLine, TakesIn};

use cpg_cred::Refusal;
use std::io::{ErrorKind, Read};

/// The bytes of a line, at most; a longer one is bad.
pub const MOST_LINE: usize = 1_048_576;

/// The limit of a line: 1 MiB.
pub fn limits()
    ensures line { MOST_LINE ≡ 1048576 }
{}

/// What a read of one byte came to.
#[derive(Debug, Clone, Copy)]
pub enum Came {
    /// The next byte.
    Byte(u8),
    /// The input has ended.
    End,
    /// The read was interrupted.
    Nothing,
}

/// Asks for one byte once.
#[tactic(auto, using(crate::proofs::ReadLines::byte_came, crate::proofs::ReadLines::end_came, crate::proofs::ReadLines::nothing_came))]
fn read_once<R: Read>(reader: &mut R) -> Result<Came, Refusal>
    ensures came { IfOk result (λ came. HasCome came (R.remaining reader.old) (R.remaining reader.new)) }
    ensures errors { IsOkUnless result Refusal.Read }
{
    let mut piece = [0u8; 1];
    match reader.read(&mut piece) {
        Ok(0) => Ok(Came::End),
        Ok(_) => Ok(Came::Byte(piece[0])),
        Err(error) => match error.kind() {
            ErrorKind::Interrupted => Ok(Came::Nothing),
            _ => Err(Refusal::Read),
        },
    }
}

/// Puts the byte at the line's end, where the line is not too long already.
#[tactic(auto, using(crate::proofs::ReadLines::stands_longer, crate::proofs::ReadLines::stands_beyond))]
fn keep(line: &mut Vec<u8>, byte: u8) -> Result<(), Refusal>
    ensures ok { OnOk result ((full : List ℕ) → StandsFor line.old.items full → StandsFor line.new.items (full ++ byte ∷ [])) }
    ensures memory { IsOkUnless result Refusal.Memory }
{
    if line.len() <= MOST_LINE {
        line.push(byte)?;
    }
    Ok(())
}

/// Takes in what a read came to, and says whether the line is complete, and then whether it ended in a line feed.
#[tactic(auto, using(crate::proofs::ReadLines::takes_nothing, crate::proofs::ReadLines::takes_end, crate::proofs::ReadLines::takes_feed, crate::proofs::ReadLines::takes_byte))]
fn take_in(line: &mut Vec<u8>, came: Came) -> Result<Option<bool>, Refusal>
    ensures taken { IfOk result (λ ended. TakesIn came line.old.items ended line.new.items) }
    ensures memory { IsOkUnless result Refusal.Memory }
{
    match came {
        Came::Nothing => Ok(None),
        Came::End => Ok(Some(false)),
        Came::Byte(b'\n') => Ok(Some(true)),
        Came::Byte(byte) => {
            keep(line, byte)?;
            Ok(None)
        }
    }
}

/// Reads the next line, up to its line feed or to the end of the input, and says whether it ended in a line feed. Of a
/// line that is too long one byte more than `MOST_LINE` is kept.
#[tactic(auto, using(crate::proofs::ReadLines::nothing_read, crate::proofs::ReadLines::taken_whole, crate::proofs::ReadLines::taken_on))]
pub fn read_line<R: Read>(reader: &mut R, line: &mut Vec<u8>) -> Result<bool, Refusal>
    requires { line.old.items ≡ [] }
    ensures line { IfOk result (λ more. IsLine line.new.items more (R.remaining reader.old) (R.remaining reader.new)) }
    ensures errors { IfErr result (λ refusal. (refusal ≡ Refusal.Read) ⊎ (refusal ≡ Refusal.Memory)) }
{
    for _turn in 0..u64::MAX {
        let came = read_once(reader)?;
        match take_in(line, came) {
            Ok(None) => {}
            Ok(Some(more)) => return Ok(more),
            Err(refusal) => return Err(refusal),
        }
    }
    Err(Refusal::Read)
}
