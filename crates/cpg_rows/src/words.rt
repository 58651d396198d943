//! Words of rows.

ghost use Rattle.std.specs.Prelude.{◌≤◌, IfOk};

use cpg_cred::{AcceptList, Cred, NodeId, Refusal};
use cpg_entry::{Call, Entry, Packet};
use cpg_print::{entry_in_line, read_call};
use cpg_record::ConnId;
use cpg_ring::Settings;
use cpg_rules::{Asker, Right, Rule};
use cpg_text::{
    cut, is, only_word, push_number, put, read_number, read_u32, strip_name, take_word,
};
use std::alloc::Global;

/// Why a row is no command.
pub const NO_COMMAND: Refusal = Refusal::BadCommand(0);

/// Whether the packets are the same.
pub fn are_same_packets(one: &Packet, other: &Packet) -> bool {
    one.ring == other.ring && one.place == other.place && one.entry.equals(&other.entry)
}

/// The first word, and what follows it.
pub fn first(text: &[u8]) -> Result<(&[u8], &[u8]), Refusal> {
    take_word(text).ok_or(NO_COMMAND)
}

/// The only word.
pub fn one(text: &[u8]) -> Result<&[u8], Refusal> {
    only_word(text).ok_or(NO_COMMAND)
}

/// The two words that there are.
pub fn two(text: &[u8]) -> Result<(&[u8], &[u8]), Refusal> {
    let (word, rest) = first(text)?;
    Ok((word, one(rest)?))
}

/// The three words that there are.
pub fn three(text: &[u8]) -> Result<(&[u8], &[u8], &[u8]), Refusal> {
    let (word, rest) = first(text)?;
    let (second, third) = two(rest)?;
    Ok((word, second, third))
}

/// A number of 32 bits.
pub fn number(word: &[u8]) -> Result<u32, Refusal> {
    read_u32(0, u32::MAX, word).ok_or(NO_COMMAND)
}

/// A number of 8 bits.
pub fn byte(word: &[u8]) -> Result<u8, Refusal> {
    u8::try_from(number(word)?).map_err(|_| NO_COMMAND)
}

/// The number of an item in a list.
pub fn index(word: &[u8]) -> Result<usize, Refusal> {
    Ok(number(word)? as usize)
}

pub fn node(word: &[u8]) -> Result<NodeId, Refusal> {
    NodeId::new(byte(word)?).ok_or(NO_COMMAND)
}

/// A node of so many.
pub fn node_of(nodes: u8, word: &[u8]) -> Result<NodeId, Refusal> {
    let node = node(word)?;
    if node.get() <= nodes {
        Ok(node)
    } else {
        Err(NO_COMMAND)
    }
}

pub fn conn(word: &[u8]) -> Result<u16, Refusal> {
    u16::try_from(number(word)?).map_err(|_| NO_COMMAND)
}

/// `NODE.CONN`.
pub fn conn_id(word: &[u8]) -> Result<ConnId, Refusal> {
    let (at, number) = cut(b'.', word).ok_or(NO_COMMAND)?;
    Ok(ConnId {
        node: node(at)?,
        conn: conn(number)?,
    })
}

/// Who asks, of `NODE UID GID`.
pub fn asker(at: &[u8], uid: &[u8], gid: &[u8]) -> Result<Asker, Refusal> {
    Ok(Asker {
        node: node(at)?,
        cred: cred(uid, gid)?,
    })
}

pub fn cred(uid: &[u8], gid: &[u8]) -> Result<Cred, Refusal> {
    Ok(Cred {
        uid: number(uid)?,
        gid: number(gid)?,
    })
}

/// `EFFECT RIGHT WHO`, by the call that inserts it.
pub fn rule(alloc: Global, text: &[u8]) -> Result<Rule, Refusal> {
    let (effect, right, who) = three(text)?;
    let words = [b"insert".as_slice(), b"g", b"0", effect, right, who];
    let call = read_call(alloc, words.as_slice())?;
    match &call {
        Some(Call::Insert(_, _, rule)) => Ok(*rule.get()),
        _ => Err(NO_COMMAND),
    }
}

/// The rights of a rule.
const RIGHTS: [(&str, Right); 4] = [
    ("join", Right::Join),
    ("send", Right::Send),
    ("list", Right::List),
    ("edit", Right::Edit),
];

pub fn right(word: &[u8]) -> Result<Right, Refusal> {
    named(&RIGHTS, word)
}

/// What that word names among those.
pub fn named<T: Copy>(known: &[(&str, T)], word: &[u8]) -> Result<T, Refusal> {
    for (name, value) in known {
        if is_word(word, *name) {
            return Ok(*value);
        }
    }
    Err(NO_COMMAND)
}

/// The entry of a line of `judge`.
pub fn entry(alloc: Global, text: &[u8]) -> Result<Entry, Refusal> {
    match entry_in_line(alloc, text)? {
        Some(entry) => Ok(entry),
        None => Err(NO_COMMAND),
    }
}

/// `RING NODES PLACES HOPS`, each of any size that its type has room for, and what follows.
pub fn settings(text: &[u8]) -> Result<(Settings, &[u8]), Refusal> {
    let (ring, rest) = first(text)?;
    let (nodes, rest) = first(rest)?;
    let (places, rest) = first(rest)?;
    let (hops, rest) = first(rest)?;
    let settings = Settings {
        ring: number(ring)?,
        nodes: byte(nodes)?,
        places: number(places)?,
        hops: read_number(0, u64::MAX, hops).ok_or(NO_COMMAND)?,
    };
    Ok((settings, rest))
}

/// Adds the words `uid:N` and `gid:N` to the list.
fn add_all(list: &mut AcceptList, text: &[u8]) -> Result<(), Refusal> {
    let mut rest = text;
    for _ in 0..text.len() {
        let Some((word, more)) = take_word(rest) else {
            break;
        };
        add_to(list, word)?;
        rest = more;
    }
    Ok(())
}

/// The list that the words make.
pub fn accept_list(alloc: Global, text: &[u8]) -> Result<AcceptList, Refusal> {
    let mut list = AcceptList::new(alloc);
    match add_all(&mut list, text) {
        Ok(()) => Ok(list),
        Err(refusal) => {
            drop(list);
            Err(refusal)
        }
    }
}

/// Adds `uid:N` or `gid:N` to the list.
pub fn add_to(list: &mut AcceptList, word: &[u8]) -> Result<(), Refusal> {
    if let Some(uid) = strip_name(b"uid:", word) {
        return list.add_uid(number(uid)?);
    }
    match strip_name(b"gid:", word) {
        Some(gid) => list.add_gid(number(gid)?),
        None => Err(NO_COMMAND),
    }
}

/// Puts a name and a number as a line.
pub fn put_number_line(line: &mut Vec<u8>, name: &str, number: u64) -> Result<(), Refusal> {
    put(line, name)?;
    put(line, " ")?;
    push_number(line, number)?;
    put(line, "\n")
}

/// Puts whether something is so.
pub fn put_whether(line: &mut Vec<u8>, is_so: bool) -> Result<(), Refusal> {
    put(line, if is_so { "true\n" } else { "false\n" })
}

/// Puts the bytes that pairs of hexadecimal digits write.
pub fn put_read_hex(bytes: &mut Vec<u8>, word: &[u8]) -> Result<(), Refusal> {
    for pair in word.chunks(2) {
        match pair {
            [high, low] => bytes.push(digit(*high)? * 16 + digit(*low)?)?,
            _ => return Err(NO_COMMAND),
        }
    }
    Ok(())
}

fn digit(byte: u8) -> Result<u8, Refusal>
    ensures { IfOk result (λ digit. digit ≤ 15) }
{
    match byte {
        b'0'..=b'9' => Ok(byte - b'0'),
        b'a'..=b'f' => Ok(byte - b'a' + 10),
        _ => Err(NO_COMMAND),
    }
}

/// Puts the bytes as a line of hexadecimal digits.
pub fn put_hex(line: &mut Vec<u8>, bytes: &[u8]) -> Result<(), Refusal> {
    const DIGITS: [u8; 16] = *b"0123456789abcdef";
    for byte in bytes {
        line.push(DIGITS[(*byte / 16) as usize])?;
        line.push(DIGITS[(*byte % 16) as usize])?;
    }
    put(line, "\n")
}

/// Whether the word is that one.
pub fn is_word(word: &[u8], name: &str) -> bool {
    is(word, name.as_bytes())
}
