//! Conf texts: the users and groups that they list.
//!
//! The shape is that of Corosync's configuration files; of all sections `uidgid` alone is read. The whole
//! text is checked before the list grows. Proved: the list grows by what the text lists, or its first fault
//! is told and the list stays.

ghost use Rattle.std.specs.Prelude.{◌≡◌, ◌⊎◌, ◌+◌, ◌<◌, ◌^◌, length, Ok, Err, IfOk, IfErr, OnOk, OnErr, IsOkUnless};
ghost use Rattle.std.specs.Result.{result_err};
ghost use Rattle.cpg_text.specs.Lines.{trimmed};
ghost use Rattle.cpg_conf.specs.Lines.{line_of};
ghost use Rattle.cpg_conf.specs.Listed.{joined, listed, numbers_listed, Grows, FailsBy};
ghost use Rattle.cpg_conf.specs.Steps.{item_seen, nesting_after, said_at};

use crate::items::{Item, read_user_item};
use crate::lines::{LineView, plain_user};
use crate::names::Names;
use crate::nesting::Nesting;
use cpg_cred::{AcceptList, Refusal, Refused};
use cpg_text::{Lines, trim};
use std::alloc::Global;

/// The list with the users and groups that the conf text lists, in the order of its lines.
///
/// Lines end at LF; space, tab and CR are trimmed; empty lines and lines that begin with `#` are ignored.
/// `NAME {` opens a section and `}` closes it. Of all sections `uidgid` at the outermost level is read
/// alone: `uid: VALUE` lists a user and `gid: VALUE` a group, where VALUE is a number of at most
/// 4294967295 or a name that is looked up in `names`.
///
/// The first faulty line is told, `BadLine`, `Unopened`, `BadItem`, `BadValue` or `UnknownName`, and else
/// `Unclosed` where a section is left open. `Memory` comes only where there is no fault. After each refusal
/// the list comes back as it was.
pub fn read_conf(
    alloc: Global,
    text: &[u8],
    names: &Names,
    list: AcceptList,
) -> Result<AcceptList, Refused<AcceptList>>
    ensures ok { IfOk result (λ grown. Grows (listed names.now text.now) list grown) }
    ensures err { IfErr result (λ refused. FailsBy (listed names.now text.now) refused.refusal × (refused.back ≡ list)) }
{
    let mut list = list;
    match add_listed(alloc, text, names, &mut list) {
        Ok(()) => Ok(list),
        Err(refusal) => Err(Refused {
            refusal,
            back: list,
        }),
    }
}

/// Adds what the text lists.
fn add_listed(
    alloc: Global,
    text: &[u8],
    names: &Names,
    list: &mut AcceptList,
) -> Result<(), Refusal>
    ensures ok { OnOk result (Grows (listed names.now text.now) list.old list.new) }
    ensures err { IfErr result (FailsBy (listed names.now text.now)) }
    ensures back { OnErr result (list.new ≡ list.old) }
{
    let numbers = list_conf(alloc, text, names)?;
    list.add_all(numbers.users.as_slice(), numbers.groups.as_slice())
}

/// The users and groups that the conf text lists, each in the order of its lines, twice where they are listed twice.
///
/// The refusals are those of `read_conf`.
pub fn list_conf(alloc: Global, text: &[u8], names: &Names) -> Result<Numbers, Refusal>
    ensures ok { IfOk result (λ numbers. listed names.now text.now ≡ Ok (numbers_listed numbers)) }
    ensures err { IfErr result (FailsBy (listed names.now text.now)) }
{
    match collect(alloc, text, names) {
        Ok(numbers) => Ok(numbers),
        Err(refusal) => Err(fault_before(text, names, refusal)),
    }
}

/// The refusal of a text that was not collected: where that was for memory, the text is gone through once more,
/// for a fault that comes before it.
fn fault_before(text: &[u8], names: &Names, refusal: Refusal) -> Refusal
    requires { (refusal ≡ Refusal.Memory) ⊎ (listed names.now text.now ≡ Err refusal) }
    ensures { FailsBy (listed names.now text.now) result }
{
    match refusal {
        Refusal::Memory => match check(text, names) {
            Ok(()) => Refusal::Memory,
            Err(fault) => fault,
        },
        fault => fault,
    }
}

/// The fault of the text, where there is one.
fn check(text: &[u8], names: &Names) -> Result<(), Refusal>
    ensures { result_err result ≡ result_err (listed names.now text.now) }
{
    let mut place = Nesting::outside();
    let mut number = 0u32;
    for line in Lines::of(text) {
        number = number.saturating_add(1);
        take_line(names, &mut place, number, line)?;
    }
    place.end()
}

/// Users and groups, in the order in which they are listed.
#[derive(Debug, Drop)]
pub struct Numbers {
    pub users: Vec<u32>,
    pub groups: Vec<u32>,
}

/// What the text lists.
fn collect(alloc: Global, text: &[u8], names: &Names) -> Result<Numbers, Refusal>
    ensures ok { IfOk result (λ numbers. listed names.now text.now ≡ Ok (numbers_listed numbers)) }
    ensures err { IfErr result (λ refusal. (refusal ≡ Refusal.Memory) ⊎ (listed names.now text.now ≡ Err refusal)) }
{
    let mut numbers = Numbers {
        users: Vec::new(alloc),
        groups: Vec::new(alloc),
    };
    let mut nesting = Nesting::outside();
    let mut number = 0u32;
    for line in Lines::of(text) {
        number = number.saturating_add(1);
        let item = take_line(names, &mut nesting, number, line)?;
        add_item(&mut numbers, &item)?;
    }
    nesting.end()?;
    Ok(numbers)
}

/// Puts what an item lists last.
fn add_item(numbers: &mut Numbers, item: &Item) -> Result<(), Refusal>
    ensures ok { OnOk result (numbers_listed numbers.new ≡ joined (numbers_listed numbers.old) (item_seen item.now)) }
    ensures memory { IsOkUnless result Refusal.Memory }
{
    match item {
        Item::Nothing => {}
        Item::User(uid) => numbers.users.push(*uid)?,
        Item::Group(gid) => numbers.groups.push(*gid)?,
    }
    Ok(())
}

/// What a line lists, which stands there, and then goes past it. A line that is `uid: VALUE`, with nothing to trim, is
/// read at once.
#[inline(always)]
fn take_line(
    names: &Names,
    nesting: &mut Nesting,
    number: u32,
    line: &[u8],
) -> Result<Item, Refusal>
    requires { (nesting.old).depth + length line.now < 2 ^ 64 }
    ensures ok { IfOk result (λ item. said_at names.now nesting.old number (line_of (trimmed line.now)) ≡ Ok (item_seen item)) }
    ensures err { IfErr result (λ refusal. said_at names.now nesting.old number (line_of (trimmed line.now)) ≡ Err refusal) }
    ensures past { OnOk result (nesting.new ≡ nesting_after nesting.old (line_of (trimmed line.now))) }
{
    if nesting.is_read() {
        if let Some(value) = plain_user(line) {
            return read_user_item(names, number, value);
        }
    }
    take_slowly(names, nesting, number, line)
}

/// The same for any line.
#[inline(never)]
fn take_slowly(
    names: &Names,
    nesting: &mut Nesting,
    number: u32,
    line: &[u8],
) -> Result<Item, Refusal>
    requires { (nesting.old).depth + length line.now < 2 ^ 64 }
    ensures ok { IfOk result (λ item. said_at names.now nesting.old number (line_of (trimmed line.now)) ≡ Ok (item_seen item)) }
    ensures err { IfErr result (λ refusal. said_at names.now nesting.old number (line_of (trimmed line.now)) ≡ Err refusal) }
    ensures past { OnOk result (nesting.new ≡ nesting_after nesting.old (line_of (trimmed line.now))) }
{
    let line = LineView::read(trim(line));
    let item = Item::read(names, nesting, number, &line)?;
    nesting.pass(&line);
    Ok(item)
}
