//! Accounts: texts of passwd(5) and of group(5) form.
//!
//! Lines end at LF; space, tab and CR are trimmed; empty lines and lines that begin with `#` are ignored, as in a names
//! text. Proved: a text adds what the definition says, the first line for each name, or its first fault is told.

ghost use Rattle.std.specs.Prelude.{◌≡◌, ◌==◌, ◌⊎◌, Ok, Err, Some, OnOk, IfOk, IfErr, IsOkUnless, count_by, option_map};
ghost use Rattle.cpg_text.specs.Lines.{trimmed};
ghost use Rattle.cpg_conf.specs.Names.{with_naming};
ghost use Rattle.cpg_accept.specs.Accounts.{account_in, account_said, colons_after, naming_at, known_with};
ghost use Rattle.cpg_accept.specs.AdmitSteps.{account_seen};

use cpg_conf::Names;
use cpg_cred::Refusal;
use cpg_text::{Lines, cut, is_ignored, read_u32, trim};

/// What accounts a text has.
#[derive(Debug, Clone, Copy)]
pub enum Book {
    /// Users, as in passwd(5): `NAME:PASSWORD:UID:GID:GECOS:DIRECTORY:SHELL`.
    Users,
    /// Groups, as in group(5): `NAME:PASSWORD:GID:MEMBERS`.
    Groups,
}

/// What a line says: nothing, or the number of a name.
#[derive(Debug, Clone, Copy)]
struct Account<'a> {
    named: Option<(&'a [u8], u32)>,
}

impl Book {
    /// How many colons follow the number's own.
    fn colons_after(&self) -> usize
        ensures { result ≡ colons_after self.now }
    {
        match self {
            Book::Users => 3,
            Book::Groups => 0,
        }
    }
}

/// Adds the accounts of a text, the first line for each name, unless the name is known.
///
/// The first faulty line is told: `BadLine` for one of another shape, `BadValue` where the number is none of at most
/// 4294967295.
pub fn add_accounts(names: &mut Names, book: Book, text: &[u8]) -> Result<(), Refusal>
    ensures ok { OnOk result (known_with book names.old text.now ≡ Ok names.new) }
    ensures err { IfErr result (λ refusal. (refusal ≡ Refusal.Memory) ⊎ (known_with book names.old text.now ≡ Err refusal)) }
{
    let mut number = 0u32;
    for line in Lines::of(text) {
        number = number.saturating_add(1);
        let account = read_line(book, number, line)?;
        add(names, book, account)?;
    }
    Ok(())
}

/// Adds an account, if there is one.
fn add(names: &mut Names, book: Book, account: Account<'_>) -> Result<(), Refusal>
    ensures ok { OnOk result (names.new ≡ with_naming names.old (account_seen book account.entry)) }
    ensures memory { IsOkUnless result Refusal.Memory }
{
    match account.named {
        None => Ok(()),
        Some((name, number)) => match book {
            Book::Users => names.add_user(name, number),
            Book::Groups => names.add_group(name, number),
        },
    }
}

/// What the line of that number says.
fn read_line(book: Book, number: u32, line: &[u8]) -> Result<Account<'_>, Refusal>
    ensures ok { IfOk result (λ account. naming_at book number (trimmed line.now) ≡ Ok (account_seen book account)) }
    ensures err { IfErr result (λ refusal. naming_at book number (trimmed line.now) ≡ Err refusal) }
{
    let line = trim(line);
    if is_ignored(line) {
        return Ok(Account { named: None });
    }
    match read_account(book, line) {
        None => Err(Refusal::BadLine(number)),
        Some((name, value)) => read_number(book, number, name, value),
    }
}

/// The account of a name, whose number the word writes.
fn read_number<'a>(
    book: Book,
    number: u32,
    name: &'a [u8],
    value: &[u8],
) -> Result<Account<'a>, Refusal>
    ensures ok { IfOk result (λ account. account_said book number (Some (name.now, value.now)) ≡ Ok (account_seen book account)) }
    ensures err { IfErr result (λ refusal. account_said book number (Some (name.now, value.now)) ≡ Err refusal) }
{
    match read_u32(0, u32::MAX, value) {
        None => Err(Refusal::BadValue(number)),
        Some(value) => Ok(Account {
            named: Some((name, value)),
        }),
    }
}

/// The name and the number's word of an account's line.
fn read_account(book: Book, line: &[u8]) -> Option<(&[u8], &[u8])>
    ensures { option_map (λ parts. (parts.0.now, parts.1.now)) result ≡ account_in book line.now }
{
    let (name, rest) = cut(b':', line)?;
    let (_password, rest) = cut(b':', rest)?;
    let (number, rest) = cut(b':', rest)?;
    if !name.is_empty() && count_colons(rest) == book.colons_after() {
        Some((name, number))
    } else {
        None
    }
}

fn count_colons(text: &[u8]) -> usize
    ensures { result ≡ count_by (λ byte. byte == 58) text.now }
{
    text.iter().filter(|byte| **byte == b':').count()
}
