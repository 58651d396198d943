//! Names: which numbers the names of users and groups stand for.
//!
//! The names text is this project's own: `user NAME N` or `group NAME N` on a line. Proved: `Names::read`
//! gives the names of the text, the first line for each name, or exactly the text's first fault.

ghost use Rattle.std.specs.Prelude.{◌≡◌, ◌⊎◌, Ok, Err, IfOk, IfErr, OnOk, IsOkUnless, option_map};
ghost use Rattle.std.specs.Result.{result_err};
ghost use Rattle.cpg_text.specs.Lines.{lines_of};
ghost use Rattle.cpg_conf.specs.Names.{User, Group, no_names, number_of, with_naming, with_namings, namings_from, known_of};
ghost use Rattle.cpg_conf.specs.Listed.{FailsBy};
ghost use Rattle.cpg_conf.specs.Steps.{naming_seen};

use crate::namings::NamingView;
use crate::tables::NameTable;
use cpg_cred::Refusal;
use cpg_text::Lines;
use std::alloc::Global;
use std::marker::Model;

/// Why a text is not read: `Memory`, or a fault with its line.
pub type ConfFault = Refusal;

/// The numbers that the names of users and of groups stand for.
#[derive(Drop)]
pub struct Names {
    users: NameTable,
    groups: NameTable,
}

impl Model for Names {
    ghost use Rattle.cpg_conf.specs.Names.{Known};

    ghost Value = { Known };

    ghost view = { λ names. record { users = names.users; groups = names.groups } };
}

impl Names {
    /// No names.
    pub fn new(alloc: Global) -> Names
        ensures { result ≡ no_names }
    {
        Names {
            users: NameTable::new(alloc),
            groups: NameTable::new(alloc),
        }
    }

    /// The names of a text. Each line is `user NAME N` or `group NAME N`, N a number of at most
    /// 4294967295; lines that are empty or begin with `#` are ignored. The first line for a name counts.
    ///
    /// The first faulty line is told: `BadLine` for a line of another shape, `BadValue` for another N.
    /// `Memory` comes only where no line is faulty.
    pub fn read(alloc: Global, text: &[u8]) -> Result<Names, ConfFault>
        ensures ok { IfOk result (λ names. known_of text.now ≡ Ok names) }
        ensures err { IfErr result (FailsBy (known_of text.now)) }
    {
        let mut names = Names::new(alloc);
        match names.add_all(text) {
            Ok(()) => Ok(names),
            Err(refusal) => Err(fault_before(text, refusal)),
        }
    }

    /// The number of a user's name, if it is known.
    pub fn user(&self, name: &[u8]) -> Option<u32>
        ensures { result ≡ number_of (self.now).users name.now }
    {
        self.users.get(name)
    }

    /// The number of a group's name, if it is known.
    pub fn group(&self, name: &[u8]) -> Option<u32>
        ensures { result ≡ number_of (self.now).groups name.now }
    {
        self.groups.get(name)
    }

    /// Adds the number of a user's name, unless that name is known.
    pub fn add_user(&mut self, name: &[u8], number: u32) -> Result<(), Refusal>
        ensures ok { OnOk result (self.new ≡ with_naming self.old (User name.now number)) }
        ensures memory { IsOkUnless result Refusal.Memory }
    {
        self.users.add(name, number)
    }

    /// Adds the number of a group's name, unless that name is known.
    pub fn add_group(&mut self, name: &[u8], number: u32) -> Result<(), Refusal>
        ensures ok { OnOk result (self.new ≡ with_naming self.old (Group name.now number)) }
        ensures memory { IsOkUnless result Refusal.Memory }
    {
        self.groups.add(name, number)
    }

    /// Adds what the lines of the text say.
    fn add_all(&mut self, text: &[u8]) -> Result<(), Refusal>
        ensures ok { OnOk result (with_namings self.old (namings_from 1 (lines_of text.now)) ≡ Ok self.new) }
        ensures err { IfErr result (λ refusal. (refusal ≡ Refusal.Memory) ⊎ (namings_from 1 (lines_of text.now) ≡ Err refusal)) }
    {
        let mut number = 0u32;
        for line in Lines::of(text) {
            number = number.saturating_add(1);
            let naming = NamingView::read(number, line)?;
            self.add(&naming)?;
        }
        Ok(())
    }

    /// Adds what a line says.
    fn add(&mut self, naming: &NamingView<'_>) -> Result<(), Refusal>
        ensures ok { OnOk result (self.new ≡ with_naming self.old (naming_seen naming.now)) }
        ensures memory { IsOkUnless result Refusal.Memory }
    {
        match naming {
            NamingView::Nothing => Ok(()),
            NamingView::User(name, number) => self.add_user(name, *number),
            NamingView::Group(name, number) => self.add_group(name, *number),
        }
    }
}

/// The refusal of a text that was not taken in: where that was for memory, the text is gone through once more, for
/// a fault that comes before it.
fn fault_before(text: &[u8], refusal: Refusal) -> Refusal
    requires { (refusal ≡ Refusal.Memory) ⊎ (namings_from 1 (lines_of text.now) ≡ Err refusal) }
    ensures { FailsBy (known_of text.now) result }
{
    match refusal {
        Refusal::Memory => match check(text) {
            Ok(()) => Refusal::Memory,
            Err(fault) => fault,
        },
        fault => fault,
    }
}

/// The fault of the first faulty line, where there is one.
fn check(text: &[u8]) -> Result<(), Refusal>
    ensures { result_err result ≡ result_err (namings_from 1 (lines_of text.now)) }
{
    let mut number = 0u32;
    for line in Lines::of(text) {
        number = number.saturating_add(1);
        NamingView::read(number, line)?;
    }
    Ok(())
}
