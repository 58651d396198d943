//! Where a line of a conf text stands.
//!
//! Proved: each line leads to where `nesting_after` says.

ghost use Rattle.std.specs.Prelude.{◌≡◌, ◌+◌, ◌<◌, ◌^◌, ◌==◌, ◌&&◌, ◌≢◌, false, OnOk, OnErr, IsOkUnless};
ghost use Rattle.cpg_conf.specs.Steps.{line_seen, nesting_after, rise};

use crate::lines::LineView;
use cpg_cred::Refusal;

/// How deep a line stands in sections, and whether the outermost of them is named `uidgid`.
#[derive(Debug, Drop)]
pub struct Nesting {
    /// How many sections are open.
    pub depth: u64,
    /// Whether the section that was opened last at depth 0 is named `uidgid`.
    pub in_uidgid: bool,
}

impl Nesting {
    /// Where the first line stands.
    pub fn outside() -> Nesting
        ensures { result ≡ record { depth = 0; in_uidgid = false } }
    {
        Nesting {
            depth: 0,
            in_uidgid: false,
        }
    }

    /// Whether keys are read there.
    pub fn is_read(&self) -> bool
        ensures { result ≡ ((self.now).depth == 1) && (self.now).in_uidgid }
    {
        self.depth == 1 && self.in_uidgid
    }

    /// Goes past a line; past a close at depth 0 nothing changes.
    pub fn pass(&mut self, line: &LineView<'_>)
        requires { (self.old).depth + rise (line_seen line.now) < 2 ^ 64 }
        ensures { self.new ≡ nesting_after self.old (line_seen line.now) }
    {
        match line {
            LineView::Open(name) => {
                if self.depth == 0 {
                    self.in_uidgid = *name == b"uidgid".as_slice();
                }
                self.depth += 1;
            }
            LineView::Close => self.depth = self.depth.saturating_sub(1),
            LineView::Ignored | LineView::Key(_, _) | LineView::Bad => {}
        }
    }

    /// Ends the text: `Unclosed` where a section is open.
    pub fn end(&self) -> Result<(), Refusal>
        ensures open { OnErr result ((self.now).depth ≢ 0) }
        ensures unclosed { IsOkUnless result Refusal.Unclosed }
        ensures closed { OnOk result ((self.now).depth ≡ 0) }
    {
        if self.depth == 0 {
            Ok(())
        } else {
            Err(Refusal::Unclosed)
        }
    }
}
