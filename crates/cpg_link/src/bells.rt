//! How nodes' threads sleep, and how they are woken.
//!
//! A thread that found nothing to do announces at its bell how deep it is going to sleep, takes turns until one more
//! finds nothing, and sleeps only then. Whoever has news for it first puts them where those turns look, and then rings. So
//! either the ringer sees the sleep announced, or a turn sees the news: no wake-up is lost. All orderings are SeqCst,
//! which lets both agree on what came first. A time limit ends each sleep nevertheless.

ghost use Rattle.std.specs.Prelude.{◌≡◌, IfOk, IsOkUnless, vec_len};
ghost use Rattle.cpg_link.specs.Sleeps.{ends_by};

use cpg_cred::Refusal;
use crossbeam_utils::CachePadded;
use std::alloc::Global;
use std::hint::spin_loop;
use std::sync::Wait;
use std::sync::atomic::{AtomicBool, Ordering};
use std::thread;
use std::thread::Parker;
use std::time::Duration;

/// How often a thread looks whether it was rung, and then how often with a yield between, before it parks: a frame comes
/// within some microseconds where all nodes have a processor of their own.
const SPIN_LOOKS: u32 = 16;

const YIELD_LOOKS: u32 = 16;

/// How deep a thread sleeps.
#[derive(Debug, Clone, Copy, PartialEq, Eq)]
pub enum Depth {
    /// Not at all.
    Awake,
    /// Until a frame comes: the ring is at work.
    Light,
    /// Until data or a call come, and not for a token alone: the ring is at rest.
    Deep,
}

/// What a thread is woken for.
#[derive(Debug, Clone, Copy, PartialEq, Eq)]
pub enum News {
    /// A token came.
    Token,
    /// Data came.
    Data,
    /// A call was admitted, here or at another node.
    Call,
    /// The nodes are halted.
    Halt,
}

impl Depth {
    /// Whether the news end a sleep of that depth: all but a call a light one, all but a token a deep one.
    pub fn ends_by(self, news: News) -> bool
        ensures { result ≡ ends_by self news }
    {
        match (self, news) {
            (Depth::Awake, _) => false,
            (Depth::Light, News::Call) => false,
            (Depth::Light, _) => true,
            (Depth::Deep, News::Token) => false,
            (Depth::Deep, _) => true,
        }
    }
}

/// The bell of a node's thread.
#[derive(Drop)]
pub struct Bell {
    parker: Parker,
    /// Whether a light sleep is announced, and whether a deep one is.
    light: AtomicBool,
    deep: AtomicBool,
}

impl Bell {
    /// The bell of a thread that is awake.
    pub fn new() -> Bell {
        Bell {
            parker: Parker::new(),
            light: AtomicBool::new(false),
            deep: AtomicBool::new(false),
        }
    }

    /// The sleep that is announced.
    fn announced(&self) -> Depth {
        if self.deep.load(Ordering::SeqCst) {
            Depth::Deep
        } else if self.light.load(Ordering::SeqCst) {
            Depth::Light
        } else {
            Depth::Awake
        }
    }

    /// Announces the sleep: from here on the thread is rung. A thread that is known to be awake writes nothing: whoever
    /// rings or calls reads the bell, and each turn of a busy thread would take it from them.
    pub fn announce(&self, depth: Depth) {
        if depth == Depth::Awake && self.announced() == Depth::Awake {
            return;
        }
        self.light.store(depth == Depth::Light, Ordering::SeqCst);
        self.deep.store(depth == Depth::Deep, Ordering::SeqCst);
    }

    /// Wakes the thread, if these news end the sleep that it announced. A sleep that begins afterwards ends at once.
    pub fn ring(&self, news: News) {
        if self.announced().ends_by(news) {
            self.announce(Depth::Awake);
            self.parker.unpark();
        }
    }

    /// Looks for a while, and says whether the thread was rung meanwhile.
    pub fn is_rung_soon(&self) -> bool {
        for look in 0..SPIN_LOOKS + YIELD_LOOKS {
            if self.announced() == Depth::Awake {
                return true;
            }
            if look < SPIN_LOOKS {
                spin_loop();
            } else {
                thread::yield_now();
            }
        }
        false
    }

    /// Sleeps until the thread is rung, for so many microseconds at most. It may end early.
    pub fn sleep<R: Wait>(&self, rt: &R, micros: u64) {
        if self.announced() != Depth::Awake {
            self.parker.park_timeout(rt, Duration::from_micros(micros));
        }
    }
}

/// A bell for each node's thread, in their order. Each stands alone: threads look at their own while others are rung.
pub fn new_bells(alloc: Global, nodes: u8) -> Result<Vec<CachePadded<Bell>>, Refusal>
    ensures ok { IfOk result (λ bells. vec_len bells ≡ nodes) }
    ensures memory { IsOkUnless result Refusal.Memory }
{
    let mut bells = Vec::new(alloc);
    for _ in 0..nodes {
        bells.push(CachePadded::new(Bell::new()))?;
    }
    Ok(bells)
}
