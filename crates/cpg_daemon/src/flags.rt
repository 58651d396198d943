//! What a node's sessions may look at without its lock.
//!
//! A session that asks again what its node has just answered is answered the same for as long as nothing has happened at the
//! node. Whether something has is written here under the node's lock, so that what is read between two sections under the
//! lock is what the first of them left. All orderings are SeqCst.

ghost use Rattle.std.specs.Prelude.{◌≡◌, IfOk, IsOkUnless, vec_len};

use cpg_cred::Refusal;
use crossbeam_utils::CachePadded;
use std::alloc::Global;
use std::sync::atomic::{AtomicBool, AtomicU64, Ordering};

/// The flags of a node. They are written under its lock alone.
#[derive(Drop)]
pub(crate) struct NodeFlags {
    /// A number that is another as soon as the node has delivered, or was refused a delivery, since somebody noted it.
    told: AtomicU64,
    /// Whether somebody noted it since it last changed.
    noted: AtomicBool,
    /// Whether a call found the node's queue full since the token last came by.
    full: AtomicBool,
    /// Whether the node's station is halted, once its thread or a session came to know of it.
    halted: AtomicBool,
}

impl NodeFlags {
    /// The flags of a node that has delivered nothing, and whose queue was not found full.
    pub fn new() -> NodeFlags {
        NodeFlags {
            told: AtomicU64::new(0),
            noted: AtomicBool::new(false),
            full: AtomicBool::new(false),
            halted: AtomicBool::new(false),
        }
    }

    /// The node has delivered, or was refused a delivery. Where nobody noted the number, nothing is written, so that a
    /// busy thread doesn't take this from those who look.
    pub fn tell(&self) {
        if self.noted.load(Ordering::SeqCst) {
            self.noted.store(false, Ordering::SeqCst);
            self.told.fetch_add(1, Ordering::SeqCst);
        }
    }

    /// The number, for whoever is told that there is nothing: it is another as soon as there may be something.
    pub fn note(&self) -> u64 {
        self.noted.store(true, Ordering::SeqCst);
        self.told()
    }

    /// The number as it is.
    pub fn told(&self) -> u64 {
        self.told.load(Ordering::SeqCst)
    }

    /// A call found the queue full.
    pub fn fill(&self) {
        self.full.store(true, Ordering::SeqCst);
    }

    /// The token came by, and took calls along; or the node may be halted. So calls are put to the node itself again. Where
    /// the queue was not found full, nothing is written.
    pub fn open(&self) {
        if self.is_full() {
            self.full.store(false, Ordering::SeqCst);
        }
    }

    /// Whether a call found the queue full since the token last came by.
    pub fn is_full(&self) -> bool {
        self.full.load(Ordering::SeqCst)
    }

    /// The station is halted.
    pub fn halt(&self) {
        self.halted.store(true, Ordering::SeqCst);
    }

    /// Whether the station is halted.
    pub fn is_halted(&self) -> bool {
        self.halted.load(Ordering::SeqCst)
    }
}

/// Signs for each node, in their order. Each stands alone: its node's thread writes it, and all its sessions read it.
pub(crate) fn new_flags(alloc: Global, nodes: u8) -> Result<Vec<CachePadded<NodeFlags>>, Refusal>
    ensures ok { IfOk result (λ flags. vec_len flags ≡ nodes) }
    ensures memory { IsOkUnless result Refusal.Memory }
{
    let mut flags = Vec::new(alloc);
    for _ in 0..nodes {
        flags.push(CachePadded::new(NodeFlags::new()))?;
    }
    Ok(flags)
}
