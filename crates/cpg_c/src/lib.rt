//! The calls of `cpgring.h` and `cpgring_served.h`, for programs in C and in all that can call C.
//!
//! Each call takes the endpoint, or the node with its clients, out of a handle, makes one call of `cpg_embed` or
//! `cpg_serve`, and puts it back. Proved: what that call does is what happens at the handle, and at nothing else that it
//! leads to; a handle that is not open is told so, and nothing happens. Trusted: that the program keeps to what the
//! headers ask of it, above all of pointers.
#![tactic(auto)]

mod calls;
mod closing;
mod events;
mod frames;
mod handles;
mod lending;
mod listings;
mod opening;
mod parts;
mod served_handles;
mod served_slots;
mod serving;
mod slots;
