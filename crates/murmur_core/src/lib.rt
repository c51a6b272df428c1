//! MurmurHash3 x86 32-bit, the hash that places an input on the points of a rollout.
//!
//! ```rust
//! use murmur_core::hash;
//!
//! assert!(rt; hash(b"test", 0) == 0xba6bd213 && hash(b"", 1) == 0x514e28b7);
//! ```
//!
//! What is proved: [`hash`] is `hash` of `specs/Murmur.antt`, a fold over the list of the whole blocks
//! of four bytes, then the tail of at most three bytes, then the finish. The definition follows
//! `MurmurHash3_x86_32` of Austin Appleby's `MurmurHash3.cpp` (SMHasher), whose published vectors are
//! the tests.
#![tactic(auto)]

mod murmur3;

pub use murmur3::hash;
