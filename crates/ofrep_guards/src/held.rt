//! Keys that many guards share, and that change while they are in use.
ghost use Rattle.std.specs.Prelude.{◌≡◌, ◌⊎◌, IfOk, Option, Some, true};
ghost use Rattle.std.specs.Sync.Mutex.{mutex_guard_value};
ghost use Rattle.ofrep_guards.specs.Key.{keys_view};
ghost use Rattle.ofrep_guards.specs.Held.{TakesOver};
ghost use Rattle.ofrep_guards.specs.declared.keys.Keys.{Keys};

use crate::keys::Keys;
use std::alloc::{AllocError, Global};
use std::sync::atomic::{AtomicU64, Ordering};
use std::sync::{Mutex, MutexGuard, Wait};

/// The keys that the guards of a service share: those that they begin with, and those that were set since.
#[derive(Drop)]
pub struct KeyRing {
    pub(crate) first: Keys,
    /// How often others were set.
    version: AtomicU64,
    later: Mutex<LaterKeys>,
}

impl KeyRing {
    /// These keys.
    pub fn new(keys: Keys) -> KeyRing
        ensures { result.first ≡ keys }
    {
        KeyRing {
            first: keys,
            version: AtomicU64::new(0),
            later: Mutex::new(LaterKeys { keys: None }),
        }
    }

    /// Sets other keys, and returns what holds them then. Once that is let go each guard holds them in the place of the last ones, from
    /// one of its next looks on.
    pub fn replace<R: Wait>(&self, rt: &R, keys: Keys) -> MutexGuard<'_, LaterKeys>
        ensures { (mutex_guard_value result).keys ≡ Some keys }
    {
        let mut later = self.later.lock(rt);
        later.set(keys);
        self.version.fetch_add(1, Ordering::SeqCst);
        later
    }
}

/// The keys that were set last, where others than the first were set.
#[derive(Drop)]
pub struct LaterKeys {
    pub(crate) keys: Option<Keys>,
}

impl LaterKeys {
    /// Sets other keys.
    pub(crate) fn set(&mut self, keys: Keys)
        ensures { self.new.keys ≡ Some keys }
    {
        self.keys = Some(keys);
    }
}

/// What a guard holds of a ring.
#[derive(Drop)]
pub struct HeldKeys<'a> {
    alloc: Global,
    ring: &'a KeyRing,
    version: u64,
    pub(crate) keys: Keys,
}

impl<'a> HeldKeys<'a> {
    /// The keys that all guards begin with.
    pub fn new(alloc: Global, ring: &'a KeyRing) -> Result<HeldKeys<'a>, AllocError>
        ensures { IfOk result (λ held. keys_view held.keys ≡ keys_view ring.now.first) }
    {
        let keys = ring.first.copied(alloc)?;
        Ok(HeldKeys {
            alloc,
            ring,
            version: 0,
            keys,
        })
    }

    /// Takes over the keys of the ring where others were set. Where memory runs out, or they are being set or taken over just now,
    /// they are taken over the next time.
    pub fn renew(&mut self)
        ensures { (self.new.keys ≡ self.old.keys) ⊎ ((later : Option Keys) × TakesOver later self.old.keys self.new.keys true) }
    {
        let ring = self.ring;
        let version = ring.version.load(Ordering::SeqCst);
        if version == self.version {
            return;
        }
        let Some(later) = ring.later.try_lock() else {
            return;
        };
        if self.take_over(&later) {
            self.version = version;
        }
    }

    /// Takes over the keys that were set last, and says whether it did. Where memory runs out, or none were set, it holds what it held.
    fn take_over(&mut self, later: &LaterKeys) -> bool
        ensures { TakesOver later.now.keys self.old.keys self.new.keys result }
    {
        let Some(later) = &later.keys else {
            return false;
        };
        match later.copied(self.alloc) {
            Ok(keys) => {
                self.keys = keys;
                true
            }
            Err(AllocError) => false,
        }
    }
}
