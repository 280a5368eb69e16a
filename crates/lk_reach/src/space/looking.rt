// What can be said of a machine by those who only look at the states that were met.

ghost use Rattle.std.specs.Prelude.{◌≡◌, ◌<◌, ◌≤◌, IfOk, IfSome, Some, length};
ghost use Rattle.lk_reach.specs.Helped.{IsKeyNoted};
ghost use Rattle.lk_reach.specs.Space.{IsLikeKey, IsNumbered, IsNumberOf, KeyKeeps};

use crate::key::Key;
use crate::space::Space;
use lk_machine::Machine;
use lk_names::Memory;
use std::thread::Threads;

impl Space {
    /// The key of what a machine is, if all its parts were met. The state `near` is one that differs
    /// little from it, or any other.
    pub(crate) fn key_seen(&self, machine: &Machine, near: usize) -> Option<Key>
        requires few { length machine.now.cpus ≤ 8 }
        ensures { IfSome result
            (λ key. KeyKeeps self.now.parts self.now.shareds key machine.now) }
    {
        let near = self.near(near);
        let shared = self.shareds.seen(machine, near.shared)?;
        let mut cpus = near.cpus;
        for cpu in 0..machine.cpus() {
            let likely = cpus[cpu as usize];
            let part = machine.cpu_part(cpu);
            cpus[cpu as usize] = self.parts.seen(part, likely)?;
        }
        Some(Key { shared, cpus })
    }

    /// The number of the state with this key, or of one that differs from it in dead registers alone, by
    /// its hash, if it was met.
    pub(crate) fn known(&self, key: &Key, hash: u64) -> Option<u32>
        ensures there { IfSome result (λ k. k < length self.now.keys) }
        ensures alike { IfSome result (λ k. IsLikeKey self.now k key.now) }
    {
        self.formed();
        let number = self.find(key, hash)?;
        Some(number)
    }

    // Forgets which states were met since helpers looked. Where states are folded they are sought among all.
    fn renew_recent(&mut self)
        ensures { self.new ≡ self.old }
    {
        if self.folds.len() > 0 {
            return;
        }
        match self.recent.renew() {
            Ok(()) | Err(_) => {}
        }
    }

    /// Says that helpers look next, on so many threads: what they do not find is sought among the states
    /// alone that are met from here on, and some `more` of these are awaited.
    pub(crate) fn begin_look<R: Threads + Sync>(&mut self, rt: &R, threads: usize, more: usize)
        ensures { self.new ≡ self.old }
    {
        if threads < 2 {
            return;
        }
        self.renew_recent();
        self.make_room_ahead(rt, threads, more);
    }

    // The number of a state whose key has the form of this one, and that was met since helpers looked, if
    // it is found.
    fn find_recent(&self, key: &Key, hash: u64) -> Option<u32>
        ensures { IfSome result (λ k. IsNumberOf self.now k key.now) }
    {
        let mut at = self.recent.home(hash);
        for _ in 0..self.recent.len() {
            let number = self.recent.number(at)?;
            if self.has_form(number as usize, key) {
                return Some(number);
            }
            at = self.recent.behind(at);
        }
        None
    }

    // The number of a state whose key has the form of this one, and that helpers did not find, if it is
    // found.
    fn find_unseen(&self, key: &Key, hash: u64) -> Option<u32>
        ensures { IfSome result (λ k. IsNumberOf self.now k key.now) }
    {
        if self.recent.has_all() {
            self.find_recent(key, hash)
        } else {
            self.find(key, hash)
        }
    }

    // The number of the state with this key, or of one of its form, neither of which helpers found. It
    // gets one if there is none.
    fn number_unseen(&mut self, key: &Key, hash: u64) -> Result<u32, Memory>
        ensures { IfOk result (λ k. IsNumbered self.old self.new key.now k) }
    {
        match self.find_unseen(key, hash) {
            Some(number) => Ok(number),
            None => self.add(key, hash),
        }
    }

    /// The number of the state with this key, which helpers did not find, or of one that differs from it
    /// in dead registers alone. It gets one if there is none.
    pub(crate) fn note_unseen(&mut self, key: &Key) -> Result<u32, Memory>
        ensures { IfOk result (λ k. IsKeyNoted self.old self.new key.now k) }
    {
        let number = self.number_unseen(key, self.hash_of(key))?;
        self.formed();
        Ok(number)
    }

    /// The number of the state with this key, or of one that differs from it in dead registers alone, by
    /// its hash. It gets one if there is none.
    pub(crate) fn note_key(&mut self, key: &Key, hash: u64) -> Result<u32, Memory>
        ensures { IfOk result (λ k. IsKeyNoted self.old self.new key.now k) }
    {
        let number = self.number(key, hash)?;
        self.formed();
        Ok(number)
    }
}
