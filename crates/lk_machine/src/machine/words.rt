// The words of the locks, as they are packed.

ghost use Rattle.std.specs.Prelude.{◌≡◌, ◌<◌, ◌≤◌, All, IfOk, length, map, replicate, true};
ghost use Rattle.lk_word.specs.SpinWord.{IsPackable};
ghost use Rattle.lk_word.specs.RwWord.{IsPackableRw};
ghost use Rattle.lk_rows.specs.Machine.{rest_lock};
ghost use Rattle.lk_machine.specs.Packed.{Words as WordsValue, ArePacked, lock_in, lock_of, word_of, with_word, with_rw};

use crate::machine::packed::{fields_in, rw_fields_in, rw_word_of, word_of};
use lk_names::{LockName, Memory};
use lk_word::{Fields, Layout, Locked, RwFields};
use std::alloc::Global;
use std::hash::Hasher;
use std::marker::Model;

// The word of a spinlock that nobody holds, and for which nobody waits.
const REST_WORD: Fields = Fields {
    locked: Locked::Free,
    pending: false,
    tail: None,
};

// The same for a reader-writer lock.
const REST_RW: RwFields = RwFields {
    readers: 0,
    waiting: false,
    writer: false,
};

/// The words of one declared lock.
#[derive(Clone, Copy)]
pub(crate) struct LockWords {
    /// The word of a spinlock.
    pub spin: u32,
    /// The word of a reader-writer lock.
    pub rw: u32,
    /// The word of a reader-writer lock's wait lock.
    pub wait: u32,
}

/// The words of all declared locks, packed. Callers see their fields.
#[derive(Drop)]
pub(crate) struct Words {
    layout: Layout,
    locks: Vec<LockWords>,
}

impl Model for Words {
    ghost Value = { WordsValue };

    ghost view = { λ w. record {
      layout = w.layout;
      locks = map (lock_in w.layout) w.locks.items;
    } };

    ghost invariant = { λ w. All (ArePacked w.layout) w.locks.items };
}

// The words of a lock that nobody holds, and for which nobody waits.
fn rest_lock(layout: Layout) -> LockWords
    ensures packed { ArePacked layout result }
    ensures rest { lock_in layout result ≡ rest_lock }
{
    LockWords {
        spin: word_of(layout, REST_WORD),
        rw: rw_word_of(REST_RW),
        wait: word_of(layout, REST_WORD),
    }
}

impl Words {
    /// The words of so many locks at rest.
    ///
    /// # Errors
    ///
    /// There is not enough memory.
    pub fn new(alloc: Global, layout: Layout, count: usize) -> Result<Words, Memory>
        ensures { IfOk result
            (λ words. words ≡ record { layout = layout; locks = replicate count rest_lock }) }
    {
        let mut locks = Vec::with_capacity(alloc, count)?;
        for _ in 0..count {
            locks.push(rest_lock(layout)).map_err(|_| Memory)?;
        }
        Ok(Words { layout, locks })
    }

    /// The number of locks.
    #[inline]
    pub fn len(&self) -> usize
        ensures { result ≡ length self.now.locks }
    {
        self.locks.len()
    }

    /// The fields of the word of a spinlock or a wait lock.
    #[inline]
    #[tactic(auto)]
    pub fn word(&self, lock: LockName) -> Fields
        requires { lock.index < length self.now.locks }
        ensures fields { result ≡ word_of self.now lock }
        ensures packable { IsPackable self.now.layout result }
    {
        let state = &self.locks[lock.index as usize];
        fields_in(self.layout, if lock.wait { state.wait } else { state.spin })
    }

    /// Stores the word of a spinlock or a wait lock.
    #[inline]
    #[tactic(auto)]
    pub fn set_word(&mut self, lock: LockName, fields: Fields)
        requires lock { lock.index < length self.old.locks }
        requires packable { IsPackable self.old.layout fields }
        ensures { self.new ≡ with_word self.old lock fields }
    {
        let word = word_of(self.layout, fields);
        let state = &mut self.locks[lock.index as usize];
        if lock.wait {
            state.wait = word;
        } else {
            state.spin = word;
        }
    }

    /// The fields of the word of a reader-writer lock.
    #[inline]
    #[tactic(auto)]
    pub fn rw(&self, index: u32) -> RwFields
        requires { index < length self.now.locks }
        ensures fields { result ≡ (lock_of self.now index).rw }
        ensures packable { IsPackableRw result }
    {
        let state = &self.locks[index as usize];
        rw_fields_in(state.rw)
    }

    /// Stores the word of a reader-writer lock.
    #[inline]
    #[tactic(auto)]
    pub fn set_rw(&mut self, index: u32, fields: RwFields)
        requires index { index < length self.old.locks }
        requires packable { IsPackableRw fields }
        ensures { self.new ≡ with_rw self.old index fields }
    {
        let word = rw_word_of(fields);
        let state = &mut self.locks[index as usize];
        state.rw = word;
    }

    /// A copy of the words.
    ///
    /// # Errors
    ///
    /// There is not enough memory.
    pub fn copy(&self, alloc: Global) -> Result<Words, Memory>
        requires { length self.now.locks ≤ 32 }
        ensures { IfOk result (λ words. words ≡ self.now) }
    {
        let locks = copied(alloc, &self.locks)?;
        Ok(Words {
            layout: self.layout,
            locks,
        })
    }

    /// Whether the words are the same as others, in the same layout.
    pub fn same(&self, other: &Words) -> bool
        ensures { result ≡ true → self.now ≡ other.now }
    {
        if !same_layout(self.layout, other.layout) {
            return false;
        }
        same_words(&self.locks, &other.locks)
    }

    /// The words become the same as others, of as many locks and in the same layout.
    pub fn put(&mut self, other: &Words)
        requires layout { self.old.layout ≡ other.now.layout }
        requires locks { length self.old.locks ≡ length other.now.locks }
        ensures { self.new ≡ other.now }
    {
        self.locks.copy_from_slice(&other.locks);
    }

    /// Feeds them to a hasher.
    pub fn feed<H: Hasher>(&self, hasher: &mut H) {
        for words in &self.locks {
            hasher.write_u32(words.spin);
            hasher.write_u32(words.rw);
            hasher.write_u32(words.wait);
        }
    }
}

// Whether two layouts are the same.
fn same_layout(a: Layout, b: Layout) -> bool
    ensures { result ≡ true → a ≡ b }
{
    matches!(
        (a, b),
        (Layout::Narrow, Layout::Narrow) | (Layout::Wide, Layout::Wide)
    )
}

// Whether the words of locks are the same.
fn same_words(a: &[LockWords], b: &[LockWords]) -> bool
    ensures { result ≡ true → a.now ≡ b.now }
{
    if a.len() != b.len() {
        return false;
    }
    for i in 0..a.len() {
        if a[i].spin != b[i].spin || a[i].rw != b[i].rw || a[i].wait != b[i].wait {
            return false;
        }
    }
    true
}

// A copy of the words of locks.
fn copied(alloc: Global, words: &[LockWords]) -> Result<Vec<LockWords>, Memory>
    requires { length words.now ≤ 32 }
    ensures { IfOk result (λ copy. copy.items ≡ words.now) }
{
    let mut copy = Vec::with_capacity(alloc, words.len())?;
    copy.extend_from_slice(words).map_err(|_| Memory)?;
    Ok(copy)
}
