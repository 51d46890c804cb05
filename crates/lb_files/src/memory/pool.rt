//! Texts in one buffer.
ghost use Rattle.std.specs.Prelude.{◌≡◌, ◌+◌, ◌-◌, ◌≤◌, ◌<◌, ◌^◌, ℕ, [], ◌∷◌, ◌++◌, length, nat_eq, IfOk, sum, take, drop, slice_set, slice_index_or, vec_len, vec_capacity};
ghost use Rattle.std.specs.List.{position};
ghost use lib.Pointwise.{pointwise};

use std::alloc::{AllocError, Global};
use std::marker::Model;

/// A list of texts that grow and are emptied, one behind the other in one buffer. Once it is made it
/// takes no memory: who adds to it sees that there is room.
#[derive(Drop)]
pub(super) struct Pool {
    bytes: Vec<u8>,
    lengths: Vec<usize>,
}

impl Model for Pool {
    ghost use Rattle.std.specs.Prelude.{◌≡◌, ◌-◌, length, sum, vec_len, vec_capacity};
    ghost use Rattle.lb_files.specs.Cut.{cut};
    ghost use Rattle.lb_files.specs.Forms.{PoolForm};

    ghost Value = { PoolForm };

    ghost view = { λ pool. record { texts = cut pool.lengths.items pool.bytes.items; room = vec_capacity pool.bytes - vec_len pool.bytes; places = vec_capacity pool.lengths - vec_len pool.lengths } };

    ghost invariant = { λ pool. sum pool.lengths.items ≡ length pool.bytes.items };
}

impl Pool {
    /// An empty pool for `n` bytes and texts.
    pub(super) fn with_capacity(alloc: Global, n: usize) -> Result<Pool, AllocError>
        ensures texts { IfOk result (λ pool. pool.texts ≡ []) }
        ensures room { IfOk result (λ pool. n ≤ pool.room) }
        ensures places { IfOk result (λ pool. n ≤ pool.places) }
    {
        Ok(Pool {
            bytes: Vec::with_capacity(alloc, n)?,
            lengths: Vec::with_capacity(alloc, n)?,
        })
    }

    #[tactic(auto, using(crate::proofs::Cut::cut_long))]
    pub(super) fn text(&self, at: usize) -> &[u8]
        requires { at < length self.now.texts }
        ensures { result.now ≡ slice_index_or self.now.texts at [] }
    {
        let start = start_of(&self.lengths, at);
        &self.bytes[start..start + self.lengths[at]]
    }

    /// The place of the first text that is this one.
    pub(super) fn position(&self, text: &[u8]) -> Option<usize>
        ensures { result ≡ position (pointwise nat_eq text.now) self.now.texts }
    {
        let mut start = 0;
        for at in 0..self.lengths.len() {
            let end = start + self.lengths[at];
            if text == &self.bytes[start..end] {
                return Some(at);
            }
            start = end;
        }
        None
    }

    #[tactic(auto, using(crate::proofs::Cut::cut_long))]
    /// Adds a text, and answers its place.
    pub(super) fn add(&mut self, text: &[u8]) -> usize
        requires room { length text.now ≤ self.old.room }
        requires places { 0 < self.old.places }
        ensures at { result ≡ length self.old.texts }
        ensures texts { self.new.texts ≡ self.old.texts ++ text.now ∷ [] }
        ensures room { self.old.room ≤ self.new.room + length text.now }
        ensures places { self.old.places ≡ self.new.places + 1 }
    {
        let at = self.lengths.len();
        put(&mut self.bytes, text);
        self.lengths.push_reserved(text.len());
        at
    }

    #[tactic(auto, using(crate::proofs::Cut::cut_long))]
    /// Empties a text.
    pub(super) fn empty(&mut self, at: usize)
        requires { at < length self.old.texts }
        ensures texts { self.new.texts ≡ slice_set self.old.texts at [] }
        ensures room { self.old.room ≤ self.new.room }
        ensures places { self.new.places ≡ self.old.places }
    {
        let start = start_of(&self.lengths, at);
        remove(&mut self.bytes, start, self.lengths[at]);
        self.lengths[at] = 0;
    }

    #[tactic(auto, using(crate::proofs::Cut::cut_long))]
    /// Puts bytes behind a text. The texts behind it are moved.
    pub(super) fn extend(&mut self, at: usize, bytes: &[u8])
        requires at { at < length self.old.texts }
        requires room { length bytes.now ≤ self.old.room }
        ensures texts { self.new.texts ≡ slice_set self.old.texts at (slice_index_or self.old.texts at [] ++ bytes.now) }
        ensures room { self.old.room ≤ self.new.room + length bytes.now }
        ensures places { self.new.places ≡ self.old.places }
    {
        let end = start_of(&self.lengths, at) + self.lengths[at];
        insert(&mut self.bytes, end, bytes);
        self.lengths[at] += bytes.len();
    }
}

fn start_of(lengths: &[usize], at: usize) -> usize
    requires within { at < length lengths.now }
    requires small { sum lengths.now < 2 ^ 64 }
    ensures start { result ≡ sum (take at lengths.now) }
    ensures end { (d : ℕ) → result + slice_index_or lengths.now at d ≤ sum lengths.now }
{
    total(&lengths[..at])
}

fn total(lengths: &[usize]) -> usize
    requires { sum lengths.now < 2 ^ 64 }
    ensures { result ≡ sum lengths.now }
{
    lengths.iter().sum()
}

fn remove(bytes: &mut Vec<u8>, start: usize, n: usize)
    requires { start + n ≤ length bytes.old.items }
    ensures items { bytes.new.items ≡ take start bytes.old.items ++ drop (start + n) bytes.old.items }
    ensures capacity { vec_capacity bytes.new ≡ vec_capacity bytes.old }
{
    let rest = bytes.len() - n;
    bytes[start..].rotate_left(n);
    bytes.truncate(rest);
}

fn insert(bytes: &mut Vec<u8>, at: usize, more: &[u8])
    requires at { at ≤ length bytes.old.items }
    requires room { vec_len bytes.old + length more.now ≤ vec_capacity bytes.old }
    ensures items { bytes.new.items ≡ take at bytes.old.items ++ (more.now ++ drop at bytes.old.items) }
    ensures capacity { vec_capacity bytes.old ≤ vec_capacity bytes.new }
{
    put(bytes, more);
    bytes[at..].rotate_right(more.len());
}

// Puts bytes at the end, where there is room for them.
fn put(bytes: &mut Vec<u8>, more: &[u8])
    requires { vec_len bytes.old + length more.now ≤ vec_capacity bytes.old }
    ensures items { bytes.new.items ≡ bytes.old.items ++ more.now }
    ensures capacity { vec_capacity bytes.old ≤ vec_capacity bytes.new }
{
    let Ok(()) = bytes.extend_from_slice(more) else {
        unreachable!()
    };
}
