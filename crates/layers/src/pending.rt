// The table of puts that wait, the oldest first.
ghost use Rattle.std.specs.Prelude.{◌≡◌, ◌<◌, ◌≤◌, ◌==◌, [], ◌∷◌, ◌++◌, length, drop, MatchOption, slice_index_or, slice_set};
ghost use Rattle.layers.specs.Entries.{none};
ghost use Rattle.layers.specs.Places.{Last, Absent};
ghost use Rattle.layers.specs.Queue.{waits_within, Once};

use arrayvec::ArrayVec;
use std::marker::Model;

#[derive(Clone, Copy, Default)]
pub struct Entry {
    pub(crate) address: u32,
    pub(crate) value: u8,
}

#[derive(Drop)]
pub struct Pending {
    table: ArrayVec<Entry, 16>,
}

// Clauses see the puts that wait: at most 16, and no two for one address.
impl Model for Pending {
    ghost use Rattle.std.specs.Prelude.{◌≤◌, List, length};
    ghost use Rattle.layers.specs.declared.pending.Entry.{Entry};
    ghost use Rattle.layers.specs.Queue.{Once};

    ghost Value = { List Entry };

    ghost use Rattle.layers.specs.Table.{waiting};

    ghost view = { waiting };

    ghost invariant = { λ p. (length (waiting p) ≤ 16) × Once (waiting p) };
}

impl Pending {
    pub(crate) fn new() -> Pending
        ensures { result ≡ [] }
    {
        Pending {
            table: ArrayVec::new(),
        }
    }

    // The bound and `Once` are handed on, since the queue sees the list alone.
    pub(crate) fn len(&self) -> usize
        ensures count { result ≡ length self.now }
        ensures most { length self.now ≤ 16 }
        ensures once { Once self.now }
    {
        self.table.len()
    }

    pub(crate) fn is_full(&self) -> bool
        ensures full { result ≡ (length self.now == 16) }
        ensures most { length self.now ≤ 16 }
    {
        self.table.is_full()
    }

    // The place of the entry for an address: there is no second one. A place and no reference, which would keep the table lent.
    pub(crate) fn place(&self, address: u32) -> Option<usize>
        ensures { MatchOption result (Absent self.now address) (λ i. Last self.now address i) }
    {
        self.table.iter().position(|entry| entry.address == address)
    }

    // Whether one of `count` addresses from `address` on waits.
    pub(crate) fn waits_within(&self, address: u32, count: u32) -> bool
        ensures waits { result ≡ waits_within self.now address count }
        ensures most { length self.now ≤ 16 }
    {
        self.table.iter().any(|entry| entry.address >= address && entry.address - address < count)
    }

    pub(crate) fn at(&self, i: usize) -> Entry
        requires { i < length self.now }
        ensures { result ≡ slice_index_or self.now i none }
    {
        self.table[i]
    }

    // Gives the entry for an address another value, where it stands.
    pub(crate) fn change(&mut self, i: usize, put: Entry)
        requires { Last self.old put.address i }
        ensures { self.new ≡ slice_set self.old i put }
    {
        self.table[i] = put;
    }

    pub(crate) fn push(&mut self, put: Entry)
        requires room { length self.old < 16 }
        requires absent { Absent self.old put.address }
        ensures { self.new ≡ self.old ++ put ∷ [] }
    {
        self.table.push(put);
    }

    // Takes the oldest entry out.
    pub(crate) fn shift(&mut self) -> Entry
        requires { 0 < length self.old }
        ensures oldest { result ≡ slice_index_or self.old 0 none }
        ensures rest { self.new ≡ drop 1 self.old }
    {
        self.table.remove(0)
    }
}
