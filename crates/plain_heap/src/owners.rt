//! Which object each word of the heap belongs to, written down.
ghost use Rattle.std.specs.Prelude.{◌≡◌, ◌≤◌, ◌<◌, ◌+◌, ◌⊎◌, ℕ, All, length, slice_index};
ghost use Rattle.links.specs.Leaving.{word_index};
ghost use Rattle.plain_heap.specs.Standing.{LiesIn};
ghost use Rattle.plain_heap.specs.Reached.{AreApart};
ghost use Rattle.plain_heap.specs.Owners.{AreOwners, AreOwnersBut};

use crate::extent::Extent;
use words::limits::WORD_BYTES;

// Puts a word into so many places of a row.
pub(crate) fn fill(row: &mut [u64], start: usize, count: usize, word: u64)
    requires { start + count ≤ length row.old }
    ensures filled { (k : ℕ) → start ≤ k → k < start + count → slice_index row.new k ≡ word }
    ensures others { (k : ℕ) → (k < start) ⊎ (start + count ≤ k) → slice_index row.new k ≡ slice_index row.old k }
{
    for i in start..start + count {
        row[i] = word;
    }
}

// Where the word at an address stands in a row of all words, whose first has the address `origin`.
pub(crate) fn word_index(origin: u64, address: u64) -> usize
    requires { origin ≤ address }
    ensures { result ≡ word_index origin address }
{
    ((address - origin) / WORD_BYTES) as usize
}

// Writes down of each word of an object where that object stands.
pub(crate) fn write_owners(origin: u64, objects: &[Extent], owners: &mut [u64])
    requires apart { AreApart objects.now }
    requires within { All (LiesIn origin owners.old) objects.now }
    ensures { AreOwners origin objects.now owners.new }
{
    for index in 0..objects.len() {
        let object = objects[index];
        let start = word_index(origin, object.base);
        fill(owners, start, object.length as usize, index as u64);
    }
}

// Writes down where one object stands, if there is one: all others have their words.
pub(crate) fn write_owner(origin: u64, objects: &[Extent], owners: &mut [u64], index: usize)
    requires apart { AreApart objects.now }
    requires within { All (LiesIn origin owners.old) objects.now }
    requires others { AreOwnersBut origin index objects.now owners.old }
    ensures { AreOwners origin objects.now owners.new }
{
    if index >= objects.len() {
        return;
    }
    let object = objects[index];
    let start = word_index(origin, object.base);
    fill(owners, start, object.length as usize, index as u64);
}
