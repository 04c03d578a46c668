// Sets of registry nodes as 512 bits, by value, and rows of them in words that the caller lends.
// The contracts speak of the ascending lists that the words stand for.
#![tactic(auto)]

ghost use Rattle.std.specs.Prelude.{◌≡◌, [], map, ◌+◌, ◌<◌, length};
ghost use Rattle.std.specs.Iterator.{YieldsFirst, item_count};
ghost use Rattle.model.specs.ListLaws.{All, NoRepeats};
ghost use Rattle.model.specs.Sets.{contains, insert, remove, union, intersection, same_set};
ghost use Rattle.model.specs.Propagation.{intersection_of};
ghost use Rattle.rows.specs.Members.{members_of, members_from, first_of};
ghost use Rattle.rows.specs.Rows.{Lent, RowSet, row_of};

use entries::NodeId;
use std::array;

// Node k is bit k % 64 of word k / 64.
// Design: `k.0 < 512` stays a clause: a `NodeId` with that bound would ask more of who builds one.
#[derive(Clone, Copy)]
pub struct NodeBits {
    pub words: [u64; 8],
    pub ghost eight: { length words ≡ 8 },
}

impl NodeBits {
    pub fn empty() -> NodeBits
        ensures { members_of result.words ≡ [] }
    {
        NodeBits { words: [0; 8] }
    }

    pub fn contains(&self, k: NodeId) -> bool
        requires { k.0 < 512 }
        ensures { result ≡ contains (members_of self.now.words) k }
    {
        let w = self.words[k.0 / 64];
        (w >> (k.0 % 64)) % 2 == 1
    }

    pub fn insert(&mut self, k: NodeId)
        requires { k.0 < 512 }
        ensures { members_of self.new.words ≡ insert k (members_of self.old.words) }
    {
        let at = k.0 / 64;
        self.words[at] |= 1 << (k.0 % 64);
    }

    pub fn remove(&mut self, k: NodeId)
        requires { k.0 < 512 }
        ensures { members_of self.new.words ≡ remove k (members_of self.old.words) }
    {
        let at = k.0 / 64;
        let bit = 1 << (k.0 % 64);
        self.words[at] = (self.words[at] | bit) ^ bit;
    }

    pub fn union(self, other: NodeBits) -> NodeBits
        ensures { members_of result.words ≡ union (members_of self.words) (members_of other.words) }
    {
        NodeBits {
            words: array::from_fn(|i| self.words[i] | other.words[i]),
        }
    }

    pub fn intersection(self, other: NodeBits) -> NodeBits
        ensures { members_of result.words ≡ intersection (members_of self.words) (members_of other.words) }
    {
        NodeBits {
            words: array::from_fn(|i| self.words[i] & other.words[i]),
        }
    }

    // Design: no derived `==`: docs/PROOFS.md names this, whose promise is of the sets.
    pub fn same_set(self, other: NodeBits) -> bool
        ensures { result ≡ same_set (members_of self.words) (members_of other.words) }
    {
        self.words == other.words
    }

    pub fn is_empty(&self) -> bool
        ensures { result ≡ same_set (members_of self.now.words) [] }
    {
        self.same_set(NodeBits::empty())
    }

    // The first member from a place on, which may be 512 or more. A word with no bit left is passed
    // in one test.
    pub fn next(&self, from: usize) -> Option<NodeId>
        ensures { result ≡ first_of (members_from self.now.words from) }
    {
        // Design: words by index, since behind the last one the slice `words[from / 64..]` is none.
        let mut k = from;
        for at in from / 64..8 {
            let left = self.words[at] >> (k % 64);
            if left != 0 {
                return Some(NodeId(k + left.trailing_zeros() as usize));
            }
            k = (at + 1) * 64;
        }
        None
    }

    // The members, ascending.
    pub fn members(&self) -> MembersFrom<'_>
        ensures { members_from result.set.now.words result.from ≡ members_of self.now.words }
    {
        MembersFrom { set: self, from: 0 }
    }
}

// A walk over the members of a set, and the place from which it goes on.
#[derive(Clone, Copy)]
pub struct MembersFrom<'a> {
    pub set: &'a NodeBits,
    pub from: usize,
}

impl<'a> Iterator for MembersFrom<'a> {
    type Item = NodeId;

    ghost next_gives = { YieldsFirst (λ s. members_from s.set.now.words s.from) };

    ghost remaining = { item_count (λ s. members_from s.set.now.words s.from) };

    fn next(&mut self) -> Option<NodeId> {
        let k = self.set.next(self.from)?;
        self.from = k.0 + 1;
        Some(k)
    }
}

// Row b is the eight words from b * 8 on.
// Design: rows are words of a lent slice, and no array of sets, since these words are lent for the
// dependency tree afterwards (fixed memory). `Lent` is of another count of rows in each contract.
pub fn row(ws: &[u64], b: usize) -> NodeBits
    requires { Lent (b + 1) ws.now }
    ensures { members_of result.words ≡ row_of ws.now b }
{
    NodeBits {
        words: array::from_fn(|i| ws[b * 8 + i]),
    }
}

// The intersection of the rows at these places; of none, the empty set. Each place stands once, as
// document 02's E3 says; the result does not depend on it.
pub fn intersection_of_rows(ws: &[u64], places: &[u8]) -> NodeBits
    requires { All (λ b. Lent (b + 1) ws.now) places.now × NoRepeats places.now }
    ensures { members_of result.words ≡ intersection_of (map (row_of ws.now) places.now) }
{
    if places.len() == 0 {
        return NodeBits::empty();
    }
    let mut found = row(ws, usize::from(places[0]));
    for b in &places[1..] {
        found = found.intersection(row(ws, usize::from(*b)));
    }
    found
}

pub fn set_row(ws: &mut [u64], b: usize, s: NodeBits)
    requires { Lent (b + 1) ws.old }
    ensures { RowSet ws.old ws.new b (members_of s.words) }
{
    let at = b * 8;
    ws[at..at + 8].copy_from_slice(&s.words);
}
