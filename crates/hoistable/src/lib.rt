// At which levels of a candidate the hoistable tree is NonNull. For several candidates the tree is
// built once, in words that the caller lends, and each of them walks down it. For few it is not
// built: a level is decided by the first path of the set, in the tree's order, whose names agree
// with the candidate's that far, and the registry has the set's paths.
#![tactic(auto)]

ghost use Rattle.std.specs.Prelude.{
  ◌≡◌,
  ℕ,
  ◌+◌,
  ◌/◌,
  ◌≤◌,
  ◌<◌,
  Bool,
  ◌&&◌,
  not,
  cond,
  List,
  [],
  ◌∷◌,
  map,
  length,
  eqb,
  OnSome,
  option_copied,
};
ghost use Rattle.entries.specs.declared.IdentifierId.{IdentifierId};
ghost use Rattle.entries.specs.declared.DependencyPathEntry.{DependencyPathEntry};
ghost use Rattle.entries.specs.Path.{ReactiveScopeDependency};
ghost use Rattle.rows.specs.Members.{members_of};
ghost use Rattle.registry.specs.Words.{count_in, stored_node, registry_of};
ghost use Rattle.model.specs.Answer.{flag};
ghost use Rattle.model.specs.Registry.{full_path_of};
ghost use Rattle.model.specs.Forest.{same_key};
ghost use Rattle.model.specs.Tree.{starts_optional, hoistable_tree, access_is_non_null};
ghost use Rattle.model.specs.RegistryLaws.{Child};
ghost use Rattle.model.specs.ReductionLaws.{Members};
ghost use Rattle.job.specs.Key.{key_in};
ghost use Rattle.hoistable.specs.Levels.{number_of, levels_of, non_null_levels};
ghost use Rattle.hoistable.specs.Candidate.{entries_at, Reads, AreRead, Candidate};
ghost use Rattle.hoistable.specs.Agreement.{over, decided, HoldsLevels, Small, Follows, NextIs, RestRead, Agrees};
ghost use Rattle.hoistable.specs.Positions.{
  key_of,
  access_of,
  position_of,
  maker_in,
  parent_in,
  optional_in,
  IsWord,
  positions_in,
  number_below,
  found_in,
  HoldsPositions,
  Enters,
  number_in,
  Stands,
  positions_to,
  EntersPaths,
  HoldsTree,
  MayHoldTree,
};

use entries::{DependencyPathEntry, IdentifierId, NodeId};
use job::Key;
use registry::{Node, Nodes};
use rows::NodeBits;

// The entries of a candidate that are left: the place of the next one, and how many.
#[derive(Clone, Copy)]
pub struct Entries {
    pub at: usize,
    pub left: u8,
}

impl Entries {
    // The next one, and those after it. They were read before, so that no field is refused here.
    // Design: here and below, that entries are read from the bytes is a clause (`AreRead`,
    // `Candidate`): `nonnull_levels`, which docs/PROOFS.md names, takes bytes and candidate apart.
    fn next(self, s: &[u8]) -> Option<(DependencyPathEntry, Entries)>
        requires { AreRead self.left s.now self.at }
        ensures { Follows (entries_at self.left s.now self.at) s.now self.left result }
    {
        if self.left == 0 {
            return None;
        }
        let (entry, at) = job::entry_at(s, self.at).ok()?;
        let left = self.left - 1;
        Some((entry, Entries { at, left }))
    }

    // Those after the next one, where its name is that of e.
    fn after_name(self, s: &[u8], e: DependencyPathEntry) -> Option<Entries>
        requires { AreRead self.left s.now self.at }
        ensures { NextIs e.property (entries_at self.left s.now self.at) s.now result }
    {
        let (entry, rest) = self.next(s)?;
        (entry.property == e.property).then_some(rest)
    }
}

// A candidate by what it goes by in a tree: its identifier, and the names of its entries.
#[derive(Clone, Copy)]
pub struct CandidateNames {
    pub identifier: IdentifierId,
    pub entries: Entries,
}

// What is known of the first levels: bit j of `optional` is 1 where the position at level j is
// Optional, and `end` is what the bit after them is worth.
// Design: that both are `Small` is a clause and not of the type: `further` doubles `end`, and that
// the result is `Small` is known of the candidate's list (`Agrees`) and not of the levels before.
#[derive(Clone, Copy)]
struct Levels {
    pub end: u32,
    pub optional: u32,
}

// How far a path agrees with a candidate: the levels that it decides, and the entries that the
// candidate has beyond it, if it has all the path's names.
#[derive(Clone, Copy)]
struct Agreement {
    pub levels: Levels,
    pub rest: Option<Entries>,
}

impl Levels {
    fn none() -> Levels
        ensures { HoldsLevels [] result }
    {
        Levels {
            end: 1,
            optional: 0,
        }
    }

    // The levels known here stay; those after them are the other's.
    fn over(self, other: Levels) -> Levels
        requires { Small self × Small other }
        ensures { (xs ys : List Bool) → HoldsLevels xs self → HoldsLevels ys other → HoldsLevels (over xs ys) result }
    {
        if self.end < other.end {
            Levels {
                end: other.end,
                optional: self.optional + other.optional / self.end * self.end,
            }
        } else {
            self
        }
    }

    // A path's last level, where an entry comes after it.
    fn followed_by(self, optional: bool) -> Levels
        requires { Small self }
        ensures { (result.end ≡ self.end) × (result.optional ≡ self.optional + cond optional (self.end / 2) 0) }
    {
        let last = if optional { self.end / 2 } else { 0 };
        Levels {
            end: self.end,
            optional: self.optional + last,
        }
    }

    // Bit j is 1 where the position at level j is NonNull.
    fn nonnull(self) -> u32
        requires { Small self }
        ensures { (xs : List Bool) → HoldsLevels xs self → result ≡ number_of (map not xs) }
    {
        self.end - 1 - self.optional
    }
}

// A path that goes on by the entry e. Where its names parted from the candidate's before, nothing
// changes.
fn further(s: &[u8], r: Agreement, e: DependencyPathEntry) -> Agreement
    requires { Small r.levels × RestRead s.now r }
    ensures { (i : IdentifierId) (es : List DependencyPathEntry) (d d' : ReactiveScopeDependency) → length es ≤ 16
        → Child d e d' → Agrees s.now i es d r → Agrees s.now i es d' result }
{
    let Some(entries) = r.rest else {
        return r;
    };
    let levels = r.levels.followed_by(e.optional);
    match entries.after_name(s, e) {
        Some(rest) => Agreement {
            levels: Levels {
                end: levels.end * 2,
                optional: levels.optional,
            },
            rest: Some(rest),
        },
        None => Agreement { levels, rest: None },
    }
}

// A path of no entries has its root's level, where the identifiers are the same.
fn at_root(same: bool, entries: Entries) -> Agreement
    ensures { (s : List ℕ) (i : IdentifierId) (es : List DependencyPathEntry) (d : ReactiveScopeDependency) → d.path ≡ []
        → same ≡ eqb d.identifier.0 i.0 → Reads entries.left s entries.at es → Agrees s i es d result }
{
    if same {
        Agreement {
            levels: Levels {
                end: 2,
                optional: 0,
            },
            rest: Some(entries),
        }
    } else {
        Agreement {
            levels: Levels::none(),
            rest: None,
        }
    }
}

// How far the path of node k agrees with a candidate.
fn follow(nodes: Nodes, s: &[u8], candidate: CandidateNames, k: NodeId) -> Agreement
    requires { Candidate candidate.entries.left s.now candidate.entries.at × (k.0 < count_in nodes.words.now) }
    ensures { Agrees s.now candidate.identifier (entries_at candidate.entries.left s.now candidate.entries.at)
        (full_path_of (registry_of nodes.entry.words.now) k) result }
{
    match nodes.load(k) {
        Node::Root(i, _, _) => at_root(i == candidate.identifier, candidate.entries),
        Node::Child(p, e) => {
            let before = follow(nodes, s, candidate, p);
            further(s, before, e)
        }
    }
}

// What the set's paths decide of the candidate's levels. Those with an optional first entry come
// first in the tree's order, so what they decide is kept apart until the end. A path whose root is
// another's decides nothing, and may go with either.
// Design: here and below, that the set is of the nodes (`Members`) is a clause, as it is of
// `nonnull_levels` and `build_tree`, which docs/PROOFS.md names and which take both apart.
fn decided_levels(nodes: Nodes, set: NodeBits, s: &[u8], candidate: CandidateNames) -> Levels
    requires { Candidate candidate.entries.left s.now candidate.entries.at
        × Members (registry_of nodes.words.now) (members_of set.words) }
    ensures { HoldsLevels (decided candidate.identifier (entries_at candidate.entries.left s.now candidate.entries.at) [] []
        (map (full_path_of (registry_of nodes.entry.words.now)) (members_of set.words))) result }
{
    let mut ahead = Levels::none();
    let mut rest = Levels::none();
    for k in set.members() {
        let levels = follow(nodes, s, candidate, k).levels;
        if levels.optional % 2 == 1 {
            ahead = ahead.over(levels);
        } else {
            rest = rest.over(levels);
        }
    }
    ahead.over(rest)
}

// The tree in words. A position is a word: the node that made it, the number of its parent, and
// whether it is Optional. Word j is the position with the number j + 1, and 0 stands above the
// roots. The last word says how many there are.
// Design: an arena of numbers, with its count in the last word, in words that the caller lends: the
// stage has no heap (fixed memory).
// Design: that the words hold positions (`HoldsPositions`) is a clause. `build_tree` is lent words,
// whatever they are, and gives them back as words (`HoldsTree`), so that a struct around them would
// be made and taken apart in each public function, which is no plainer.
const PARENT: u64 = 1024;

const OPTIONAL: u64 = 1048576;

fn word_of(k: NodeId, parent: usize, optional: bool) -> u64
    requires { (k.0 < 512) × (parent ≤ 512) }
    ensures { IsWord result k.0 parent optional }
{
    k.0 as u64 + parent as u64 * PARENT + u64::from(optional) * OPTIONAL
}

// The key of a node's position.
// Design: no `From<Node> for Key`, since both types are of other crates.
fn key_of(n: Node) -> Key
    ensures { key_in result ≡ key_of n }
{
    match n {
        Node::Root(identifier, _, _) => Key::Identifier(identifier),
        Node::Child(_, e) => Key::Property(e.property),
    }
}

// The position of a word hangs below a number, and has the key.
fn is_child(nodes: Nodes, word: u64, parent: usize, key: Key) -> bool
    requires { maker_in word < 512 }
    ensures { result ≡ eqb (parent_in word) parent && same_key (key_of (stored_node nodes.entry.words.now (maker_in word))) (key_in key) }
{
    (word / PARENT % 1024) as usize == parent
        && key_of(nodes.load(NodeId((word % PARENT) as usize))) == key
}

// The number of the position below a number that has the key, where there is one. It was made after
// its parent.
// Design: a `for` over numbers and no `position` over the words from `parent` on, which counts from
// there, so that `parent` had to be added again, and whose closure needs a contract: no plainer.
fn child_by_key(hoist: &[u64], nodes: Nodes, parent: usize, key: Key) -> Option<usize>
    requires { HoldsPositions hoist.now × (parent ≤ positions_in hoist.now) }
    ensures { (number_in result ≡ number_below nodes.entry.words.now hoist.now parent (key_in key)) × Stands hoist.now result }
{
    let end = hoist[hoist.len() - 1] as usize;
    for j in parent..end {
        if is_child(nodes, hoist[j], parent, key) {
            return Some(j + 1);
        }
    }
    None
}

// The number of the position of node k below a number, made where there is none; or no number where
// there is no room. One that is there stays as it is.
fn enter_position(
    hoist: &mut [u64],
    nodes: Nodes,
    parent: usize,
    k: NodeId,
    optional: bool,
) -> Option<usize>
    requires { HoldsPositions hoist.old × (parent ≤ positions_in hoist.old) × (k.0 < 512) }
    ensures { Enters nodes.entry.words.now hoist.old hoist.new parent
        (position_of (key_of (stored_node nodes.entry.words.now k.0)) (access_of optional) ∷ []) result }
{
    let found = child_by_key(hoist, nodes, parent, key_of(nodes.load(k)));
    if found.is_some() {
        return found;
    }
    let room = hoist.len() - 1;
    let end = hoist[room] as usize;
    if end < room {
        hoist[end] = word_of(k, parent, optional);
        hoist[room] = (end + 1) as u64;
        Some(end + 1)
    } else {
        None
    }
}

// The number where the path of node k ends, its positions made where there are none: each Optional
// where the entry after it is, and the last as said.
fn enter_path(hoist: &mut [u64], nodes: Nodes, k: NodeId, optional: bool) -> Option<usize>
    requires { HoldsPositions hoist.old × (k.0 < count_in nodes.words.now) }
    ensures { Enters nodes.entry.words.now hoist.old hoist.new 0
        (positions_to (full_path_of (registry_of nodes.entry.words.now) k) (access_of optional)) result }
{
    match nodes.load(k) {
        Node::Root(_, _, _) => enter_position(hoist, nodes, 0, k, optional),
        Node::Child(p, e) => {
            let parent = enter_path(hoist, nodes, p, e.optional)?;
            enter_position(hoist, nodes, parent, k, optional)
        }
    }
}

// The path of node k has an optional first entry.
// Design: a walk up the parents, as `root_of` in `sheet_bytes` and `leads_back` in `reduction` are.
// Each keeps or tests something else at a parent, so that one walk of all would take a closure with
// a contract for each, which is longer than this loop.
fn starts_optional(nodes: Nodes, k: NodeId) -> bool
    requires { (k.0 < count_in nodes.words.now) }
    ensures { result ≡ starts_optional (full_path_of (registry_of nodes.entry.words.now) k).path }
{
    let mut at = k;
    let mut optional = false;
    while let Node::Child(p, e) = nodes.load(at) {
        at = p;
        optional = e.optional;
    }
    optional
}

// The paths of the set whose first entry is optional as said, in their order; or there was no room.
// Design: `ahead` is compared with what `starts_optional` tells, so a bool, as in `EntersPaths`.
fn enter_members(hoist: &mut [u64], nodes: Nodes, set: NodeBits, ahead: bool) -> Option<()>
    requires { HoldsPositions hoist.old × Members (registry_of nodes.words.now) (members_of set.words) }
    ensures { OnSome result (EntersPaths nodes.entry.words.now hoist.old hoist.new ahead
        (map (full_path_of (registry_of nodes.entry.words.now)) (members_of set.words))) }
{
    for k in set.members() {
        if starts_optional(nodes, k) == ahead {
            enter_path(hoist, nodes, k, false)?;
        }
    }
    Some(())
}

// The hoistable tree of the set, whatever the words were; or they have no room for it.
pub fn build_tree(hoist: &mut [u64], nodes: Nodes, set: NodeBits) -> Option<()>
    requires { (0 < length hoist.old) × (length hoist.old ≤ 513)
        × Members (registry_of nodes.words.now) (members_of set.words) }
    ensures { OnSome result (HoldsTree nodes.entry.words.now hoist.new
        (hoistable_tree (map (full_path_of (registry_of nodes.entry.words.now)) (members_of set.words)))) }
{
    let room = hoist.len() - 1;
    hoist[room] = 0;
    enter_members(hoist, nodes, set, true)?;
    enter_members(hoist, nodes, set, false)
}

// 1 where a word's position is NonNull.
fn nonnull(word: u64) -> u32
    ensures { (result ≡ flag (access_is_non_null (access_of (optional_in word)))) × (result ≤ 1) }
{
    u32::from(word / OPTIONAL != 1)
}

// The levels from the position with a number on, down the names of the entries; 0 where there is no
// position.
fn levels_below(
    hoist: &[u64],
    nodes: Nodes,
    s: &[u8],
    position: Option<usize>,
    entries: Entries,
) -> u32
    requires { HoldsPositions hoist.now × Stands hoist.now position × Candidate entries.left s.now entries.at }
    ensures { result ≡ number_of (levels_of (found_in nodes.entry.words.now hoist.now (number_in position))
        (entries_at entries.left s.now entries.at)) }
{
    let Some(number) = position else {
        return 0;
    };
    let here = nonnull(hoist[number - 1]);
    let Some((entry, rest)) = entries.next(s) else {
        return here;
    };
    let child = child_by_key(hoist, nodes, number, Key::Property(entry.property));
    here + levels_below(hoist, nodes, s, child, rest) * 2
}

// At which levels of a candidate the hoistable tree of the set is NonNull: bit j for level j. The
// levels are read from the words of the tree, where it was built.
pub fn nonnull_levels(
    tree: Option<&[u64]>,
    nodes: Nodes,
    set: NodeBits,
    s: &[u8],
    candidate: CandidateNames,
) -> u32
    requires { Candidate candidate.entries.left s.now candidate.entries.at × Members (registry_of nodes.words.now) (members_of set.words)
        × MayHoldTree nodes.words.now (option_copied tree) (members_of set.words) }
    ensures { result ≡ number_of (non_null_levels (registry_of nodes.entry.words.now) (members_of set.words) candidate.identifier
        (entries_at candidate.entries.left s.now candidate.entries.at)) }
{
    match tree {
        Some(hoist) => {
            let root = child_by_key(hoist, nodes, 0, Key::Identifier(candidate.identifier));
            levels_below(hoist, nodes, s, root, candidate.entries)
        }
        None => {
            let levels = decided_levels(nodes, set, s, candidate);
            levels.nonnull()
        }
    }
}
