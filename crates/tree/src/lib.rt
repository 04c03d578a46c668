// The dependency tree: positions in words that the caller lends, in the order of making, each with
// its parent's number; and the returned paths, derived from it. Position k's number is k + 1, and 0
// stands above the roots. The last word says how many positions there are. Keys and spans stay in
// the job's bytes: a position keeps their place. It also has links to its first child and to its
// next sibling, by which children are found.
// Design: the positions are words with numbers for links, and their count is the last word, since
// memory is fixed and nothing is on the heap.
#![tactic(auto)]

ghost use Rattle.std.specs.Prelude.{◌≡◌, ℕ, ◌+◌, ◌-◌, ◌*◌, ◌≤◌, ◌<◌, List, length, get_or, set, eqb};
ghost use Rattle.model.specs.Forest.{empty, same_key};
ghost use Rattle.model.specs.Lists.{concat_map};
ghost use Rattle.model.specs.Answer.{DE, entry_bytes, path_bytes, span_width};
ghost use Rattle.model.specs.Tree.{step_access, entry_of, dependency_of};
ghost use Rattle.writer.specs.Writes.{HasRoom, Puts};
ghost use Rattle.job.specs.Key.{key_in};
ghost use Rattle.tree.specs.Words.{head_at, entry_at, parent_in, place_in, access_in, pack, key_at, position_as, position_of};
ghost use Rattle.tree.specs.Words.{child_in, sibling_in, link_of, way_positions, merged_word, linked_word, link_in};
ghost use Rattle.tree.specs.Tree.{
  count_in,
  forest_of,
  parts_of,
  Sized,
  Held,
  KeepsWay,
  Leads,
  linked_words,
  Seeks,
  Appendable,
  Appends,
  Enters,
  Adds,
  returned_of,
  paths_from,
  Derives,
  Derivable,
};

use entries::{DependencyPathEntry, IdentifierId, PropertyAccessType, PropertyLiteral};
use job::{Key, PathHead};
use writer::Writer;

// How many bytes stand between a path's mark and its entries.
const HEAD_SIZE: usize = 10;

// What stands before a path's entries, at the place after its mark.
// Design: zeros where nothing is read, in two functions, since the definitions of the same names,
// by which the specs read, are total in that way and have two types.
#[tactic(auto, unfolding(crate::specs::Words::head_at))]
fn head_at(s: &[u8], at: usize) -> PathHead
    ensures { result ≡ head_at s.now at }
{
    let none = PathHead {
        identifier: IdentifierId(0),
        reactive: false,
        span: 0,
        entries: 0,
    };
    job::path_head_at(s, at).map_or(none, |(head, _)| head)
}

#[tactic(auto, unfolding(crate::specs::Words::entry_at))]
fn entry_at(s: &[u8], at: usize) -> DependencyPathEntry
    ensures { result ≡ entry_at s.now at }
{
    let none = DependencyPathEntry {
        property: PropertyLiteral::String(0),
        optional: false,
        span: 0,
    };
    job::entry_at(s, at).map_or(none, |(entry, _)| entry)
}

// The fields of a word.

fn parent_in(w: u64) -> usize
    ensures { (result ≡ parent_in w) × (result < 65536) }
{
    (w % 65536) as usize
}

fn place_in(w: u64) -> usize
    ensures { (result ≡ place_in w) × (result < 65536) }
{
    (w / 65536 % 65536) as usize
}

fn access_in(w: u64) -> PropertyAccessType
    ensures { result ≡ access_in w }
{
    PropertyAccessType::of(w / 4294967296 % 2 == 1, w / 8589934592 % 2 == 1)
}

// The links stand above the other fields. They are numbers of positions.
const CHILD: u64 = 17179869184;

const SIBLING: u64 = 35184372088832;

// Design: a link of none is 0, since a word has 11 bits for it.
fn link_of(number: u64) -> Option<usize>
    ensures { result ≡ link_of number }
{
    if number == 0 {
        None
    } else {
        Some(number as usize)
    }
}

fn child_in(w: u64) -> Option<usize>
    ensures { result ≡ link_of (child_in w) }
{
    link_of(w / CHILD % 2048)
}

fn sibling_in(w: u64) -> Option<usize>
    ensures { result ≡ link_of (sibling_in w) }
{
    link_of(w / SIBLING)
}

// A word without links.
fn pack(parent: usize, place: usize, access: PropertyAccessType) -> u64
    requires { (parent < 65536) × (place < 65536) }
    ensures { (result ≡ pack parent place access) × (result < 17179869184) }
{
    let optional = u64::from(access.is_optional());
    let dependency = u64::from(access.is_dependency());
    parent as u64 + place as u64 * 65536 + optional * 4294967296 + dependency * 8589934592
}

// The word with an access merged into its own, below the same links.
fn merged_word(w: u64, with: PropertyAccessType) -> u64
    ensures { result ≡ merged_word w with }
{
    let access = access_in(w);
    pack(parent_in(w), place_in(w), access.merge(with)) + w / CHILD * CHILD
}

// The word with a link that it has not yet, to the first child or to the next sibling.
// Design: `child` is a bool, since the definitions `link_in` and `linked_word` take one.
fn with_link(w: u64, child: bool, number: usize) -> u64
    requires { (link_in child w ≡ 0) × (number < 2048) }
    ensures { result ≡ linked_word child w number }
{
    if child {
        w + number as u64 * CHILD
    } else {
        w + number as u64 * SIBLING
    }
}

// The key of the position below a parent whose key and span stand at a place.
fn key_at(s: &[u8], parent: usize, place: usize) -> Key
    ensures { key_in result ≡ key_at s.now parent place }
{
    if parent == 0 {
        Key::Identifier(head_at(s, place).identifier)
    } else {
        Key::Property(entry_at(s, place).property)
    }
}

// The position below a parent whose key stands at a place has this key.
fn has_key(s: &[u8], parent: usize, place: usize, key: Key) -> bool
    ensures { result ≡ same_key (key_at s.now parent place) (key_in key) }
{
    key_at(s, parent, place) == key
}

// The walk of a candidate.

// Design: no `From<bool>`, since a bool does not say that it is the mark NonNull.
fn step_access(nonnull: bool) -> PropertyAccessType
    ensures { result ≡ step_access nonnull }
{
    if nonnull {
        PropertyAccessType::UnconditionalAccess
    } else {
        PropertyAccessType::OptionalAccess
    }
}

// The tree.

// A tree of no positions, whatever the words were.
pub fn clear(tree: &mut [u64])
    requires { (0 < length tree.old) × (length tree.old ≤ 2048) }
    ensures { ((s : List ℕ) → Held s tree.new × (forest_of s tree.new ≡ empty)) ×
        (count_in tree.new ≡ 0) }
{
    let room = tree.len() - 1;
    tree[room] = 0;
}

// The number of a parent's first child. The first position is the first root.
fn first_child(tree: &[u64], parent: usize) -> Option<usize>
    requires { Sized tree.now × (parent ≤ count_in tree.now) }
    ensures { Leads tree.now parent parent result }
{
    if parent == 0 {
        (tree[tree.len() - 1] != 0).then_some(1)
    } else {
        child_in(tree[parent - 1])
    }
}

// The number of the position that has the step's parent and key, or, where there is none, that of
// the last child of the parent, behind which it would stand: the parent's own where there is no
// child.
// Design: a walk beside that of `collect_minimal_deps_in_subtree`: this one stops, that one writes
// and goes down. An iterator of children would be longer than the two lines that they share.
fn seek(tree: &[u64], s: &[u8], key: Key, step: u64) -> Result<usize, usize>
    requires { Sized tree.now × (parent_in step ≤ count_in tree.now) × (key_in key ≡ key_at s.now (parent_in step) (place_in step)) }
    ensures { Seeks s.now tree.now step result }
{
    let parent = parent_in(step);
    let mut last = parent;
    let mut next = first_child(tree, last);
    while let Some(number) = next {
        let w = tree[number - 1];
        if has_key(s, parent, place_in(w), key) {
            return Ok(number);
        }
        last = number;
        next = sibling_in(w);
    }
    Err(last)
}

// Merges an access into position i.
// Design: words, as the caller lends them, and no struct with `Sized` and `Held`: `add_candidate`
// and `derive_minimal_dependencies`, which are public and in docs/PROOFS.md, take the words with
// clauses.
fn merge_at(tree: &mut [u64], i: usize, with: PropertyAccessType)
    requires { i < length tree.old }
    ensures { tree.new ≡ set tree.old i (merged_word (get_or tree.old i 0) with) }
{
    tree[i] = merged_word(tree[i], with);
}

// Links a position behind the last child of a parent, or as its first child where `last` is the
// parent itself.
fn link(tree: &mut [u64], parent: usize, last: usize, number: usize)
    requires { (last ≤ length tree.old) × (number < 2048) ×
        (0 < last → link_in (eqb last parent) (get_or tree.old (last - 1) 0) ≡ 0) }
    ensures { tree.new ≡ linked_words tree.old parent last number }
{
    if 0 < last {
        let at = last - 1;
        tree[at] = with_link(tree[at], last == parent, number);
    }
}

// Makes the step's position, the last, behind the last child of its parent, and says its number.
fn append(tree: &mut [u64], last: usize, step: u64) -> usize
    requires { Appendable tree.old last step }
    ensures { Appends tree.old tree.new last step result }
{
    let room = tree.len() - 1;
    let end = tree[room] as usize;
    let number = end + 1;
    link(tree, parent_in(step), last, number);
    tree[end] = step;
    tree[room] = number as u64;
    number
}

// Finds the position below a parent that has the key, which stands at a place, and merges the
// access, or makes it. Says its number.
fn make_or_merge(
    tree: &mut [u64],
    s: &[u8],
    parent: usize,
    key: Key,
    place: usize,
    access: PropertyAccessType,
) -> usize
    requires { Sized tree.old × (parent ≤ count_in tree.old) × (count_in tree.old + 1 < length tree.old) × (place < 65536)
        × (key_in key ≡ key_at s.now parent place) }
    ensures { Enters s.now tree.old tree.new parent
        (position_as s.now parent place access) result }
{
    let step = pack(parent, place, access);
    match seek(tree, s, key, step) {
        Ok(number) => {
            merge_at(tree, number - 1, access);
            number
        }
        Err(last) => append(tree, last, step),
    }
}

// Adds the candidate whose fields stand at a place, after the mark (`add_dependency` of the Rust).
// Bit j of `levels` says that the hoistable tree is NonNull at level j.
pub fn add_candidate(tree: &mut [u64], s: &[u8], at: usize, levels: u32)
    requires { Held s.now tree.old × (count_in tree.old + 17 < length tree.old) × (at ≤ 32768) }
    ensures { Adds s.now tree.old tree.new at levels }
{
    let head = head_at(s, at);
    let mut parent: usize = 0;
    let mut key = Key::Identifier(head.identifier);
    let mut place = at;
    let mut access = PropertyAccessType::UnconditionalAccess;
    let mut next = at + HEAD_SIZE;
    let mut flags = levels;
    for _ in 0..head.entries {
        let entry = entry_at(s, next);
        let nonnull = flags % 2 == 1;
        if !nonnull && !entry.optional {
            break;
        }
        parent = make_or_merge(tree, s, parent, key, place, access);
        key = Key::Property(entry.property);
        place = next;
        access = step_access(nonnull);
        next += job::ENTRY_SIZE;
        flags /= 2;
    }
    make_or_merge(
        tree,
        s,
        parent,
        key,
        place,
        access.merge(PropertyAccessType::OptionalDependency),
    );
}

// The paths that are derived.

// The mark of a returned path.
// Design: a number and no enum, since `path_bytes` takes a mark as the number of its two bytes.
pub const DE: u16 = 0x4544;

// What a path takes of a position: as its root, identifier and reactive; as one of its entries, the
// entry.
// Design: one struct with fields that a root or a child does not use, since the definition
// `parts_of` of the contract gives all three of any position.
#[derive(Clone, Copy)]
struct Position {
    identifier: IdentifierId,
    reactive: bool,
    entry: DependencyPathEntry,
}

fn position_of(s: &[u8], w: u64) -> Position
    ensures { result ≡ parts_of (position_of s.now w) }
{
    let access = access_in(w);
    let optional = access.is_optional();
    if parent_in(w) == 0 {
        let head = head_at(s, place_in(w));
        Position {
            identifier: head.identifier,
            reactive: head.reactive,
            entry: DependencyPathEntry {
                property: PropertyLiteral::String(0),
                optional,
                span: head.span,
            },
        }
    } else {
        let entry = entry_at(s, place_in(w));
        Position {
            identifier: IdentifierId(0),
            reactive: false,
            entry: DependencyPathEntry { optional, ..entry },
        }
    }
}

// The entries of these positions of a way down.
fn put_entries(w: &mut Writer, s: &[u8], positions: &[u64])
    requires { HasRoom w.old (14 * length positions.now) }
    ensures { Puts w.old w.new (14 * length positions.now)
        (concat_map (λ v. entry_bytes span_width (entry_of (position_of s.now v))) positions.now) }
{
    for position in positions {
        w.entry(position_of(s, *position).entry);
    }
}

// The record of the path that a way down stands for: its root, and the entries behind it.
fn put_path(w: &mut Writer, s: &[u8], way: &[u64])
    requires { (0 < length way.now) × HasRoom w.old (12 + 14 * (length way.now - 1)) }
    ensures { Puts w.old w.new (12 + 14 * (length way.now - 1))
        (path_bytes span_width DE (dependency_of (way_positions s.now way.now (length way.now)))) }
{
    let root = position_of(s, way[0]);
    let last = position_of(s, way[way.len() - 1]);
    w.path_head(
        DE,
        root.identifier,
        root.reactive,
        last.entry.span,
        way.len() - 1,
    );
    put_entries(w, s, &way[1..]);
}

// The records of the first dependencies on each way down below a parent, to which the way down is
// `way`, of this depth. Says how many they are.
// Design: the way down is words lent to all levels with its depth, since nothing is on the heap.
fn collect_minimal_deps_in_subtree(
    tree: &[u64],
    s: &[u8],
    parent: usize,
    way: &mut [u64],
    depth: usize,
    w: &mut Writer,
) -> usize
    requires { Derivable s.now tree.now parent way.old depth w.old }
    ensures { Derives (paths_from s.now tree.now parent parent way.old depth) w.old w.new result × KeepsWay way.old way.new depth }
{
    let mut count = 0;
    let mut next = first_child(tree, parent);
    while let Some(number) = next {
        let position = tree[number - 1];
        way[depth] = position;
        if access_in(position).is_dependency() {
            put_path(w, s, &way[..depth + 1]);
            count += 1;
        } else {
            count += collect_minimal_deps_in_subtree(tree, s, number, way, depth + 1, w);
        }
        next = sibling_in(position);
    }
    count
}

// The returned paths' records, and how many they are.
pub fn derive_minimal_dependencies(tree: &[u64], s: &[u8], w: &mut Writer) -> usize
    requires { Held s.now tree.now ×
        HasRoom w.old (length (concat_map (path_bytes span_width DE) (returned_of s.now tree.now))) }
    ensures { Derives (returned_of s.now tree.now) w.old w.new result }
{
    let mut way = [0u64; 17];
    collect_minimal_deps_in_subtree(tree, s, 0, &mut way, 0, w)
}
