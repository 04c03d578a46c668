// `propagate_non_null`: rounds of a forward and a backward walk over the blocks, until one changes
// nothing. In which order a walk leaves the blocks, and which of them are Done then, depends on the
// graph alone, so both are noted once, in 257 bytes for each direction: byte b is the mark of block
// b, byte 128 + i the block that is left after i others, byte 256 how many are left. Mark 0 is an
// unmarked block, 1 an Active one, and 255 - i a Done one that was left after i others, so that of
// two blocks the one with the greater mark was left first. A block is dirty where its join in a
// walk of that direction may have an effect.
// Design: the marks of an order stay numbers, since they also say which of two blocks was left
// first, and marks, blocks and count stay in the same bytes: `OrderNoted`, which docs/PROOFS.md
// names, and the edits `order_by_the_last` and `order_not_zeroed` are of these bytes.
// Design: a direction is a bool, as it is in the definitions (`neighbours`, `in_order`, `walk_in`).
// Design: that a number is a block (`b < size_in ..`) is a clause. Blocks come out of loops and of
// bytes, so that a value of a type of blocks would be made at each call, which is no plainer.
#![tactic(auto)]

ghost use Rattle.std.specs.Prelude.{◌≡◌, true, false, ◌<◌, get_or, replicate};
ghost use Rattle.model.specs.Reduction.{reduce_maybe_optional_chains};
ghost use Rattle.model.specs.Visit.{visit};
ghost use Rattle.model.specs.Propagation.{intersection_of, round, propagate_non_null};
ghost use Rattle.laws.specs.WalkSteps.{noted};
ghost use Rattle.rows.specs.Members.{members_of};
ghost use Rattle.rows.specs.Rows.{Lent, rows_of};
ghost use Rattle.registry.specs.Words.{registry_of};
ghost use Rattle.graph.specs.Bytes.{size_in, neighbours, NeighboursOnce, NeighboursMutual, graph_in};
ghost use Rattle.propagation.specs.Once.{once_prop};
ghost use Rattle.propagation.specs.Rules.{rule_of, asks_all};
ghost use Rattle.propagation.specs.Order.{in_order, left_in, done_before, leaving, noted_of, Noting, Notes, OrderNoted};
ghost use Rattle.propagation.specs.Joins.{
  work_of,
  join_in,
  neighbours_to_join,
  sets_to_join,
  Gathers,
  RowsStand,
  Ready,
  ReducedBefore,
  MarksDirty,
  Touched,
  Joins,
  Flags,
  Steps,
};
ghost use Rattle.propagation.specs.Propagates.{walk_in, Orders, Turns, Propagates};

use entries::{Refusal, RoundsRun};
use graph::Graph;
use registry::Registry;
use rows::NodeBits;

// Which neighbours of a block join: those that are Done; or all, where every one is Done, and else
// none.
// Design: an enum and no closure, since the contracts of `propagate_non_null` and of
// `stage::perform`, which are public, say by it which rule it is (`rule_of`).
#[derive(Clone, Copy)]
pub enum Joining {
    DoneNeighbours,
    StrictNeighbours,
}

impl Joining {
    // Whether a neighbour that is not Done keeps the others from joining.
    fn asks_all(self) -> bool
        ensures { result ≡ asks_all self }
    {
        matches!(self, Joining::StrictNeighbours)
    }
}

// What a join made of a block's set: whether that is another one, and whether the same join would
// leave it.
#[derive(Clone, Copy)]
struct Joined {
    changed: bool,
    idle: bool,
}

// The order of a walk.

// A block is left: it is Done, and the next of the order.
fn leave(b: usize, order: &mut [u8; 257])
    requires { (b < 128) × (left_in order.old < 128) }
    ensures { order.new ≡ leaving order.old b }
{
    let left = order[256];
    order[128 + usize::from(left)] = b as u8;
    order[256] = left + 1;
    order[b] = 255 - left;
}

// `recursively_propagate_non_null` of an unmarked block, as far as it marks blocks: it is Active
// while its unmarked neighbours are visited, and then left.
fn visit(graph: Graph, backward: bool, b: usize, order: &mut [u8; 257])
    requires { let n = size_in graph.bytes.now in
        (b < n) × Noting n order.old × (get_or order.old b 0 ≡ 0) }
    ensures { let n = size_in graph.entry.bytes.now in
        Notes (visit (neighbours graph.entry.bytes.now backward) noted b (noted_of n order.old)) n
        order.old order.new }
{
    order[b] = 1;
    for k in graph.neighbours(backward, b) {
        if order[k] == 0 {
            visit(graph, backward, k, order);
        }
    }
    leave(b, order);
}

// Block i of a walk over n.
fn in_order(backward: bool, n: usize, i: usize) -> usize
    requires { i < n }
    ensures { (result ≡ in_order backward n i) × (result < n) }
{
    if backward { n - 1 - i } else { i }
}

// The order in which a walk leaves the blocks, noted in zeroed bytes: it visits each unmarked block
// in turn.
fn note_order(graph: Graph, backward: bool, order: &mut [u8; 257])
    requires { order.old ≡ replicate 257 0 }
    ensures { OrderNoted graph.entry.bytes.now backward order.new }
{
    let n = graph::size(graph.bytes);
    for i in 0..n {
        let b = in_order(backward, n, i);
        if order[b] == 0 {
            visit(graph, backward, b, order);
        }
    }
}

// The blocks that are to join again, by a mark for each.

// These neighbours of a block are dirty.
fn mark_neighbours(graph: Graph, backward: bool, b: usize, dirty: &mut [bool; 128])
    requires { b < size_in graph.bytes.now }
    ensures { MarksDirty (neighbours graph.entry.bytes.now backward b) dirty.old dirty.new }
{
    for k in graph.neighbours(backward, b) {
        dirty[k] = true;
    }
}

// The walks in one direction: by which rule blocks join, and in which order they are left; and
// whether the walk is later than the first.
#[derive(Clone, Copy)]
struct Walk<'a> {
    joining: Joining,
    graph: Graph<'a>,
    backward: bool,
    order: &'a [u8; 257],
    later: bool,
    ghost once: { NeighboursOnce graph.bytes.now } by { once_prop graph.bytes.now },
    ghost both_ways: { NeighboursMutual graph.bytes.now },
}

impl Walk<'_> {
    // The neighbours of a block that are to be joined, each once: their places stand at the front
    // of `places`, and the result is how many there are. They are those that were left before it.
    // Marks are looked up for a join here and nowhere else, that of a neighbour once. Where every
    // neighbour has to be Done, the first that is not ends the search. Each place is stored behind
    // those gathered so far, and the count goes up only if that neighbour is Done, so that under
    // the existing rule the compiled loop has no branch on the mark.
    // Design: lent bytes and a count, and no list that grows: fixed memory.
    fn neighbours_to_join(self, b: usize, places: &mut [u8; 128]) -> usize
        requires { b < size_in self.graph.bytes.now }
        ensures { let g = self.entry.graph.bytes.now in
            Gathers (neighbours_to_join (rule_of self.entry.joining) g self.entry.backward b self.entry.order.now)
            (size_in g) result places.new }
    {
        let mark = self.order[b];
        let mut count = 0;
        for k in self.graph.neighbours(self.backward, b) {
            places[count] = k as u8;
            if mark < self.order[k] {
                count += 1;
            } else if self.joining.asks_all() {
                return 0;
            }
        }
        count
    }

    // The intersection of the sets of those neighbours of a block that join.
    fn intersection_of_joining(self, b: usize, sets: &[u64]) -> NodeBits
        requires { let n = size_in self.graph.bytes.now in (b < n) × Lent n sets.now }
        ensures { members_of result.words ≡ intersection_of
            (sets_to_join (rule_of self.entry.joining) self.entry.graph.bytes.now self.entry.backward b self.entry.order.now sets.now) }
    {
        let mut places = [0u8; 128];
        let count = self.neighbours_to_join(b, &mut places);
        rows::intersection_of_rows(sets, &places[..count])
    }

    // The block's set is joined with that intersection and reduced. In a walk later than the first
    // it was reduced before, so where nothing new joins, it stays.
    // Design: the sets and the registry stay two arguments with clauses of their own, here and in
    // the functions below. Where there is no room, reduction promises nothing of the registry's
    // nodes (`Reduces`), so no type of the two could hold that the sets are of these.
    fn join(self, b: usize, sets: &mut [u64], registry: &mut Registry) -> Result<Joined, Refusal>
        requires { let n = size_in self.graph.bytes.now in
            let r = registry.old in
            (b < n) × RowsStand n sets.old r.words r.optional.words × ReducedBefore self.later n sets.old r.words }
        ensures { Joins (rule_of self.entry.joining) self.entry.graph.bytes.now self.entry.backward b self.entry.order.now
            sets.old registry.old.words result sets.new registry.new.words registry.new.optional.words }
    {
        let found = self.intersection_of_joining(b, sets);
        let own = rows::row(sets, b);
        let all = own.union(found);
        if self.later && own.same_set(all) {
            return Ok(Joined {
                changed: false,
                idle: true,
            });
        }
        let set = reduction::reduce_maybe_optional_chains(registry, all, own, self.later)?;
        rows::set_row(sets, b, set);
        Ok(Joined {
            changed: !own.same_set(set),
            idle: all.same_set(set),
        })
    }

    // Where the set of block b has changed, dirty are the blocks that it joins, in a walk of this
    // direction those on the other side, and in one of the other direction those on this side and
    // the block itself.
    // Design: `dirty` and `other` stay two parameters, here and below. The two walks of a round
    // take them the other way round, so that a struct of both would be made again for each walk.
    fn mark_changed(self, b: usize, changed: bool, dirty: &mut [bool; 128], other: &mut [bool; 128])
        requires { b < size_in self.graph.bytes.now }
        ensures { Touched self.entry.graph.bytes.now self.entry.backward b changed dirty.old other.old dirty.new other.new }
    {
        if !changed {
            return;
        }
        mark_neighbours(self.graph, !self.backward, b, dirty);
        mark_neighbours(self.graph, self.backward, b, other);
        other[b] = true;
    }

    // A block's join in a walk. In a walk later than the first, a block that is not dirty would
    // keep its set, and is passed over. Whether a join of this round changed its set.
    fn step(
        self,
        b: usize,
        dirty: &mut [bool; 128],
        other: &mut [bool; 128],
        sets: &mut [u64],
        registry: &mut Registry,
        changed: bool,
    ) -> Result<bool, Refusal>
        requires { let g = self.graph.bytes.now in
            let r = registry.old in
            (b < size_in g) × RowsStand (size_in g) sets.old r.words r.optional.words
            × ReducedBefore self.later (size_in g) sets.old r.words
            × Flags (rule_of self.joining) g self.backward self.order.now dirty.old other.old sets.old }
        ensures { let g = self.entry.graph.bytes.now in
            Steps (rule_of self.entry.joining) g self.entry.backward self.entry.order.now other.old sets.old
            (join_in (rule_of self.entry.joining) g self.entry.backward b (done_before (size_in g) self.entry.order.now b)
            (work_of (size_in g) sets.old registry.old.words changed))
            result dirty.new other.new sets.new registry.new.words registry.new.optional.words }
    {
        if self.later && !dirty[b] {
            return Ok(changed);
        }
        let joined = self.join(b, sets, registry)?;
        self.mark_changed(b, joined.changed, dirty, other);
        // It is not dirty where the same join would leave its set.
        dirty[b] = !joined.idle;
        Ok(changed | joined.changed)
    }

    // The blocks in the order in which they are left, each joined with those that were left before
    // it.
    // Design: by number and not over a slice of the order, since a step of a walk is defined by its
    // number (`step_left`): the block that it leaves, and which blocks were Done before.
    fn run(
        self,
        dirty: &mut [bool; 128],
        other: &mut [bool; 128],
        sets: &mut [u64],
        registry: &mut Registry,
        changed: bool,
    ) -> Result<bool, Refusal>
        requires { let g = self.graph.bytes.now in
            let r = registry.old in
            RowsStand (size_in g) sets.old r.words r.optional.words × ReducedBefore self.later (size_in g) sets.old r.words
            × OrderNoted g self.backward self.order.now
            × Flags (rule_of self.joining) g self.backward self.order.now dirty.old other.old sets.old }
        ensures { let g = self.entry.graph.bytes.now in
            Steps (rule_of self.entry.joining) g self.entry.backward self.entry.order.now other.old sets.old
            (walk_in (rule_of self.entry.joining) g self.entry.backward (work_of (size_in g) sets.old registry.old.words changed))
            result dirty.new other.new sets.new registry.new.words registry.new.optional.words }
    {
        let mut so_far = changed;
        for i in 0..usize::from(self.order[256]) {
            let b = usize::from(self.order[128 + i]);
            so_far = self.step(b, dirty, other, sets, registry, so_far)?;
        }
        Ok(so_far)
    }
}

// The walks of all rounds: by which rule blocks join, and in which orders they are left.
#[derive(Clone, Copy)]
struct Walks<'a> {
    joining: Joining,
    graph: Graph<'a>,
    forward: &'a [u8; 257],
    backward: &'a [u8; 257],
    ghost once: { NeighboursOnce graph.bytes.now } by { once_prop graph.bytes.now },
    ghost both_ways: { NeighboursMutual graph.bytes.now },
}

impl Walks<'_> {
    // A forward and a backward walk, of which the backward one is never the first. They start from
    // no set changed; whether one had changed before the round is not read, so the contract may say
    // `true`.
    fn round(
        self,
        dirty: &mut [bool; 128],
        other: &mut [bool; 128],
        sets: &mut [u64],
        registry: &mut Registry,
        later: bool,
    ) -> Result<bool, Refusal>
        requires { let g = self.graph.bytes.now in
            let r = registry.old in
            RowsStand (size_in g) sets.old r.words r.optional.words × ReducedBefore later (size_in g) sets.old r.words
            × Orders (rule_of self.joining) g self.forward.now self.backward.now dirty.old other.old sets.old }
        ensures { let g = self.entry.graph.bytes.now in
            Turns (rule_of self.entry.joining) g self.entry.forward.now self.entry.backward.now
            (round reduce_maybe_optional_chains (rule_of self.entry.joining) (graph_in g)
            (work_of (size_in g) sets.old registry.old.words true))
            result dirty.new other.new sets.new registry.new.words registry.new.optional.words }
    {
        let forward = Walk {
            joining: self.joining,
            graph: self.graph,
            backward: false,
            order: self.forward,
            later,
        };
        let changed = forward.run(dirty, other, sets, registry, false)?;
        let returning = true;
        let backward = Walk {
            joining: self.joining,
            graph: self.graph,
            backward: returning,
            order: self.backward,
            later: true,
        };
        backward.run(other, dirty, sets, registry, changed)
    }

    // At most 100 rounds; the one that changes nothing is the last. All blocks are dirty at first.
    fn rounds(self, sets: &mut [u64], registry: &mut Registry) -> Result<RoundsRun, Refusal>
        requires { let g = self.graph.bytes.now in
            RowsStand (size_in g) sets.old registry.old.words registry.old.optional.words
            × OrderNoted g false self.forward.now × OrderNoted g true self.backward.now }
        ensures { let g = self.entry.graph.bytes.now in
            Propagates (propagate_non_null (rule_of self.entry.joining) (graph_in g) (registry_of registry.old.words)
            (rows_of sets.old (size_in g)))
            (size_in g) result sets.new registry.new.words registry.new.optional.words }
    {
        let mut dirty_forward = [true; 128];
        let mut dirty_backward = [true; 128];
        for before in 0..100 {
            let changed = self.round(
                &mut dirty_forward,
                &mut dirty_backward,
                sets,
                registry,
                0 < before,
            )?;
            if !changed {
                return Ok(RoundsRun {
                    rounds: before + 1,
                    settled: true,
                });
            }
        }
        Ok(RoundsRun {
            rounds: 100,
            settled: false,
        })
    }
}

// The orders of both walks are noted, and the rounds are run.
pub fn propagate_non_null(
    joining: Joining,
    graph: Graph,
    sets: &mut [u64],
    registry: &mut Registry,
) -> Result<RoundsRun, Refusal>
    requires { Ready graph.bytes.now sets.old registry.old.words registry.old.optional.words }
    ensures { let g = graph.entry.bytes.now in
        Propagates (propagate_non_null (rule_of joining) (graph_in g) (registry_of registry.old.words)
        (rows_of sets.old (size_in g)))
        (size_in g) result sets.new registry.new.words registry.new.optional.words }
{
    let mut forward = [0u8; 257];
    let mut backward = [0u8; 257];
    note_order(graph, false, &mut forward);
    note_order(graph, true, &mut backward);
    let walks = Walks {
        joining,
        graph,
        forward: &forward,
        backward: &backward,
    };
    walks.rounds(sets, registry)
}
