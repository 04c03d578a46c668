// The answer's bytes: each candidate walks and is added to the dependency tree, and the returned
// paths are written behind the answer's head. Where there are several candidates, the hoistable
// tree is built for them once.
#![tactic(auto)]

ghost use Rattle.std.specs.Prelude.{◌≤◌, ◌<◌, length, option_copied};
ghost use Rattle.model.specs.ReductionLaws.{Members};
ghost use Rattle.model.specs.Answer.{least_buffer};
ghost use Rattle.rows.specs.Members.{members_of};
ghost use Rattle.registry.specs.Words.{registry_of};
ghost use Rattle.hoistable.specs.Positions.{MayHoldTree};
ghost use Rattle.writer.specs.Writes.{HasRoom, Puts};
ghost use Rattle.answer_bytes.specs.Answers.{CandidatesAt, TreeRoom, Given, Added, head_bytes, WritesAnswer};

use entries::RoundsRun;
use hoistable::{CandidateNames, Entries};
use registry::Nodes;
use rows::NodeBits;
use writer::Writer;

// The mark of an answer.
// Design: a number, as its definition (`AN` in `model`) and `Writer::number`, which writes it, have
// it; no code goes by it.
pub const AN: u64 = 0x4E41;

// From so many candidates on the hoistable tree is built. For fewer that takes longer than it
// saves.
const SEVERAL: usize = 3;

// Up to so many nodes it is built in fewer words, which take less time to clear.
const FEW_NODES: usize = 64;

// The candidates of a job, from a place in its bytes on, and what they walk by: the registry's
// nodes, and the scope block's set.
// Design: that they are read, and the set is of the nodes, is a clause (`Given`) and not of the
// type: its definition and that of `Added` are of this type and stand in one module with
// `CandidatesAt` and `WritesAnswer`, which the type would have to name in its turn.
#[derive(Clone, Copy)]
struct Candidates<'a> {
    s: &'a [u8],
    nodes: Nodes<'a>,
    set: NodeBits,
    start: usize,
    count: usize,
}

// Each candidate walks, and is added to the dependency tree, whatever its words were. `hoist` is
// the hoistable tree of the scope block's set, where it was built.
fn walk_candidates(candidates: &Candidates, tree: &mut [u64], hoist: Option<&[u64]>)
    requires { TreeRoom tree.old candidates.now.count × Given candidates.now
        × MayHoldTree candidates.now.nodes.words.now (option_copied hoist) (members_of candidates.now.set.words) }
    ensures { Added candidates.now tree.new }
{
    let Candidates {
        s,
        nodes,
        set,
        start,
        count,
    } = *candidates;
    tree::clear(tree);
    let mut at = start;
    for _ in 0..count {
        let fields_at = at + 2;
        let Ok((head, entries_at)) = job::path_head_at(s, fields_at) else {
            return;
        };
        let candidate = CandidateNames {
            identifier: head.identifier,
            entries: Entries {
                at: entries_at,
                left: head.entries,
            },
        };
        let levels = hoistable::nonnull_levels(hoist, nodes, set, s, candidate);
        tree::add_candidate(tree, s, fields_at, levels);
        at = entries_at + job::ENTRY_SIZE * usize::from(head.entries);
    }
}

// The candidates walk with the hoistable tree, built in words that are lent, or without it where
// there is no room. `add_candidates` lends enough, since each position has a node of its own, but
// no proof needs that.
fn walk_with_tree(candidates: &Candidates, tree: &mut [u64], hoist: &mut [u64])
    requires { TreeRoom tree.old candidates.now.count × Given candidates.now × (0 < length hoist.old) × (length hoist.old ≤ 513) }
    ensures { Added candidates.now tree.new }
{
    let built = hoistable::build_tree(hoist, candidates.nodes, candidates.set);
    let hoist: &[u64] = hoist;
    walk_candidates(candidates, tree, built.map(|()| hoist));
}

// The dependency tree of the candidates, whatever the words were.
// Design: two arrays and one function over slices. As a const parameter the two lengths would stand
// at two calls all the same, and `walk_candidates` would be compiled twice.
fn add_candidates(candidates: &Candidates, tree: &mut [u64])
    requires { TreeRoom tree.old candidates.now.count × Given candidates.now }
    ensures { Added candidates.now tree.new }
{
    if candidates.count < SEVERAL {
        walk_candidates(candidates, tree, None);
    } else if candidates.nodes.count() <= FEW_NODES {
        let mut hoist = [0u64; 65];
        walk_with_tree(candidates, tree, &mut hoist);
    } else {
        let mut hoist = [0u64; 513];
        walk_with_tree(candidates, tree, &mut hoist);
    }
}

// What stands before the returned paths.
fn put_head(w: &mut Writer, count: usize, run: RoundsRun)
    requires { HasRoom w.old 6 }
    ensures { Puts w.old w.new 6 (head_bytes count run.rounds run.settled) }
{
    w.number(2, AN);
    w.number(2, count as u64);
    w.rounds(run);
}

// The whole answer, from the buffer's start on. The head is written last, since it has the number
// of returned paths. `tree` is lent for the dependency tree, whatever its words are.
// Design: eight parameters and no struct, which would be made at the one call and taken apart here.
pub fn put_answer(
    tree: &mut [u64],
    s: &[u8],
    nodes: Nodes,
    set: NodeBits,
    start: usize,
    count: usize,
    run: RoundsRun,
    out: &mut [u8],
) -> usize
    requires { TreeRoom tree.old count × Members (registry_of nodes.words.now) (members_of set.words)
        × CandidatesAt s.now start count × (least_buffer ≤ length out.old) }
    ensures { WritesAnswer s.now start count (registry_of nodes.entry.words.now)
        (members_of set.words) run.rounds run.settled out.old out.new result }
{
    let candidates = Candidates {
        s,
        nodes,
        set,
        start,
        count,
    };
    add_candidates(&candidates, tree);
    let mut w = Writer { out, at: 6 };
    let count = tree::derive_minimal_dependencies(tree, s, &mut w);
    let end = w.at;
    w.at = 0;
    put_head(&mut w, count, run);
    end
}
