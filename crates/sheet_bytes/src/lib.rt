// The bytes of a sheet: its head, each node of the registry with its root's identifier and reactive
// mark, and each block's set as a row of bits.
#![tactic(auto)]

ghost use Rattle.std.specs.Prelude.{◌+◌, ◌*◌, ◌≤◌, ◌<◌, ◌≡◌, length};
ghost use Rattle.model.specs.Registry.{full_path_of};
ghost use Rattle.model.specs.RegistryLaws.{node_at};
ghost use Rattle.model.specs.Lists.{concat_map};
ghost use Rattle.model.specs.Answer.{parent_number, origin_bytes, node_bytes, row_bytes, sheet_head, least_buffer, span_width};
ghost use Rattle.rows.specs.Rows.{Lent, row_of};
ghost use Rattle.registry.specs.Nodes.{origin_of};
ghost use Rattle.registry.specs.Words.{count_in, registry_of};
ghost use Rattle.writer.specs.Writes.{HasRoom, Puts};
ghost use Rattle.sheet_bytes.specs.Sheet.{root_of, set_record, set_records, WritesSheet};

use entries::{BlockId, IdentifierId, NodeId, RoundsRun};
use registry::{Node, Nodes};
use writer::Writer;

// Design: a mark is the number that its two bytes make, as the format has it; no code goes by it.
// "SH", "NO" and "SE", the marks of a sheet, a node and a set.
const SH: u64 = 0x4853;

const NO: u64 = 0x4F4E;

const SE: u64 = 0x4553;

// What a path has of its root.
#[derive(Clone, Copy)]
pub struct PathRoot {
    pub identifier: IdentifierId,
    pub reactive: bool,
}

// What node k's path has of its root, which is reached from parent to parent.
// Design: a walk beside those of `hoistable` and `reduction`, which take other things on the way:
// an iterator for all would be longer than the line that they share.
fn root_of(nodes: Nodes, k: NodeId) -> PathRoot
    requires { k.0 < count_in nodes.words.now }
    ensures { result ≡ root_of (full_path_of (registry_of nodes.entry.words.now) k) }
{
    let mut at = k;
    loop {
        match nodes.load(at) {
            Node::Root(identifier, reactive, _) => {
                return PathRoot {
                    identifier,
                    reactive,
                };
            }
            Node::Child(parent, _) => {
                at = parent;
            }
        }
    }
}

// A node's parent, or what stands for the parent of a root.
fn parent_number(n: Node) -> u64
    ensures { result ≡ parent_number (origin_of n) }
{
    match n {
        Node::Root(_, _, _) => Node::ROOT,
        Node::Child(parent, _) => parent.0 as u64,
    }
}

// The entry by which a node is a child: optional, kind and value, or as many zeros for a root.
fn put_origin(w: &mut Writer, n: Node)
    requires { HasRoom w.old 10 }
    ensures { Puts w.old w.new 10 (origin_bytes (origin_of n)) }
{
    match n {
        Node::Root(_, _, _) => w.number(10, 0),
        Node::Child(_, entry) => w.step(entry),
    }
}

// A node: its parent, its root's identifier, the entry by which it is a child, its span and its
// root's reactive mark.
fn put_node(nodes: Nodes, k: NodeId, w: &mut Writer)
    requires { (k.0 < count_in nodes.words.now) × HasRoom w.old 23 }
    ensures { Puts w.old w.new 23 (node_bytes span_width (node_at (registry_of nodes.entry.words.now) k.0)) }
{
    let n = nodes.load(k);
    let root = root_of(nodes, k);
    w.number(2, NO);
    w.number(2, parent_number(n));
    w.number(4, u64::from(root.identifier.0));
    put_origin(w, n);
    w.number(4, n.span());
    w.number(1, u64::from(root.reactive));
}

// All nodes, in the order of their making.
fn put_nodes(nodes: Nodes, w: &mut Writer)
    requires { HasRoom w.old (23 * 512) }
    ensures { Puts w.old w.new (23 * count_in nodes.entry.words.now)
        (concat_map (node_bytes span_width) (registry_of nodes.entry.words.now)) }
{
    for k in 0..nodes.count() {
        put_node(nodes, NodeId(k), w);
    }
}

// Row b: node k is bit k % 64 of word k / 64, so a word's bytes, lowest first, are the row's.
fn put_row(sets: &[u64], b: usize, w: &mut Writer)
    requires { Lent (b + 1) sets.now × HasRoom w.old 64 }
    ensures { Puts w.old w.new 64 (row_bytes (row_of sets.now b) 0 64) }
{
    for word in &sets[b * 8..b * 8 + 8] {
        w.number(8, *word);
    }
}

// Block b: its id and its set.
fn put_block(sets: &[u64], b: usize, id: BlockId, w: &mut Writer)
    requires { Lent (b + 1) sets.now × HasRoom w.old 70 }
    ensures { Puts w.old w.new 70 (set_record id (row_of sets.now b)) }
{
    w.number(2, SE);
    w.number(4, u64::from(id.0));
    put_row(sets, b, w);
}

// All blocks, in job order.
// Design: an array and a count, since `put_sheet` is named in docs/PROOFS.md, and its contract
// (`WritesSheet`) takes both.
fn put_blocks(sets: &[u64], ids: &[u32; 128], blocks: usize, w: &mut Writer)
    requires { (blocks ≤ 128) × Lent blocks sets.now × HasRoom w.old (70 * 128) }
    ensures { Puts w.old w.new (70 * blocks) (set_records ids.now sets.now 0 blocks) }
{
    for (b, id) in ids[..blocks].iter().enumerate() {
        put_block(sets, b, BlockId(*id), w);
    }
}

// The head; at its end how many nodes were there before the first round.
fn put_head(w: &mut Writer, nodes: usize, blocks: usize, run: RoundsRun, nodes_before: usize)
    requires { HasRoom w.old 10 }
    ensures { Puts w.old w.new 10 (sheet_head nodes blocks run.rounds run.settled nodes_before) }
{
    w.number(2, SH);
    w.number(2, nodes as u64);
    w.number(2, blocks as u64);
    w.rounds(run);
    w.number(2, nodes_before as u64);
}

// The whole sheet, from the buffer's start on.
pub fn put_sheet(
    nodes: Nodes,
    sets: &[u64],
    ids: &[u32; 128],
    blocks: usize,
    run: RoundsRun,
    nodes_before: usize,
    out: &mut [u8],
) -> usize
    requires { (blocks ≤ 128) × Lent blocks sets.now × (least_buffer ≤ length out.old) }
    ensures { WritesSheet nodes.entry.words.now sets.now ids.now blocks run.rounds run.settled nodes_before
        out.old out.new result }
{
    let mut w = Writer { out, at: 0 };
    put_head(&mut w, nodes.count(), blocks, run, nodes_before);
    put_nodes(nodes, &mut w);
    put_blocks(sets, ids, blocks, &mut w);
    w.at
}
