// The registry of property paths: nodes numbered from 0 as made, in words: three words a node, and
// the number of nodes behind them. A node is looked for among those of its bucket, of which there
// are 512. 128 more words say where each bucket's last node is, and a node's first word where the
// one before it is. A set of its own has the nodes with an optional entry, so that a reduction
// finds them at once.
#![tactic(auto)]

ghost use Rattle.std.specs.Prelude.{◌≡◌, ◌<◌, ◌+◌, ◌*◌, ◌%◌, ◌^◌, ◌++◌, ◌∷◌, [], length, eqb, ◌&&◌};
ghost use Rattle.model.specs.Registry.{get_or_create_identifier, get_or_create_property_entry};
ghost use Rattle.rows.specs.Members.{members_of};
ghost use Rattle.registry.specs.Nodes.{reached_for, Inside, optional_over, noted_with};
ghost use Rattle.registry.specs.Words.{
  value_in,
  span_in,
  key_in,
  ParentFits,
  reactive_unit,
  link_unit,
  unpack,
  bucket_by,
  Packed,
  NodesPacked,
  stored_node,
  key_at,
  value_at,
  quarter,
  end_in,
  count_in,
  nodes_of,
  registry_of,
};
ghost use Rattle.registry.specs.Props.{StandsAt-prop};
ghost use Rattle.std.proofs.Props.{props};
ghost use Rattle.registry.specs.Words.{HoldsRegistry, Sized, BucketsLinked, KeySought, Held, Arrives};

use entries::{DependencyPathEntry, IdentifierId, NodeId, PropertyLiteral, Refusal};
use rows::NodeBits;

// A node: a root with its identifier, reactive mark and span, or the child of a node by an entry.
#[derive(Clone, Copy)]
pub enum Node {
    Root(IdentifierId, bool, u64),
    Child(NodeId, DependencyPathEntry),
}

impl Node {
    // The most nodes that the words hold.
    pub const LIMIT: usize = 512;

    // What stands for the parent of a root.
    // Design: a number, as the sheet's format has it (`parent_number`).
    pub const ROOT: u64 = 65535;
}

// A node as three words, and back. The first word has the identifier (of a root) below the parent,
// and three marks above it, of which the second is worth two of the first and the third four. Above
// them stands the link to the node before it in its bucket.
// Design: packed words, and no array of `Node`, since the definitions `stored_node` and `unpack`,
// on which the registry's theorems and edits rest, read the node from words.
const PARENT: u64 = 4294967296;

const OPTIONAL: u64 = 281474976710656;

const NUMBER: u64 = 562949953421312;

const REACTIVE: u64 = 1125899906842624;

const LINK: u64 = 2251799813685248;

impl Node {
    fn head(self) -> u64
        requires { ParentFits self }
        ensures { (unpack result (value_in self) (span_in self) ≡ self) × (result < link_unit) × (result % reactive_unit ≡ key_in self) }
    {
        match self {
            Node::Root(identifier, reactive, _) => {
                let mark = u64::from(reactive);
                u64::from(identifier.0) + Node::ROOT * PARENT + mark * 4 * OPTIONAL
            }
            Node::Child(parent, entry) => {
                let property = entry.property;
                let number = u64::from(property.is_number());
                let optional = u64::from(entry.optional);
                parent.0 as u64 * PARENT + (optional + number * 2) * OPTIONAL
            }
        }
    }

    pub fn value(self) -> u64
        ensures { result ≡ value_in self }
    {
        match self {
            Node::Root(_, _, _) => 0,
            Node::Child(_, entry) => {
                let property = entry.property;
                property.value()
            }
        }
    }

    pub fn span(self) -> u64
        ensures { result ≡ span_in self }
    {
        match self {
            Node::Root(_, _, span) => span,
            Node::Child(_, entry) => entry.span,
        }
    }

    pub fn unpack(head: u64, value: u64, span: u64) -> Node
        ensures { result ≡ unpack head value span }
    {
        let parent = head / PARENT % 65536;
        if parent == Node::ROOT {
            let identifier = IdentifierId((head % PARENT) as u32);
            let reactive = head / REACTIVE % 2 == 1;
            Node::Root(identifier, reactive, span)
        } else {
            let property = PropertyLiteral::of(head / NUMBER % 2 == 1, value);
            let optional = head / OPTIONAL % 2 == 1;
            Node::Child(
                NodeId(parent as usize),
                DependencyPathEntry {
                    property,
                    optional,
                    span,
                },
            )
        }
    }
}

// The words.

// Design: `count` and `load` stand beside the methods of `Nodes`, since they ask less of the words.
pub fn count(ws: &[u64; 1665]) -> usize
    ensures { result ≡ count_in ws.now }
{
    ws[1536] as usize
}

pub fn load(ws: &[u64; 1665], k: NodeId) -> Node
    requires { k.0 < 512 }
    ensures { result ≡ stored_node ws.now k.0 }
{
    let at = k.0 * 3;
    Node::unpack(ws[at], ws[at + 1], ws[at + 2])
}

// The nodes that words hold, for those who only read them.
#[derive(Clone, Copy)]
pub struct Nodes<'a> {
    pub words: &'a [u64; 1665],
    pub ghost holds: { HoldsRegistry words.now } by { Prim.hlevel (props, StandsAt-prop) },
}

impl Nodes<'_> {
    pub fn count(self) -> usize
        ensures { result ≡ count_in self.entry.words.now }
    {
        count(self.words)
    }

    pub fn load(self, k: NodeId) -> Node
        requires { k.0 < 512 }
        ensures { result ≡ stored_node self.entry.words.now k.0 }
    {
        load(self.words, k)
    }
}

// The bucket in which a key and a value are looked for.
fn bucket(key: u64, value: u64) -> usize
    requires { key < reactive_unit }
    ensures { (result ≡ bucket_by key value) × (result < 512) }
{
    let sum = key % PARENT + value / PARENT + value % PARENT;
    ((key / PARENT * 21013597 + sum * 165902235) / 524288 % 512) as usize
}

// Where the words of the buckets start, each with the ends of four. An end is the number behind the
// last node of a bucket, and 0 where there is none.
const ENDS: usize = 1537;

// The end of bucket b.
fn end_of(ws: &[u64; 1665], b: usize) -> u64
    requires { b < 512 }
    ensures { result ≡ end_in ws.now b }
{
    (ws[ENDS + b / 4] >> (b % 4 * 16)) % 65536
}

// A word of ends with quarter i raised.
fn raise(ends: u64, i: usize, rise: u64) -> u64
    requires { (i < 4) × (quarter ends i + rise < 65536) }
    ensures { result ≡ ends + rise * 2 ^ (i * 16) }
{
    ends + (rise << (i * 16))
}

// One node more in these words, which is the last of its bucket b.
// Design: a node's three words apart, as `Packed` has them; `Node` is what they stand for.
fn push(ws: &mut [u64; 1665], b: usize, head: u64, value: u64, span: u64)
    requires { Sized ws.old × BucketsLinked ws.old × NodesPacked ws.old × (count_in ws.old < 512)
        × Packed head value span × (head < link_unit) × (b ≡ bucket_by (head % reactive_unit) value) × (b < 512) }
    ensures { Sized ws.new × BucketsLinked ws.new × NodesPacked ws.new
        × (nodes_of ws.new ≡ nodes_of ws.old ++ (unpack head value span ∷ [])) }
{
    let k = ws[1536];
    let more = k + 1;
    let at = k as usize * 3;
    let link = end_of(ws, b);
    let end = ENDS + b / 4;
    let ends = raise(ws[end], b % 4, more - link);
    ws[at] = head + link * LINK;
    ws[at + 1] = value;
    ws[at + 2] = span;
    ws[end] = ends;
    ws[1536] = more;
}

// Node k has this key and value.
fn has_key(ws: &[u64; 1665], k: usize, key: u64, value: u64) -> bool
    requires { k < 512 }
    ensures { result ≡ eqb (key_at ws.now k) key && eqb (value_at ws.now k) value }
{
    let at = k * 3;
    ws[at] % REACTIVE == key && ws[at + 1] == value
}

// The node with this key and value, where there is one. They occur once, so that the search may go
// from the last node of the bucket to the first, along the links.
// Design: ends and links are numbers, 0 for none, since they share words with others (fixed
// memory).
fn find(ws: &[u64; 1665], b: usize, key: u64, value: u64) -> Option<NodeId>
    requires { Sized ws.now × BucketsLinked ws.now × (b ≡ bucket_by key value) × (b < 512) }
    ensures { KeySought ws.now key value result }
{
    let mut end = end_of(ws, b) as usize;
    while 0 < end {
        let k = end - 1;
        if has_key(ws, k, key, value) {
            return Some(NodeId(k));
        }
        end = (ws[k * 3] / LINK) as usize;
    }
    None
}

// Whether a node with this first word has an optional entry: its own, or one of its parent's path.
fn has_optional(head: u64, optional: &NodeBits) -> bool
    requires { Inside (unpack head 0 0) 512 }
    ensures { result ≡ optional_over (members_of optional.now.words) (unpack head 0 0) }
{
    let parent = head / PARENT % 65536;
    if parent == Node::ROOT {
        return false;
    }
    if head / OPTIONAL % 2 == 1 {
        return true;
    }
    optional.contains(NodeId(parent as usize))
}

// Node k, which has this first word, joins the set where it has an optional entry.
fn note(optional: &mut NodeBits, head: u64, k: NodeId)
    requires { Inside (unpack head 0 0) 512 × (k.0 < 512) }
    ensures { members_of optional.new.words ≡ noted_with (members_of optional.old.words) (unpack head 0 0) k }
{
    if has_optional(head, optional) {
        optional.insert(k);
    }
}

// The registry: its words, and the set of its nodes with an optional entry.
// Design: an array of one length, and no list of nodes that grows: the stage has no heap, and 512
// nodes are all that it has room for (fixed memory).
#[derive(Drop)]
pub struct Registry {
    pub words: [u64; 1665],
    pub optional: NodeBits,
    pub ghost held: { Held words optional.words } by { Prim.hlevel (props, StandsAt-prop) },
}

impl Registry {
    // With no node.
    pub fn new() -> Registry
        ensures { registry_of result.words ≡ [] }
    {
        Registry {
            words: [0; 1665],
            optional: NodeBits::empty(),
        }
    }

    // The node with the key and value of these words, made where there is none, and how many nodes
    // were made for it, 1 or 0.
    // Design: a number, since the model's `made` is a sum of them.
    fn find_or_make(&mut self, head: u64, value: u64, span: u64) -> Result<(NodeId, usize), Refusal>
        requires { Packed head value span × (head < link_unit) × Inside (unpack head value span) (count_in self.old.words) }
        ensures { Arrives (reached_for (registry_of self.old.words) (unpack head value span)) result self.new.words
            self.new.optional.words }
    {
        let key = head % REACTIVE;
        let b = bucket(key, value);
        if let Some(k) = find(&self.words, b, key, value) {
            return Ok((k, 0));
        }
        let end = count(&self.words);
        if end < Node::LIMIT {
            push(&mut self.words, b, head, value, span);
            note(&mut self.optional, head, NodeId(end));
            Ok((NodeId(end), 1))
        } else {
            Err(Refusal::ManyNodes)
        }
    }

    // The root for an identifier.
    // Design: two functions, as in the Rust, which differ in the node that they ask for.
    pub fn get_or_create_identifier(
        &mut self,
        identifier: IdentifierId,
        reactive: bool,
        span: u64,
    ) -> Result<(NodeId, usize), Refusal>
        ensures { Arrives (get_or_create_identifier (registry_of self.old.words) identifier reactive span) result
            self.new.words self.new.optional.words }
    {
        let n = Node::Root(identifier, reactive, span);
        self.find_or_make(n.head(), n.value(), n.span())
    }

    // The child of a node by an entry.
    pub fn get_or_create_property_entry(
        &mut self,
        parent: NodeId,
        entry: DependencyPathEntry,
    ) -> Result<(NodeId, usize), Refusal>
        requires { parent.0 < count_in self.old.words }
        ensures { Arrives (get_or_create_property_entry (registry_of self.old.words) parent entry) result
            self.new.words self.new.optional.words }
    {
        let n = Node::Child(parent, entry);
        self.find_or_make(n.head(), n.value(), n.span())
    }
}
