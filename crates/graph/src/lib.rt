// The graph of a job in lent bytes, read neighbour by neighbour. Byte 0 is how many blocks there
// are, byte 1 + b how many predecessors block b has, byte 129 + r the place of the block of rank r.
// The ranks of n blocks are 128 - n to 127, by ascending id. Of the 16 bytes from 257 + b * 16 on,
// bit r % 8 of byte r / 8 says that the block of rank r is a successor of block b. Of the 64 bytes
// from 2305 + b * 64 on, byte i is the place of predecessor i of block b. The graph of n blocks
// takes 2305 + n * 64 bytes.
// Design: a layout of bytes, and no struct of arrays: they are lent, and with as many rows of
// predecessors as there are blocks (`GraphFits`), which an array of one length would not be.
#![tactic(auto)]

ghost use Rattle.std.specs.Prelude.{◌≡◌, true, false, ◌≤◌, ◌<◌, length};
ghost use Rattle.graph.specs.Bytes.{size_in, neighbours, neighbours_from, GraphFits, Finds, HoldsBits, Lowest};
ghost use Rattle.std.specs.Iterator.{YieldsFirst, item_count};

// The graph that bytes hold.
#[derive(Clone, Copy)]
pub struct Graph<'a> {
    pub bytes: &'a [u8],
    ghost fits: { GraphFits bytes.now },
}

// The neighbours of a block in a direction that are still to come, those from a number on.
// Design: the direction is a `bool`, since the definitions `neighbours` and `Finds` take one.
#[derive(Clone, Copy)]
pub struct Neighbours<'a> {
    pub graph: Graph<'a>,
    pub backward: bool,
    pub block: usize,
    pub from: usize,
    ghost here: { block < size_in graph.bytes.now },
}

// How many blocks there are.
pub fn size(graph: &[u8]) -> usize
    requires { 0 < length graph.now }
    ensures { result ≡ size_in graph.now }
{
    usize::from(graph[0])
}

// Bit j says whether the block of rank 64 * half + j is a successor of block b. The eight bytes are
// loaded at once, as compiled.
fn successor_bits(graph: &[u8], b: usize, half: usize) -> u64
    requires { (b < 128) × (half < 2) × (2305 ≤ length graph.now) }
    ensures { HoldsBits graph.now b half result }
{
    let at = 257 + b * 16 + half * 8;
    u64::from_le_bytes([
        graph[at],
        graph[at + 1],
        graph[at + 2],
        graph[at + 3],
        graph[at + 4],
        graph[at + 5],
        graph[at + 6],
        graph[at + 7],
    ])
}

// The lowest set bit of a word from a bit on, where there is one.
// Design: not `NodeBits::next`, which searches eight words that are stored: these two are put
// together of bytes as they are met, and to make both first would load bytes for nothing.
fn lowest_bit(w: u64, from: usize) -> Option<usize>
    requires { from < 64 }
    ensures { Lowest w from result }
{
    let left = w >> from;
    if left == 0 {
        return None;
    }
    Some(from + u64::trailing_zeros(left) as usize)
}

impl<'a> Graph<'a> {
    // The next predecessor of a block, and from where on the one after it is looked for.
    fn next_predecessor(self, b: usize, from: usize) -> Option<(usize, usize)>
        requires { b < size_in self.bytes.now }
        ensures { Finds self.entry.bytes.now false b from result }
    {
        let degree = usize::from(self.bytes[1 + b]);
        if from < degree {
            let k = usize::from(self.bytes[2305 + b * 64 + from]);
            Some((k, from + 1))
        } else {
            None
        }
    }

    // The next successor, likewise. The blocks have the last ranks, so a search from below them
    // starts at the first. A word with no bit left is passed in one test.
    fn next_successor(self, b: usize, from: usize) -> Option<(usize, usize)>
        requires { b < size_in self.bytes.now }
        ensures { Finds self.entry.bytes.now true b from result }
    {
        let mut r = from.max(128 - size(self.bytes));
        for at in r / 64..2 {
            if let Some(bit) = lowest_bit(successor_bits(self.bytes, b, at), r % 64) {
                let rank = at * 64 + bit;
                let k = usize::from(self.bytes[129 + rank]);
                return Some((k, rank + 1));
            }
            r = at * 64 + 64;
        }
        None
    }

    // Forward the predecessors in job order, backward the successors by ascending id.
    pub fn next_neighbour(self, backward: bool, b: usize, from: usize) -> Option<(usize, usize)>
        requires { b < size_in self.bytes.now }
        ensures { Finds self.entry.bytes.now backward b from result }
    {
        if backward {
            self.next_successor(b, from)
        } else {
            self.next_predecessor(b, from)
        }
    }

    // All neighbours of a block.
    pub fn neighbours(self, backward: bool, block: usize) -> Neighbours<'a>
        requires { block < size_in self.bytes.now }
        ensures { neighbours_from result.graph.bytes.now result.backward result.block result.from
            ≡ neighbours self.entry.bytes.now backward block }
    {
        Neighbours {
            graph: self,
            backward,
            block,
            from: 0,
        }
    }
}

impl Iterator for Neighbours<'_> {
    type Item = usize;

    ghost next_gives = { YieldsFirst (λ s. neighbours_from s.graph.bytes.now s.backward s.block s.from) };

    ghost remaining = { item_count (λ s. neighbours_from s.graph.bytes.now s.backward s.block s.from) };

    fn next(&mut self) -> Option<usize> {
        let (k, next) = self
            .graph
            .next_neighbour(self.backward, self.block, self.from)?;
        self.from = next;
        Some(k)
    }
}
