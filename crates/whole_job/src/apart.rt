// Refusals 7 and 8 ruled out by an index of the blocks' ids: it leads from each block's id, and
// from each predecessor within one block, to a block of its own. Where it does not, nothing is
// said.
ghost use Rattle.std.specs.Prelude.{◌≡◌, true, false, ◌≤◌, length};
ghost use Rattle.model.specs.Lists.{any_of};
ghost use Rattle.model.specs.ReadingBytes.{read_number};
ghost use Rattle.model.specs.Job.{repeats};
ghost use Rattle.job.specs.Passing.{notes, note_value};
ghost use Rattle.job.specs.Kept.{block_ids};
ghost use Rattle.whole_job.specs.Ids.{predecessors_at, repeats_at, any_unknown_at, repeated_in, unknown_in};
ghost use Rattle.whole_job.specs.Stamps.{BlockStamped, BlocksStamped};

use entries::BlockId;
use id_index::IdIndex;

// The index, and a stamp of each block.
#[derive(Drop)]
struct Stamps<'a> {
    index: IdIndex<'a>,
    stamps: [u8; 128],
}

impl<'a> Stamps<'a> {
    // Whether the index leads from an id to a block that has not this stamp; the block has it then.
    fn stamp_block(&mut self, id: u32, stamp: u8) -> bool
        ensures { result ≡ true → BlockStamped self.old self.new stamp id }
    {
        let Some(k) = self.index.place_of(id) else {
            return false;
        };
        if self.stamps[k] == stamp {
            return false;
        }
        self.stamps[k] = stamp;
        true
    }

    // Whether the index leads from each block's id to a block of its own that has not this stamp
    // before.
    fn ids_apart(&mut self, stamp: u8) -> bool
        ensures { result ≡ true → (self.new.index ≡ self.old.index)
            × (repeats (block_ids self.old.index.ids.now) ≡ false) }
    {
        for id in self.index.ids {
            if !self.stamp_block(*id, stamp) {
                return false;
            }
        }
        true
    }

    // The same from each of `count` ids, read from a place on.
    // Design: a loop that moves a place, as in `ids_into` and in `edges`. An iterator of the ids
    // would be a struct with the proof that its items are these `notes`, for two lines of each
    // loop.
    fn fields_apart(&mut self, s: &[u8], start: usize, count: u8, stamp: u8) -> bool
        ensures { result ≡ true → BlocksStamped self.old self.new stamp
            (notes note_value count (read_number 4) s.now start) }
    {
        let mut at = start;
        for _ in 0..count {
            let Ok((id, next)) = fields::number_at::<u32>(s, at) else {
                return false;
            };
            if !self.stamp_block(id, stamp) {
                return false;
            }
            at = next;
        }
        true
    }

    // The same from the predecessors of the block at a place.
    #[tactic(auto, unfolding(crate::specs::Ids::predecessors_at))]
    fn predecessors_apart(&mut self, s: &[u8], at: usize, stamp: u8) -> bool
        ensures { result ≡ true → BlocksStamped self.old self.new stamp (predecessors_at s.now at) }
    {
        let Ok((head, ids_at)) = job::block_head_at(s, at) else {
            return false;
        };
        self.fields_apart(s, ids_at, head.predecessors, stamp)
    }

    // The same from the predecessors of each block at one of these places. A block's stamp is its
    // number, so that those of the blocks before it need not be cleared.
    fn all_apart(&mut self, s: &[u8], places: &[usize]) -> bool
        requires { length places.now ≤ 128 }
        ensures { result ≡ true → (any_of (repeats_at s.now) places.now ≡ false)
            × (any_of (any_unknown_at s.now self.old.index.ids.now) places.now ≡ false) }
    {
        for (b, at) in places.iter().enumerate() {
            if !self.predecessors_apart(s, *at, b as u8) {
                return false;
            }
        }
        true
    }
}

// Whether an index says that neither 7 nor 8 applies to the blocks with these ids at these places.
pub fn neither_applies(s: &[u8], ids: &[u32], places: &[usize], scope: BlockId) -> bool
    ensures { result ≡ true → (repeated_in s.now ids.now places.now ≡ false)
        × (unknown_in s.now ids.now places.now scope ≡ false) }
{
    if 128 < ids.len() || 128 < places.len() {
        return false;
    }
    let mut stamps = Stamps {
        index: IdIndex::new(ids),
        stamps: [255; 128],
    };
    stamps.index.enter();
    if stamps.index.place_of(scope.0).is_none() {
        return false;
    }
    // No block has the number 128, so that this stamp is none of theirs.
    stamps.ids_apart(128) && stamps.all_apart(s, places)
}
