// Blocks found by the buckets of their ids. An index has 256 bytes: byte h, below 128, is the place
// of the last block whose id is h modulo 128, and byte 128 + k is what that byte was before block k
// was entered. A byte that is no block's place says that there is none. No fact about the bytes is
// needed: what they lead to is looked at.
#![tactic(auto)]

ghost use Rattle.std.specs.Prelude.{◌≡◌, ◌≤◌, length};
ghost use Rattle.id_index.specs.Index.{block_by};

// The ids of blocks, and an index of them.
// Design: the bytes stay numbers, and no `Option<u8>`, since `place_by` reads them as numbers.
#[derive(Drop)]
pub struct IdIndex<'a> {
    pub ids: &'a [u32],
    pub bytes: [u8; 256],
    pub ghost few: { length ids.now ≤ 128 },
}

impl<'a> IdIndex<'a> {
    // An index of these ids that leads to none yet.
    // Design: apart from `enter`: an index that is returned when its bytes are filled is moved by
    // `memcpy`, and the C interface calls nothing from outside but `memset`.
    pub fn new(ids: &'a [u32]) -> IdIndex<'a>
        requires { length ids.now ≤ 128 }
        ensures { result.ids ≡ ids.entry }
    {
        IdIndex {
            ids,
            bytes: [255; 256],
        }
    }

    // The ids are entered, one after the other.
    pub fn enter(&mut self)
        ensures { self.new.ids ≡ self.old.ids }
    {
        for (k, id) in self.ids.iter().enumerate() {
            let bucket = (*id % 128) as usize;
            self.bytes[128 + k] = self.bytes[bucket];
            self.bytes[bucket] = k as u8;
        }
    }

    // The place of the block with an id to which the index leads.
    pub fn place_of(&self, id: u32) -> Option<usize>
        ensures { result ≡ block_by self.now.ids.now self.now.bytes id }
    {
        let mut k = usize::from(self.bytes[(id % 128) as usize]);
        for _ in 0..self.ids.len() {
            if *self.ids.get(k)? == id {
                return Some(k);
            }
            k = usize::from(self.bytes[128 + k]);
        }
        None
    }
}
