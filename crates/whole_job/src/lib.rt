// Reads the whole job behind its header: the blocks, whose ids and places are noted, and the
// candidates, refusals 3 to 6 and 10 in one pass over the bytes; then 7 and 8, by the blocks' ids,
// and by their predecessors, read again at the blocks' places.
#![tactic(auto)]

ghost use Rattle.std.specs.Prelude.{◌≡◌, ◌≤◌};
ghost use Rattle.std.proofs.lemmas.List.Edits.{sets};
ghost use Rattle.model.specs.ReadingBytes.{read_many, mapped};
ghost use Rattle.model.specs.Job.{HD, Block, read_block, read_records};
ghost use Rattle.model.specs.Answer.{span_width};
ghost use Rattle.fields.specs.Answer.{got_value, got_place};
ghost use Rattle.job.specs.Passing.{passed, notes};
ghost use Rattle.job.specs.Kept.{note_place, note_number, block_places, block_numbers, kept_of, BehindHeader};
ghost use Rattle.whole_job.specs.Reads.{ReadsJob};

use entries::{BlockId, Refusal};
use fields::Read;
use job::{Header, JobHead};

mod apart;
mod ids;

// The id of a block, of whose head nothing else is asked, and the place after its paths.
#[tactic(auto, using(crate::proofs::Blocks::id_is))]
fn block_at(s: &[u8], at: usize) -> Read<BlockId>
    ensures { got_value result ≡ mapped (λ (b : Block). b.id) (read_block span_width s.now at) }
{
    let (head, ids_at) = job::block_head_at(s, at)?;
    let reads_at = job::past_ids(s, ids_at, head.predecessors)?;
    let paths_at = job::past_raw_reads(s, reads_at, head.raw)?;
    let next = job::past_paths(s, paths_at, u16::from(head.assumed), job::PA)?;
    Ok((head.id, next))
}

// Past `count` blocks, whose ids and places are noted.
// Design: arrays of 128, since memory is fixed; and no struct of both, which would be taken apart
// again: `assumed` reads the places alone, `sheet_bytes` the ids alone.
fn note_blocks(
    s: &[u8],
    start: usize,
    count: u16,
    ids: &mut [u32; 128],
    places: &mut [usize; 128],
) -> Result<usize, Refusal>
    requires { count ≤ 128 }
    ensures result_value { got_place result ≡ passed (read_many count (read_block span_width) s.now start) }
    ensures ids_after { ids.new
        ≡ sets ids.old 0 (notes note_number count (read_block span_width) s.now start) }
    ensures places_after { places.new
        ≡ sets places.old 0 (notes note_place count (read_block span_width) s.now start) }
{
    let mut at = start;
    for k in 0..usize::from(count) {
        let (id, next) = block_at(s, at)?;
        ids[k] = id.0;
        places[k] = at;
        at = next;
    }
    Ok(at)
}

// The records behind the header, as far as refusal 6, the ids and the places of the blocks being
// noted.
#[tactic(auto, unfolding(job::specs::Kept::block_notes))]
fn records_at(
    s: &[u8],
    at: usize,
    header: Read<Header>,
    ids: &mut [u32; 128],
    places: &mut [usize; 128],
) -> Result<JobHead, Refusal>
    requires { BehindHeader s.now at header }
    ensures value { result ≡ kept_of s.now (read_records HD span_width s.now) }
    ensures ids_after { ids.new ≡ sets ids.old 0 (block_numbers s.now) }
    ensures places_after { places.new ≡ sets places.old 0 (block_places s.now) }
{
    let (head, _) = header?;
    let candidates_at = note_blocks(s, at, head.blocks, ids, places)?;
    let next = job::past_paths(s, candidates_at, head.candidates, job::CA)?;
    if next != s.len() {
        return Err(Refusal::ExtraByte);
    }
    Ok(JobHead {
        blocks: usize::from(head.blocks),
        candidates: usize::from(head.candidates),
        scope: head.scope,
        candidates_at,
    })
}

// The job from the place behind its header on, or its refusal. The id of each block and the place
// of its record are noted.
pub fn rest_at(
    s: &[u8],
    at: usize,
    header: Read<Header>,
    ids: &mut [u32; 128],
    places: &mut [usize; 128],
) -> Result<JobHead, Refusal>
    requires { BehindHeader s.now at header }
    ensures { ReadsJob s.now result ids.old ids.new places.old places.new }
{
    let head = records_at(s, at, header, ids, places)?;
    ids::checked_by(s, ids, places, head)
}
