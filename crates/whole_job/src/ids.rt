// Refusals 7 and 8: the ids of the blocks among each other, and the predecessors of each block,
// read again at its place.
ghost use Rattle.std.specs.Prelude.{◌≡◌, ◌≤◌, ℕ, Bool, List, length, take};
ghost use Rattle.std.specs.Fn.{FnReturnsAt};
ghost use Rattle.std.proofs.lemmas.List.Edits.{sets};
ghost use Rattle.model.specs.Lists.{any_of};
ghost use Rattle.model.specs.ReadingBytes.{read_many, read_number};
ghost use Rattle.model.specs.Job.{read_block_id, read_block, repeats};
ghost use Rattle.model.specs.Answer.{span_width};
ghost use Rattle.job.specs.Passing.{IsRead, notes, note_value};
ghost use Rattle.job.specs.Kept.{block_ids};
ghost use Rattle.whole_job.specs.Ids.{BlocksRead, predecessors_at, any_unknown};
ghost use Rattle.whole_job.specs.Ids.{repeated_in, unknown_in, checked_by};

use entries::{BlockId, Refusal};
use job::JobHead;

// Whether an id stands twice.
#[tactic(auto, using(crate::proofs::IdLists::repeats_here, crate::proofs::IdLists::repeats_next))]
fn repeat_in(ids: &[u32]) -> bool
    ensures { result ≡ repeats (block_ids ids.now) }
{
    for (i, id) in ids.iter().enumerate() {
        if ids[i + 1..].contains(id) {
            return true;
        }
    }
    false
}

// Whether an id is none of the known ones.
fn unknown_in(ids: &[u32], known: &[u32]) -> bool
    ensures { result ≡ any_unknown (block_ids known.now) (block_ids ids.now) }
{
    ids.iter().any(|id| !known.contains(id))
}

// `count` ids from a place on, which were read before, stored.
// Design: an array of the most ids with a count, since memory is fixed; and a place that moves,
// since the clause speaks of the notes of `read_many`, which moves it.
// Design: no `unwrap`, with which the compiled loop is a `memcpy`: the C interface calls nothing
// from outside but `memset`.
fn ids_into(s: &[u8], start: usize, count: u8, out: &mut [u32; 64])
    requires { (count ≤ 64) × IsRead (read_many count read_block_id s.now start) }
    ensures { out.new ≡ sets out.old 0 (notes note_value count (read_number 4) s.now start) }
{
    let mut at = start;
    for i in 0..count {
        let Ok((id, next)) = fields::number_at::<u32>(s, at) else {
            return;
        };
        out[usize::from(i)] = id;
        at = next;
    }
}

// The predecessors of the block at a place, which was read before, stored.
fn predecessors_at<'a>(s: &[u8], at: usize, out: &'a mut [u32; 64]) -> &'a [u32]
    requires { IsRead (read_block span_width s.now at) }
    ensures { result.now ≡ predecessors_at s.now at }
{
    let (head, ids_at) = job::block_head_at(s, at).unwrap();
    ids_into(s, ids_at, head.predecessors, out);
    &out[..usize::from(head.predecessors)]
}

// Whether the predecessors of a block at one of these places pass a test.
// Design: `BlocksRead` is a clause, since it is said in this file alone, of bytes and cut places,
// and `checked_by` would have to build a type for both from this same clause.
fn any_block<F: Fn(&[u32]) -> bool>(s: &[u8], places: &[usize], test: F) -> bool
    ghost passes: { List ℕ → Bool }
    requires callable { F.IsAlwaysCallable test }
    requires computes { (ids : List ℕ) (r : Bool) → FnReturnsAt F.Fn test ids r → r ≡ passes ids }
    requires read { BlocksRead s.now places.now }
    ensures { result ≡ any_of (λ at. passes (predecessors_at s.now at)) places.now }
{
    for at in places {
        let mut out = [0; 64];
        if test(predecessors_at(s, *at, &mut out)) {
            return true;
        }
    }
    false
}

// Refusal 7, of the blocks with these ids at these places.
fn repeated(s: &[u8], ids: &[u32], places: &[usize]) -> bool
    requires { BlocksRead s.now places.now }
    ensures { result ≡ repeated_in s.now ids.now places.now }
{
    repeat_in(ids) || any_block(s, places, |predecessors| repeat_in(predecessors))
}

// Refusal 8, of the same.
fn unknown(s: &[u8], ids: &[u32], places: &[usize], scope: BlockId) -> bool
    requires { BlocksRead s.now places.now }
    ensures { result ≡ unknown_in s.now ids.now places.now scope }
{
    any_block(s, places, |predecessors| unknown_in(predecessors, ids)) || !ids.contains(&scope.0)
}

// The answer for a job whose records were read, by the ids and the places of its blocks. Ids are
// compared with each other only where an index of them does not rule both refusals out.
#[tactic(auto, unfolding(crate::specs::Ids::checked_by))]
pub fn checked_by(
    s: &[u8],
    ids: &[u32],
    places: &[usize],
    head: JobHead,
) -> Result<JobHead, Refusal>
    requires { (head.blocks ≤ length ids.now) × (head.blocks ≤ length places.now)
        × BlocksRead s.now (take head.blocks places.now) }
    ensures { result
        ≡ checked_by s.now (take head.blocks ids.now) (take head.blocks places.now) head }
{
    let n = head.blocks;
    let known = &ids[..n];
    let noted = &places[..n];
    let scope = head.scope;
    if crate::apart::neither_applies(s, known, noted, scope) {
        return Ok(head);
    }
    if repeated(s, known, noted) {
        return Err(Refusal::RepeatedId);
    }
    if unknown(s, known, noted, scope) {
        return Err(Refusal::UnknownBlock);
    }
    Ok(head)
}
