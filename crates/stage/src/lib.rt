// The operations on a job's bytes: its answer and its sheet, by the existing propagation or by the
// strict one, and its thin job, written into an out buffer, or the refusal.
#![tactic(auto)]

ghost use Rattle.std.specs.Prelude.{◌≡◌, ◌≤◌, ◌<◌, length, take, Some, IfOk, IfErr, OnOk};
ghost use Rattle.model.specs.ReadingBytes.{refused};
ghost use Rattle.std.specs.Coded.{Coded-set, coded_option};
ghost use Rattle.model.specs.Job.{HD, read_job};
ghost use Rattle.model.specs.Answer.{longest_job, span_width, least_buffer, answer_of, sheet_of, buffer_after, number_returned};
ghost use Rattle.model.specs.Thin.{thin_of};
ghost use Rattle.model.specs.Strict.{strict_answer_of, strict_sheet_of};
ghost use Rattle.model.specs.Stage.{start_of};
ghost use Rattle.job.specs.Kept.{block_places, block_numbers, blocks_of};
ghost use Rattle.assumed.specs.Start.{StartHeld};
ghost use Rattle.edges.specs.Fills.{Blank};
ghost use Rattle.propagation.specs.Rules.{rule_of};
ghost use Rattle.stage.specs.Jobs.{
  head_in,
  TurnedBack,
  WorkRoom,
  Standing,
  PropagatesJob,
  PutsAnswer,
  PutsJob,
  verdict_of,
  job_verdict,
  Meets,
  FitsNumber,
  outcome_number,
};

use entries::{Refusal, RoundsRun};
use graph::Graph;
use job::JobHead;
use propagation::Joining;
use registry::{Nodes, Registry};

// What is written of a job that is propagated.
// Design: an enum and no closure, since `perform` is public and its contract says by it what is
// written (`verdict_of`).
#[derive(Clone, Copy)]
pub enum Operation {
    Answer,
    Sheet,
}

// Up to so many blocks and candidates shorter arrays are lent, since clearing those for the most
// took a large part of a small job's time (docs/DECISIONS.md).
const FEW_BLOCKS: usize = 12;

const FEW_CANDIDATES: usize = 12;

// How long an out buffer is at least, for an answer or a sheet, and for a thin job.
const LEAST_OUT: usize = 24576;

const LEAST_THIN_OUT: usize = 32768;

// A job that was read: its bytes, what was kept of it, and of each block the number of its id and
// the place of its record.
#[derive(Drop)]
struct Accepted<'a> {
    s: &'a [u8],
    ids: &'a [u32; 128],
    places: &'a [usize; 128],
    head: JobHead,
    ghost short: { length s.now ≤ longest_job },
    ghost kept: { Some head ≡ head_in s.now (read_job HD span_width s.now) } by { Coded-set (coded_option head-code) _ _ },
    ghost long: { length ids.now ≡ 128 },
    ghost ids_are: { take head.blocks ids.now ≡ block_numbers s.now },
    ghost places_are: { take head.blocks places.now ≡ block_places s.now },
}

impl<'a> Accepted<'a> {
    // The job is read.
    fn open(
        s: &'a [u8],
        ids: &'a mut [u32; 128],
        places: &'a mut [usize; 128],
    ) -> Result<Accepted<'a>, Refusal>
        requires { length s.now ≤ longest_job }
        ensures ok { IfOk result (λ job. job.s ≡ s.entry) }
        ensures err { IfErr result (λ r. read_job HD span_width s.now ≡ refused r) }
    {
        let head = reader::read_job(s, ids, places)?;
        Ok(Accepted {
            s,
            ids,
            places,
            head,
        })
    }

    // The operation, with words of its own, fewer for few blocks and candidates.
    // Design: two arrays and one function over slices, as in `propagate`. As a const parameter the
    // two lengths would stand at two calls all the same, and all below would be compiled twice.
    fn perform(
        &self,
        joining: Joining,
        operation: Operation,
        out: &mut [u8],
    ) -> Result<usize, Refusal>
        requires { least_buffer ≤ length out.old }
        ensures { Meets (job_verdict (rule_of joining) operation self.now.s.now) result out.old out.new }
    {
        if self.head.blocks <= FEW_BLOCKS && self.head.candidates <= FEW_CANDIDATES {
            let mut few = [0u64; 205];
            return self.perform_in(joining, operation, &mut few, out);
        }
        let mut work = [0u64; 1089];
        self.perform_in(joining, operation, &mut work, out)
    }

    // The assumed paths are entered and the blocks propagated: refusal 9, or the operation's bytes.
    // `work` is for the blocks' sets, and then for the dependency tree.
    // Design: `least_buffer` and `WorkRoom` are clauses, since words and buffer are lent to each
    // method apart from the job, and each says what it leaves in them.
    fn perform_in(
        &self,
        joining: Joining,
        operation: Operation,
        work: &mut [u64],
        out: &mut [u8],
    ) -> Result<usize, Refusal>
        requires { (least_buffer ≤ length out.old) × WorkRoom self.now.head work.old }
        ensures { Meets (job_verdict (rule_of joining) operation self.now.s.now) result out.old out.new }
    {
        let mut registry = Registry::new();
        let made = assumed::enter_blocks(
            self.s,
            self.places,
            self.head.blocks,
            &mut registry,
            work,
        )?;
        let run = self.propagate(joining, &mut registry, work)?;
        let written = self.put(operation, &registry, work, made, run, out);
        Ok(written)
    }

    // The propagation, with bytes of its own for the graph, fewer for few blocks.
    fn propagate(
        &self,
        joining: Joining,
        registry: &mut Registry,
        sets: &mut [u64],
    ) -> Result<RoundsRun, Refusal>
        requires { StartHeld (start_of (blocks_of self.now.s.now)) self.now.head.blocks
            registry.old.words registry.old.optional.words sets.old }
        ensures { PropagatesJob (rule_of joining) self.now.s.now self.now.head.blocks result sets.new
            registry.new.words registry.new.optional.words }
    {
        if self.head.blocks <= FEW_BLOCKS {
            let mut few = [0u8; 3073];
            return self.propagate_in(joining, &mut few, registry, sets);
        }
        let mut graph = [0u8; 10497];
        self.propagate_in(joining, &mut graph, registry, sets)
    }

    // Fills the graph, in bytes that are 0, and propagates, from the assumed paths that were
    // entered.
    fn propagate_in(
        &self,
        joining: Joining,
        graph: &mut [u8],
        registry: &mut Registry,
        sets: &mut [u64],
    ) -> Result<RoundsRun, Refusal>
        requires { Blank self.now.head.blocks graph.old
            × StartHeld (start_of (blocks_of self.now.s.now)) self.now.head.blocks
            registry.old.words registry.old.optional.words sets.old }
        ensures { PropagatesJob (rule_of joining) self.now.s.now self.now.head.blocks result sets.new
            registry.new.words registry.new.optional.words }
    {
        edges::fill_graph(self.s, self.ids, self.places, self.head.blocks, graph);
        propagation::propagate_non_null(joining, Graph { bytes: graph }, sets, registry)
    }

    // The bytes of the operation, from the buffer's start on. What becomes of the sets is not said.
    fn put(
        &self,
        operation: Operation,
        registry: &Registry,
        sets: &mut [u64],
        nodes_before: usize,
        run: RoundsRun,
        out: &mut [u8],
    ) -> usize
        requires { Standing self.now.head.blocks sets.old registry.now.words
            × (least_buffer ≤ length out.old) × WorkRoom self.now.head sets.old }
        ensures { PutsJob operation self.now.s.now self.now.head sets.old registry.now.words nodes_before run out.old
            out.new result }
    {
        match operation {
            Operation::Answer => self.put_answer(registry, sets, run, out),
            Operation::Sheet => sheet_bytes::put_sheet(
                Nodes {
                    words: &registry.words,
                },
                sets,
                self.ids,
                self.head.blocks,
                run,
                nodes_before,
                out,
            ),
        }
    }

    // The answer of a job that was propagated: the scope block's set is found by the block's place.
    // It is copied, and the words of all sets are then lent for the dependency tree.
    fn put_answer(
        &self,
        registry: &Registry,
        sets: &mut [u64],
        run: RoundsRun,
        out: &mut [u8],
    ) -> usize
        requires { Standing self.now.head.blocks sets.old registry.now.words
            × (least_buffer ≤ length out.old) × WorkRoom self.now.head sets.old }
        ensures { PutsAnswer self.now.s.now self.now.head sets.old registry.now.words run out.old
            out.new result }
    {
        let ids = self.ids;
        let place = edges::place_of(&ids[..self.head.blocks], self.head.scope).unwrap();
        let set = rows::row(sets, place);
        answer_bytes::put_answer(
            sets,
            self.s,
            Nodes {
                words: &registry.words,
            },
            set,
            self.head.candidates_at,
            self.head.candidates,
            run,
            out,
        )
    }
}

// What each operation does first: a short buffer and a long job are refused.
// Design: apart from `Accepted::open`, so that no array is cleared for them.
fn within_lengths(least: usize, s: &[u8], out: &[u8]) -> Result<(), Refusal>
    ensures ok { OnOk result ((least ≤ length out.now) × (length s.now ≤ longest_job)) }
    ensures err { IfErr result (TurnedBack least s.now out.now) }
{
    if out.len() < least {
        return Err(Refusal::ShortBuffer);
    }
    if 32768 < s.len() {
        return Err(Refusal::LongJob);
    }
    Ok(())
}

// The operation on any bytes and any buffer, by the propagation of a joining rule.
pub fn perform(
    joining: Joining,
    operation: Operation,
    s: &[u8],
    out: &mut [u8],
) -> Result<usize, Refusal>
    ensures { Meets (verdict_of (rule_of joining) operation s.now out.old) result out.old
        out.new }
{
    within_lengths(LEAST_OUT, s, out)?;
    let mut ids = [0u32; 128];
    let mut places = [0usize; 128];
    let job = Accepted::open(s, &mut ids, &mut places)?;
    job.perform(joining, operation, out)
}

// Design: four functions beside `perform`, since docs/PROOFS.md names each, and each contract is
// the model's own verdict (`answer_of`, `sheet_of`, `strict_answer_of`, `strict_sheet_of`).
// The answer of a job, in the out buffer, or the refusal.
#[tactic(auto, unfolding(crate::specs::Jobs::verdict_of, model::specs::Answer::answer_of))]
pub fn answer(s: &[u8], out: &mut [u8]) -> Result<usize, Refusal>
    ensures { Meets (answer_of s.now out.old) result out.old out.new }
{
    perform(Joining::DoneNeighbours, Operation::Answer, s, out)
}

// The sheet of a job, in the out buffer, or the refusal.
#[tactic(auto, unfolding(crate::specs::Jobs::verdict_of, model::specs::Answer::sheet_of))]
pub fn sheet(s: &[u8], out: &mut [u8]) -> Result<usize, Refusal>
    ensures { Meets (sheet_of s.now out.old) result out.old out.new }
{
    perform(Joining::DoneNeighbours, Operation::Sheet, s, out)
}

// The answer of a job by the strict propagation, in the out buffer, or the refusal.
#[tactic(auto, unfolding(crate::specs::Jobs::verdict_of, model::specs::Strict::strict_answer_of))]
pub fn strict_answer(s: &[u8], out: &mut [u8]) -> Result<usize, Refusal>
    ensures { Meets (strict_answer_of s.now out.old) result out.old out.new }
{
    perform(Joining::StrictNeighbours, Operation::Answer, s, out)
}

// The sheet of a job by the strict propagation, in the out buffer, or the refusal.
#[tactic(auto, unfolding(crate::specs::Jobs::verdict_of, model::specs::Strict::strict_sheet_of))]
pub fn strict_sheet(s: &[u8], out: &mut [u8]) -> Result<usize, Refusal>
    ensures { Meets (strict_sheet_of s.now out.old) result out.old out.new }
{
    perform(Joining::StrictNeighbours, Operation::Sheet, s, out)
}

// The thin job of a job, in the out buffer, or the refusal. Nothing is propagated, so that 9 does
// not arise.
pub fn thin(s: &[u8], out: &mut [u8]) -> Result<usize, Refusal>
    ensures { Meets (thin_of s.now out.old) result out.old out.new }
{
    within_lengths(LEAST_THIN_OUT, s, out)?;
    let mut ids = [0u32; 128];
    let mut places = [0usize; 128];
    let job = Accepted::open(s, &mut ids, &mut places)?;
    Ok(thin_bytes::put_thin(s, job.head, out))
}

// Document 01's number: the length, or minus the refusal's number.
// Design: no `From`, since neither `Result` nor `i64` is a type of this repository.
fn number(outcome: Result<usize, Refusal>) -> i64
    requires { FitsNumber outcome }
    ensures { result ≡ outcome_number outcome }
{
    match outcome {
        Ok(length) => length as i64,
        Err(refusal) => -i64::from(u8::from(refusal)),
    }
}

// What the C interface returns and leaves: a slice is a pointer and a length. `stage_c` exports
// these under the same names; from a crate that other crates use nothing is exported.
// Design: five functions that differ in the operation, since C calls each by its name.

#[unsafe(no_mangle)]
pub extern "C" fn scope_deps_answer(job: &[u8], out: &mut [u8]) -> i64
    ensures { (result ≡ number_returned (answer_of job.now out.old)) ×
        (out.new ≡ buffer_after (answer_of job.now out.old) out.old) }
{
    number(answer(job, out))
}

#[unsafe(no_mangle)]
pub extern "C" fn scope_deps_sheet(job: &[u8], out: &mut [u8]) -> i64
    ensures { (result ≡ number_returned (sheet_of job.now out.old)) ×
        (out.new ≡ buffer_after (sheet_of job.now out.old) out.old) }
{
    number(sheet(job, out))
}

#[unsafe(no_mangle)]
pub extern "C" fn scope_deps_strict_answer(job: &[u8], out: &mut [u8]) -> i64
    ensures { (result ≡ number_returned (strict_answer_of job.now out.old)) ×
        (out.new ≡ buffer_after (strict_answer_of job.now out.old) out.old) }
{
    number(strict_answer(job, out))
}

#[unsafe(no_mangle)]
pub extern "C" fn scope_deps_strict_sheet(job: &[u8], out: &mut [u8]) -> i64
    ensures { (result ≡ number_returned (strict_sheet_of job.now out.old)) ×
        (out.new ≡ buffer_after (strict_sheet_of job.now out.old) out.old) }
{
    number(strict_sheet(job, out))
}

#[unsafe(no_mangle)]
pub extern "C" fn scope_deps_thin(job: &[u8], out: &mut [u8]) -> i64
    ensures { (result ≡ number_returned (thin_of job.now out.old)) ×
        (out.new ≡ buffer_after (thin_of job.now out.old) out.old) }
{
    number(thin(job, out))
}
