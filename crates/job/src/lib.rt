// Reads the records of a job field by field, refusals 3 to 5 and 10: the header, the heads of
// blocks, raw reads and paths, entries, and what is passed over. What is kept of a whole job is
// declared here too, for those who read its records again.
#![tactic(auto)]

ghost use Rattle.std.specs.Prelude.{◌≡◌};
ghost use Rattle.model.specs.ReadingBytes.{read_many};
ghost use Rattle.model.specs.Job.{HD, read_block_id, read_entry, read_path_fields, read_path, read_raw_read, read_header};
ghost use Rattle.model.specs.Answer.{span_width};
ghost use Rattle.fields.specs.Answer.{got_value, got_place};
ghost use Rattle.job.specs.Passing.{passed, PassesMany};
ghost use Rattle.job.specs.Head.{read_path_head, read_instruction_and_range, read_scope_and_known, read_raw_head, read_block_head};
ghost use Rattle.job.specs.Answer.{got_header};
ghost use Rattle.job.specs.Kept.{after_header};

use entries::{BlockId, DependencyPathEntry, IdentifierId, PropertyLiteral, Refusal};
use fields::Read;

// A mark is the number that its two bytes make, the first lowest.
// Design: numbers and no enum, since `read_mark` and `read_path` are read at any number of two
// bytes.
pub const BL: u16 = 0x4C42;

pub const PA: u16 = 0x4150;

pub const RD: u16 = 0x4452;

pub const CA: u16 = 0x4143;

pub const HD: u16 = 0x4448;

// How many bytes an entry has: optional, kind, value and span.
pub const ENTRY_SIZE: usize = 14;

// What stands before a path's entries, and how many there are.
#[derive(Clone, Copy)]
pub struct PathHead {
    pub identifier: IdentifierId,
    pub reactive: bool,
    pub span: u64,
    pub entries: u8,
}

// Of a raw read, the instruction at which the path is read, and the mutable range of its
// identifier.
#[derive(Clone, Copy)]
pub struct InstructionAndRange {
    pub instruction: u32,
    pub start: u32,
    pub end: u32,
}

// Of a raw read, the identifier's scope, and whether the identifier is known to be immutable.
// Design: a flag and two numbers, since `read_scope_and_known` and the model's `RawRead` keep both
// numbers also where the flag is 0.
#[derive(Clone, Copy)]
pub struct ScopeAndKnown {
    pub has_scope: bool,
    pub start: u32,
    pub end: u32,
    pub known_immutable: bool,
}

// What stands before the path of a raw read.
#[derive(Clone, Copy)]
pub struct RawHead {
    pub range: InstructionAndRange,
    pub scope: ScopeAndKnown,
}

// What stands before a block's predecessors, and how many predecessors, paths and raw reads there
// are.
#[derive(Clone, Copy)]
pub struct BlockHead {
    pub id: BlockId,
    pub predecessors: u8,
    pub assumed: u8,
    pub raw: u8,
}

// Design: apart from `JobHead`, which has the place of the candidates too: a header is read where
// that place is not known, and its answer is the model's header (`got_header`).
#[derive(Clone, Copy)]
pub struct Header {
    pub blocks: u16,
    pub candidates: u16,
    pub scope: BlockId,
}

// What is kept of a job that was read, beside the places of its blocks.
#[derive(Clone, Copy)]
pub struct JobHead {
    pub blocks: usize,
    pub candidates: usize,
    pub scope: BlockId,
    pub candidates_at: usize,
}

// The key of a tree's position: a root's is its identifier, a child's its property.
#[derive(Clone, Copy, PartialEq, Eq)]
pub enum Key {
    Identifier(IdentifierId),
    Property(PropertyLiteral),
}

// The place after a header that was looked for at `at`: a refusal leaves the reader where it
// stands.
pub fn place_after(header: Read<Header>, at: usize) -> usize
    ensures { result ≡ after_header header at }
{
    header.map_or(at, |(_, next)| next)
}

#[tactic(auto, unfolding(model::specs::Job::read_entry))]
pub fn entry_at(s: &[u8], at: usize) -> Read<DependencyPathEntry>
    ensures { got_value result ≡ read_entry span_width s.now at }
{
    let (optional, kind_at) = fields::flag_at(s, at)?;
    let (kind, value_at) = fields::flag_at(s, kind_at)?;
    let (value, span_at) = fields::number_at::<u64>(s, value_at)?;
    let (span, next) = fields::number_at::<u32>(s, span_at)?;
    let entry = DependencyPathEntry {
        property: PropertyLiteral::of(kind, value),
        optional,
        span: u64::from(span),
    };
    Ok((entry, next))
}

// Past `count` records of one form, each passed by `past`.
#[tactic(auto, using(crate::proofs::PassingMany::one_passed, crate::proofs::PassingMany::none_passed))]
fn past_many<F: Fn(usize) -> Result<usize, Refusal>>(
    start: usize,
    count: u16,
    past: F,
) -> Result<usize, Refusal>
    requires { F.IsAlwaysCallable past }
    ensures { PassesMany (F.post past) count start result }
{
    let mut at = start;
    for _ in 0..count {
        at = past(at)?;
    }
    Ok(at)
}

// Past `count` entries.
#[tactic(auto, using(crate::proofs::PassingMany::all_passed))]
pub fn past_entries(s: &[u8], start: usize, count: u8) -> Result<usize, Refusal>
    ensures { got_place result ≡ passed (read_many count (read_entry span_width) s.now start) }
{
    past_many(
        start,
        u16::from(count),
        |at| entry_at(s, at).map(|(_, next)| next),
    )
}

#[tactic(auto, unfolding(crate::specs::Head::read_path_head))]
pub fn path_head_at(s: &[u8], at: usize) -> Read<PathHead>
    ensures { got_value result ≡ read_path_head s.now at }
{
    let (identifier, reactive_at) = fields::number_at::<u32>(s, at)?;
    let (reactive, span_at) = fields::flag_at(s, reactive_at)?;
    let (span, entries_at) = fields::number_at::<u32>(s, span_at)?;
    let (entries, next) = fields::within::<u8>(s, entries_at, 0, 16)?;
    let head = PathHead {
        identifier: IdentifierId(identifier),
        reactive,
        span: u64::from(span),
        entries,
    };
    Ok((head, next))
}

// Past the fields of a path, from its identifier on.
#[tactic(auto, using(crate::proofs::Heads::fields_by_head, crate::proofs::Passing::passed_mapped))]
pub fn past_path_fields(s: &[u8], at: usize) -> Result<usize, Refusal>
    ensures { got_place result ≡ passed (read_path_fields span_width s.now at) }
{
    let (head, entries_at) = path_head_at(s, at)?;
    past_entries(s, entries_at, head.entries)
}

// Past a path under its mark.
#[tactic(auto, unfolding(model::specs::Job::read_path))]
pub fn past_path(s: &[u8], at: usize, mark: u16) -> Result<usize, Refusal>
    ensures { got_place result ≡ passed (read_path span_width mark s.now at) }
{
    past_path_fields(s, fields::mark_at(s, at, mark)?)
}

// Past `count` paths under one mark.
#[tactic(auto, using(crate::proofs::PassingMany::all_passed))]
pub fn past_paths(s: &[u8], start: usize, count: u16, mark: u16) -> Result<usize, Refusal>
    ensures { got_place result ≡ passed (read_many count (read_path span_width mark) s.now start) }
{
    past_many(start, count, |at| past_path(s, at, mark))
}

// A raw read's mark and the fields up to the end of its identifier's mutable range.
#[tactic(auto, unfolding(crate::specs::Head::read_instruction_and_range))]
fn instruction_and_range_at(s: &[u8], at: usize) -> Read<InstructionAndRange>
    ensures { got_value result ≡ read_instruction_and_range s.now at }
{
    let instruction_at = fields::mark_at(s, at, RD)?;
    let (instruction, start_at) = fields::number_at::<u32>(s, instruction_at)?;
    let (start, end_at) = fields::range_start_at(s, start_at)?;
    let (end, next) = fields::number_at::<u32>(s, end_at)?;
    let range = InstructionAndRange {
        instruction,
        start,
        end,
    };
    Ok((range, next))
}

// The fields behind them, up to the path's.
#[tactic(auto, unfolding(crate::specs::Head::read_scope_and_known))]
fn scope_and_known_at(s: &[u8], at: usize) -> Read<ScopeAndKnown>
    ensures { got_value result ≡ read_scope_and_known s.now at }
{
    let (has_scope, start_at) = fields::flag_at(s, at)?;
    let (start, end_at) = fields::number_at::<u32>(s, start_at)?;
    let (end, known_at) = fields::number_at::<u32>(s, end_at)?;
    let (known_immutable, next) = fields::flag_at(s, known_at)?;
    let scope = ScopeAndKnown {
        has_scope,
        start,
        end,
        known_immutable,
    };
    Ok((scope, next))
}

// A raw read up to its path's fields.
#[tactic(auto, unfolding(crate::specs::Head::read_raw_head))]
pub fn raw_head_at(s: &[u8], at: usize) -> Read<RawHead>
    ensures { got_value result ≡ read_raw_head s.now at }
{
    let (range, scope_at) = instruction_and_range_at(s, at)?;
    let (scope, next) = scope_and_known_at(s, scope_at)?;
    Ok((RawHead { range, scope }, next))
}

// Past a raw read.
#[tactic(auto, using(crate::proofs::Heads::raw_read_by_head, crate::proofs::Passing::passed_mapped))]
fn past_raw_read(s: &[u8], at: usize) -> Result<usize, Refusal>
    ensures { got_place result ≡ passed (read_raw_read span_width s.now at) }
{
    let (_, fields_at) = raw_head_at(s, at)?;
    past_path_fields(s, fields_at)
}

// Past `count` raw reads.
#[tactic(auto, using(crate::proofs::PassingMany::all_passed))]
pub fn past_raw_reads(s: &[u8], start: usize, count: u8) -> Result<usize, Refusal>
    ensures { got_place result ≡ passed (read_many count (read_raw_read span_width) s.now start) }
{
    past_many(start, u16::from(count), |at| past_raw_read(s, at))
}

// Past `count` block ids. Any four bytes are an id, so no byte is looked at.
#[tactic(auto, using(crate::proofs::IdFields::no_ids, crate::proofs::IdFields::ids_got, crate::proofs::IdFields::ids_missing))]
pub fn past_ids(s: &[u8], at: usize, count: u8) -> Result<usize, Refusal>
    ensures { got_place result ≡ passed (read_many count read_block_id s.now at) }
{
    if count == 0 {
        return Ok(at);
    }
    let bytes = 4 * usize::from(count);
    if fields::reaches(s, at, bytes) {
        Ok(at + bytes)
    } else {
        Err(Refusal::MissingByte)
    }
}

#[tactic(auto, unfolding(crate::specs::Head::read_block_head))]
pub fn block_head_at(s: &[u8], at: usize) -> Read<BlockHead>
    ensures { got_value result ≡ read_block_head s.now at }
{
    let id_at = fields::mark_at(s, at, BL)?;
    let (id, count_at) = fields::number_at::<u32>(s, id_at)?;
    let (predecessors, assumed_at) = fields::within::<u8>(s, count_at, 0, 64)?;
    let (assumed, raw_at) = fields::number_at::<u8>(s, assumed_at)?;
    let (raw, next) = fields::number_at::<u8>(s, raw_at)?;
    let head = BlockHead {
        id: BlockId(id),
        predecessors,
        assumed,
        raw,
    };
    Ok((head, next))
}

#[tactic(auto, unfolding(model::specs::Job::read_header))]
pub fn header_at(s: &[u8], at: usize) -> Read<Header>
    ensures { got_header result ≡ read_header HD s.now at }
{
    let blocks_at = fields::mark_at(s, at, HD)?;
    let (blocks, candidates_at) = fields::within::<u16>(s, blocks_at, 1, 128)?;
    let (candidates, scope_at) = fields::within::<u16>(s, candidates_at, 0, 64)?;
    let (scope, next) = fields::number_at::<u32>(s, scope_at)?;
    let header = Header {
        blocks,
        candidates,
        scope: BlockId(scope),
    };
    Ok((header, next))
}
