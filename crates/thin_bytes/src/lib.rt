// The thin job written straight from the job's bytes: a record that stays is copied, a path that an
// earlier one of its list equals is passed over, and a count is written once its list is. The job
// was read before, so that no record is refused here.
#![tactic(auto)]

ghost use Rattle.std.specs.Prelude.{◌-◌};
ghost use Rattle.writer.specs.Writes.{Puts};
ghost use Rattle.thin_bytes.specs.Thins.{
  SameEntries,
  SamePaths,
  PathBehind,
  Repeats,
  PathNext,
  ThinsPath,
  PathsThere,
  ThinsPaths,
  Recountable,
  recounted,
  BlockThere,
  ThinsBlock,
  BlocksThere,
  ThinsBlocks,
  JobThere,
  ThinsJob,
};

use job::{JobHead, PathHead};
use writer::Writer;

// The place after a list of paths, and how many of them stayed.
#[derive(Clone, Copy)]
pub struct PathsDone {
    pub from: usize,
    pub kept: u16,
}

// Whether `count` entries from one place on equal as many from another.
fn same_entries(s: &[u8], a: usize, b: usize, count: u8) -> bool
    ensures { SameEntries s.now a b count result }
{
    let mut at = a;
    let mut other_at = b;
    for _ in 0..count {
        let Ok((entry, next)) = job::entry_at(s, at) else {
            return false;
        };
        let Ok((other, other_next)) = job::entry_at(s, other_at) else {
            return false;
        };
        if !entry.same(other) {
            return false;
        }
        at = next;
        other_at = other_next;
    }
    true
}

// Whether two paths, given by their heads and the places of their entries, have the same identifier
// and equal entries.
fn same_path(s: &[u8], a: PathHead, a_at: usize, b: PathHead, b_at: usize) -> bool
    ensures { SamePaths s.now a a_at b b_at result }
{
    if a.identifier != b.identifier || a.entries != b.entries {
        return false;
    }
    same_entries(s, a_at, b_at, a.entries)
}

// Whether the path at a place equals one of the `earlier` paths, which stand from `first` up to it.
fn is_repeat(s: &[u8], first: usize, earlier: u16, at: usize) -> bool
    requires { PathBehind s.now first earlier at }
    ensures { Repeats s.now first earlier at result }
{
    let Ok((own, own_at)) = job::path_head_at(s, at + 2) else {
        return false;
    };
    let mut place = first;
    for _ in 0..earlier {
        let Ok((head, entries_at)) = job::path_head_at(s, place + 2) else {
            return false;
        };
        if same_path(s, own, own_at, head, entries_at) {
            return true;
        }
        place = entries_at + job::ENTRY_SIZE * usize::from(head.entries);
    }
    false
}

// One path more, behind `earlier` ones of its list that stand from `first` on: it is written unless
// it equals one of them. The job was read, so that it is there.
// Design: bytes, place of the list and writer are parameters, since the clauses (`PathNext`,
// `ThinsPath`, `ThinsPaths`) take each; the writer alone changes, and `first` is another per list.
fn thin_path(
    s: &[u8],
    first: usize,
    earlier: u16,
    mark: u16,
    w: &mut Writer,
    done: PathsDone,
) -> PathsDone
    requires { PathNext s.now first earlier mark w.old done }
    ensures { ThinsPath s.now first earlier mark w.old w.new done result }
{
    let from = done.from;
    let Ok(next) = job::past_path(s, from, mark) else {
        return done;
    };
    if is_repeat(s, first, earlier, from) {
        return PathsDone {
            from: next,
            kept: done.kept,
        };
    }
    w.bytes(&s[from..next]);
    PathsDone {
        from: next,
        kept: done.kept + 1,
    }
}

// The paths that stay of `count` paths under a mark.
fn thin_paths(s: &[u8], first: usize, count: u16, mark: u16, w: &mut Writer) -> PathsDone
    requires { PathsThere s.now mark first count w.old }
    ensures { ThinsPaths s.now mark first count w.old w.new result }
{
    let mut done = PathsDone {
        from: first,
        kept: 0,
    };
    for i in 0..count {
        done = thin_path(s, first, i, mark, w, done);
    }
    done
}

// The bytes of the job from one place up to another, with a number in the place of the count that
// stands among them.
fn put_recounted(
    w: &mut Writer,
    s: &[u8],
    from: usize,
    count_at: usize,
    bytes: usize,
    count: u64,
    until: usize,
)
    requires { Recountable s.now from count_at bytes until w.old }
    ensures { Puts w.old w.new (until - from) (recounted s.now from count_at bytes count until) }
{
    w.bytes(&s[from..count_at]);
    w.number(bytes, count);
    w.bytes(&s[count_at + bytes..until]);
}

// A block with the ready paths that stay. What stands before the paths, its raw reads among it, is
// written last, since it has their number. Says the place after the block.
fn thin_block(s: &[u8], at: usize, w: &mut Writer) -> usize
    requires { BlockThere s.now at w.old }
    ensures { ThinsBlock s.now at w.old w.new result }
{
    // A block that was read has its head, its ids and its reads, so none of these is refused.
    let Ok((head, ids_at)) = job::block_head_at(s, at) else {
        return at;
    };
    let Ok(reads_at) = job::past_ids(s, ids_at, head.predecessors) else {
        return at;
    };
    let Ok(paths_at) = job::past_raw_reads(s, reads_at, head.raw) else {
        return at;
    };
    let to = w.at;
    w.at = to + (paths_at - at);
    let paths = thin_paths(s, paths_at, u16::from(head.assumed), job::PA, w);
    let end = w.at;
    w.at = to;
    put_recounted(w, s, at, at + 7, 1, u64::from(paths.kept), paths_at);
    w.at = end;
    paths.from
}

// `count` blocks, one after the other. Says the place after them.
fn thin_blocks(s: &[u8], first: usize, count: usize, w: &mut Writer) -> usize
    requires { BlocksThere s.now first count w.old }
    ensures { ThinsBlocks s.now first count w.old w.new result }
{
    let mut at = first;
    for _ in 0..count {
        at = thin_block(s, at, w);
    }
    at
}

// The thin job, from the buffer's start on: how many bytes it has. The header is written last,
// since it has the number of candidates.
pub fn put_thin(s: &[u8], head: JobHead, out: &mut [u8]) -> usize
    requires { JobThere s.now head out.old }
    ensures { ThinsJob s.now out.old out.new result }
{
    let mut w = Writer { out, at: 10 };
    let candidates_at = thin_blocks(s, 10, head.blocks, &mut w);
    let candidates = thin_paths(s, candidates_at, head.candidates as u16, job::CA, &mut w);
    let end = w.at;
    w.at = 0;
    put_recounted(&mut w, s, 0, 4, 2, u64::from(candidates.kept), 10);
    end
}
