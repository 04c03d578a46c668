// Replays the stored list of jobs (compare/stored), which comes on standard input, through all
// operations: what they write, or by which number they refuse, is to be what the Rust's harness
// stored, and the rest of the buffer is to be as it was.
#![tactic(auto)]

ghost use Rattle.std.specs.Prelude.{◌≡◌, ◌≤◌, true, length, IfOk, IfSome, OnErr};

use entries::Refusal;
use run::Program;
use std::io;
use std::io::Read;

// The operations of a record, in the list's order.
const PROGRAMS: [Program; 5] = [
    Program::Answer,
    Program::Sheet,
    Program::Thin,
    Program::StrictAnswer,
    Program::StrictSheet,
];

// Whether an operation did what the list says, and by which refusal it turned the job back.
#[derive(Clone, Copy)]
struct Compared {
    agrees: bool,
    refusal: Option<Refusal>,
}

// The next four bytes of the list, as a number; none at its end.
fn next_length(list: &mut impl Read) -> io::Result<Option<usize>> {
    let mut bytes = [0u8; 4];
    let got = run::read_full(list, &mut bytes)?;
    if got < 4 {
        return Ok(None);
    }
    Ok(Some(u32::from_le_bytes(bytes) as usize))
}

// Reads n bytes of the list, and answers whether they were there and had room. Where a read fails,
// of the space only the length is promised.
// Design: a bool, since the caller has n: an `Option` of it would say the same number again.
fn fill(list: &mut impl Read, space: &mut [u8], n: usize) -> io::Result<bool>
    ensures room { IfOk result (λ filled. (filled ≡ true) → (n ≤ length space.new)) }
    ensures err { OnErr result (length space.new ≡ length space.old) }
{
    if space.len() < n {
        return Ok(false);
    }
    let got = run::read_full(list, &mut space[..n])?;
    Ok(got == n)
}

// The next part of the list, a length and so many bytes, which are put at the buffer's start.
fn next_part(list: &mut impl Read, space: &mut [u8]) -> io::Result<Option<usize>>
    ensures fits { IfOk result (λ part. IfSome part (λ n. n ≤ length space.new)) }
    ensures err { OnErr result (length space.new ≡ length space.old) }
{
    let Some(n) = next_length(list)? else {
        return Ok(None);
    };
    let filled = fill(list, space, n)?;
    Ok(filled.then_some(n))
}

// Whether the buffer holds these bytes and is as it was after them.
// Design: `fold` and no `all`: a loop that goes to the end takes many bytes at once, as compiled,
// and nearly all of the 65,536 bytes are looked at in each comparison that agrees.
fn holds(out: &[u8], bytes: &[u8]) -> bool {
    out.strip_prefix(bytes).is_some_and(|rest| rest
        .iter()
        .fold(true, |same, b| same & (*b == 0xA5)))
}

// 65,536 bytes that no operation has written, for out buffers of all lengths in the list. The
// `ensures` gives only the length.
fn untouched() -> [u8; 65536]
    ensures { 65536 ≡ length result }
{
    [0xA5; 65536]
}

// The operation with an out buffer of the given length, beside what the list says; none where the
// list is no such list.
fn compare(program: Program, job: &[u8], room: usize, told: &[u8]) -> Option<Compared> {
    if 65536 < room {
        return None;
    }
    let mut out = untouched();
    let outcome = run::perform(program, job, &mut out[..room]);
    Some(match outcome {
        Ok(n) => Compared {
            agrees: n == told.len() && holds(&out, told),
            refusal: None,
        },
        Err(refusal) => Compared {
            agrees: told == [b'R', b'F', u8::from(refusal)].as_slice() && holds(&out, b""),
            refusal: Some(refusal),
        },
    })
}

// The operation beside the next part of the list.
fn compare_next(
    list: &mut impl Read,
    program: Program,
    job: &[u8],
    room: usize,
) -> io::Result<Option<Compared>> {
    let mut space = [0u8; 65536];
    let Some(n) = next_part(list, &mut space)? else {
        return Ok(None);
    };
    Ok(compare(program, job, room, &space[..n]))
}

// All operations on a job.
// Design: an array that is filled in turn, since a read may fail and end it, and nothing is on the
// heap to collect into.
fn compare_all(list: &mut impl Read, job: &[u8], room: usize) -> io::Result<Option<[Compared; 5]>> {
    let none = Compared {
        agrees: false,
        refusal: None,
    };
    let mut all = [none; 5];
    for (compared, program) in all.iter_mut().zip(PROGRAMS) {
        let Some(next) = compare_next(list, program, job, room)? else {
            return Ok(None);
        };
        *compared = next;
    }
    Ok(Some(all))
}

// The next record of the list: the length of an out buffer, a job, its answer, its sheet and its
// thin job, and its answer and its sheet by the strict propagation.
fn next_record(list: &mut impl Read) -> io::Result<Option<[Compared; 5]>> {
    let Some(room) = next_length(list)? else {
        return Ok(None);
    };
    let mut job = [0u8; 65536];
    let Some(n) = next_part(list, &mut job)? else {
        return Ok(None);
    };
    compare_all(list, &job[..n], room)
}

// How often an operation agreed; and of the records on which all did, how often it wrote, and how
// often it refused by each number.
#[derive(Clone, Copy)]
struct Tally {
    agreed: u64,
    written: u64,
    refused: [u64; 11],
}

// Design: refusals are counted by number in an array, since they are printed in that order.
impl Tally {
    const NOTHING: Tally = Tally {
        agreed: 0,
        written: 0,
        refused: [0; 11],
    };

    fn add(&mut self, compared: Compared, all: bool) {
        if compared.agrees {
            self.agreed = self.agreed.wrapping_add(1);
        }
        if all {
            match compared.refusal {
                None => self.written = self.written.wrapping_add(1),
                Some(refusal) => {
                    if let Some(n) = self.refused.get_mut(usize::from(u8::from(refusal))) {
                        *n = n.wrapping_add(1);
                    }
                }
            }
        }
    }
}

// The tally of each operation, and how many records had one that did not agree.
// Design: in the order of `PROGRAMS`, as a record's results are; with the program in each tally
// they would be zipped all the same.
#[derive(Clone, Copy)]
struct Tallies {
    operations: [Tally; 5],
    differed: u64,
}

// A proved loop has to end: the turns are more than the list has records.
fn replay(list: &mut impl Read) -> io::Result<Tallies> {
    let mut tallies = Tallies {
        operations: [Tally::NOTHING; 5],
        differed: 0,
    };
    for _ in 0..100000 {
        let Some(record) = next_record(list)? else {
            break;
        };
        let all = record.iter().all(|compared| compared.agrees);
        if !all {
            tallies.differed = tallies.differed.wrapping_add(1);
        }
        for (tally, compared) in tallies.operations.iter_mut().zip(record) {
            tally.add(compared, all);
        }
    }
    Ok(tallies)
}

fn line(rt: &impl Print, text: &str, n: u64) -> io::Result<()> {
    println!(rt; "{text}{n}")
}

// How many were written, and how many refused by each number.
// Design: no `Display`, since the words before each number are another operation's each time.
fn lines(rt: &impl Print, written: &str, refused: &str, tally: &Tally) -> io::Result<()> {
    line(rt, written, tally.written)?;
    for (number, n) in tally.refused.iter().enumerate().skip(1) {
        println!(rt; "{refused}{number}: {n}")?;
    }
    Ok(())
}

fn main(rt: HostRuntime) -> io::Result<()> {
    let mut list = rt.reader();
    let Tallies {
        operations: [answers, sheets, thin_jobs, strict_answers, strict_sheets],
        differed,
    } = replay(&mut list)?;
    line(&rt, "answers that agree: ", answers.agreed)?;
    line(&rt, "sheets that agree: ", sheets.agreed)?;
    line(&rt, "thin jobs that agree: ", thin_jobs.agreed)?;
    line(&rt, "strict answers that agree: ", strict_answers.agreed)?;
    line(&rt, "strict sheets that agree: ", strict_sheets.agreed)?;
    line(&rt, "records that differ: ", differed)?;
    lines(&rt, "agreed and written: ", "agreed on refusal ", &answers)?;
    lines(
        &rt,
        "thin jobs written: ",
        "thin jobs refused by ",
        &thin_jobs,
    )?;
    lines(
        &rt,
        "strict answers written: ",
        "strict answers refused by ",
        &strict_answers,
    )
}
