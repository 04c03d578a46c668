// The programs `answer`, `sheet`, `strict_answer`, `strict_sheet` and `thin`, which differ in the
// operation only: a job on standard input, and on standard output what the operation writes, or RF
// and the number of the refusal.
#![tactic(auto)]

ghost use Rattle.std.specs.Prelude.{◌≡◌, ◌≤◌, ◌<◌, length, take, IfOk, OnOk, OnErr, IfSome};
ghost use Rattle.std.specs.Io.KnownBytes.{Consumes, Appends, IsAtEnd};
ghost use Rattle.stage.specs.Jobs.{Meets};
ghost use Rattle.run.specs.Fronts.{ConsumesFront, AppendsFront};
ghost use Rattle.run.specs.Programs.{program_of, operation_of, bytes_read, bytes_lent, Responds, GivesToWrite};

use entries::Refusal;
use std::io;
use std::io::{Read, Write};

// A program, by its operation.
// Design: an enum and no closure, since the contracts of `run` and `run_between`, which are public,
// say by it what is written: a closure's caller would have to show what `program_of` says.
#[derive(Clone, Copy)]
pub enum Program {
    Answer,
    Sheet,
    StrictAnswer,
    StrictSheet,
    Thin,
}

// The operation of a program.
pub fn perform(program: Program, s: &[u8], out: &mut [u8]) -> Result<usize, Refusal>
    ensures { Meets (operation_of program s.now out.old) result out.old out.new }
{
    match program {
        Program::Answer => stage::answer(s, out),
        Program::Sheet => stage::sheet(s, out),
        Program::StrictAnswer => stage::strict_answer(s, out),
        Program::StrictSheet => stage::strict_sheet(s, out),
        Program::Thin => stage::thin(s, out),
    }
}

// How many bytes at the buffer's start are to be written: the operation's, or RF and the refusal's
// number.
fn respond(program: Program, job: &[u8], out: &mut [u8]) -> usize
    requires { length out.old ≡ bytes_lent }
    ensures { Responds program job.now out.old out.new result }
{
    match perform(program, job, out) {
        Ok(length) => length,
        Err(refusal) => {
            // Design: three bytes that `replay` spells too, since a function for both would be
            // public, with a contract and an edit of its own, and no shorter.
            out[..3].copy_from_slice(&[b'R', b'F', u8::from(refusal)]);
            3
        }
    }
}

// Reads until the space is full, the input ends or a read fails, and returns how many bytes it put
// at the space's start. An error is the reader's own, and is returned at once. Where the reader's
// bytes are known, what it has lost by then stands at the space's start, too.
pub fn read_full<R: Read>(reader: &mut R, space: &mut [u8]) -> io::Result<usize>
    ensures room { IfOk result (λ n. n ≤ length space.new) }
    ensures bytes { IfOk result (λ n. Consumes (R.remaining reader.old) (R.remaining reader.new)
        (take n space.new)) }
    ensures end { IfOk result (λ n. n < length space.new → IsAtEnd (R.remaining reader.new)) }
    ensures err { OnErr result (ConsumesFront (R.remaining reader.old) (R.remaining reader.new)
        space.new) }
{
    // Design: a place and no `for`: each read says how far it moves, and the place is returned.
    let mut got = 0;
    while got < space.len() {
        let n = reader.read(&mut space[got..])?;
        if n == 0 {
            break;
        }
        got += n;
    }
    Ok(got)
}

// Writes all bytes, or stops at the first write that fails or takes nothing. Where the writer's
// bytes are known, it has got all of them, or after an error a beginning of them, or none. An error
// is the writer's own, or that it takes nothing.
pub fn write_full<W: Write>(writer: &mut W, bytes: &[u8]) -> io::Result<()>
    ensures all { OnOk result (Appends (W.contents writer.old) (W.contents writer.new) bytes.now) }
    ensures err { OnErr result (AppendsFront (W.contents writer.old) (W.contents writer.new)
        bytes.now) }
{
    // Design: a loop and no `write_all`, whose contract does not say what was written on an error,
    // as the clause `err` does.
    let mut rest = bytes;
    while !rest.is_empty() {
        let taken = writer.write(rest)?;
        if taken == 0 {
            return Err(io::ErrorKind::WriteZero.into());
        }
        rest = &rest[taken..];
    }
    Ok(())
}

// The program between a reader and a writer. Of a job longer than 65,536 bytes the rest is not
// read: the program writes the same of its first bytes (`first_bytes`). An error is that of
// `read_full` or of `write_full`. Where the bytes of both are known, the writer has then got a
// beginning of what the program writes, or nothing.
pub fn run_between<R: Read, W: Write>(
    program: Program,
    reader: &mut R,
    writer: &mut W,
) -> io::Result<usize>
    ensures size { IfOk result (GivesToWrite program) }
    ensures bytes { OnOk result (IfSome (R.remaining reader.old)
        (λ job. Appends (W.contents writer.old) (W.contents writer.new) (program_of program job))) }
    ensures err { OnErr result (IfSome (R.remaining reader.old)
        (λ job. AppendsFront (W.contents writer.old) (W.contents writer.new)
        (program_of program job))) }
{
    let mut space = [0u8; 65536];
    let got = read_full(reader, &mut space)?;
    let mut out = [0u8; 32768];
    let n = respond(program, &space[..got], &mut out);
    write_full(writer, &out[..n])?;
    Ok(n)
}

// The program, from standard input to standard output, of which no contract says what stands there:
// how many bytes were written is as many as the program writes of the job that was read. An error
// is that of `run_between`.
pub fn run(rt: &(impl Input + Print), program: Program) -> io::Result<usize>
    ensures { IfOk result (GivesToWrite program) }
{
    let mut reader = rt.reader();
    let mut writer = io::writer(rt);
    run_between(program, &mut reader, &mut writer)
}
