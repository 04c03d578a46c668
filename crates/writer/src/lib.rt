// Writes numbers, entries, heads of paths and copied bytes into a buffer, numbers lowest byte
// first, each behind the one before.
#![tactic(auto)]

ghost use Rattle.std.specs.Prelude.{length};
ghost use Rattle.model.specs.Answer.{number_bytes, step_bytes, entry_bytes, span_width};
ghost use Rattle.writer.specs.Writes.{HasRoom, Puts, path_head_bytes, rounds_bytes};

use entries::{DependencyPathEntry, IdentifierId, RoundsRun};

// A buffer, and the place in it at which the next bytes are written.
#[derive(Drop)]
pub struct Writer<'a> {
    pub out: &'a mut [u8],
    pub at: usize,
}

// Design: the room is a clause, and no fact in the type, since each method asks another.
impl<'a> Writer<'a> {
    // A number in so many bytes.
    pub fn number(&mut self, bytes: usize, x: u64)
        requires { HasRoom self.old bytes }
        ensures { Puts self.old self.new bytes (number_bytes bytes x) }
    {
        let end = self.at + bytes;
        let mut rest = x;
        for byte in &mut self.out[self.at..end] {
            *byte = (rest % 256) as u8;
            rest = rest / 256;
        }
        self.at = end;
    }

    // The bytes of a slice.
    // Design: a loop and no `copy_from_slice`, which calls `memmove`: the C interface calls nothing
    // from outside but `memset`.
    pub fn bytes(&mut self, s: &[u8])
        requires { HasRoom self.old (length s.now) }
        ensures { Puts self.old self.new (length s.now) s.now }
    {
        let end = self.at + s.len();
        let part = &mut self.out[self.at..end];
        for (i, byte) in s.iter().enumerate() {
            part[i] = *byte;
        }
        self.at = end;
    }

    // What stands of an entry before its span: optional, kind and value.
    pub fn step(&mut self, e: DependencyPathEntry)
        requires { HasRoom self.old 10 }
        ensures { Puts self.old self.new 10 (step_bytes e) }
    {
        self.number(1, u64::from(e.optional));
        self.number(1, u64::from(e.property.is_number()));
        self.number(8, e.property.value());
    }

    // A whole entry.
    pub fn entry(&mut self, e: DependencyPathEntry)
        requires { HasRoom self.old 14 }
        ensures { Puts self.old self.new 14 (entry_bytes span_width e) }
    {
        self.step(e);
        self.number(4, e.span);
    }

    // What stands before a path's entries, under a mark, and how many entries there are.
    // Design: no struct of these, since identifier and mark are of a path's root, and the span is
    // of its last position (`tree::put_path`).
    pub fn path_head(
        &mut self,
        mark: u16,
        identifier: IdentifierId,
        reactive: bool,
        span: u64,
        entries: usize,
    )
        requires { HasRoom self.old 12 }
        ensures { Puts self.old self.new 12 (path_head_bytes mark identifier reactive span entries) }
    {
        self.number(2, u64::from(mark));
        self.number(4, u64::from(identifier.0));
        self.number(1, u64::from(reactive));
        self.number(4, span);
        self.number(1, entries as u64);
    }

    // What an answer and a sheet say of the rounds.
    pub fn rounds(&mut self, run: RoundsRun)
        requires { HasRoom self.old 2 }
        ensures { Puts self.old self.new 2 (rounds_bytes run.rounds run.settled) }
    {
        self.number(1, u64::from(run.rounds));
        self.number(1, u64::from(run.settled));
    }
}
