// Whether a raw read's path is kept, by what stands before it, whatever the path is:
// `is_immutable_at_instr` of the Rust, without a nested context.
ghost use Rattle.std.specs.Prelude.{◌≡◌};
ghost use Rattle.entries.specs.Path.{ReactiveScopeDependency};
ghost use Rattle.model.specs.RawReads.{in_range, mutable_at_instr, is_immutable_at_instr};
ghost use Rattle.job.specs.Head.{raw_read_of};

use job::RawHead;

// Start included, end not.
fn in_range(instruction: u32, start: u32, end: u32) -> bool
    ensures { result ≡ in_range instruction start end }
{
    start <= instruction && instruction < end
}

// The start is less than the largest number in a read that was accepted; in a wider number one more
// always fits.
fn mutable_at_instr(head: RawHead) -> bool
    ensures { (d : ReactiveScopeDependency) → result ≡ mutable_at_instr (raw_read_of head d) }
{
    let range = head.range;
    let scope = head.scope;
    u64::from(range.end) > u64::from(range.start) + 1
        && scope.has_scope
        && in_range(range.instruction, scope.start, scope.end)
}

pub fn is_immutable_at_instr(head: RawHead) -> bool
    ensures { (d : ReactiveScopeDependency) → result ≡ is_immutable_at_instr (raw_read_of head d) }
{
    !mutable_at_instr(head) || head.scope.known_immutable
}
