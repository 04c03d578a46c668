// The fields of a job: numbers of one to eight bytes, starts of ranges, flags and marks, each read
// as a value and the place after it, or a refusal.
#![tactic(auto)]

ghost use Rattle.std.specs.Prelude.{◌≡◌, ◌+◌, ◌≤◌, ℕ, List, leb, length};
ghost use Rattle.model.specs.ReadingBytes.{ByteReader, read_number, read_mark, read_within, read_flag};
ghost use Rattle.model.specs.Job.{read_range_start};
ghost use Rattle.fields.specs.Number.{number_at, ReadsAll, RefusesShort, ReadsWithin};
ghost use Rattle.fields.specs.Laws.{number_got, number_missing, number_within};
ghost use Rattle.fields.specs.Answer.{got_value, got_place};

use entries::Refusal;

// A value and the place after it, or the refusal.
// Design: bytes and place stay two parameters. The definitions read at both (`ByteReader`), and the
// later steps read at places that were noted, so a struct of both would be made anew at each call.
pub type Read<T> = Result<(T, usize), Refusal>;

// The unsigned numbers of a job. Each says how many bytes it has there, and what they make.
pub trait Number: Copy + PartialOrd {
    ghost BYTES: { ℕ };

    const BYTES: usize;

    ghost made: { List ℕ → ℕ → Self };

    // The reading of a field, and of one that has to lie within a range.
    ghost read: { ByteReader Self };

    ghost within: { Self → Self → ByteReader Self };

    fn from_bytes(s: &[u8], at: usize) -> Self
        requires { at + BYTES ≤ length s.now }
        ensures { result ≡ made s.now at };

    // A field is what its bytes make, a short one is refused, and a range is tested last.
    ghost reads_all: { ReadsAll BYTES made read };

    ghost refuses_short: { RefusesShort BYTES read };

    ghost reads_within: { ReadsWithin Self.partial_cmp read within };
}

// Design: four impls that differ in a type and in numbers, since `rt ci` refuses an impl that a
// macro writes.
impl Number for u8 {
    ghost BYTES = { 1 };

    const BYTES: usize = 1;

    ghost made = { number_at 1 };

    ghost read = { read_number 1 };

    ghost within = { λ least most. read_within least most (read_number 1) };

    ghost reads_all = { number_got 1 };

    ghost refuses_short = { number_missing 0 };

    ghost reads_within = { number_within (read_number 1) };

    #[tactic(auto, using(crate::specs::Laws::one_byte))]
    fn from_bytes(s: &[u8], at: usize) -> u8 {
        s[at]
    }
}

impl Number for u16 {
    ghost BYTES = { 2 };

    const BYTES: usize = 2;

    ghost made = { number_at 2 };

    ghost read = { read_number 2 };

    ghost within = { λ least most. read_within least most (read_number 2) };

    ghost reads_all = { number_got 2 };

    ghost refuses_short = { number_missing 1 };

    ghost reads_within = { number_within (read_number 2) };

    #[tactic(auto, using(crate::specs::Laws::two_bytes))]
    fn from_bytes(s: &[u8], at: usize) -> u16 {
        u16::from_le_bytes([s[at], s[at + 1]])
    }
}

impl Number for u32 {
    ghost BYTES = { 4 };

    const BYTES: usize = 4;

    ghost made = { number_at 4 };

    ghost read = { read_number 4 };

    ghost within = { λ least most. read_within least most (read_number 4) };

    ghost reads_all = { number_got 4 };

    ghost refuses_short = { number_missing 3 };

    ghost reads_within = { number_within (read_number 4) };

    #[tactic(auto, using(crate::specs::Laws::four_bytes))]
    fn from_bytes(s: &[u8], at: usize) -> u32 {
        u32::from_le_bytes([s[at], s[at + 1], s[at + 2], s[at + 3]])
    }
}

impl Number for u64 {
    ghost BYTES = { 8 };

    const BYTES: usize = 8;

    ghost made = { number_at 8 };

    ghost read = { read_number 8 };

    ghost within = { λ least most. read_within least most (read_number 8) };

    ghost reads_all = { number_got 8 };

    ghost refuses_short = { number_missing 7 };

    ghost reads_within = { number_within (read_number 8) };

    #[tactic(auto, using(crate::specs::Laws::eight_bytes))]
    fn from_bytes(s: &[u8], at: usize) -> u64 {
        u64::from_le_bytes([
            s[at],
            s[at + 1],
            s[at + 2],
            s[at + 3],
            s[at + 4],
            s[at + 5],
            s[at + 6],
            s[at + 7],
        ])
    }
}

// Whether so many bytes stand from `at` on. The sum `at + bytes` may not fit, so the difference is
// compared.
pub fn reaches(s: &[u8], at: usize, bytes: usize) -> bool
    ensures { result ≡ leb (at + bytes) (length s.now) }
{
    bytes <= s.len() && at <= s.len() - bytes
}

pub fn number_at<T: Number>(s: &[u8], at: usize) -> Read<T>
    ensures { got_value result ≡ T.read s.now at }
{
    if reaches(s, at, T::BYTES) {
        Ok((T::from_bytes(s, at), at + T::BYTES))
    } else {
        Err(Refusal::MissingByte)
    }
}

// Length before value: a field that is not there is refused for that.
pub fn within<T: Number>(s: &[u8], at: usize, least: T, most: T) -> Read<T>
    ensures { got_value result ≡ T.within least most s.now at }
{
    let (found, next) = number_at::<T>(s, at)?;
    if least <= found && found <= most {
        Ok((found, next))
    } else {
        Err(Refusal::OutOfRange)
    }
}

// The start of a mutable range. The largest number is refused, since one more would not fit.
#[tactic(auto, unfolding(model::specs::Job::read_range_start))]
pub fn range_start_at(s: &[u8], at: usize) -> Read<u32>
    ensures { got_value result ≡ read_range_start s.now at }
{
    let (found, next) = number_at::<u32>(s, at)?;
    if found == u32::MAX {
        Err(Refusal::LargestStart)
    } else {
        Ok((found, next))
    }
}

#[tactic(auto, unfolding(model::specs::ReadingBytes::read_flag))]
pub fn flag_at(s: &[u8], at: usize) -> Read<bool>
    ensures { got_value result ≡ read_flag s.now at }
{
    let (found, next) = within::<u8>(s, at, 0, 1)?;
    Ok((found == 1, next))
}

// A mark is compared as the number that its two bytes make: a lone byte, even a wrong one, is a
// missing byte.
#[tactic(auto, unfolding(model::specs::ReadingBytes::read_mark))]
pub fn mark_at(s: &[u8], at: usize, mark: u16) -> Result<usize, Refusal>
    ensures { got_place result ≡ read_mark mark s.now at }
{
    let (found, next) = number_at::<u16>(s, at)?;
    if found == mark {
        Ok(next)
    } else {
        Err(Refusal::WrongMark)
    }
}
