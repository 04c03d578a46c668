// The types that all crates share. A number is kept in a struct of its own where the Rust keeps it
// apart from other numbers.
#![tactic(auto)]

ghost use Rattle.std.specs.Prelude.{◌≡◌};
ghost use Rattle.entries.specs.Path.{same_property, same_entry, are_equal_paths};
ghost use Rattle.entries.specs.Property.{property_of, is_number, value_of};
ghost use Rattle.entries.specs.Access.{is_optional_access, is_dependency_access, access_of, merge_access};
ghost use Rattle.entries.specs.Refusals.{refusal_number};

// A variable of the compiled function (`IdentifierId` of the Rust).
#[derive(Clone, Copy, PartialEq, Eq)]
pub struct IdentifierId(pub u32);

// A block of the compiled function (`BlockId` of the Rust).
#[derive(Clone, Copy, PartialEq, Eq)]
pub struct BlockId(pub u32);

// A node of the registry: its place in the order of making.
#[derive(Clone, Copy, PartialEq, Eq)]
pub struct NodeId(pub usize);

// A property: the host's number for a name, or the stored bits of a number. Two are equal where
// kind and 64 bits are.
#[derive(Clone, Copy, PartialEq, Eq)]
pub enum PropertyLiteral {
    String(u64),
    Number(u64),
}

impl PropertyLiteral {
    // From a kind and a value, and back.
    // Design: no `From<(bool, u64)>`, since a pair does not say what its mark tells.
    pub fn of(number: bool, value: u64) -> PropertyLiteral
        ensures { result ≡ property_of number value }
    {
        if number {
            PropertyLiteral::Number(value)
        } else {
            PropertyLiteral::String(value)
        }
    }

    pub fn is_number(self) -> bool
        ensures { result ≡ is_number self }
    {
        matches!(self, PropertyLiteral::Number(_))
    }

    pub fn value(self) -> u64
        ensures { result ≡ value_of self }
    {
        match self {
            PropertyLiteral::String(v) => v,
            PropertyLiteral::Number(v) => v,
        }
    }

    // The same kind and the same 64 bits.
    // Design: a method beside the derived `==`, since its contract says that this is the model's
    // test of properties.
    pub fn same(self, other: PropertyLiteral) -> bool
        ensures { result ≡ same_property self other }
    {
        self == other
    }
}

// One step of a path: `.property`, or `?.property` where `optional`. The span is the host's number
// for a place in its source; 0 is none. A job's spans have 32 bits; 64 leave room for wider ones.
// Design: a span is a number and no `Option`, since the job's bytes and the model's paths have 0.
#[derive(Clone, Copy)]
pub struct DependencyPathEntry {
    pub property: PropertyLiteral,
    pub optional: bool,
    pub span: u64,
}

impl DependencyPathEntry {
    // The same property and the same optional mark; the span does not count.
    // Design: no derived `==`, which would count the span, or would not show that it does not.
    pub fn same(self, other: DependencyPathEntry) -> bool
        ensures { result ≡ same_entry self other }
    {
        self.property.same(other.property) && self.optional == other.optional
    }
}

// `are_equal_paths` of the Rust: as many entries, and the same property and the same optional mark
// at each place; spans do not count.
#[tactic(auto, using(crate::proofs::EqualPaths::unequal))]
pub fn are_equal_paths(a: &[DependencyPathEntry], b: &[DependencyPathEntry]) -> bool
    ensures { result ≡ are_equal_paths a.now b.now }
{
    a.len() == b.len() && a.iter().zip(b).all(|(x, y)| x.same(*y))
}

// How a position of the dependency tree is reached, and whether a dependency ends there.
#[derive(Clone, Copy, PartialEq, Eq)]
pub enum PropertyAccessType {
    OptionalAccess,
    UnconditionalAccess,
    OptionalDependency,
    UnconditionalDependency,
}

impl PropertyAccessType {
    // The kind that is optional or not, and a dependency or not.
    // Design: no `From<(bool, bool)>`, since a pair does not say which mark is which.
    pub fn of(optional: bool, dependency: bool) -> PropertyAccessType
        ensures { result ≡ access_of optional dependency }
    {
        match (optional, dependency) {
            (true, true) => PropertyAccessType::OptionalDependency,
            (true, false) => PropertyAccessType::OptionalAccess,
            (false, true) => PropertyAccessType::UnconditionalDependency,
            (false, false) => PropertyAccessType::UnconditionalAccess,
        }
    }

    // Design: `is_optional` and `is_dependency` test two marks, each a function of the Rust; one
    // with the mark as a parameter would be no shorter.
    pub fn is_optional(self) -> bool
        ensures { result ≡ is_optional_access self }
    {
        matches!(
            self,
            PropertyAccessType::OptionalAccess | PropertyAccessType::OptionalDependency
        )
    }

    pub fn is_dependency(self) -> bool
        ensures { result ≡ is_dependency_access self }
    {
        matches!(
            self,
            PropertyAccessType::OptionalDependency | PropertyAccessType::UnconditionalDependency
        )
    }

    // `merge_access` of the Rust: optional only if both are, a dependency if either is.
    pub fn merge(self, other: PropertyAccessType) -> PropertyAccessType
        ensures { result ≡ merge_access self other }
    {
        PropertyAccessType::of(
            self.is_optional() && other.is_optional(),
            self.is_dependency() || other.is_dependency(),
        )
    }
}

// What is known of the value at a position of the hoistable tree.
#[derive(Clone, Copy)]
pub enum HoistableAccessType {
    Optional,
    NonNull,
}

// How many rounds a propagation ran, and whether the last one changed nothing.
#[derive(Clone, Copy)]
pub struct RoundsRun {
    pub rounds: u8,
    pub settled: bool,
}

// Why a job is turned back, in the order of the numbers: document 01's 1 to 9, and document 02's
// 10.
#[derive(Clone, Copy, PartialEq, Eq)]
pub enum Refusal {
    ShortBuffer,
    LongJob,
    MissingByte,
    WrongMark,
    OutOfRange,
    ExtraByte,
    RepeatedId,
    UnknownBlock,
    ManyNodes,
    LargestStart,
}

// The number of document 01, or of document 02.
impl From<Refusal> for u8 {
    ghost from_gives = { λ refusal number. number ≡ refusal_number refusal };

    fn from(refusal: Refusal) -> u8 {
        match refusal {
            Refusal::ShortBuffer => 1,
            Refusal::LongJob => 2,
            Refusal::MissingByte => 3,
            Refusal::WrongMark => 4,
            Refusal::OutOfRange => 5,
            Refusal::ExtraByte => 6,
            Refusal::RepeatedId => 7,
            Refusal::UnknownBlock => 8,
            Refusal::ManyNodes => 9,
            Refusal::LargestStart => 10,
        }
    }
}
