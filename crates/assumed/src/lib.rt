// All assumed paths of a job entered into the registry, straight from its bytes, and each block's
// set of them stored in its row: of the raw reads those that are kept, and then the ready paths.
// The job was read before, so that no field is refused here: a refusal says that the registry has
// no room.
#![tactic(auto)]

ghost use Rattle.std.specs.Prelude.{◌≡◌, [], ◌≤◌, length};
ghost use Rattle.rows.specs.Rows.{Lent};
ghost use Rattle.registry.specs.Words.{registry_of};
ghost use Rattle.model.specs.ReadingBytes.{mapped, read_many};
ghost use Rattle.model.specs.Job.{read_path_fields, read_block, assumed_of};
ghost use Rattle.model.specs.Answer.{span_width};
ghost use Rattle.model.specs.Stage.{none_entered, start_of};
ghost use Rattle.job.specs.Kept.{blocks_of, PlacedJob};
ghost use Rattle.job.specs.Passing.{IsRead};
ghost use Rattle.assumed.specs.Start.{itself, read_brought, all_of, entered_so_far, came_to, EntersAll, Starts};

use entries::Refusal;
use registry::Registry;
use rows::NodeBits;

mod immutable;

// How far a block's paths are entered: their nodes, how many nodes were made for them, and the
// place after what was read.
#[derive(Clone, Copy)]
struct EnteredSet {
    pub set: NodeBits,
    pub made: usize,
    pub at: usize,
}

impl EnteredSet {
    // One path more, whose fields stand at a place.
    // Design: here and below, `made ≤ length ..` is a clause and not of the type, since it is of a
    // set and a registry that changes at each step; and `IsRead` is one, since each function reads
    // by another reader.
    fn enter_fields(&mut self, s: &[u8], at: usize, registry: &mut Registry) -> Result<(), Refusal>
        requires { (self.old.made ≤ length (registry_of registry.old.words)) × IsRead (read_path_fields span_width s.now at) }
        ensures { EntersAll (mapped itself (read_path_fields span_width s.now at))
            (entered_so_far (registry_of registry.old.words) self.old) (came_to result self.new)
            registry.new.words registry.new.optional.words }
    {
        let path = paths::enter_path(s, at, registry)?;
        self.set.insert(path.node);
        self.made += path.made;
        self.at = path.next;
        Ok(())
    }

    // One record more: a ready path, or a raw read, whose path is entered where it is kept. Both
    // end in one call of `enter_fields`, so that it and `paths::enter_path` have one caller and are
    // inlined (docs/DECISIONS.md).
    fn enter_record(&mut self, s: &[u8], registry: &mut Registry) -> Result<(), Refusal>
        requires { (self.old.made ≤ length (registry_of registry.old.words)) × IsRead (read_brought s.now self.old.at) }
        ensures { EntersAll (read_brought s.now self.old.at) (entered_so_far (registry_of registry.old.words) self.old)
            (came_to result self.new) registry.new.words registry.new.optional.words }
    {
        let fields_at = match fields::mark_at(s, self.at, job::PA) {
            Ok(at) => at,
            Err(_) => {
                let (head, at) = job::raw_head_at(s, self.at)?;
                if !immutable::is_immutable_at_instr(head) {
                    let next = job::past_path_fields(s, at)?;
                    self.at = next;
                    return Ok(());
                }
                at
            }
        };
        self.enter_fields(s, fields_at, registry)
    }

    // `count` records more.
    fn enter_records(
        &mut self,
        s: &[u8],
        count: u16,
        registry: &mut Registry,
    ) -> Result<(), Refusal>
        requires { (self.old.made ≤ length (registry_of registry.old.words)) × IsRead (read_many count read_brought s.now self.old.at) }
        ensures { EntersAll (mapped all_of (read_many count read_brought s.now self.old.at))
            (entered_so_far (registry_of registry.old.words) self.old) (came_to result self.new)
            registry.new.words registry.new.optional.words }
    {
        for _ in 0..count {
            self.enter_record(s, registry)?;
        }
        Ok(())
    }
}

// The assumed paths of the block at a place.
fn enter_block(s: &[u8], at: usize, registry: &mut Registry) -> Result<EnteredSet, Refusal>
    requires { IsRead (read_block span_width s.now at) }
    ensures { EntersAll (mapped assumed_of (read_block span_width s.now at))
        (none_entered (registry_of registry.old.words)) result registry.new.words registry.new.optional.words }
{
    let (head, ids_at) = job::block_head_at(s, at)?;
    let records_at = job::past_ids(s, ids_at, head.predecessors)?;
    let mut entered = EnteredSet {
        set: NodeBits::empty(),
        made: 0,
        at: records_at,
    };
    entered.enter_records(s, u16::from(head.raw) + u16::from(head.assumed), registry)?;
    Ok(entered)
}

// The assumed paths of all blocks of the job that was read, in job order, into a registry that has
// no node: how many nodes were made in all.
// Design: `places` is the reader's array, with the number of blocks beside it: `PlacedJob`, which
// the reader ensures and which is required here (docs/PROOFS.md names `enter_blocks`), is of both.
pub fn enter_blocks(
    s: &[u8],
    places: &[usize; 128],
    blocks: usize,
    registry: &mut Registry,
    sets: &mut [u64],
) -> Result<usize, Refusal>
    requires { PlacedJob s.now blocks places.now × (blocks ≤ 128) × (registry_of registry.old.words ≡ []) × Lent blocks sets.old }
    ensures { Starts (start_of (blocks_of s.now)) blocks result registry.new.words registry.new.optional.words
        sets.new }
{
    let mut made = 0;
    for (b, at) in places[..blocks].iter().enumerate() {
        let entered = enter_block(s, *at, registry)?;
        rows::set_row(sets, b, entered.set);
        made += entered.made;
    }
    Ok(made)
}
