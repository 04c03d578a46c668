// Enters a path of a job into the registry, straight from its bytes: the fields that a ready path
// and a raw read have in common. The path was read before, with the whole job, so that no field is
// refused here: a refusal says that the registry has no room.
#![tactic(auto)]

ghost use Rattle.std.specs.Prelude.{◌≤◌, ◌<◌};
ghost use Rattle.model.specs.ReadingBytes.{read_many};
ghost use Rattle.model.specs.Job.{read_entry, read_path_fields};
ghost use Rattle.model.specs.Registry.{get_or_create_property};
ghost use Rattle.model.specs.Answer.{span_width};
ghost use Rattle.registry.specs.Words.{count_in, registry_of};
ghost use Rattle.job.specs.Passing.{IsRead};
ghost use Rattle.paths.specs.Enters.{walk_own, Enters};

use entries::{NodeId, Refusal};
use registry::Registry;

// How far a path is entered: the node reached, how many nodes were made on the way to it, and the
// place after what was read.
#[derive(Clone, Copy)]
pub struct EnteredPath {
    pub node: NodeId,
    pub made: usize,
    pub next: usize,
}

// `count` entries more of a path.
// Design: `made ≤ count_in ..` is a clause and not of the type, since it is of a path and of a
// registry that changes at each step; and so is `IsRead`, since each function has another reader.
fn enter_entries(
    s: &[u8],
    count: u8,
    registry: &mut Registry,
    from: EnteredPath,
) -> Result<EnteredPath, Refusal>
    requires { (from.node.0 < count_in registry.old.words) × (from.made ≤ count_in registry.old.words)
        × IsRead (read_many count (read_entry span_width) s.now from.next) }
    ensures { Enters (read_many count (read_entry span_width) s.now from.next)
        (walk_own (registry_of registry.old.words) from.node from.made) result
        registry.new.words registry.new.optional.words }
{
    let mut path = from;
    for _ in 0..count {
        let (entry, next) = job::entry_at(s, path.next)?;
        let (node, made) = registry.get_or_create_property_entry(path.node, entry)?;
        path = EnteredPath {
            node,
            made: path.made + made,
            next,
        };
    }
    Ok(path)
}

// The path whose fields, from the identifier on, stand at a place.
pub fn enter_path(s: &[u8], at: usize, registry: &mut Registry) -> Result<EnteredPath, Refusal>
    requires { IsRead (read_path_fields span_width s.now at) }
    ensures { Enters (read_path_fields span_width s.now at) (get_or_create_property (registry_of registry.old.words)) result
        registry.new.words registry.new.optional.words }
{
    let (head, next) = job::path_head_at(s, at)?;
    let (node, made) = registry.get_or_create_identifier(
        head.identifier,
        head.reactive,
        head.span,
    )?;
    let root = EnteredPath { node, made, next };
    enter_entries(s, head.entries, registry, root)
}
