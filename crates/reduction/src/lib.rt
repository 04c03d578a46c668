// `reduce_maybe_optional_chains`: passes over a set's nodes with an optional entry until one
// changes nothing.
#![tactic(auto)]

ghost use Rattle.std.specs.Prelude.{◌≡◌, ◌≤◌, ◌<◌};
ghost use Rattle.entries.specs.declared.NodeId.{NodeId};
ghost use Rattle.rows.specs.Members.{members_of};
ghost use Rattle.registry.specs.Words.{count_in, registry_of, Arrives};
ghost use Rattle.model.specs.Registry.{full_path_of, step_from, walk_path};
ghost use Rattle.model.specs.Reduction.{reduced_mark, pass, reduce_maybe_optional_chains};
ghost use Rattle.model.specs.ReductionLaws.{Members};
ghost use Rattle.reduction.specs.Reduces.{ChildAt, leads_back, KnownReduced, Passes, Reduces};

use entries::{DependencyPathEntry, NodeId, Refusal};
use registry::{Node, Registry};
use rows::NodeBits;

// An optional entry becomes plain where the node reached so far is in the set.
fn reduced_mark(set: &NodeBits, k: NodeId, e: DependencyPathEntry) -> bool
    requires { k.0 < 512 }
    ensures { result ≡ reduced_mark (members_of set.now.words) k e }
{
    e.optional && !set.contains(k)
}

// From q on by the entry e, under its mark there, with `made_before` nodes made before it. Node k
// is the child of p by e: where q is p and the mark stays, there is nothing to look for or to make.
fn step(
    registry: &mut Registry,
    set: &NodeBits,
    k: NodeId,
    p: NodeId,
    e: DependencyPathEntry,
    q: NodeId,
    made_before: usize,
) -> Result<(NodeId, usize), Refusal>
    requires { (q.0 < count_in registry.old.words) × ChildAt (registry_of registry.old.words) p e k
        × (made_before ≤ count_in registry.old.words) }
    ensures { Arrives (step_from (reduced_mark (members_of set.now.words))
        (record { registry = registry_of registry.old.words; node = q; made = made_before }) e) result
        registry.new.words registry.new.optional.words }
{
    let kept = reduced_mark(set, q, e);
    if q == p && kept == e.optional {
        return Ok((k, made_before));
    }
    let child = DependencyPathEntry {
        optional: kept,
        ..e
    };
    let (reached, made_here) = registry.get_or_create_property_entry(q, child)?;
    Ok((reached, made_before + made_here))
}

// The path of node k, walked again from its root under the marks that the set leaves.
pub fn walk_again(
    registry: &mut Registry,
    set: &NodeBits,
    k: NodeId,
) -> Result<(NodeId, usize), Refusal>
    requires { k.0 < count_in registry.old.words }
    ensures { Arrives (walk_path (reduced_mark (members_of set.now.words)) (registry_of registry.old.words)
        (full_path_of (registry_of registry.old.words) k)) result registry.new.words registry.new.optional.words }
{
    let Node::Child(p, e) = registry::load(&registry.words, k) else {
        return Ok((k, 0));
    };
    let (q, made) = walk_again(registry, set, p)?;
    step(registry, set, k, p, e, q, made)
}

// Whether the path of node k, walked again under the marks that the set leaves, leads back to k:
// each optional entry keeps its mark. This goes up the parents and searches nothing.
// Design: a walk of its own, since those of `hoistable` and `sheet_bytes` keep other things.
fn leads_back(registry: &Registry, set: &NodeBits, k: NodeId) -> bool
    requires { k.0 < count_in registry.now.words }
    ensures { result ≡ leads_back (registry_of registry.now.words) (members_of set.now.words) k }
{
    let mut at = k;
    while let Node::Child(p, e) = registry::load(&registry.words, at) {
        if reduced_mark(set, p, e) != e.optional {
            return false;
        }
        at = p;
    }
    true
}

// A pass over the set's nodes with an optional entry, ascending, as they are at its start, and
// whether it changed the set. Where a node's path leads elsewhere now, the node that it leads to
// takes its place at once. One whose path leads back to it is passed over, since walking it again
// would change nothing and make nothing.
fn pass(registry: &mut Registry, set: &mut NodeBits) -> Result<bool, Refusal>
    requires { Members (registry_of registry.old.words) (members_of set.old.words) }
    ensures { Passes (pass (registry_of registry.old.words) (members_of set.old.words)) result registry.new.words
        registry.new.optional.words set.new.words }
{
    let snapshot = set.intersection(registry.optional);
    let mut changed = false;
    for k in snapshot.members() {
        if leads_back(registry, set, k) {
            continue;
        }
        let (q, _) = walk_again(registry, set, k)?;
        if q != k {
            set.remove(k);
            set.insert(q);
            changed = true;
        }
    }
    Ok(changed)
}

// Passes until one changes nothing. Where `known` says that the set `before` is reduced, a pass
// that leaves that set is the last: the next would change nothing and make nothing.
pub fn reduce_maybe_optional_chains(
    registry: &mut Registry,
    set: NodeBits,
    before: NodeBits,
    known: bool,
) -> Result<NodeBits, Refusal>
    requires { Members (registry_of registry.old.words) (members_of set.words) × KnownReduced known
        (registry_of registry.old.words) (members_of before.words) }
    ensures { Reduces (reduce_maybe_optional_chains (registry_of registry.old.words) (members_of set.words)) result
        registry.new.words registry.new.optional.words }
{
    let mut set = set;
    while pass(registry, &mut set)? {
        if known && before.same_set(set) {
            return Ok(before);
        }
    }
    Ok(set)
}
