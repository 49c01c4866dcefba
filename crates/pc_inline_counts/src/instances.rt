//! The nodes of definitions: those of component instances by what these export.

ghost use Rattle.std.specs.Prelude.{◌≡◌, IfOk, fold, slice_get};
ghost use Rattle.pc_inline_state.specs.Tables.{tables_of};
ghost use Rattle.pc_inline_counts.specs.Counts.{AreCounts, definition_count, instance_counts, maybe_count, one_node};
ghost use Rattle.pc_inline_counts.specs.Counts.{with_member};
ghost use Rattle.pc_inline_counts.specs.Follows.{CountsNodes};

use crate::count::{NodeCount, count_at};
use crate::entries::entry_counts;
use pc_entity::{NoMemory, PrimaryMap, Seq};
use pc_inline_names::AtomMap;
use pc_inline_state::{Definition, DefinitionId, Member, State};
use pc_types::Unsupported;
use std::alloc::Global;

/// How many nodes are reached of a definition.
fn definition_count(
    entries: &[NodeCount],
    instances: &[NodeCount],
    definition: &Definition,
) -> NodeCount
    ensures { result ≡ definition_count entries.now instances.now definition.now }
{
    match definition {
        Definition::Instance { exports, .. } => count_at(instances, exports.0),
        Definition::HostInstance { entry, .. } => count_at(entries, *entry),
        Definition::Component { .. } => NodeCount::refused(Unsupported::ExportedComponent),
        Definition::IntrinsicFunc { .. } => NodeCount::refused(Unsupported::ReexportedIntrinsic),
        Definition::Intrinsics => NodeCount::refused(Unsupported::ReexportedIntrinsics),
        Definition::HostFunc { .. }
        | Definition::LiftedFunc { .. }
        | Definition::StaticModule { .. }
        | Definition::HostModule { .. }
        | Definition::Type_(_) => NodeCount::one(),
    }
}

/// The same of a definition by its number.
fn count_of(
    entries: &[NodeCount],
    instances: &[NodeCount],
    definitions: &PrimaryMap<DefinitionId, Definition>,
    id: DefinitionId,
) -> NodeCount
    ensures { result ≡ maybe_count entries.now instances.now (slice_get definitions.now id.0) }
{
    match definitions.get(id) {
        Some(definition) => definition_count(entries, instances, definition),
        None => NodeCount::nothing(),
    }
}

/// A component instance with what it exports.
fn members_count(
    entries: &[NodeCount],
    instances: &[NodeCount],
    definitions: &PrimaryMap<DefinitionId, Definition>,
    members: &AtomMap<Member>,
) -> NodeCount
    ensures { result ≡ fold (with_member entries.now definitions.now instances.now) one_node members.now }
{
    let mut count = NodeCount::one();
    for place in 0..members.len() {
        let (_, member) = members.entry_at(place);
        count = count.and_after(count_of(entries, instances, definitions, member.item));
    }
    count
}

/// The same of each component instance.
fn instance_counts(
    alloc: Global,
    entries: &[NodeCount],
    definitions: &PrimaryMap<DefinitionId, Definition>,
    lists: &[AtomMap<Member>],
) -> Result<Seq<NodeCount>, NoMemory>
    ensures { IfOk result (λ counts. counts ≡ instance_counts entries.now definitions.now lists.now) }
{
    let mut counts = Seq::with_capacity(alloc, lists.len())?;
    for members in lists {
        let count = members_count(entries, counts.as_slice(), definitions, members);
        counts.push(count)?;
    }
    Ok(counts)
}

/// How many nodes are reached of what may be exported.
#[derive(Drop)]
pub struct NodeCounts {
    /// Of a host instance, by the entry that is its type.
    pub entries: Seq<NodeCount>,
    /// Of a component instance, by the number of what it exports.
    pub instances: Seq<NodeCount>,
}

impl NodeCounts {
    /// The counts of what was made so far. The time is linear in the table and in what the instances export.
    pub fn new(alloc: Global, state: &State<'_>) -> Result<NodeCounts, NoMemory>
        ensures { IfOk result (AreCounts (tables_of state.now)) }
    {
        let entries = entry_counts(alloc, state.table)?;
        let instances = instance_counts(
            alloc,
            entries.as_slice(),
            &state.definitions,
            state.instances.as_slice(),
        )?;
        Ok(NodeCounts { entries, instances })
    }

    /// How many nodes are reached of a definition.
    #[tactic(auto, using(crate::proofs::CountLemmas::count_follows))]
    pub fn of(&self, definition: &Definition) -> NodeCount
        ensures nodes { CountsNodes self.now definition.now result }
        ensures is { result ≡ definition_count self.now.entries self.now.instances definition.now }
    {
        definition_count(
            self.entries.as_slice(),
            self.instances.as_slice(),
            definition,
        )
    }
}
