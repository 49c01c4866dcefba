//! The entity that each import is.

ghost use Rattle.std.specs.Prelude.{◌≡◌, ◌+◌, ◌<◌, ℕ, [], length, count_by, slice_get, IfOk, if◌then◌else◌};
ghost use Rattle.std.specs.Option.{option_map};
ghost use Rattle.pc_types.specs.Record.{same_kind};
ghost use Rattle.pc_types.specs.declared.parsed.CoreKind.{CoreKind};
ghost use Rattle.pc_types.specs.ByKind.{of_kind};
ghost use Rattle.pc_types_record.specs.Indexed.{entities_after};

use pc_entity::{EntityIndex, NoMemory, Seq, Text};
use pc_types::{ByKind, CoreEntity, CoreKind};
use std::alloc::Global;

/// No entity of any kind was met.
fn none_met() -> ByKind<u32>
    ensures { (k : CoreKind) → of_kind result k ≡ 0 }
{
    ByKind {
        funcs: 0,
        tables: 0,
        memories: 0,
        globals: 0,
        tags: 0,
    }
}

/// Counts one entity of a kind.
fn count(counts: &mut ByKind<u32>, kind: CoreKind)
    requires small { of_kind counts.old kind < 4294967295 }
    ensures { (k : CoreKind)
        → of_kind counts.new k ≡ (if same_kind k kind then of_kind counts.old k + 1 else of_kind counts.old k) }
{
    match kind {
        CoreKind::Func => counts.funcs += 1,
        CoreKind::Table => counts.tables += 1,
        CoreKind::Memory => counts.memories += 1,
        CoreKind::Global => counts.globals += 1,
        CoreKind::Tag => counts.tags += 1,
    }
}

/// The entity that each import is, in order: its kind, and its number among those of its kind.
pub(crate) fn entities(
    alloc: Global,
    imports: &[(Text, Text, CoreEntity)],
) -> Result<Seq<EntityIndex>, NoMemory>
    requires numbered { length imports.now < 4294967295 }
    ensures { IfOk result (λ found. found ≡ entities_after [] imports.now) }
{
    let mut counts = none_met();
    let mut found = Seq::with_capacity(alloc, imports.len())?;
    for import in imports {
        let kind = import.2.kind();
        found.push(kind.entity(*counts.of(kind)))?;
        count(&mut counts, kind);
    }
    Ok(found)
}
