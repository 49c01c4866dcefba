//! The plan of an adapter.

ghost use Rattle.std.specs.Prelude.{◌≡◌, ◌++◌, ◌∷◌, ◌↔◌, ◌&&◌, [], true, false, option_map, Some, slice_get};
ghost use Rattle.std.specs.Prelude.{Err, IfOk, OnOk};
ghost use Rattle.std.specs.Option.{option_copied};
ghost use Rattle.pc_numbers.specs.declared.runtime.ResourceIndex.{ResourceIndex};
ghost use Rattle.pc_types.specs.TypeTree.{Identity, TypeTree};
ghost use Rattle.pc_trampoline.specs.Parts.{list_of};
ghost use Rattle.pc_dfg.specs.declared.adapter.Adapter.{Adapter as Fused};
ghost use Rattle.pc_dfg.specs.declared.ids.AdapterId.{AdapterId as Adapters};
ghost use Rattle.pc_spec_adapt.specs.Asked.{function_facts};
ghost use Rattle.pc_spec_adapt.specs.Planned.{transcodings};
ghost use Rattle.pc_adapt.specs.Asked.{adapter_has_options, facts_view, HasTypes};
ghost use Rattle.pc_adapt.specs.Imports.{calls, copies, copies_if, definitions, imports_of, memory_imports};
ghost use Rattle.pc_adapt.specs.Imports.{memory_of, realloc_of};
ghost use Rattle.pc_adapt.specs.Imports.{first_imports, import_if, is_async_call, is_transparent, side_imports};
ghost use Rattle.pc_adapt.specs.Imports.{transfer_imports};
ghost use Rattle.pc_adapt.specs.Places.{HasPlan, record_of};

use crate::asked::has_options;
use crate::error::AdaptError;
use crate::facts::{FunctionFacts, facts_of_function};
use crate::import::Import;
use crate::record_of::record_of_adapter;
use pc_dfg::{Adapter, AdapterId, AdapterOptions, ComponentDfg, CoreDef, CoreExport, DataModel};
use pc_entity::{MemoryIndex, NoMemory, RuntimeComponentInstanceIndex, TryClone};
use pc_info::AdapterRecord;
use pc_trampoline::{FixedEncoding, PartList, Transcode, Trap};
use pc_types::StringEncoding;
use pc_types_builder::ComponentTypesBuilder;
use pc_types_lists::TypeFacts;
use std::alloc::Global;

/// A memory, with whether its addresses have 64 bits.
type Memory = (CoreExport<MemoryIndex>, bool);

/// What a module imports for an adapter, and what is said of it. Its function isn't known before its module is.
#[derive(Drop)]
pub struct AdapterPlan {
    /// The imports, in order.
    pub imports: Vec<Import>,
    /// The places of the imports in the module.
    pub record: AdapterRecord,
}

/// The memory of a side.
fn memory_in(model: &DataModel) -> Option<&Memory>
    ensures { option_copied result ≡ memory_of model.now }
{
    match model {
        DataModel::Gc {} => None,
        DataModel::LinearMemory { memory, .. } => memory.as_ref(),
    }
}

/// The realloc of a side.
fn realloc_in(model: &DataModel) -> Option<&CoreDef>
    ensures { option_copied result ≡ realloc_of model.now }
{
    match model {
        DataModel::Gc {} => None,
        DataModel::LinearMemory { realloc, .. } => realloc.as_ref(),
    }
}

/// Adds an import.
fn put(imports: &mut Vec<Import>, import: Import) -> Result<(), NoMemory>
    ensures { OnOk result (imports.new.items ≡ imports.old.items ++ import ∷ []) }
{
    Ok(imports.push(import)?)
}

/// Adds an import, where it is asked for.
fn put_if(imports: &mut Vec<Import>, asked: bool, import: Import) -> Result<(), NoMemory>
    ensures { OnOk result (imports.new.items ≡ imports.old.items ++ import_if asked import) }
{
    if asked { put(imports, import) } else { Ok(()) }
}

/// Adds a definition, if there is one.
fn put_any(alloc: Global, imports: &mut Vec<Import>, def: Option<&CoreDef>) -> Result<(), NoMemory>
    ensures { OnOk result (imports.new.items ≡ imports.old.items ++ definitions (option_copied def.entry)) }
{
    match def {
        Some(def) => put(imports, Import::CoreDef(def.try_clone(alloc)?)),
        None => Ok(()),
    }
}

/// Adds a memory, if there is one.
fn put_memory(
    alloc: Global,
    imports: &mut Vec<Import>,
    memory: Option<&Memory>,
) -> Result<(), NoMemory>
    ensures { OnOk result (imports.new.items ≡ imports.old.items ++ memory_imports (option_copied memory.entry)) }
{
    match memory {
        Some(memory) => {
            let export = memory.0.try_clone(alloc)?;
            put(imports, Import::CoreDef(CoreDef::from(export)))
        }
        None => Ok(()),
    }
}

/// Adds what the options of a side hold.
fn put_side(alloc: Global, imports: &mut Vec<Import>, side: &AdapterOptions) -> Result<(), NoMemory>
    ensures { OnOk result (imports.new.items ≡ imports.old.items ++ side_imports side.now) }
{
    put_memory(alloc, imports, memory_in(&side.data_model))?;
    put_any(alloc, imports, realloc_in(&side.data_model))?;
    put_any(alloc, imports, side.callback.as_ref())?;
    put_any(alloc, imports, side.post_return.as_ref())
}

/// What brings a string from utf8.
fn from_utf8(to: StringEncoding) -> PartList<Transcode>
    ensures { list_of result ≡ transcodings StringEncoding.Utf8 to }
{
    match to {
        StringEncoding::Utf8 => PartList::One(Transcode::Copy(FixedEncoding::Utf8)),
        StringEncoding::Utf16 => PartList::One(Transcode::Utf8ToUtf16),
        StringEncoding::CompactUtf16 => PartList::Two(
            Transcode::Utf8ToLatin1,
            Transcode::Utf8ToCompactUtf16,
        ),
    }
}

/// What brings a string from utf16.
fn from_utf16(to: StringEncoding) -> PartList<Transcode>
    ensures { list_of result ≡ transcodings StringEncoding.Utf16 to }
{
    match to {
        StringEncoding::Utf8 => PartList::One(Transcode::Utf16ToUtf8),
        StringEncoding::Utf16 => PartList::One(Transcode::Copy(FixedEncoding::Utf16)),
        StringEncoding::CompactUtf16 => PartList::Two(
            Transcode::Utf16ToLatin1,
            Transcode::Utf16ToCompactUtf16,
        ),
    }
}

/// What brings a string from an encoding that is latin1 or utf16 by a bit of each string.
fn from_compact(to: StringEncoding) -> PartList<Transcode>
    ensures { list_of result ≡ transcodings StringEncoding.CompactUtf16 to }
{
    match to {
        StringEncoding::Utf8 => PartList::Two(Transcode::Utf16ToUtf8, Transcode::Latin1ToUtf8),
        StringEncoding::Utf16 => PartList::Two(
            Transcode::Copy(FixedEncoding::Utf16),
            Transcode::Latin1ToUtf16,
        ),
        StringEncoding::CompactUtf16 => PartList::Two(
            Transcode::Utf16ToCompactProbablyUtf16,
            Transcode::Copy(FixedEncoding::Latin1),
        ),
    }
}

/// What brings a string from one encoding into another.
fn between(from: StringEncoding, to: StringEncoding) -> PartList<Transcode>
    ensures { list_of result ≡ transcodings from to }
{
    match from {
        StringEncoding::Utf8 => from_utf8(to),
        StringEncoding::Utf16 => from_utf16(to),
        StringEncoding::CompactUtf16 => from_compact(to),
    }
}

/// Adds what brings strings from one memory into another.
fn put_copy(
    alloc: Global,
    imports: &mut Vec<Import>,
    from: &Memory,
    to: &Memory,
    op: Transcode,
) -> Result<(), NoMemory>
    ensures { OnOk result (imports.new.items ≡ imports.old.items ++ copies (op ∷ []) (Some from.now) (Some to.now)) }
{
    let import = Import::Transcode {
        op,
        from: from.0.try_clone(alloc)?,
        from64: from.1,
        to: to.0.try_clone(alloc)?,
        to64: to.1,
    };
    put(imports, import)
}

/// Adds all that brings strings from one memory into another.
fn put_copies_of(
    alloc: Global,
    imports: &mut Vec<Import>,
    from: &Memory,
    to: &Memory,
    ops: PartList<Transcode>,
) -> Result<(), NoMemory>
    ensures { OnOk result
        (imports.new.items ≡ imports.old.items ++ copies (list_of ops) (Some from.now) (Some to.now)) }
{
    match ops {
        PartList::Empty => Ok(()),
        PartList::One(op) => put_copy(alloc, imports, from, to, op),
        PartList::Two(first, second) => {
            put_copy(alloc, imports, from, to, first)?;
            put_copy(alloc, imports, from, to, second)
        }
    }
}

/// Adds what brings strings from one side to another, where both have a memory.
fn put_copies(
    alloc: Global,
    imports: &mut Vec<Import>,
    from: &AdapterOptions,
    to: &AdapterOptions,
) -> Result<(), NoMemory>
    ensures { OnOk result (imports.new.items ≡ imports.old.items
        ++ copies (transcodings from.now.string_encoding to.now.string_encoding) (memory_of from.now.data_model)
        (memory_of to.now.data_model)) }
{
    let ops = between(from.string_encoding, to.string_encoding);
    match memory_in(&from.data_model) {
        Some(source) => match memory_in(&to.data_model) {
            Some(target) => put_copies_of(alloc, imports, source, target, ops),
            None => Ok(()),
        },
        None => Ok(()),
    }
}

/// The same, where strings are moved.
fn put_copies_if(
    alloc: Global,
    imports: &mut Vec<Import>,
    moved: bool,
    from: &AdapterOptions,
    to: &AdapterOptions,
) -> Result<(), NoMemory>
    ensures { OnOk result (imports.new.items ≡ imports.old.items ++ copies_if moved from.now to.now) }
{
    if moved {
        put_copies(alloc, imports, from, to)
    } else {
        Ok(())
    }
}

/// Adds the transfers of the kinds of handle that stand in a type.
fn put_transfers(imports: &mut Vec<Import>, facts: TypeFacts) -> Result<(), NoMemory>
    ensures { OnOk result (imports.new.items ≡ imports.old.items ++ transfer_imports facts) }
{
    put_if(imports, facts.own, Import::ResourceTransferOwn)?;
    put_if(imports, facts.borrow, Import::ResourceTransferBorrow)?;
    put_if(imports, facts.future, Import::FutureTransfer)?;
    put_if(imports, facts.stream, Import::StreamTransfer)?;
    put_if(imports, facts.error_context, Import::ErrorContextTransfer)
}

/// A copy of the memory of a side.
fn copy_of_memory(
    alloc: Global,
    model: &DataModel,
) -> Result<Option<CoreExport<MemoryIndex>>, NoMemory>
    ensures { IfOk result (λ m. m ≡ option_map (λ x. x.0) (memory_of model.now)) }
{
    match memory_in(model) {
        Some(memory) => Ok(Some(memory.0.try_clone(alloc)?)),
        None => Ok(None),
    }
}

/// Adds what prepares and starts an async call.
fn put_async(
    alloc: Global,
    imports: &mut Vec<Import>,
    lift: &AdapterOptions,
) -> Result<(), NoMemory>
    ensures { OnOk result (imports.new.items ≡ imports.old.items ++ calls true false lift.now) }
{
    let memory = copy_of_memory(alloc, &lift.data_model)?;
    put(imports, Import::PrepareCall { memory })?;
    let callback = lift.callback.try_clone(alloc)?;
    let post_return = lift.post_return.try_clone(alloc)?;
    put(
        imports,
        Import::StartCall {
            callback,
            post_return,
        },
    )
}

/// Adds what begins and ends a call, if that is to be noticed.
fn put_calls(
    alloc: Global,
    imports: &mut Vec<Import>,
    is_async: bool,
    transparent: bool,
    lift: &AdapterOptions,
) -> Result<(), NoMemory>
    ensures { OnOk result (imports.new.items ≡ imports.old.items ++ calls is_async transparent lift.now) }
{
    if is_async {
        return put_async(alloc, imports, lift);
    }
    if transparent {
        return Ok(());
    }
    put(imports, Import::EnterSyncCall)?;
    put(imports, Import::ExitSyncCall)
}

/// Adds the flags of a component instance.
fn put_flags(
    imports: &mut Vec<Import>,
    instance: RuntimeComponentInstanceIndex,
) -> Result<(), NoMemory>
    ensures { OnOk result (imports.new.items ≡ imports.old.items
        ++ Import.CoreDef (CoreDef.InstanceFlags instance) ∷ []) }
{
    put(imports, Import::CoreDef(CoreDef::InstanceFlags(instance)))
}

/// Adds what an adapter calls, the flags of both sides, and what the options of both sides hold.
fn put_definitions(
    alloc: Global,
    imports: &mut Vec<Import>,
    adapter: &Adapter,
) -> Result<(), NoMemory>
    ensures { OnOk result (imports.new.items ≡ imports.old.items ++ first_imports adapter.now) }
{
    put(imports, Import::CoreDef(adapter.func.try_clone(alloc)?))?;
    put_flags(imports, adapter.lower_options.instance)?;
    put_flags(imports, adapter.lift_options.instance)?;
    put_side(alloc, imports, &adapter.lift_options)?;
    put_side(alloc, imports, &adapter.lower_options)
}

/// Adds what brings strings from one side of an adapter to the other: of parameters, and of results.
fn put_strings(
    alloc: Global,
    imports: &mut Vec<Import>,
    adapter: &Adapter,
    lift: FunctionFacts,
    lower: FunctionFacts,
) -> Result<(), NoMemory>
    ensures { OnOk result (imports.new.items ≡ imports.old.items
        ++ copies_if (lift.params.string && lower.params.string) adapter.now.lower_options adapter.now.lift_options
        ++ copies_if (lift.results.string && lower.results.string) adapter.now.lift_options
        adapter.now.lower_options) }
{
    put_copies_if(
        alloc,
        imports,
        lift.params.string && lower.params.string,
        &adapter.lower_options,
        &adapter.lift_options,
    )?;
    put_copies_if(
        alloc,
        imports,
        lift.results.string && lower.results.string,
        &adapter.lift_options,
        &adapter.lower_options,
    )
}

/// Whether a call through an adapter is async.
fn is_async(adapter: &Adapter, lift: FunctionFacts, lower: FunctionFacts) -> bool
    ensures { result ≡ is_async_call (facts_view lift) (facts_view lower) adapter.now }
{
    adapter.lift_options.async_ || adapter.lower_options.async_ || lift.async_ || lower.async_
}

/// What a module imports for an adapter whose types have these facts. A transparent one doesn't keep the state of the
/// calling thread.
pub fn imports_for(
    alloc: Global,
    adapter: &Adapter,
    lift: FunctionFacts,
    lower: FunctionFacts,
    transparent: bool,
) -> Result<Vec<Import>, NoMemory>
    ensures { IfOk result (λ is. is.items
        ≡ imports_of (facts_view lift) (facts_view lower) transparent adapter.now) }
{
    let mut imports: Vec<Import> = Vec::new(alloc);
    put_definitions(alloc, &mut imports, adapter)?;
    put_strings(alloc, &mut imports, adapter, lift, lower)?;
    let lifted = lift.params.join(lift.results);
    let lowered = lower.params.join(lower.results);
    put_transfers(&mut imports, lifted.join(lowered))?;
    let async_ = is_async(adapter, lift, lower);
    put_calls(
        alloc,
        &mut imports,
        async_,
        transparent,
        &adapter.lift_options,
    )?;
    put(&mut imports, Import::Trap(Trap(1)))?;
    Ok(imports)
}

/// What a module imports for an adapter, from place `base` on, and the places of these imports.
pub fn plan_adapter(
    alloc: Global,
    dfg: &ComponentDfg,
    types: &ComponentTypesBuilder,
    id: AdapterId,
    base: u32,
) -> Result<AdapterPlan, AdaptError>
    requires held { HasPlan dfg.now types.now id base }
    ensures bad { (who : ResourceIndex → Identity) (lift lower : TypeTree) (x : Fused)
        → slice_get dfg.now.adapters id.0 ≡ Some x → HasTypes types.now who x lift lower
        → (result ≡ Err (AdaptError.BadOptions id))
        ↔ (adapter_has_options (function_facts lift) (function_facts lower) x ≡ false) }
    ensures only { (a : Adapters) → result ≡ Err (AdaptError.BadOptions a) → a ≡ id }
    ensures room { ¬ (result ≡ Err AdaptError.TooMany) }
    ensures imports { IfOk result (λ p. (who : ResourceIndex → Identity) (lift lower : TypeTree) (x : Fused)
        → slice_get dfg.now.adapters id.0 ≡ Some x → HasTypes types.now who x lift lower
        → p.imports.items ≡ imports_of (function_facts lift) (function_facts lower) (is_transparent dfg.now id.0) x) }
    ensures places { IfOk result (λ p. (x : Fused) → slice_get dfg.now.adapters id.0 ≡ Some x
        → p.«record» ≡ record_of base id.0 x) }
{
    let adapter = &dfg.adapters[id];
    if !has_options(types, adapter) {
        return Err(AdaptError::BadOptions(id));
    }
    let lift = facts_of_function(types, adapter.lift_ty);
    let lower = facts_of_function(types, adapter.lower_ty);
    let transparent = dfg.transparent_adapters.contains(id);
    let imports = imports_for(alloc, adapter, lift, lower, transparent)?;
    let record_ = record_of_adapter(base, id, adapter);
    Ok(AdapterPlan {
        imports,
        record: record_,
    })
}
