//! One way into each list of a graph.
//!
//! A list of which equal entries would mean the same is interned: an entry that is held keeps its number. Instances and
//! resources are added together with their side effect, so the side effects name all of them, in order. Each call
//! refuses with `TooMany` exactly where its list has 4294967295 entries, and changes nothing but that list. An ordered
//! graph stays ordered where the numbers in what is added are held.

ghost use Rattle.std.specs.Prelude.{◌≡◌, ◌++◌, ◌∷◌, ◌≤◌, ◌⊎◌, ◌↔◌, ◌<◌, [], length, slice_get, None, Some};
ghost use Rattle.std.specs.Prelude.{All};
ghost use Rattle.std.specs.Prelude.{Err, IfOk, OnOk, OnErr};
ghost use Rattle.pc_entity.specs.Lists.{value_of};
ghost use Rattle.pc_types.specs.IntrinsicType.{intrinsic_place};
ghost use Rattle.pc_dfg.specs.Grows.{Grows, HasIntrinsic};
ghost use Rattle.pc_dfg.specs.Held.{IsHeld, HasBegun, HeldOptions, HeldTrampoline, HeldAdapter, HeldInstance};
ghost use Rattle.pc_dfg.specs.Held.{HeldResource, HeldExport};
ghost use Rattle.pc_dfg.specs.Numbers.{memory_def, table_def, options_entry, trampoline_entry};
ghost use Rattle.pc_dfg.specs.Ordered.{IsOrdered};
ghost use Rattle.pc_dfg.specs.Pushed.{IsPut, first_signature, with_component_instance, with_instance};
ghost use Rattle.pc_dfg.specs.Pushed.{with_intrinsic, with_resource};

use crate::listed::{append, intern};
use crate::trampoline::Trampoline;
use crate::{
    Adapter, AdapterId, AdapterModuleId, CallbackId, CanonicalOptions, ComponentDfg, CoreDef,
    CoreExport, Export, Instance, InstanceId, MemoryId, OptionsId, PostReturnId, PushError,
    ReallocId, Resource, SideEffect, TableId,
};
use pc_entity::{
    DefinedResourceIndex, EntityIndex, ExportIndex, ImportIndex, MemoryIndex,
    ModuleInternedTypeIndex, NoMemory, PackedOption, ResourceIndex, RuntimeComponentInstanceIndex,
    RuntimeImportIndex, Seq, StaticModuleIndex, TableIndex, Text, TrampolineIndex,
};
use pc_types::{ComponentExtern, ComponentExternData, UnsafeIntrinsic};

/// The core signature that stands: the one that is held, or else this one.
fn first_signature(
    held: PackedOption<ModuleInternedTypeIndex>,
    signature: ModuleInternedTypeIndex,
) -> ModuleInternedTypeIndex
    ensures { result ≡ first_signature (Some held) signature }
{
    match held {
        PackedOption::Some(held) => held,
        PackedOption::None => signature,
    }
}

impl ComponentDfg {
    /// Adds an import of the root.
    pub fn push_import_type(
        &mut self,
        name: Text,
        ty: ComponentExtern,
    ) -> Result<ImportIndex, PushError>
        ensures key { IfOk result (λ key. key.0 ≡ length self.old.import_types) }
        ensures ok { OnOk result (self.new.import_types ≡ self.old.import_types ++ (name, ty) ∷ []) }
        ensures rest { self.new ≡ record self.old { import_types = self.new.import_types } }
        ensures grows { Grows self.old self.new }
        ensures ordered { IsOrdered self.old → IsOrdered self.new }
        ensures full { (result ≡ Err PushError.TooMany) ↔ (4294967295 ≤ length self.old.import_types) }
        ensures err { OnErr result (self.new ≡ self.old) }
    {
        append(&mut self.import_types, (name, ty))
    }

    /// Adds a host item, by its import and the names that lead to it from there.
    pub fn push_import(
        &mut self,
        import: ImportIndex,
        names: Seq<Text>,
    ) -> Result<RuntimeImportIndex, PushError>
        ensures key { IfOk result (λ key. key.0 ≡ length self.old.imports) }
        ensures ok { OnOk result (self.new.imports ≡ self.old.imports ++ (import, names) ∷ []) }
        ensures rest { self.new ≡ record self.old { imports = self.new.imports } }
        ensures grows { Grows self.old self.new }
        ensures ordered { import.0 < length self.old.import_types → IsOrdered self.old → IsOrdered self.new }
        ensures full { (result ≡ Err PushError.TooMany) ↔ (4294967295 ≤ length self.old.imports) }
        ensures err { OnErr result (self.new ≡ self.old) }
    {
        append(&mut self.imports, (import, names))
    }

    /// Adds an imported resource, by its host item.
    pub fn push_imported_resource(
        &mut self,
        import: RuntimeImportIndex,
    ) -> Result<ResourceIndex, PushError>
        ensures key { IfOk result (λ key. key.0 ≡ length self.old.imported_resources) }
        ensures ok { OnOk result (self.new.imported_resources ≡ self.old.imported_resources ++ import ∷ []) }
        ensures rest { self.new ≡ record self.old { imported_resources = self.new.imported_resources } }
        ensures grows { Grows self.old self.new }
        ensures ordered { import.0 < length self.old.imports → IsOrdered self.old → IsOrdered self.new }
        ensures full { (result ≡ Err PushError.TooMany) ↔ (4294967295 ≤ length self.old.imported_resources) }
        ensures err { OnErr result (self.new ≡ self.old) }
    {
        append(&mut self.imported_resources, import)
    }

    /// The number of a memory.
    pub fn push_memory(&mut self, memory: CoreExport<MemoryIndex>) -> Result<MemoryId, PushError>
        ensures held { IfOk result (λ key. slice_get self.new.memories key.0 ≡ Some memory) }
        ensures put { IsPut self.old.memories self.new.memories memory }
        ensures rest { self.new ≡ record self.old { memories = self.new.memories } }
        ensures grows { Grows self.old self.new }
        ensures ordered { IsHeld self.old (memory_def memory) → IsOrdered self.old → IsOrdered self.new }
        ensures full { (result ≡ Err PushError.TooMany) ↔ (4294967295 ≤ length self.old.memories) }
        ensures err { OnErr result (self.new ≡ self.old) }
    {
        intern(&mut self.memories, memory)
    }

    /// The number of a table.
    pub fn push_table(&mut self, table: CoreExport<TableIndex>) -> Result<TableId, PushError>
        ensures held { IfOk result (λ key. slice_get self.new.tables key.0 ≡ Some table) }
        ensures put { IsPut self.old.tables self.new.tables table }
        ensures rest { self.new ≡ record self.old { tables = self.new.tables } }
        ensures grows { Grows self.old self.new }
        ensures ordered { IsHeld self.old (table_def table) → IsOrdered self.old → IsOrdered self.new }
        ensures full { (result ≡ Err PushError.TooMany) ↔ (4294967295 ≤ length self.old.tables) }
        ensures err { OnErr result (self.new ≡ self.old) }
    {
        intern(&mut self.tables, table)
    }

    /// The number of a function that makes room for values.
    pub fn push_realloc(&mut self, func: CoreDef) -> Result<ReallocId, PushError>
        ensures held { IfOk result (λ key. slice_get self.new.reallocs key.0 ≡ Some func) }
        ensures put { IsPut self.old.reallocs self.new.reallocs func }
        ensures rest { self.new ≡ record self.old { reallocs = self.new.reallocs } }
        ensures grows { Grows self.old self.new }
        ensures ordered { IsHeld self.old func → IsOrdered self.old → IsOrdered self.new }
        ensures full { (result ≡ Err PushError.TooMany) ↔ (4294967295 ≤ length self.old.reallocs) }
        ensures err { OnErr result (self.new ≡ self.old) }
    {
        intern(&mut self.reallocs, func)
    }

    /// The number of a function that goes on with asynchronous calls.
    pub fn push_callback(&mut self, func: CoreDef) -> Result<CallbackId, PushError>
        ensures held { IfOk result (λ key. slice_get self.new.callbacks key.0 ≡ Some func) }
        ensures put { IsPut self.old.callbacks self.new.callbacks func }
        ensures rest { self.new ≡ record self.old { callbacks = self.new.callbacks } }
        ensures grows { Grows self.old self.new }
        ensures ordered { IsHeld self.old func → IsOrdered self.old → IsOrdered self.new }
        ensures full { (result ≡ Err PushError.TooMany) ↔ (4294967295 ≤ length self.old.callbacks) }
        ensures err { OnErr result (self.new ≡ self.old) }
    {
        intern(&mut self.callbacks, func)
    }

    /// The number of a function that is called when results are read.
    pub fn push_post_return(&mut self, func: CoreDef) -> Result<PostReturnId, PushError>
        ensures held { IfOk result (λ key. slice_get self.new.post_returns key.0 ≡ Some func) }
        ensures put { IsPut self.old.post_returns self.new.post_returns func }
        ensures rest { self.new ≡ record self.old { post_returns = self.new.post_returns } }
        ensures grows { Grows self.old self.new }
        ensures ordered { IsHeld self.old func → IsOrdered self.old → IsOrdered self.new }
        ensures full { (result ≡ Err PushError.TooMany) ↔ (4294967295 ≤ length self.old.post_returns) }
        ensures err { OnErr result (self.new ≡ self.old) }
    {
        intern(&mut self.post_returns, func)
    }

    /// The number of options.
    pub fn push_options(&mut self, options: CanonicalOptions) -> Result<OptionsId, PushError>
        ensures held { IfOk result (λ key. slice_get self.new.options key.0 ≡ Some options) }
        ensures put { IsPut self.old.options self.new.options options }
        ensures rest { self.new ≡ record self.old { options = self.new.options } }
        ensures grows { Grows self.old self.new }
        ensures ordered { HeldOptions self.old (options_entry options) → IsOrdered self.old → IsOrdered self.new }
        ensures full { (result ≡ Err PushError.TooMany) ↔ (4294967295 ≤ length self.old.options) }
        ensures err { OnErr result (self.new ≡ self.old) }
    {
        intern(&mut self.options, options)
    }

    /// The number of a trampoline with its core signature.
    pub fn push_trampoline(
        &mut self,
        signature: ModuleInternedTypeIndex,
        trampoline: Trampoline,
    ) -> Result<TrampolineIndex, PushError>
        ensures held { IfOk result (λ key. slice_get self.new.trampolines key.0 ≡ Some (signature, trampoline)) }
        ensures put { IsPut self.old.trampolines self.new.trampolines (signature, trampoline) }
        ensures rest { self.new ≡ record self.old { trampolines = self.new.trampolines } }
        ensures grows { Grows self.old self.new }
        ensures ordered { HeldTrampoline self.old (trampoline_entry (signature, trampoline))
            → IsOrdered self.old → IsOrdered self.new }
        ensures full { (result ≡ Err PushError.TooMany) ↔ (4294967295 ≤ length self.old.trampolines) }
        ensures err { OnErr result (self.new ≡ self.old) }
    {
        intern(&mut self.trampolines, (signature, trampoline))
    }

    /// The core signature of an unsafe intrinsic: the one that it has, or else this one, which it has from then on.
    pub fn push_intrinsic(
        &mut self,
        intrinsic: UnsafeIntrinsic,
        signature: ModuleInternedTypeIndex,
    ) -> ModuleInternedTypeIndex
        requires places { length self.old.unsafe_intrinsics ≡ 21 }
        ensures first { result
            ≡ first_signature (slice_get self.old.unsafe_intrinsics (intrinsic_place intrinsic)) signature }
        ensures put { self.new ≡ with_intrinsic self.old (intrinsic_place intrinsic) signature }
        ensures held { HasIntrinsic self.new (intrinsic_place intrinsic) result }
        ensures places { length self.new.unsafe_intrinsics ≡ 21 }
        ensures grows { Grows self.old self.new }
        ensures ordered { IsOrdered self.old → IsOrdered self.new }
    {
        let place = intrinsic.index() as usize;
        let first = first_signature(self.unsafe_intrinsics[place], signature);
        self.unsafe_intrinsics[place] = PackedOption::Some(first);
        first
    }

    /// The number of an adapter.
    pub fn push_adapter(&mut self, adapter: Adapter) -> Result<AdapterId, PushError>
        ensures held { IfOk result (λ key. slice_get self.new.adapters key.0 ≡ Some adapter) }
        ensures put { IsPut self.old.adapters self.new.adapters adapter }
        ensures rest { self.new ≡ record self.old { adapters = self.new.adapters } }
        ensures grows { Grows self.old self.new }
        ensures ordered { HeldAdapter self.old adapter → IsOrdered self.old → IsOrdered self.new }
        ensures full { (result ≡ Err PushError.TooMany) ↔ (4294967295 ≤ length self.old.adapters) }
        ensures err { OnErr result (self.new ≡ self.old) }
    {
        intern(&mut self.adapters, adapter)
    }

    /// Adds a module of adapters with its arguments.
    pub fn push_adapter_module(
        &mut self,
        static_module: StaticModuleIndex,
        args: Seq<CoreDef>,
    ) -> Result<AdapterModuleId, PushError>
        ensures key { IfOk result (λ key. key.0 ≡ length self.old.adapter_modules) }
        ensures ok { OnOk result (self.new.adapter_modules ≡ self.old.adapter_modules ++ (static_module, args) ∷ []) }
        ensures rest { self.new ≡ record self.old { adapter_modules = self.new.adapter_modules } }
        ensures grows { Grows self.old self.new }
        ensures ordered { All (IsHeld self.old) args → IsOrdered self.old → IsOrdered self.new }
        ensures full { (result ≡ Err PushError.TooMany) ↔ (4294967295 ≤ length self.old.adapter_modules) }
        ensures err { OnErr result (self.new ≡ self.old) }
    {
        append(&mut self.adapter_modules, (static_module, args))
    }

    /// Says of the first adapter that isn't grouped which module it is in, and which function of it.
    pub fn push_partitioning(
        &mut self,
        adapter_module: AdapterModuleId,
        func: EntityIndex,
    ) -> Result<AdapterId, PushError>
        ensures key { IfOk result (λ key. key.0 ≡ length self.old.adapter_partitionings) }
        ensures ok { OnOk result (self.new.adapter_partitionings
            ≡ self.old.adapter_partitionings ++ (adapter_module, func) ∷ []) }
        ensures rest { self.new ≡ record self.old { adapter_partitionings = self.new.adapter_partitionings } }
        ensures grows { Grows self.old self.new }
        ensures ordered { adapter_module.0 < length self.old.adapter_modules → IsOrdered self.old → IsOrdered self.new }
        ensures full { (result ≡ Err PushError.TooMany) ↔ (4294967295 ≤ length self.old.adapter_partitionings) }
        ensures err { OnErr result (self.new ≡ self.old) }
    {
        append(&mut self.adapter_partitionings, (adapter_module, func))
    }

    /// Adds an export, which has a name where `exports` or an instance names it.
    pub fn push_export_item(&mut self, item: Export) -> Result<ExportIndex, PushError>
        ensures key { IfOk result (λ key. key.0 ≡ length self.old.export_items) }
        ensures ok { OnOk result (self.new.export_items ≡ self.old.export_items ++ item ∷ []) }
        ensures rest { self.new ≡ record self.old { export_items = self.new.export_items } }
        ensures grows { Grows self.old self.new }
        ensures ordered { HeldExport self.old (length self.old.export_items) item
            → IsOrdered self.old → IsOrdered self.new }
        ensures full { (result ≡ Err PushError.TooMany) ↔ (4294967295 ≤ length self.old.export_items) }
        ensures err { OnErr result (self.new ≡ self.old) }
    {
        append(&mut self.export_items, item)
    }

    /// Names an export of the root.
    pub fn push_export(
        &mut self,
        name: Text,
        item: ExportIndex,
        data_: ComponentExternData,
    ) -> Result<(), NoMemory>
        requires absent { value_of name self.old.exports ≡ None }
        ensures ok { OnOk result (self.new.exports ≡ self.old.exports ++ (name, (item, data_)) ∷ []) }
        ensures rest { self.new ≡ record self.old { exports = self.new.exports } }
        ensures grows { Grows self.old self.new }
        ensures ordered { item.0 < length self.old.export_items → IsOrdered self.old → IsOrdered self.new }
        ensures err { OnErr result (self.new ≡ self.old) }
    {
        self.exports.push(name, (item, data_))
    }

    /// Begins a component instance, and answers its number.
    pub fn push_component_instance(&mut self) -> Result<RuntimeComponentInstanceIndex, PushError>
        ensures key { IfOk result (λ key. key.0 ≡ self.old.num_runtime_component_instances) }
        ensures ok { OnOk result (self.new ≡ with_component_instance self.old) }
        ensures grows { Grows self.old self.new }
        ensures ordered { IsOrdered self.old → IsOrdered self.new }
        ensures full { (result ≡ Err PushError.TooMany) ↔ (4294967295 ≤ self.old.num_runtime_component_instances) }
        ensures err { OnErr result (self.new ≡ self.old) }
    {
        let number = self.num_runtime_component_instances;
        if number < 4294967295 {
            self.num_runtime_component_instances = number + 1;
            Ok(RuntimeComponentInstanceIndex(number))
        } else {
            Err(PushError::TooMany)
        }
    }

    /// Adds a core instance that is made for a component instance, and the side effect that makes it. Where memory runs
    /// out between the two, the graph has the instance alone, and is to be let go.
    pub fn push_instance(
        &mut self,
        instance: Instance,
        owner: RuntimeComponentInstanceIndex,
    ) -> Result<InstanceId, PushError>
        ensures key { IfOk result (λ key. key.0 ≡ length self.old.instances) }
        ensures ok { OnOk result (self.new ≡ with_instance self.old instance owner) }
        ensures grows { Grows self.old self.new }
        ensures ordered { OnOk result (HeldInstance self.old instance → HasBegun self.old owner.0
            → IsOrdered self.old → IsOrdered self.new) }
        ensures full { (result ≡ Err PushError.TooMany) ↔ (4294967295 ≤ length self.old.instances) }
        ensures err { OnErr result ((self.new ≡ self.old)
            ⊎ (self.new ≡ record self.old { instances = self.old.instances ++ instance ∷ [] })) }
    {
        let id = append(&mut self.instances, instance)?;
        self.side_effects.push(SideEffect::Instance(id, owner))?;
        Ok(id)
    }

    /// Adds a resource that the component declares, and the side effect that declares it. Where memory runs out between
    /// the two, the graph has the resource alone, and is to be let go.
    pub fn push_resource(&mut self, resource: Resource) -> Result<DefinedResourceIndex, PushError>
        ensures key { IfOk result (λ key. key.0 ≡ length self.old.resources) }
        ensures ok { OnOk result (self.new ≡ with_resource self.old resource) }
        ensures grows { Grows self.old self.new }
        ensures ordered { OnOk result (HeldResource self.old resource → IsOrdered self.old → IsOrdered self.new) }
        ensures full { (result ≡ Err PushError.TooMany) ↔ (4294967295 ≤ length self.old.resources) }
        ensures err { OnErr result ((self.new ≡ self.old)
            ⊎ (self.new ≡ record self.old { resources = self.old.resources ++ resource ∷ [] })) }
    {
        let number = append(&mut self.resources, resource)?;
        self.side_effects.push(SideEffect::Resource(number))?;
        Ok(number)
    }
}
