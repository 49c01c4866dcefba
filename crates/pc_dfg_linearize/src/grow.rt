//! What a plan gets more of while it is made: each function adds one entry, and notes its number.
//!
//! A numbered list has 4294967294 entries at most, so that no number is the one that stands for none.

ghost use Rattle.std.specs.Prelude.{◌≡◌, ◌≤◌, ◌<◌, ◌+◌, ◌↔◌, ◌++◌, ◌∷◌, [], length, OnOk, IfOk, Ok, Err};
ghost use Rattle.pc_spec_plan.specs.PlanView as plan;
ghost use Rattle.pc_info.specs.declared.initializer.GlobalInitializer.TheVariants as init;
ghost use Rattle.pc_dfg_linearize.specs.declared.error.FinishError.TheVariants as refusal;
ghost use Rattle.pc_dfg_linearize.specs.Added.{add_slot, add_lowering, add_module, add_options, add_trampoline};
ghost use Rattle.pc_dfg_linearize.specs.Added.{note_intrinsic};

use crate::FinishError;
use crate::listed::append;
use crate::state::Finish;
use pc_dfg::{AdapterModuleId, CallbackId, MemoryId, OptionsId, PostReturnId, ReallocId, TableId};
use pc_entity::{
    LoweredIndex, MemoryIndex, ModuleInternedTypeIndex, PackedOption, RuntimeCallbackIndex,
    RuntimeImportIndex, RuntimeInstanceIndex, RuntimeMemoryIndex, RuntimePostReturnIndex,
    RuntimeReallocIndex, RuntimeTableIndex, Seq, StaticModuleIndex, TableIndex, TrampolineIndex,
};
use pc_info::{
    CanonicalOptions, CoreDef, CoreExport, ExtractCallback, ExtractMemory, ExtractPostReturn,
    ExtractRealloc, ExtractTable, GlobalInitializer, InstantiateModule, Trampoline,
};
use pc_types::UnsafeIntrinsic;

/// The most entries of a numbered list.
const MAX_ENTRIES: u32 = 4294967294;

/// The number of one more entry, where there are so many.
pub fn next(entries: u32) -> Result<u32, FinishError>
    ensures ok { IfOk result (λ n. (n ≡ entries) × (n < 4294967294)) }
    ensures full { (result ≡ Err refusal.TooMany) ↔ (4294967294 ≤ entries) }
{
    if entries < MAX_ENTRIES {
        Ok(entries)
    } else {
        Err(FinishError::TooMany)
    }
}

/// Adds a step, and counts it among those of its kind.
pub fn add_step(
    steps: &mut Seq<GlobalInitializer>,
    count: &mut u32,
    step: GlobalInitializer,
) -> Result<(), FinishError>
    ensures added { OnOk result (steps.new ≡ steps.old ++ step ∷ []) }
    ensures counted { OnOk result (count.new ≡ count.old + 1) }
    ensures full { result ≡ Err refusal.TooMany → 4294967294 ≤ count.old }
{
    let number = next(*count)?;
    steps.push(step)?;
    *count = number + 1;
    Ok(())
}

impl Finish {
    /// Fills a slot with a memory.
    pub fn fill_memory(
        &mut self,
        entry: MemoryId,
        export: CoreExport<MemoryIndex>,
    ) -> Result<(), FinishError>
        requires held { entry.0 < length self.old.numbers.memories }
        ensures ok { OnOk result (self.new ≡ add_slot plan.memory entry.0
            (init.ExtractMemory (record { index = record { 0 = self.old.counts.memories }; export = export }))
            self.old) }
        ensures full { (result ≡ Err refusal.TooMany) → 4294967294 ≤ self.old.counts.memories }
    {
        let index = RuntimeMemoryIndex(self.counts.memories);
        let step = GlobalInitializer::ExtractMemory(ExtractMemory { index, export });
        add_step(&mut self.steps, &mut self.counts.memories, step)?;
        self.numbers.memories.note(entry, index);
        Ok(())
    }

    /// Fills a slot with a table.
    pub fn fill_table(
        &mut self,
        entry: TableId,
        export: CoreExport<TableIndex>,
    ) -> Result<(), FinishError>
        requires held { entry.0 < length self.old.numbers.tables }
        ensures ok { OnOk result (self.new ≡ add_slot plan.table entry.0
            (init.ExtractTable (record { index = record { 0 = self.old.counts.tables }; export = export })) self.old) }
        ensures full { (result ≡ Err refusal.TooMany) → 4294967294 ≤ self.old.counts.tables }
    {
        let index = RuntimeTableIndex(self.counts.tables);
        let step = GlobalInitializer::ExtractTable(ExtractTable { index, export });
        add_step(&mut self.steps, &mut self.counts.tables, step)?;
        self.numbers.tables.note(entry, index);
        Ok(())
    }

    /// Fills a slot with a function that makes room for values.
    pub fn fill_realloc(&mut self, entry: ReallocId, def: CoreDef) -> Result<(), FinishError>
        requires held { entry.0 < length self.old.numbers.reallocs }
        ensures ok { OnOk result (self.new ≡ add_slot plan.realloc entry.0
            (init.ExtractRealloc (record { index = record { 0 = self.old.counts.reallocs }; def = def })) self.old) }
        ensures full { (result ≡ Err refusal.TooMany) → 4294967294 ≤ self.old.counts.reallocs }
    {
        let index = RuntimeReallocIndex(self.counts.reallocs);
        let step = GlobalInitializer::ExtractRealloc(ExtractRealloc { index, def });
        add_step(&mut self.steps, &mut self.counts.reallocs, step)?;
        self.numbers.reallocs.note(entry, index);
        Ok(())
    }

    /// Fills a slot with a function that goes on with an asynchronous call.
    pub fn fill_callback(&mut self, entry: CallbackId, def: CoreDef) -> Result<(), FinishError>
        requires held { entry.0 < length self.old.numbers.callbacks }
        ensures ok { OnOk result (self.new ≡ add_slot plan.callback entry.0
            (init.ExtractCallback (record { index = record { 0 = self.old.counts.callbacks }; def = def })) self.old) }
        ensures full { (result ≡ Err refusal.TooMany) → 4294967294 ≤ self.old.counts.callbacks }
    {
        let index = RuntimeCallbackIndex(self.counts.callbacks);
        let step = GlobalInitializer::ExtractCallback(ExtractCallback { index, def });
        add_step(&mut self.steps, &mut self.counts.callbacks, step)?;
        self.numbers.callbacks.note(entry, index);
        Ok(())
    }

    /// Fills a slot with a function that is called when results are read.
    pub fn fill_post_return(&mut self, entry: PostReturnId, def: CoreDef) -> Result<(), FinishError>
        requires held { entry.0 < length self.old.numbers.post_returns }
        ensures ok { OnOk result (self.new ≡ add_slot plan.post_return entry.0
            (init.ExtractPostReturn (record { index = record { 0 = self.old.counts.post_returns }; def = def }))
            self.old) }
        ensures full { (result ≡ Err refusal.TooMany) → 4294967294 ≤ self.old.counts.post_returns }
    {
        let index = RuntimePostReturnIndex(self.counts.post_returns);
        let step = GlobalInitializer::ExtractPostReturn(ExtractPostReturn { index, def });
        add_step(&mut self.steps, &mut self.counts.post_returns, step)?;
        self.numbers.post_returns.note(entry, index);
        Ok(())
    }

    /// Lowers a host item for a trampoline.
    pub fn lower_import(
        &mut self,
        trampoline: TrampolineIndex,
        import: RuntimeImportIndex,
    ) -> Result<(), FinishError>
        requires held { trampoline.0 < length self.old.numbers.lowerings }
        ensures ok { OnOk result (self.new ≡ add_lowering trampoline.0 import self.old) }
        ensures full { (result ≡ Err refusal.TooMany) → 4294967294 ≤ self.old.counts.lowerings }
    {
        let index = LoweredIndex(self.counts.lowerings);
        let step = GlobalInitializer::LowerImport { index, import };
        add_step(&mut self.steps, &mut self.counts.lowerings, step)?;
        self.numbers.lowerings.note(trampoline, index);
        Ok(())
    }

    /// Makes the instance of a module of adapters, which is made for no component instance.
    pub fn instantiate_adapters(
        &mut self,
        entry: AdapterModuleId,
        module: StaticModuleIndex,
        args: Seq<CoreDef>,
    ) -> Result<(), FinishError>
        requires held { entry.0 < length self.old.numbers.adapter_modules }
        ensures ok { OnOk result (self.new ≡ add_module entry.0 «module» args self.old) }
        ensures full { (result ≡ Err refusal.TooMany) → 4294967294 ≤ self.old.counts.instances }
    {
        let index = RuntimeInstanceIndex(self.counts.instances);
        let made = InstantiateModule::Static(module, args);
        let step = GlobalInitializer::InstantiateModule(made, None);
        add_step(&mut self.steps, &mut self.counts.instances, step)?;
        self.numbers.adapter_modules.note(entry, index);
        Ok(())
    }

    /// Adds an options entry.
    pub fn add_options(
        &mut self,
        entry: OptionsId,
        options: CanonicalOptions,
    ) -> Result<(), FinishError>
        requires held { entry.0 < length self.old.numbers.options }
        ensures ok { OnOk result (self.new ≡ add_options entry.0 options self.old) }
        ensures full { (result ≡ Err refusal.TooMany) → 4294967294 ≤ length self.old.options }
    {
        let number = append(&mut self.options, options)?;
        self.numbers.options.note(entry, number);
        Ok(())
    }

    /// Adds a trampoline, under its core signature.
    pub fn add_trampoline(
        &mut self,
        entry: TrampolineIndex,
        signature: ModuleInternedTypeIndex,
        trampoline: Trampoline,
    ) -> Result<(), FinishError>
        requires held { entry.0 < length self.old.numbers.trampolines }
        requires signed { length self.old.signatures ≡ length self.old.trampolines }
        ensures ok { OnOk result (self.new ≡ add_trampoline entry.0 signature trampoline self.old) }
        ensures full { (result ≡ Err refusal.TooMany) → 4294967294 ≤ length self.old.trampolines }
    {
        append(&mut self.signatures, signature)?;
        let number = append(&mut self.trampolines, trampoline)?;
        self.numbers.trampolines.note(entry, number);
        Ok(())
    }

    /// Notes the core signature of an intrinsic.
    pub fn note_intrinsic(&mut self, intrinsic: UnsafeIntrinsic, signature: ModuleInternedTypeIndex)
        requires all { length self.old.intrinsics ≡ 21 }
        ensures { self.new ≡ note_intrinsic intrinsic signature self.old }
    {
        self.intrinsics[intrinsic.index() as usize] = PackedOption::Some(signature);
    }
}
