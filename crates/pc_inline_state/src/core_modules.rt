//! The core modules of a program: the imports of each are gone through once, and how wide a memory is is then known
//! without a scan.

ghost use Rattle.std.specs.Prelude.{◌≡◌, slice_get, option_and_then, IfOk};
ghost use Rattle.std.specs.Option.{option_copied};
ghost use Rattle.std.specs.List.{filter_map};
ghost use Rattle.pc_types.specs.declared.module_record.ModuleRecord.{ModuleRecord};
ghost use Rattle.pc_types.specs.Record.{import_width, memory_widths};

use pc_entity::{MemoryIndex, NoMemory, Seq, StaticModuleIndex, Text};
use pc_types::{CoreEntity, ModuleRecord, SharedRecord};
use std::alloc::Global;
use std::marker::Model;

/// What a list has for a module.
fn at_module<T>(entries: &[T], core_module: StaticModuleIndex) -> Option<&T>
    ensures { option_copied result ≡ slice_get entries.now core_module.0 }
{
    entries.get(core_module.0 as usize)
}

fn width_at(widths: &Seq<bool>, memory: MemoryIndex) -> Option<bool>
    ensures { result ≡ slice_get widths.now memory.0 }
{
    widths.as_slice().get(memory.0 as usize).copied()
}

/// Whether each imported memory is 64-bit, in order.
fn imported_widths(
    alloc: Global,
    imports: &[(Text, Text, CoreEntity)],
) -> Result<Seq<bool>, NoMemory>
    ensures { IfOk result (λ widths. widths ≡ filter_map import_width imports.now) }
{
    let mut widths = Seq::new(alloc);
    for import in imports {
        if let Some(wide) = import.2.memory64() {
            widths.push(wide)?;
        }
    }
    Ok(widths)
}

/// Whether each memory of a module is 64-bit, the imported ones first.
fn memory_widths(alloc: Global, record_: &ModuleRecord) -> Result<Seq<bool>, NoMemory>
    ensures { IfOk result (λ widths. widths ≡ memory_widths record_.now) }
{
    let mut widths = imported_widths(alloc, record_.imports.as_slice())?;
    for wide in record_.memories.as_slice() {
        widths.push(*wide)?;
    }
    Ok(widths)
}

/// The core modules of a program. A contract sees their records.
#[derive(Drop)]
pub struct CoreModules<'a> {
    records: &'a [SharedRecord],
    memories: Vec<Seq<bool>>,
}

impl<'a> Model for CoreModules<'a> {
    ghost use Rattle.std.specs.Prelude.{List};
    ghost use Rattle.std.specs.List.{AllZip};
    ghost use Rattle.pc_types.specs.declared.module_record.ModuleRecord.{ModuleRecord};
    ghost use Rattle.pc_inline_state.specs.Index.{HasMemories};

    ghost Value = { List ModuleRecord };

    ghost view = { λ m. m.records.now };

    ghost invariant = { λ m. AllZip HasMemories m.records.now m.memories.items };
}

impl<'a> CoreModules<'a> {
    pub fn new(alloc: Global, records: &'a [SharedRecord]) -> Result<CoreModules<'a>, NoMemory>
        ensures { IfOk result (λ modules. modules ≡ records.now) }
    {
        let mut memories = Vec::with_capacity(alloc, records.len())?;
        for shared in records {
            memories.push(memory_widths(alloc, shared.get())?)?;
        }
        Ok(CoreModules { records, memories })
    }

    /// The record of a module.
    pub fn record_(&self, core_module: StaticModuleIndex) -> Option<&ModuleRecord>
        ensures { option_copied result ≡ slice_get self.now core_module.0 }
    {
        match self.records.get(core_module.0 as usize) {
            Some(record_) => Some(record_.get()),
            None => None,
        }
    }

    /// Whether a memory of a module is 64-bit, if the module has it.
    pub fn memory64(&self, core_module: StaticModuleIndex, memory: MemoryIndex) -> Option<bool>
        ensures { result ≡ option_and_then (λ (r : ModuleRecord). slice_get (memory_widths r) memory.0)
            (slice_get self.now core_module.0) }
    {
        match at_module(self.memories.as_slice(), core_module) {
            Some(widths) => width_at(widths, memory),
            None => None,
        }
    }
}
