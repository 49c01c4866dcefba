//! As what a module imports what an adapter needs.

ghost use Rattle.std.specs.Prelude.{◌≡◌, ◌++◌, IfOk, OnOk, is_some, replicate};
ghost use Rattle.pc_adapt_modules.specs.Entities.{entities_for, first_entities, function_if, has_realloc};
ghost use Rattle.pc_adapt_modules.specs.Entities.{memory_entities, side_entities};

use pc_dfg::{Adapter, AdapterOptions, DataModel};
use pc_entity::{ModuleInternedTypeIndex, NoMemory};
use pc_types::CoreEntity;
use std::alloc::Global;

/// A function of a core signature.
fn function(signature: ModuleInternedTypeIndex) -> CoreEntity
    ensures { result ≡ CoreEntity.Func signature.0 }
{
    CoreEntity::Func(signature.0)
}

/// Adds a function, where it is there.
fn put_function_if(
    entities: &mut Vec<CoreEntity>,
    there: bool,
    signature: ModuleInternedTypeIndex,
) -> Result<(), NoMemory>
    ensures { OnOk result (entities.new.items ≡ entities.old.items ++ function_if there signature) }
{
    if there {
        entities.push(function(signature))?;
        return Ok(());
    }
    Ok(())
}

/// Adds the memory of a side, if it has one.
fn put_memory(entities: &mut Vec<CoreEntity>, model: &DataModel) -> Result<(), NoMemory>
    ensures { OnOk result (entities.new.items ≡ entities.old.items ++ memory_entities model.now) }
{
    match model {
        DataModel::Gc {} => Ok(()),
        DataModel::LinearMemory { memory, .. } => match memory {
            Some(memory) => {
                entities.push(CoreEntity::Memory { memory64: memory.1 })?;
                Ok(())
            }
            None => Ok(()),
        },
    }
}

/// Whether a side has a realloc.
fn with_realloc(model: &DataModel) -> bool
    ensures { result ≡ has_realloc model.now }
{
    match model {
        DataModel::Gc {} => false,
        DataModel::LinearMemory { realloc, .. } => realloc.is_some(),
    }
}

/// Adds what the options of a side hold.
fn put_side(
    entities: &mut Vec<CoreEntity>,
    signature: ModuleInternedTypeIndex,
    side: &AdapterOptions,
) -> Result<(), NoMemory>
    ensures { OnOk result (entities.new.items ≡ entities.old.items ++ side_entities signature side.now) }
{
    put_memory(entities, &side.data_model)?;
    put_function_if(entities, with_realloc(&side.data_model), signature)?;
    put_function_if(entities, side.callback.is_some(), signature)?;
    put_function_if(entities, side.post_return.is_some(), signature)
}

/// As what is imported what an adapter calls, the flags of both sides, and what the options of both sides hold.
fn first_of(alloc: Global, adapter: &Adapter) -> Result<Vec<CoreEntity>, NoMemory>
    ensures { IfOk result (λ es. es.items ≡ first_entities adapter.now) }
{
    let mut entities: Vec<CoreEntity> = Vec::new(alloc);
    entities.push(function(adapter.lift_options.core_type))?;
    entities.push(CoreEntity::Global)?;
    entities.push(CoreEntity::Global)?;
    let signature = adapter.lower_options.core_type;
    put_side(&mut entities, signature, &adapter.lift_options)?;
    put_side(&mut entities, signature, &adapter.lower_options)?;
    Ok(entities)
}

/// Adds as many functions of a core signature.
fn put_functions(
    entities: &mut Vec<CoreEntity>,
    many: usize,
    signature: ModuleInternedTypeIndex,
) -> Result<(), NoMemory>
    ensures { OnOk result
        (entities.new.items ≡ entities.old.items ++ replicate many (CoreEntity.Func signature.0)) }
{
    for place in 0..many {
        entities.push(function(signature))?;
    }
    Ok(())
}

/// As what the imports of an adapter are imported, of which there are this many. All behind what the options hold are
/// functions under the core signature of the lowering.
pub fn entities_of(
    alloc: Global,
    adapter: &Adapter,
    many: usize,
) -> Result<Vec<CoreEntity>, NoMemory>
    ensures { IfOk result (λ es. es.items ≡ entities_for adapter.now many) }
{
    let mut entities = first_of(alloc, adapter)?;
    let missing = many.saturating_sub(entities.len());
    put_functions(&mut entities, missing, adapter.lower_options.core_type)?;
    Ok(entities)
}
