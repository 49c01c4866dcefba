//! The types that the generated payloads name.

ghost use Rattle.std.specs.Prelude.{◌≡◌, ◌∷◌, [], IfOk};
ghost use Rattle.pc_generate.specs.Table.{function, instance, signature, table};

use crate::pieces::{name, one};
use pc_entity::{NoMemory, Seq, Text};
use pc_types::{CoreFuncSig, DeclType, Entity, PrimType, TypeTable, ValType, WasmValType};
use std::alloc::Global;

/// A number in, a number out, of a core function.
fn signature(alloc: Global) -> Result<CoreFuncSig, NoMemory>
    ensures { IfOk result (λ s. s ≡ signature) }
{
    Ok(CoreFuncSig {
        params: one(alloc, WasmValType::I32)?,
        results: one(alloc, WasmValType::I32)?,
    })
}

/// A number in, a number out, of a function.
fn function(alloc: Global) -> Result<DeclType, NoMemory>
    ensures { IfOk result (λ e. e ≡ function) }
{
    let number = ValType::Prim(PrimType::U32);
    let param = (Text::copy_of(alloc, "x")?, number);
    Ok(DeclType::Func {
        params: one(alloc, param)?,
        result: Some(number),
        async_: false,
    })
}

/// An instance that exports the function.
fn instance(alloc: Global) -> Result<DeclType, NoMemory>
    ensures { IfOk result (λ e. e ≡ instance) }
{
    let export = (name(alloc)?, Entity::Func(0));
    Ok(DeclType::Instance {
        exports: one(alloc, export)?,
    })
}

/// The type table.
#[tactic(auto, unfolding(crate::specs::Table::table))]
pub(crate) fn table(alloc: Global) -> Result<TypeTable, NoMemory>
    ensures { IfOk result (λ t. t ≡ table) }
{
    let mut types = one(alloc, function(alloc)?)?;
    types.push(DeclType::Module {
        imports: Seq::new(alloc),
        exports: Seq::new(alloc),
    })?;
    types.push(instance(alloc)?)?;
    types.push(DeclType::Instance {
        exports: Seq::new(alloc),
    })?;
    let core_funcs = one(alloc, signature(alloc)?)?;
    Ok(TypeTable { core_funcs, types })
}
