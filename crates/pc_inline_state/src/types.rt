//! The types builder's numbers of function types and of core signatures.

ghost use Rattle.std.specs.Prelude.{◌≡◌, ◌<◌, ◌&&◌, List, None, Option, Some, false, true, length, option_and_then};
ghost use Rattle.std.specs.Prelude.{slice_get, slice_set};
ghost use Rattle.std.specs.Prelude.{IfErr, IfOk};
ghost use Rattle.pc_types.specs.declared.types.TypeDef.{TypeDef};
ghost use Rattle.pc_types.specs.declared.types.TypeDef.TheVariants as def;
ghost use Rattle.pc_types.specs.Record.{has_signature};
ghost use Rattle.pc_types.specs.Table.{is_func, is_instance, is_module, table_fault};
ghost use Rattle.pc_types_lists.specs.Types as builder;
ghost use Rattle.pc_types_lists.specs.Adds.{most_types};
ghost use Rattle.pc_types_builder.specs.Plain.{Layers};
ghost use Rattle.pc_types_builder.specs.Converted.{AreConverted};
ghost use Rattle.pc_types_builder.specs.Trees.{IsEntry};
ghost use Rattle.pc_spec_reading.specs.Types.{has_entry};
ghost use Rattle.pc_inline_state.specs.Adds.{Adds};
ghost use Rattle.pc_inline_state.specs.Prepares.{Converts};
ghost use Rattle.pc_inline_state.specs.Refused.{LacksRoom, LacksRoomOr};
ghost use Rattle.pc_inline_state.specs.Tables.{tables_of};
ghost use Rattle.pc_inline_state.specs.Typed.{AreNumbers, AreOfFunction, AreSignatures, HasNoFunction, IsSignature};
ghost use Rattle.pc_inline_state.specs.declared.error.ItemFault.TheVariants as item_fault;

use crate::context::Context;
use crate::error::{ItemError, ItemFault};
use crate::state::State;
use pc_entity::ModuleInternedTypeIndex;
use pc_types::{
    TypeComponentInstanceIndex, TypeComponentLocalErrorContextTableIndex, TypeDef, TypeError,
    TypeFuncIndex, TypeModuleIndex, TypeTable,
};
use pc_types_builder::{ComponentTypesBuilder, Converted};

/// Whether a number is of a function type.
pub fn is_func_type(table: &TypeTable, ty: u32) -> bool
    ensures { result ≡ has_entry table.now is_func ty }
{
    match table.entry(ty) {
        Some(entry) => entry.is_func(),
        None => false,
    }
}

/// Whether a number is of an instance type.
pub fn is_instance_type(table: &TypeTable, ty: u32) -> bool
    ensures { result ≡ has_entry table.now is_instance ty }
{
    match table.entry(ty) {
        Some(entry) => entry.is_instance(),
        None => false,
    }
}

/// Whether a number is of a module type.
pub fn is_module_type(table: &TypeTable, ty: u32) -> bool
    ensures { result ≡ has_entry table.now is_module ty }
{
    match table.entry(ty) {
        Some(entry) => entry.is_module(),
        None => false,
    }
}

/// The number of a signature, if it has one.
fn number_at(
    signatures: &[Option<ModuleInternedTypeIndex>],
    core: u32,
) -> Option<ModuleInternedTypeIndex>
    ensures { result ≡ option_and_then (λ number. number) (slice_get signatures.now core) }
{
    match signatures.get(core as usize) {
        Some(number) => *number,
        None => None,
    }
}

/// A signature gets its number.
fn note(
    signatures: &mut Vec<Option<ModuleInternedTypeIndex>>,
    core: u32,
    index: ModuleInternedTypeIndex,
)
    ensures { signatures.new.items ≡ slice_set signatures.old.items core (Some index) }
{
    if (core as usize) < signatures.len() {
        signatures[core as usize] = Some(index);
    }
}

impl<'a> Context<'a> {
    /// The builder's number of a function type, by its table number, for a component instance that has begun and has
    /// converted these.
    pub fn func_type(
        &self,
        state: &mut State<'_>,
        converted: &mut Converted,
        ty: u32,
    ) -> Result<TypeFuncIndex, ItemError>
        requires sound { table_fault self.now.table.now ≡ None }
        requires converted { AreConverted state.old.types self.now.table.now converted.old }
        requires begun { state.old.types.resources.current.0 < state.old.graph.num_runtime_component_instances }
        ensures converts { Converts self.now.table.now state.old converted.old state.new converted.new }
        ensures adds { Adds self.now.table.now (most_types self.now.table.now)
            (tables_of state.old) (tables_of state.new) }
        ensures is { IfOk result (λ i. (has_entry self.now.table.now is_func ty ≡ true)
            × IsEntry state.new.types self.now.table.now ty (def.ComponentFunc i)) }
        ensures err { IfErr result
            (LacksRoomOr item_fault.BadType (has_entry self.now.table.now is_func ty ≡ false) state.new) }
    {
        if !is_func_type(self.table, ty) {
            return Err(ItemError::Fault(ItemFault::BadType));
        }
        Ok(state.types.convert_func_with(self.table, ty, converted)?)
    }

    /// The builder's type for a table number, for a component instance that has begun and has converted these.
    pub fn entry_type(
        &self,
        state: &mut State<'_>,
        converted: &mut Converted,
        n: u32,
    ) -> Result<TypeDef, ItemError>
        requires sound { table_fault self.now.table.now ≡ None }
        requires converted { AreConverted state.old.types self.now.table.now converted.old }
        requires begun { state.old.types.resources.current.0 < state.old.graph.num_runtime_component_instances }
        ensures converts { Converts self.now.table.now state.old converted.old state.new converted.new }
        ensures adds { Adds self.now.table.now (most_types self.now.table.now)
            (tables_of state.old) (tables_of state.new) }
        ensures is { IfOk result (λ d. IsEntry state.new.types self.now.table.now n d) }
        ensures err { IfErr result
            (LacksRoomOr item_fault.BadType (slice_get self.now.table.now.types n ≡ None) state.new) }
    {
        Ok(state.types.convert_type_with(self.table, n, converted)?)
    }

    /// The builder's number of an instance type, by its table number.
    pub fn instance_type(
        &self,
        state: &mut State<'_>,
        converted: &mut Converted,
        ty: u32,
    ) -> Result<TypeComponentInstanceIndex, ItemError>
        requires sound { table_fault self.now.table.now ≡ None }
        requires converted { AreConverted state.old.types self.now.table.now converted.old }
        requires begun { state.old.types.resources.current.0 < state.old.graph.num_runtime_component_instances }
        requires there { has_entry self.now.table.now is_instance ty ≡ true }
        ensures converts { Converts self.now.table.now state.old converted.old state.new converted.new }
        ensures adds { Adds self.now.table.now (most_types self.now.table.now)
            (tables_of state.old) (tables_of state.new) }
        ensures is { IfOk result (λ i. IsEntry state.new.types self.now.table.now ty (def.ComponentInstance i)) }
        ensures err { IfErr result (LacksRoom state.new) }
    {
        match self.entry_type(state, converted, ty)? {
            TypeDef::ComponentInstance(i) => Ok(i),
            _ => unreachable!(),
        }
    }

    /// The builder's number of a module type, by its table number.
    pub fn module_type(
        &self,
        state: &mut State<'_>,
        converted: &mut Converted,
        ty: u32,
    ) -> Result<TypeModuleIndex, ItemError>
        requires sound { table_fault self.now.table.now ≡ None }
        requires converted { AreConverted state.old.types self.now.table.now converted.old }
        requires begun { state.old.types.resources.current.0 < state.old.graph.num_runtime_component_instances }
        requires there { has_entry self.now.table.now is_module ty ≡ true }
        ensures converts { Converts self.now.table.now state.old converted.old state.new converted.new }
        ensures adds { Adds self.now.table.now (most_types self.now.table.now)
            (tables_of state.old) (tables_of state.new) }
        ensures is { IfOk result (λ i. IsEntry state.new.types self.now.table.now ty (def.Module i)) }
        ensures err { IfErr result (LacksRoom state.new) }
    {
        match self.entry_type(state, converted, ty)? {
            TypeDef::Module(i) => Ok(i),
            _ => unreachable!(),
        }
    }

    /// The builder's number of the error contexts of a component instance that has begun.
    pub fn error_contexts(
        &self,
        state: &mut State<'_>,
    ) -> Result<TypeComponentLocalErrorContextTableIndex, ItemError>
        requires begun { state.old.types.resources.current.0 < state.old.graph.num_runtime_component_instances }
        ensures converts { (done : Layers)
            → Converts self.now.table.now state.old done state.new done }
        ensures adds { Adds self.now.table.now 1 (tables_of state.old) (tables_of state.new) }
        ensures is { IfOk result (λ i. slice_get state.new.types.error_context_tables i.0
            ≡ Some (record { instance = state.old.types.resources.current })) }
        ensures err { IfErr result (LacksRoom state.new) }
    {
        Ok(state.types.error_context_table_type()?)
    }

    /// The builder's number of a core signature, by its table number.
    pub fn signature(
        &self,
        state: &mut State<'_>,
        core: u32,
    ) -> Result<ModuleInternedTypeIndex, ItemError>
        requires numbers { AreNumbers state.old.types self.now.table.now state.old.numbers }
        ensures converts { (done : Layers)
            → Converts self.now.table.now state.old done state.new done }
        ensures adds { Adds self.now.table.now 0 (tables_of state.old) (tables_of state.new) }
        ensures is { IfOk result (λ i. IsSignature state.new.types self.now.table.now core i) }
        ensures err { IfErr result
            (LacksRoomOr item_fault.BadType (slice_get self.now.table.now.core_funcs core ≡ None) state.new) }
    {
        if let Some(index) = number_at(state.numbers.signatures.as_slice(), core) {
            return Ok(index);
        }
        let index = state.types.core_sig(self.table, core)?;
        note(&mut state.numbers.signatures, core, index);
        Ok(index)
    }

    /// The builder's numbers of the type and of the core signature of a function, for a component instance that has
    /// begun and has converted these types.
    pub fn function_types(
        &self,
        state: &mut State<'_>,
        converted: &mut Converted,
        ty: u32,
        core: u32,
    ) -> Result<(TypeFuncIndex, ModuleInternedTypeIndex), ItemError>
        requires sound { table_fault self.now.table.now ≡ None }
        requires numbers { AreNumbers state.old.types self.now.table.now state.old.numbers }
        requires converted { AreConverted state.old.types self.now.table.now converted.old }
        requires begun { state.old.types.resources.current.0 < state.old.graph.num_runtime_component_instances }
        ensures converts { Converts self.now.table.now state.old converted.old state.new converted.new }
        ensures adds { Adds self.now.table.now (most_types self.now.table.now)
            (tables_of state.old) (tables_of state.new) }
        ensures are { IfOk result (λ r. AreOfFunction state.new.types self.now.table.now ty core r.0 r.1) }
        ensures err { IfErr result (LacksRoomOr item_fault.BadType
            (HasNoFunction self.now.table.now ty core) state.new) }
    {
        let ty = self.func_type(state, converted, ty)?;
        let core_type = self.signature(state, core)?;
        Ok((ty, core_type))
    }
}
