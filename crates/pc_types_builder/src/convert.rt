//! Entries of a type table, converted with all that they lead to.
//!
//! An entry names earlier entries alone. So the entries that are needed are found first, from the last to the first,
//! and then converted in ascending order, each once: what an entry names has its type before it. The time is that of a
//! sort of what the entry leads to, whatever tree it stands for, and nothing recurses. A caller that converts many
//! entries keeps what was converted (`Converted`), and all conversions together then meet each entry once.

ghost use Rattle.std.specs.Prelude.{◌≡◌, ◌<◌, ◌∷◌, [], ℕ, true, false, None, Some, Err, All, IfOk, OnErr, length};
ghost use Rattle.std.specs.Prelude.{slice_get};
ghost use Rattle.pc_types.specs.declared.parsed.CoreFuncSig.{CoreFuncSig};
ghost use Rattle.pc_types.specs.declared.type_index.TypeComponentInstanceIndex.{TypeComponentInstanceIndex};
ghost use Rattle.pc_types.specs.declared.type_index.TypeComponentLocalErrorContextTableIndex.{TypeComponentLocalErrorContextTableIndex};
ghost use Rattle.pc_types.specs.declared.type_index.TypeFuncIndex.{TypeFuncIndex};
ghost use Rattle.pc_types.specs.declared.type_index.TypeModuleIndex.{TypeModuleIndex};
ghost use Rattle.pc_types.specs.declared.types.InterfaceType.{InterfaceType};
ghost use Rattle.pc_types.specs.declared.types.TypeDef.{TypeDef};
ghost use Rattle.pc_types.specs.declared.types.TypeDef.TheVariants as def;
ghost use Rattle.pc_types.specs.Record.{has_signature};
ghost use Rattle.pc_types.specs.Table.{is_defined_type, is_func, is_instance, is_module, is_some_and, is_sound_entity};
ghost use Rattle.pc_types.specs.Table.{is_sound_val, is_value, table_fault};
ghost use Rattle.pc_types_lists.specs.Types.{Grows, HasNumber, IsTooFullFor};
ghost use Rattle.pc_types_lists.specs.Adds.{AddsTypes, HasNoPlaceFor, most_types};
ghost use Rattle.pc_types_lists.specs.Held.{IsHeld};
ghost use Rattle.pc_types_lists.specs.Known.{resource_of};
ghost use Rattle.pc_types_convert.specs.Entries.{handles_of};
ghost use Rattle.pc_types_convert.specs.Parts.{IsErrorContext};
ghost use Rattle.pc_types_builder.specs.Trees.{IsEntity, IsEntry, IsValue};
ghost use Rattle.pc_types_builder.specs.Converted.{AreConverted};
ghost use Rattle.pc_types_convert.specs.Needed.{IsAmong, entity_parts};
ghost use Rattle.pc_types_lists.specs.Interned.{IsPut};
ghost use Rattle.pc_types_builder.specs.Asked.{AddsAsked, AddsValue};

use crate::steps::{entry_type, entry_with};
use crate::{ComponentTypesBuilder, Converted};
use pc_entity::{ModuleInternedTypeIndex, Seq};
use pc_types::{
    Entity, InterfaceType, TypeComponentInstanceIndex, TypeComponentLocalErrorContextTableIndex,
    TypeDef, TypeError, TypeFuncIndex, TypeModuleIndex, TypeResourceTable, TypeResourceTableIndex,
    TypeTable, TypeTuple, TypeTupleIndex, ValType,
};
use pc_types_convert::{error_contexts, primitive, signature_at};

impl ComponentTypesBuilder {
    /// The type that entry `n` of the table is.
    ///
    /// `BadNumber` where there is no entry `n`, and `TooMany` where a list has no place for the type, or for one that
    /// it needs. The types that were held keep their numbers, whatever is answered.
    #[tactic(auto, using(crate::proofs::AskedLemmas::asked_none, crate::proofs::CountLemmas::none_few))]
    pub fn convert_type(&mut self, table: &TypeTable, n: u32) -> Result<TypeDef, TypeError>
        requires sound { table_fault table.now ≡ None }
        ensures ok { IfOk result (λ d. IsEntry self.new table.now n d) }
        ensures grows { Grows self.old self.new }
        ensures adds { AddsAsked table.now n self.old self.new }
        ensures same { result ≡ Err TypeError.BadNumber → self.new ≡ self.old }
        ensures bad { result ≡ Err TypeError.BadNumber → slice_get table.now.types n ≡ None }
        ensures missing { slice_get table.now.types n ≡ None → result ≡ Err TypeError.BadNumber }
        ensures full { result ≡ Err TypeError.TooMany
            → IsTooFullFor self.new (λ b. (d : TypeDef) × IsEntry b table.now n d) }
        ensures few { AddsTypes table.now (most_types table.now) self.old self.new }
        ensures before { result ≡ Err TypeError.TooMany → HasNoPlaceFor table.now self.old }
    {
        if (n as usize) < table.types.len() {
            Ok(entry_type(&mut self.interned, table, n)?)
        } else {
            Err(TypeError::BadNumber)
        }
    }

    /// The type that entry `n` of the table is, for a caller that keeps what was converted: what this call converts
    /// goes among it, and no entry is converted twice. Refused as `convert_type` is.
    #[tactic(auto, using(crate::proofs::AskedLemmas::asked_none, crate::proofs::CountLemmas::none_few))]
    pub fn convert_type_with(
        &mut self,
        table: &TypeTable,
        n: u32,
        converted: &mut Converted,
    ) -> Result<TypeDef, TypeError>
        requires sound { table_fault table.now ≡ None }
        requires converted { AreConverted self.old table.now converted.old }
        ensures converted { AreConverted self.new table.now converted.new }
        ensures ok { IfOk result (λ d. IsEntry self.new table.now n d) }
        ensures grows { Grows self.old self.new }
        ensures adds { AddsAsked table.now n self.old self.new }
        ensures same { result ≡ Err TypeError.BadNumber → self.new ≡ self.old }
        ensures bad { result ≡ Err TypeError.BadNumber → slice_get table.now.types n ≡ None }
        ensures missing { slice_get table.now.types n ≡ None → result ≡ Err TypeError.BadNumber }
        ensures full { result ≡ Err TypeError.TooMany
            → IsTooFullFor self.new (λ b. (d : TypeDef) × IsEntry b table.now n d) }
        ensures few { AddsTypes table.now (most_types table.now) self.old self.new }
        ensures before { result ≡ Err TypeError.TooMany → HasNoPlaceFor table.now self.old }
    {
        if (n as usize) >= table.types.len() {
            return Err(TypeError::BadNumber);
        }
        Ok(entry_with(&mut self.interned, table, n, converted)?)
    }

    /// The number of the function type that is entry `n` of the table.
    ///
    /// `BadNumber` where there is no entry `n`, or it is no function; `TooMany` as of `convert_type`.
    #[tactic(auto, using(crate::proofs::AskedLemmas::asked_none, crate::proofs::CountLemmas::none_few))]
    pub fn convert_func(&mut self, table: &TypeTable, n: u32) -> Result<TypeFuncIndex, TypeError>
        requires sound { table_fault table.now ≡ None }
        ensures ok { IfOk result
            (λ i. (is_some_and is_func (slice_get table.now.types n) ≡ true) × (i.0 < length self.new.funcs)) }
        ensures tree { IfOk result (λ i. IsEntry self.new table.now n (def.ComponentFunc i)) }
        ensures grows { Grows self.old self.new }
        ensures adds { AddsAsked table.now n self.old self.new }
        ensures same { result ≡ Err TypeError.BadNumber → self.new ≡ self.old }
        ensures bad { result ≡ Err TypeError.BadNumber → is_some_and is_func (slice_get table.now.types n) ≡ false }
        ensures missing { is_some_and is_func (slice_get table.now.types n) ≡ false → result ≡ Err TypeError.BadNumber }
        ensures full { result ≡ Err TypeError.TooMany → (is_some_and is_func (slice_get table.now.types n) ≡ true)
            × IsTooFullFor self.new (λ b. (i : TypeFuncIndex) × IsEntry b table.now n (def.ComponentFunc i)) }
        ensures few { AddsTypes table.now (most_types table.now) self.old self.new }
        ensures before { result ≡ Err TypeError.TooMany → HasNoPlaceFor table.now self.old }
    {
        if !Entity::Func(n).is_sound(table.types.as_slice()) {
            return Err(TypeError::BadNumber);
        }
        let mut converted = Converted::new(self.interned.alloc(), table);
        self.convert_func_with(table, n, &mut converted)
    }

    /// The number of the function type that is entry `n` of the table, for a caller that keeps what was converted: what
    /// this call converts goes among it. Refused as `convert_func` is.
    #[tactic(auto, using(crate::proofs::AskedLemmas::asked_none, crate::proofs::CountLemmas::none_few))]
    pub fn convert_func_with(
        &mut self,
        table: &TypeTable,
        n: u32,
        converted: &mut Converted,
    ) -> Result<TypeFuncIndex, TypeError>
        requires sound { table_fault table.now ≡ None }
        requires converted { AreConverted self.old table.now converted.old }
        ensures converted { AreConverted self.new table.now converted.new }
        ensures ok { IfOk result
            (λ i. (is_some_and is_func (slice_get table.now.types n) ≡ true) × (i.0 < length self.new.funcs)) }
        ensures tree { IfOk result (λ i. IsEntry self.new table.now n (def.ComponentFunc i)) }
        ensures grows { Grows self.old self.new }
        ensures adds { AddsAsked table.now n self.old self.new }
        ensures same { result ≡ Err TypeError.BadNumber → self.new ≡ self.old }
        ensures bad { result ≡ Err TypeError.BadNumber → is_some_and is_func (slice_get table.now.types n) ≡ false }
        ensures missing { is_some_and is_func (slice_get table.now.types n) ≡ false → result ≡ Err TypeError.BadNumber }
        ensures full { result ≡ Err TypeError.TooMany → (is_some_and is_func (slice_get table.now.types n) ≡ true)
            × IsTooFullFor self.new (λ b. (i : TypeFuncIndex) × IsEntry b table.now n (def.ComponentFunc i)) }
        ensures few { AddsTypes table.now (most_types table.now) self.old self.new }
        ensures before { result ≡ Err TypeError.TooMany → HasNoPlaceFor table.now self.old }
    {
        if !Entity::Func(n).is_sound(table.types.as_slice()) {
            return Err(TypeError::BadNumber);
        }
        match entry_with(&mut self.interned, table, n, converted)? {
            TypeDef::ComponentFunc(i) => Ok(i),
            _ => unreachable!(),
        }
    }

    /// The number of the instance type that is entry `n` of the table. It is refused as a function is.
    #[tactic(auto, using(crate::proofs::AskedLemmas::asked_none, crate::proofs::CountLemmas::none_few))]
    pub fn convert_instance(
        &mut self,
        table: &TypeTable,
        n: u32,
    ) -> Result<TypeComponentInstanceIndex, TypeError>
        requires sound { table_fault table.now ≡ None }
        ensures tree { IfOk result (λ i. IsEntry self.new table.now n (def.ComponentInstance i)) }
        ensures grows { Grows self.old self.new }
        ensures adds { AddsAsked table.now n self.old self.new }
        ensures same { result ≡ Err TypeError.BadNumber → self.new ≡ self.old }
        ensures bad { result ≡ Err TypeError.BadNumber → is_some_and is_instance (slice_get table.now.types n) ≡ false }
        ensures missing { is_some_and is_instance (slice_get table.now.types n) ≡ false
            → result ≡ Err TypeError.BadNumber }
        ensures full { result ≡ Err TypeError.TooMany
            → IsTooFullFor self.new
            (λ b. (i : TypeComponentInstanceIndex) × IsEntry b table.now n (def.ComponentInstance i)) }
        ensures few { AddsTypes table.now (most_types table.now) self.old self.new }
        ensures before { result ≡ Err TypeError.TooMany → HasNoPlaceFor table.now self.old }
    {
        if !Entity::Instance(n).is_sound(table.types.as_slice()) {
            return Err(TypeError::BadNumber);
        }
        match entry_type(&mut self.interned, table, n)? {
            TypeDef::ComponentInstance(i) => Ok(i),
            _ => unreachable!(),
        }
    }

    /// The number of the module type that is entry `n` of the table. It is refused as a function is.
    #[tactic(auto, using(crate::proofs::AskedLemmas::asked_none, crate::proofs::CountLemmas::none_few))]
    pub fn convert_module(
        &mut self,
        table: &TypeTable,
        n: u32,
    ) -> Result<TypeModuleIndex, TypeError>
        requires sound { table_fault table.now ≡ None }
        ensures tree { IfOk result (λ i. IsEntry self.new table.now n (def.Module i)) }
        ensures grows { Grows self.old self.new }
        ensures adds { AddsAsked table.now n self.old self.new }
        ensures same { result ≡ Err TypeError.BadNumber → self.new ≡ self.old }
        ensures bad { result ≡ Err TypeError.BadNumber → is_some_and is_module (slice_get table.now.types n) ≡ false }
        ensures missing { is_some_and is_module (slice_get table.now.types n) ≡ false
            → result ≡ Err TypeError.BadNumber }
        ensures full { result ≡ Err TypeError.TooMany
            → IsTooFullFor self.new (λ b. (i : TypeModuleIndex) × IsEntry b table.now n (def.Module i)) }
        ensures few { AddsTypes table.now (most_types table.now) self.old self.new }
        ensures before { result ≡ Err TypeError.TooMany → HasNoPlaceFor table.now self.old }
    {
        if !Entity::Module(n).is_sound(table.types.as_slice()) {
            return Err(TypeError::BadNumber);
        }
        match entry_type(&mut self.interned, table, n)? {
            TypeDef::Module(i) => Ok(i),
            _ => unreachable!(),
        }
    }

    /// A value type of the table.
    ///
    /// `BadNumber` where its number is of no defined type; `TooMany` as of `convert_type`.
    pub fn convert_val(
        &mut self,
        table: &TypeTable,
        v: &ValType,
    ) -> Result<InterfaceType, TypeError>
        requires sound { table_fault table.now ≡ None }
        ensures tree { IfOk result (λ w. IsValue self.new table.now v.now w) }
        ensures grows { Grows self.old self.new }
        ensures adds { AddsValue table.now v.now self.old self.new }
        ensures same { result ≡ Err TypeError.BadNumber → self.new ≡ self.old }
        ensures bad { result ≡ Err TypeError.BadNumber → is_sound_val table.now.types v.now ≡ false }
        ensures missing { is_sound_val table.now.types v.now ≡ false → result ≡ Err TypeError.BadNumber }
        ensures full { result ≡ Err TypeError.TooMany
            → IsTooFullFor self.new (λ b. (w : InterfaceType) × IsValue b table.now v.now w) }
        ensures few { AddsTypes table.now (most_types table.now) self.old self.new }
        ensures before { result ≡ Err TypeError.TooMany → HasNoPlaceFor table.now self.old }
    {
        match *v {
            ValType::Prim(p) => Ok(primitive(&mut self.interned, p)?),
            ValType::Type_(n) => self.defined_type(table, n),
        }
    }

    /// The type of an entity of the table, which isn't a component value.
    ///
    /// `BadNumber` where its number is of no entry of its kind; `TooMany` as of `convert_type`.
    #[tactic(auto, using(crate::proofs::AskedLemmas::asked_none, crate::proofs::CountLemmas::none_few))]
    pub fn convert_entity(&mut self, table: &TypeTable, e: &Entity) -> Result<TypeDef, TypeError>
        requires sound { table_fault table.now ≡ None }
        requires not_value { is_value e.now ≡ false }
        ensures tree { IfOk result (λ d. IsEntity self.new table.now e.now d) }
        ensures grows { Grows self.old self.new }
        ensures adds { (n : ℕ) → IsAmong n (entity_parts e.now) → AddsAsked table.now n self.old self.new }
        ensures same { result ≡ Err TypeError.BadNumber → self.new ≡ self.old }
        ensures bad { result ≡ Err TypeError.BadNumber → is_sound_entity table.now.types e.now ≡ false }
        ensures missing { is_sound_entity table.now.types e.now ≡ false → result ≡ Err TypeError.BadNumber }
        ensures full { result ≡ Err TypeError.TooMany
            → IsTooFullFor self.new (λ b. (d : TypeDef) × IsEntity b table.now e.now d) }
        ensures few { AddsTypes table.now (most_types table.now) self.old self.new }
        ensures before { result ≡ Err TypeError.TooMany → HasNoPlaceFor table.now self.old }
    {
        if e.is_sound(table.types.as_slice()) {
            Ok(entry_type(&mut self.interned, table, number_of(*e))?)
        } else {
            Err(TypeError::BadNumber)
        }
    }

    /// The number of core signature `n` of the table.
    ///
    /// `BadNumber` where there is none, and `TooMany` where the list of signatures has no place for it.
    #[tactic(auto, using(crate::proofs::CountLemmas::none_few))]
    pub fn core_sig(
        &mut self,
        table: &TypeTable,
        n: u32,
    ) -> Result<ModuleInternedTypeIndex, TypeError>
        ensures ok { IfOk result
            (λ i. (s : CoreFuncSig) × (slice_get table.now.core_funcs n ≡ Some s)
            × (slice_get self.new.signatures i.0 ≡ Some s)) }
        ensures grows { Grows self.old self.new }
        ensures err { OnErr result (self.new ≡ self.old) }
        ensures rest { self.new ≡ record self.old { signatures = self.new.signatures } }
        ensures put { (s : CoreFuncSig) → slice_get table.now.core_funcs n ≡ Some s
            → IsPut self.old.signatures self.new.signatures s }
        ensures bad { result ≡ Err TypeError.BadNumber → slice_get table.now.core_funcs n ≡ None }
        ensures missing { slice_get table.now.core_funcs n ≡ None → result ≡ Err TypeError.BadNumber }
        ensures full { result ≡ Err TypeError.TooMany → (has_signature table.now n ≡ true)
            × IsTooFullFor self.old
            (λ b. (s : CoreFuncSig) × (slice_get table.now.core_funcs n ≡ Some s) × HasNumber b.signatures s) }
        ensures few { AddsTypes table.now 0 self.old self.new }
    {
        if (n as usize) < table.core_funcs.len() {
            Ok(signature_at(&mut self.interned, table, n)?)
        } else {
            Err(TypeError::BadNumber)
        }
    }

    /// The number of the handles of a registered resource in the current component instance.
    pub fn resource_id(&mut self, n: u32) -> Result<TypeResourceTableIndex, TypeError>
        ensures is { IfOk result
            (λ i. slice_get self.new.resource_tables i.0 ≡ Some (handles_of self.new.resources n)) }
        ensures grows { Grows self.old self.new }
        ensures err { OnErr result (self.new ≡ self.old) }
        ensures rest { self.new ≡ record self.old { resource_tables = self.new.resource_tables } }
        ensures put { IsPut self.old.resource_tables self.new.resource_tables (handles_of self.old.resources n) }
        ensures bad { result ≡ Err TypeError.BadNumber → resource_of self.old.resources.known n ≡ None }
        ensures missing { resource_of self.old.resources.known n ≡ None → result ≡ Err TypeError.BadNumber }
        ensures full { result ≡ Err TypeError.TooMany
            → IsTooFullFor self.old (λ b. HasNumber b.resource_tables (handles_of b.resources n)) }
    {
        let instance = self.interned.resources().current_instance();
        match self.interned.resources().lookup(n) {
            Some(ty) => Ok(
                self.interned
                    .put_resource_table(TypeResourceTable::Concrete { ty, instance })?,
            ),
            None => Err(TypeError::BadNumber),
        }
    }

    /// The number of the error contexts of the current component instance.
    pub fn error_context_table_type(
        &mut self,
    ) -> Result<TypeComponentLocalErrorContextTableIndex, TypeError>
        ensures is { IfOk result (λ i. IsErrorContext self.new i) }
        ensures grows { Grows self.old self.new }
        ensures err { OnErr result (self.new ≡ self.old) }
        ensures rest { self.new ≡ record self.old { error_context_tables = self.new.error_context_tables } }
        ensures put { IsPut self.old.error_context_tables self.new.error_context_tables
            (record { instance = self.old.resources.current }) }
        ensures never_bad { result ≡ Err TypeError.BadNumber → ⊥ }
        ensures full { result ≡ Err TypeError.TooMany
            → IsTooFullFor self.old (λ b. (i : TypeComponentLocalErrorContextTableIndex) × IsErrorContext b i) }
    {
        Ok(error_contexts(&mut self.interned)?)
    }

    /// The number of a tuple of these types, which are held.
    pub fn new_tuple_type(&mut self, types: Vec<InterfaceType>) -> Result<TypeTupleIndex, TypeError>
        requires held { All (IsHeld self.old) types.items }
        ensures is { IfOk result (λ i. slice_get self.new.tuples i.0 ≡ Some (record { types = types.items })) }
        ensures grows { Grows self.old self.new }
        ensures err { OnErr result (self.new ≡ self.old) }
        ensures rest { self.new ≡ record self.old { tuples = self.new.tuples } }
        ensures put { IsPut self.old.tuples self.new.tuples (record { types = types.items }) }
        ensures never_bad { result ≡ Err TypeError.BadNumber → ⊥ }
        ensures full { result ≡ Err TypeError.TooMany
            → IsTooFullFor self.old (λ b. HasNumber b.tuples (record { types = types.items })) }
    {
        let types = Seq::from_vec(types);
        Ok(self.interned.put_tuple(TypeTuple { types })?)
    }

    /// The value type that entry `n` of the table is, if it is a defined type.
    #[tactic(auto, using(crate::proofs::AskedLemmas::asked_none, crate::proofs::CountLemmas::none_few))]
    fn defined_type(&mut self, table: &TypeTable, n: u32) -> Result<InterfaceType, TypeError>
        requires sound { table_fault table.now ≡ None }
        ensures tree { IfOk result (λ w. IsEntry self.new table.now n (def.Interface w)) }
        ensures grows { Grows self.old self.new }
        ensures adds { AddsAsked table.now n self.old self.new }
        ensures same { result ≡ Err TypeError.BadNumber → self.new ≡ self.old }
        ensures bad { result ≡ Err TypeError.BadNumber
            → is_some_and is_defined_type (slice_get table.now.types n) ≡ false }
        ensures missing { is_some_and is_defined_type (slice_get table.now.types n) ≡ false
            → result ≡ Err TypeError.BadNumber }
        ensures full { result ≡ Err TypeError.TooMany
            → IsTooFullFor self.new (λ b. (w : InterfaceType) × IsEntry b table.now n (def.Interface w)) }
        ensures few { AddsTypes table.now (most_types table.now) self.old self.new }
        ensures before { result ≡ Err TypeError.TooMany → HasNoPlaceFor table.now self.old }
    {
        if !is_defined_at(table, n) {
            return Err(TypeError::BadNumber);
        }
        match entry_type(&mut self.interned, table, n)? {
            TypeDef::Interface(w) => Ok(w),
            _ => unreachable!(),
        }
    }
}

/// Whether entry `n` is there and a defined type.
fn is_defined_at(table: &TypeTable, n: u32) -> bool
    ensures { result ≡ is_some_and is_defined_type (slice_get table.now.types n) }
{
    match table.entry(n) {
        Some(entry) => entry.is_defined_type(),
        None => false,
    }
}

/// The number in an entity that isn't a component value.
fn number_of(e: Entity) -> u32
    requires not_value { is_value e ≡ false }
    ensures { entity_parts e ≡ result ∷ [] }
{
    match e {
        Entity::Func(n) => n,
        Entity::Instance(n) => n,
        Entity::Component(n) => n,
        Entity::Module(n) => n,
        Entity::Type_(n) => n,
        Entity::Value => unreachable!(),
    }
}
