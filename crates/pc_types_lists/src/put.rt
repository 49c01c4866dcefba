//! Each kind of type put into its list.
//!
//! A type goes to the end of its list, and only where no equal one is held. `TooMany` comes where the list is full and
//! lacks the type. What was held keeps its number, whatever is answered.
//!
//! Where a type has labels, `like` may be the number of one that has the same: with it, the labels aren't looked at.

ghost use Rattle.std.specs.Prelude.{◌≡◌, ◌<◌, length, slice_get, Some, Err, All, IfOk, IfSome, OnErr};
ghost use Rattle.pc_types_lists.specs.Types.{Grows, HasNumber, IsTooFullFor};
ghost use Rattle.pc_types_lists.specs.Held.{IsHeld, MayBeHeld};
ghost use Rattle.pc_types_lists.specs.Interned.{IsPut};
ghost use Rattle.pc_types_lists.specs.Labels.{HasLabelsOf, component_labels, func_labels, instance_labels};
ghost use Rattle.pc_types_lists.specs.Labels.{record_labels, variant_labels};

use crate::InternedTypes;
use crate::intern::{intern, intern_with, put_with};
use crate::no_place::NoPlace;
use pc_entity::ModuleInternedTypeIndex;
use pc_types::{
    CoreFuncSig, TypeComponent, TypeComponentIndex, TypeComponentInstance,
    TypeComponentInstanceIndex, TypeComponentLocalErrorContextTableIndex, TypeEnum, TypeEnumIndex,
    TypeErrorContextTable, TypeFlags, TypeFlagsIndex, TypeFunc, TypeFuncIndex, TypeFutureTable,
    TypeFutureTableIndex, TypeList, TypeListIndex, TypeModule, TypeModuleIndex, TypeOption,
    TypeOptionIndex, TypeRecord, TypeRecordIndex, TypeResourceTable, TypeResourceTableIndex,
    TypeResult, TypeResultIndex, TypeStreamTable, TypeStreamTableIndex, TypeTuple, TypeTupleIndex,
    TypeVariant, TypeVariantIndex,
};

impl InternedTypes {
    /// The number of a function type over held tuples.
    pub fn put_func(
        &mut self,
        value: TypeFunc,
        like: Option<TypeFuncIndex>,
    ) -> Result<TypeFuncIndex, NoPlace>
        requires params { value.params.0 < length self.old.tuples }
        requires results { value.results.0 < length self.old.tuples }
        requires like { IfSome like (λ i. HasLabelsOf func_labels self.old.funcs i.0 value) }
        ensures held { IfOk result (λ i. slice_get self.new.funcs i.0 ≡ Some value) }
        ensures put { IsPut self.old.funcs self.new.funcs value }
        ensures rest { self.new ≡ record self.old { funcs = self.new.funcs } }
        ensures grows { Grows self.old self.new }
        ensures err { OnErr result (self.new ≡ self.old) }
        ensures full { result ≡ Err NoPlace.TooMany → IsTooFullFor self.new (λ b. HasNumber b.funcs value) }
    {
        let facts = self.facts.of_func(&value);
        let number = put_with(
            &mut self.funcs,
            &mut self.facts.funcs,
            value,
            facts,
            like.map(|i| i.0),
        )?;
        Ok(TypeFuncIndex(number))
    }

    /// The number of a tuple of held types.
    pub fn put_tuple(&mut self, value: TypeTuple) -> Result<TypeTupleIndex, NoPlace>
        requires parts { All (IsHeld self.old) value.types }
        ensures held { IfOk result (λ i. slice_get self.new.tuples i.0 ≡ Some value) }
        ensures put { IsPut self.old.tuples self.new.tuples value }
        ensures rest { self.new ≡ record self.old { tuples = self.new.tuples } }
        ensures grows { Grows self.old self.new }
        ensures err { OnErr result (self.new ≡ self.old) }
        ensures full { result ≡ Err NoPlace.TooMany → IsTooFullFor self.new (λ b. HasNumber b.tuples value) }
    {
        let facts = self.facts.of_tuple(&value);
        let number = intern_with(&mut self.tuples, &mut self.facts.tuples, value, facts)?;
        Ok(TypeTupleIndex(number))
    }

    /// The number of a record of held types.
    pub fn put_record_type(
        &mut self,
        value: TypeRecord,
        like: Option<TypeRecordIndex>,
    ) -> Result<TypeRecordIndex, NoPlace>
        requires parts { All (λ f. IsHeld self.old f.1) value.fields }
        requires like { IfSome like (λ i. HasLabelsOf record_labels self.old.records i.0 value) }
        ensures held { IfOk result (λ i. slice_get self.new.records i.0 ≡ Some value) }
        ensures put { IsPut self.old.records self.new.records value }
        ensures rest { self.new ≡ record self.old { records = self.new.records } }
        ensures grows { Grows self.old self.new }
        ensures err { OnErr result (self.new ≡ self.old) }
        ensures full { result ≡ Err NoPlace.TooMany → IsTooFullFor self.new (λ b. HasNumber b.records value) }
    {
        let facts = self.facts.of_record(&value);
        let number = put_with(
            &mut self.records,
            &mut self.facts.records,
            value,
            facts,
            like.map(|i| i.0),
        )?;
        Ok(TypeRecordIndex(number))
    }

    /// The number of a variant over held types.
    pub fn put_variant(
        &mut self,
        value: TypeVariant,
        like: Option<TypeVariantIndex>,
    ) -> Result<TypeVariantIndex, NoPlace>
        requires parts { All (λ c. MayBeHeld self.old c.1) value.cases }
        requires like { IfSome like (λ i. HasLabelsOf variant_labels self.old.variants i.0 value) }
        ensures held { IfOk result (λ i. slice_get self.new.variants i.0 ≡ Some value) }
        ensures put { IsPut self.old.variants self.new.variants value }
        ensures rest { self.new ≡ record self.old { variants = self.new.variants } }
        ensures grows { Grows self.old self.new }
        ensures err { OnErr result (self.new ≡ self.old) }
        ensures full { result ≡ Err NoPlace.TooMany → IsTooFullFor self.new (λ b. HasNumber b.variants value) }
    {
        let facts = self.facts.of_variant(&value);
        let number = put_with(
            &mut self.variants,
            &mut self.facts.variants,
            value,
            facts,
            like.map(|i| i.0),
        )?;
        Ok(TypeVariantIndex(number))
    }

    /// The number of a list of a held type.
    pub fn put_list(&mut self, value: TypeList) -> Result<TypeListIndex, NoPlace>
        requires part { IsHeld self.old value.element }
        ensures held { IfOk result (λ i. slice_get self.new.lists i.0 ≡ Some value) }
        ensures put { IsPut self.old.lists self.new.lists value }
        ensures rest { self.new ≡ record self.old { lists = self.new.lists } }
        ensures grows { Grows self.old self.new }
        ensures err { OnErr result (self.new ≡ self.old) }
        ensures full { result ≡ Err NoPlace.TooMany → IsTooFullFor self.new (λ b. HasNumber b.lists value) }
    {
        let facts = self.facts.of_list(&value);
        let number = intern_with(&mut self.lists, &mut self.facts.lists, value, facts)?;
        Ok(TypeListIndex(number))
    }

    /// The number of an option of a held type.
    pub fn put_option(&mut self, value: TypeOption) -> Result<TypeOptionIndex, NoPlace>
        requires part { IsHeld self.old value.ty }
        ensures held { IfOk result (λ i. slice_get self.new.options i.0 ≡ Some value) }
        ensures put { IsPut self.old.options self.new.options value }
        ensures rest { self.new ≡ record self.old { options = self.new.options } }
        ensures grows { Grows self.old self.new }
        ensures err { OnErr result (self.new ≡ self.old) }
        ensures full { result ≡ Err NoPlace.TooMany → IsTooFullFor self.new (λ b. HasNumber b.options value) }
    {
        let facts = self.facts.of_option(&value);
        let number = intern_with(&mut self.options, &mut self.facts.options, value, facts)?;
        Ok(TypeOptionIndex(number))
    }

    /// The number of a result of held types.
    pub fn put_result(&mut self, value: TypeResult) -> Result<TypeResultIndex, NoPlace>
        requires ok { MayBeHeld self.old value.ok }
        requires err { MayBeHeld self.old value.err }
        ensures held { IfOk result (λ i. slice_get self.new.results i.0 ≡ Some value) }
        ensures put { IsPut self.old.results self.new.results value }
        ensures rest { self.new ≡ record self.old { results = self.new.results } }
        ensures grows { Grows self.old self.new }
        ensures err { OnErr result (self.new ≡ self.old) }
        ensures full { result ≡ Err NoPlace.TooMany → IsTooFullFor self.new (λ b. HasNumber b.results value) }
    {
        let facts = self.facts.of_result(&value);
        let number = intern_with(&mut self.results, &mut self.facts.results, value, facts)?;
        Ok(TypeResultIndex(number))
    }

    /// The number of a set of flags.
    pub fn put_flags(&mut self, value: TypeFlags) -> Result<TypeFlagsIndex, NoPlace>
        ensures held { IfOk result (λ i. slice_get self.new.flags i.0 ≡ Some value) }
        ensures put { IsPut self.old.flags self.new.flags value }
        ensures rest { self.new ≡ record self.old { flags = self.new.flags } }
        ensures grows { Grows self.old self.new }
        ensures err { OnErr result (self.new ≡ self.old) }
        ensures full { result ≡ Err NoPlace.TooMany → IsTooFullFor self.new (λ b. HasNumber b.flags value) }
    {
        Ok(TypeFlagsIndex(intern(&mut self.flags, value)?))
    }

    /// The number of an enumeration.
    pub fn put_enum_type(&mut self, value: TypeEnum) -> Result<TypeEnumIndex, NoPlace>
        ensures held { IfOk result (λ i. slice_get self.new.enums i.0 ≡ Some value) }
        ensures put { IsPut self.old.enums self.new.enums value }
        ensures rest { self.new ≡ record self.old { enums = self.new.enums } }
        ensures grows { Grows self.old self.new }
        ensures err { OnErr result (self.new ≡ self.old) }
        ensures full { result ≡ Err NoPlace.TooMany → IsTooFullFor self.new (λ b. HasNumber b.enums value) }
    {
        Ok(TypeEnumIndex(intern(&mut self.enums, value)?))
    }

    /// The number of a resource's handles.
    pub fn put_resource_table(
        &mut self,
        value: TypeResourceTable,
    ) -> Result<TypeResourceTableIndex, NoPlace>
        ensures held { IfOk result (λ i. slice_get self.new.resource_tables i.0 ≡ Some value) }
        ensures put { IsPut self.old.resource_tables self.new.resource_tables value }
        ensures rest { self.new ≡ record self.old { resource_tables = self.new.resource_tables } }
        ensures grows { Grows self.old self.new }
        ensures err { OnErr result (self.new ≡ self.old) }
        ensures full { result ≡ Err NoPlace.TooMany → IsTooFullFor self.new (λ b. HasNumber b.resource_tables value) }
    {
        Ok(TypeResourceTableIndex(intern(&mut self.resource_tables, value)?))
    }

    /// The number of a future.
    pub fn put_future_table(
        &mut self,
        value: TypeFutureTable,
    ) -> Result<TypeFutureTableIndex, NoPlace>
        ensures held { IfOk result (λ i. slice_get self.new.future_tables i.0 ≡ Some value) }
        ensures put { IsPut self.old.future_tables self.new.future_tables value }
        ensures rest { self.new ≡ record self.old { future_tables = self.new.future_tables } }
        ensures grows { Grows self.old self.new }
        ensures err { OnErr result (self.new ≡ self.old) }
        ensures full { result ≡ Err NoPlace.TooMany → IsTooFullFor self.new (λ b. HasNumber b.future_tables value) }
    {
        Ok(TypeFutureTableIndex(intern(&mut self.future_tables, value)?))
    }

    /// The number of a stream.
    pub fn put_stream_table(
        &mut self,
        value: TypeStreamTable,
    ) -> Result<TypeStreamTableIndex, NoPlace>
        ensures held { IfOk result (λ i. slice_get self.new.stream_tables i.0 ≡ Some value) }
        ensures put { IsPut self.old.stream_tables self.new.stream_tables value }
        ensures rest { self.new ≡ record self.old { stream_tables = self.new.stream_tables } }
        ensures grows { Grows self.old self.new }
        ensures err { OnErr result (self.new ≡ self.old) }
        ensures full { result ≡ Err NoPlace.TooMany → IsTooFullFor self.new (λ b. HasNumber b.stream_tables value) }
    {
        Ok(TypeStreamTableIndex(intern(&mut self.stream_tables, value)?))
    }

    /// The number of an instance's error contexts.
    pub fn put_error_context_table(
        &mut self,
        value: TypeErrorContextTable,
    ) -> Result<TypeComponentLocalErrorContextTableIndex, NoPlace>
        ensures held { IfOk result (λ i. slice_get self.new.error_context_tables i.0 ≡ Some value) }
        ensures put { IsPut self.old.error_context_tables self.new.error_context_tables value }
        ensures rest { self.new ≡ record self.old { error_context_tables = self.new.error_context_tables } }
        ensures grows { Grows self.old self.new }
        ensures err { OnErr result (self.new ≡ self.old) }
        ensures full { result ≡ Err NoPlace.TooMany → IsTooFullFor self.new
            (λ b. HasNumber b.error_context_tables value) }
    {
        Ok(TypeComponentLocalErrorContextTableIndex(intern(&mut self.error_context_tables, value)?))
    }

    /// The number of an instance type.
    pub fn put_instance(
        &mut self,
        value: TypeComponentInstance,
        like: Option<TypeComponentInstanceIndex>,
    ) -> Result<TypeComponentInstanceIndex, NoPlace>
        requires like { IfSome like (λ i. HasLabelsOf instance_labels self.old.instances i.0 value) }
        ensures held { IfOk result (λ i. slice_get self.new.instances i.0 ≡ Some value) }
        ensures put { IsPut self.old.instances self.new.instances value }
        ensures rest { self.new ≡ record self.old { instances = self.new.instances } }
        ensures grows { Grows self.old self.new }
        ensures err { OnErr result (self.new ≡ self.old) }
        ensures full { result ≡ Err NoPlace.TooMany → IsTooFullFor self.new (λ b. HasNumber b.instances value) }
    {
        Ok(TypeComponentInstanceIndex(self.instances.put(value, like.map(|i| i.0))?))
    }

    /// The number of a component type.
    pub fn put_component(
        &mut self,
        value: TypeComponent,
        like: Option<TypeComponentIndex>,
    ) -> Result<TypeComponentIndex, NoPlace>
        requires like { IfSome like (λ i. HasLabelsOf component_labels self.old.components i.0 value) }
        ensures held { IfOk result (λ i. slice_get self.new.components i.0 ≡ Some value) }
        ensures put { IsPut self.old.components self.new.components value }
        ensures rest { self.new ≡ record self.old { components = self.new.components } }
        ensures grows { Grows self.old self.new }
        ensures err { OnErr result (self.new ≡ self.old) }
        ensures full { result ≡ Err NoPlace.TooMany → IsTooFullFor self.new (λ b. HasNumber b.components value) }
    {
        Ok(TypeComponentIndex(self.components.put(value, like.map(|i| i.0))?))
    }

    /// The number of a module type.
    pub fn put_module(&mut self, value: TypeModule) -> Result<TypeModuleIndex, NoPlace>
        ensures held { IfOk result (λ i. slice_get self.new.modules i.0 ≡ Some value) }
        ensures put { IsPut self.old.modules self.new.modules value }
        ensures rest { self.new ≡ record self.old { modules = self.new.modules } }
        ensures grows { Grows self.old self.new }
        ensures err { OnErr result (self.new ≡ self.old) }
        ensures full { result ≡ Err NoPlace.TooMany → IsTooFullFor self.new (λ b. HasNumber b.modules value) }
    {
        Ok(TypeModuleIndex(intern(&mut self.modules, value)?))
    }

    /// The number of a core signature.
    pub fn put_signature(&mut self, value: CoreFuncSig) -> Result<ModuleInternedTypeIndex, NoPlace>
        ensures held { IfOk result (λ i. slice_get self.new.signatures i.0 ≡ Some value) }
        ensures put { IsPut self.old.signatures self.new.signatures value }
        ensures rest { self.new ≡ record self.old { signatures = self.new.signatures } }
        ensures grows { Grows self.old self.new }
        ensures err { OnErr result (self.new ≡ self.old) }
        ensures full { result ≡ Err NoPlace.TooMany → IsTooFullFor self.new (λ b. HasNumber b.signatures value) }
    {
        Ok(ModuleInternedTypeIndex(intern(&mut self.signatures, value)?))
    }
}
