//! The types by number.

ghost use Rattle.std.specs.Prelude.{◌≡◌, ◌<◌, length, slice_get, Some};
ghost use Rattle.pc_numbers.specs.declared.runtime.ResourceIndex.{ResourceIndex};
ghost use Rattle.pc_types.specs.declared.types.InterfaceType.TheVariants as ty;
ghost use Rattle.pc_types.specs.declared.types.TypeDef.TheVariants as def;
ghost use Rattle.pc_types.specs.TypeTree.{Identity, TypeTree};
ghost use Rattle.pc_types_lists.specs.Facts.{facts_of, has_handle};
ghost use Rattle.pc_types_lists.specs.Trees.{HasTree};

use crate::{InternedTypes, TypeFacts};
use pc_entity::ModuleInternedTypeIndex;
use pc_types::{
    CoreFuncSig, TypeComponent, TypeComponentIndex, TypeComponentInstance,
    TypeComponentInstanceIndex, TypeComponentLocalErrorContextTableIndex, TypeEnum, TypeEnumIndex,
    TypeErrorContextTable, TypeFlags, TypeFlagsIndex, TypeFunc, TypeFuncIndex, TypeFutureTable,
    TypeFutureTableIndex, TypeList, TypeListIndex, TypeModule, TypeModuleIndex, TypeOption,
    TypeOptionIndex, TypeRecord, TypeRecordIndex, TypeResourceTable, TypeResourceTableIndex,
    TypeResult, TypeResultIndex, TypeStreamTable, TypeStreamTableIndex, TypeTuple, TypeTupleIndex,
    TypeVariant, TypeVariantIndex,
};

impl InternedTypes {
    /// The function type under a number.
    pub fn func(&self, i: TypeFuncIndex) -> &TypeFunc
        requires held { i.0 < length self.now.funcs }
        ensures is { slice_get self.now.funcs i.0 ≡ Some result.now }
        ensures params { result.now.params.0 < length self.now.tuples }
        ensures results { result.now.results.0 < length self.now.tuples }
    {
        self.funcs.get(i.0).unwrap()
    }

    /// The tuple type under a number.
    pub fn tuple(&self, i: TypeTupleIndex) -> &TypeTuple
        requires held { i.0 < length self.now.tuples }
        ensures { slice_get self.now.tuples i.0 ≡ Some result.now }
    {
        self.tuples.get(i.0).unwrap()
    }

    /// The record type under a number.
    pub fn record_type(&self, i: TypeRecordIndex) -> &TypeRecord
        requires held { i.0 < length self.now.records }
        ensures { slice_get self.now.records i.0 ≡ Some result.now }
    {
        self.records.get(i.0).unwrap()
    }

    /// The variant type under a number.
    pub fn variant(&self, i: TypeVariantIndex) -> &TypeVariant
        requires held { i.0 < length self.now.variants }
        ensures { slice_get self.now.variants i.0 ≡ Some result.now }
    {
        self.variants.get(i.0).unwrap()
    }

    /// The list type under a number.
    pub fn list(&self, i: TypeListIndex) -> &TypeList
        requires held { i.0 < length self.now.lists }
        ensures { slice_get self.now.lists i.0 ≡ Some result.now }
    {
        self.lists.get(i.0).unwrap()
    }

    /// The option type under a number.
    pub fn option(&self, i: TypeOptionIndex) -> &TypeOption
        requires held { i.0 < length self.now.options }
        ensures { slice_get self.now.options i.0 ≡ Some result.now }
    {
        self.options.get(i.0).unwrap()
    }

    /// The result type under a number.
    pub fn result(&self, i: TypeResultIndex) -> &TypeResult
        requires held { i.0 < length self.now.results }
        ensures { slice_get self.now.results i.0 ≡ Some result.now }
    {
        self.results.get(i.0).unwrap()
    }

    /// The flags type under a number.
    pub fn flags(&self, i: TypeFlagsIndex) -> &TypeFlags
        requires held { i.0 < length self.now.flags }
        ensures { slice_get self.now.flags i.0 ≡ Some result.now }
    {
        self.flags.get(i.0).unwrap()
    }

    /// The enum type under a number.
    pub fn enum_type(&self, i: TypeEnumIndex) -> &TypeEnum
        requires held { i.0 < length self.now.enums }
        ensures { slice_get self.now.enums i.0 ≡ Some result.now }
    {
        self.enums.get(i.0).unwrap()
    }

    /// The handles of a resource, under their number.
    pub fn resource_table(&self, i: TypeResourceTableIndex) -> &TypeResourceTable
        requires held { i.0 < length self.now.resource_tables }
        ensures { slice_get self.now.resource_tables i.0 ≡ Some result.now }
    {
        self.resource_tables.get(i.0).unwrap()
    }

    /// The futures of a payload type, under their number.
    pub fn future_table(&self, i: TypeFutureTableIndex) -> &TypeFutureTable
        requires held { i.0 < length self.now.future_tables }
        ensures { slice_get self.now.future_tables i.0 ≡ Some result.now }
    {
        self.future_tables.get(i.0).unwrap()
    }

    /// The streams of a payload type, under their number.
    pub fn stream_table(&self, i: TypeStreamTableIndex) -> &TypeStreamTable
        requires held { i.0 < length self.now.stream_tables }
        ensures { slice_get self.now.stream_tables i.0 ≡ Some result.now }
    {
        self.stream_tables.get(i.0).unwrap()
    }

    /// The error contexts of a component instance, under their number.
    pub fn error_context_table(
        &self,
        i: TypeComponentLocalErrorContextTableIndex,
    ) -> &TypeErrorContextTable
        requires held { i.0 < length self.now.error_context_tables }
        ensures { slice_get self.now.error_context_tables i.0 ≡ Some result.now }
    {
        self.error_context_tables.get(i.0).unwrap()
    }

    /// The instance type under a number.
    pub fn instance(&self, i: TypeComponentInstanceIndex) -> &TypeComponentInstance
        requires held { i.0 < length self.now.instances }
        ensures { slice_get self.now.instances i.0 ≡ Some result.now }
    {
        self.instances.get(i.0).unwrap()
    }

    /// The component type under a number.
    pub fn component(&self, i: TypeComponentIndex) -> &TypeComponent
        requires held { i.0 < length self.now.components }
        ensures { slice_get self.now.components i.0 ≡ Some result.now }
    {
        self.components.get(i.0).unwrap()
    }

    /// The module type under a number.
    pub fn module(&self, i: TypeModuleIndex) -> &TypeModule
        requires held { i.0 < length self.now.modules }
        ensures { slice_get self.now.modules i.0 ≡ Some result.now }
    {
        self.modules.get(i.0).unwrap()
    }

    /// The core signature under a number.
    pub fn signature(&self, i: ModuleInternedTypeIndex) -> &CoreFuncSig
        requires held { i.0 < length self.now.signatures }
        ensures { slice_get self.now.signatures i.0 ≡ Some result.now }
    {
        self.signatures.get(i.0).unwrap()
    }

    /// Which types stand anywhere in a tuple.
    pub fn tuple_facts(&self, i: TypeTupleIndex) -> TypeFacts
        requires held { i.0 < length self.now.tuples }
        ensures { (who : ResourceIndex → Identity) (tree : TypeTree)
            → HasTree self.now who (def.Interface (ty.Tuple i)) tree → result ≡ facts_of tree }
    {
        self.facts.tuples.get(i.0)
    }

    /// Whether a handle to a resource, a future, a stream or an error context stands anywhere in a function's
    /// parameters or results. What a stream or a future carries isn't entered.
    pub fn func_contains_any_handle(&self, i: TypeFuncIndex) -> bool
        requires held { i.0 < length self.now.funcs }
        ensures { (who : ResourceIndex → Identity) (tree : TypeTree) → HasTree self.now who (def.ComponentFunc i) tree
            → result ≡ has_handle (facts_of tree) }
    {
        self.facts.funcs.get(i.0).has_handle()
    }
}
