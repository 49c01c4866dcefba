//! The types by number, as the interned types answer.

ghost use Rattle.std.specs.Prelude.{◌≡◌, ◌<◌, length, slice_get, Some};
ghost use Rattle.pc_numbers.specs.declared.runtime.ResourceIndex.{ResourceIndex};
ghost use Rattle.pc_types.specs.declared.types.InterfaceType.TheVariants as ty;
ghost use Rattle.pc_types.specs.declared.types.TypeDef.TheVariants as def;
ghost use Rattle.pc_types.specs.TypeTree.{Identity, TypeTree};
ghost use Rattle.pc_types_lists.specs.Facts.{facts_of, has_handle};
ghost use Rattle.pc_types_lists.specs.Trees.{HasTree};

use crate::ComponentTypesBuilder;
use pc_entity::ModuleInternedTypeIndex;
use pc_types::{
    CoreFuncSig, TypeComponent, TypeComponentIndex, TypeComponentInstance,
    TypeComponentInstanceIndex, TypeComponentLocalErrorContextTableIndex, TypeEnum, TypeEnumIndex,
    TypeErrorContextTable, TypeFlags, TypeFlagsIndex, TypeFunc, TypeFuncIndex, TypeFutureTable,
    TypeFutureTableIndex, TypeKind, TypeList, TypeListIndex, TypeModule, TypeModuleIndex,
    TypeOption, TypeOptionIndex, TypeRecord, TypeRecordIndex, TypeResourceTable,
    TypeResourceTableIndex, TypeResult, TypeResultIndex, TypeStreamTable, TypeStreamTableIndex,
    TypeTuple, TypeTupleIndex, TypeVariant, TypeVariantIndex,
};
use pc_types_lists::TypeFacts;

impl ComponentTypesBuilder {
    /// The function type under a number.
    pub fn func(&self, i: TypeFuncIndex) -> &TypeFunc
        requires held { i.0 < length self.now.funcs }
        ensures is { slice_get self.now.funcs i.0 ≡ Some result.now }
        ensures params { result.now.params.0 < length self.now.tuples }
        ensures results { result.now.results.0 < length self.now.tuples }
    {
        self.interned.func(i)
    }

    /// The tuple type under a number.
    pub fn tuple(&self, i: TypeTupleIndex) -> &TypeTuple
        requires held { i.0 < length self.now.tuples }
        ensures { slice_get self.now.tuples i.0 ≡ Some result.now }
    {
        self.interned.tuple(i)
    }

    /// The record type under a number.
    pub fn record_type(&self, i: TypeRecordIndex) -> &TypeRecord
        requires held { i.0 < length self.now.records }
        ensures { slice_get self.now.records i.0 ≡ Some result.now }
    {
        self.interned.record_type(i)
    }

    /// The variant type under a number.
    pub fn variant(&self, i: TypeVariantIndex) -> &TypeVariant
        requires held { i.0 < length self.now.variants }
        ensures { slice_get self.now.variants i.0 ≡ Some result.now }
    {
        self.interned.variant(i)
    }

    /// The list type under a number.
    pub fn list(&self, i: TypeListIndex) -> &TypeList
        requires held { i.0 < length self.now.lists }
        ensures { slice_get self.now.lists i.0 ≡ Some result.now }
    {
        self.interned.list(i)
    }

    /// The option type under a number.
    pub fn option(&self, i: TypeOptionIndex) -> &TypeOption
        requires held { i.0 < length self.now.options }
        ensures { slice_get self.now.options i.0 ≡ Some result.now }
    {
        self.interned.option(i)
    }

    /// The result type under a number.
    pub fn result(&self, i: TypeResultIndex) -> &TypeResult
        requires held { i.0 < length self.now.results }
        ensures { slice_get self.now.results i.0 ≡ Some result.now }
    {
        self.interned.result(i)
    }

    /// The flags type under a number.
    pub fn flags(&self, i: TypeFlagsIndex) -> &TypeFlags
        requires held { i.0 < length self.now.flags }
        ensures { slice_get self.now.flags i.0 ≡ Some result.now }
    {
        self.interned.flags(i)
    }

    /// The enum type under a number.
    pub fn enum_type(&self, i: TypeEnumIndex) -> &TypeEnum
        requires held { i.0 < length self.now.enums }
        ensures { slice_get self.now.enums i.0 ≡ Some result.now }
    {
        self.interned.enum_type(i)
    }

    /// The handles of a resource, under their number.
    pub fn resource_table(&self, i: TypeResourceTableIndex) -> &TypeResourceTable
        requires held { i.0 < length self.now.resource_tables }
        ensures { slice_get self.now.resource_tables i.0 ≡ Some result.now }
    {
        self.interned.resource_table(i)
    }

    /// The futures of a payload type, under their number.
    pub fn future_table(&self, i: TypeFutureTableIndex) -> &TypeFutureTable
        requires held { i.0 < length self.now.future_tables }
        ensures { slice_get self.now.future_tables i.0 ≡ Some result.now }
    {
        self.interned.future_table(i)
    }

    /// The streams of a payload type, under their number.
    pub fn stream_table(&self, i: TypeStreamTableIndex) -> &TypeStreamTable
        requires held { i.0 < length self.now.stream_tables }
        ensures { slice_get self.now.stream_tables i.0 ≡ Some result.now }
    {
        self.interned.stream_table(i)
    }

    /// The error contexts of a component instance, under their number.
    pub fn error_context_table(
        &self,
        i: TypeComponentLocalErrorContextTableIndex,
    ) -> &TypeErrorContextTable
        requires held { i.0 < length self.now.error_context_tables }
        ensures { slice_get self.now.error_context_tables i.0 ≡ Some result.now }
    {
        self.interned.error_context_table(i)
    }

    /// The instance type under a number.
    pub fn instance(&self, i: TypeComponentInstanceIndex) -> &TypeComponentInstance
        requires held { i.0 < length self.now.instances }
        ensures { slice_get self.now.instances i.0 ≡ Some result.now }
    {
        self.interned.instance(i)
    }

    /// The component type under a number.
    pub fn component(&self, i: TypeComponentIndex) -> &TypeComponent
        requires held { i.0 < length self.now.components }
        ensures { slice_get self.now.components i.0 ≡ Some result.now }
    {
        self.interned.component(i)
    }

    /// The module type under a number.
    pub fn module(&self, i: TypeModuleIndex) -> &TypeModule
        requires held { i.0 < length self.now.modules }
        ensures { slice_get self.now.modules i.0 ≡ Some result.now }
    {
        self.interned.module(i)
    }

    /// The core signature under a number.
    pub fn signature(&self, i: ModuleInternedTypeIndex) -> &CoreFuncSig
        requires held { i.0 < length self.now.signatures }
        ensures { slice_get self.now.signatures i.0 ≡ Some result.now }
    {
        self.interned.signature(i)
    }

    /// How many future tables there are.
    pub fn num_future_tables(&self) -> usize
        ensures { result ≡ length self.now.future_tables }
    {
        self.interned.held(TypeKind::FutureTable)
    }

    /// How many stream tables there are.
    pub fn num_stream_tables(&self) -> usize
        ensures { result ≡ length self.now.stream_tables }
    {
        self.interned.held(TypeKind::StreamTable)
    }

    /// How many error context tables there are.
    pub fn num_error_context_tables(&self) -> usize
        ensures { result ≡ length self.now.error_context_tables }
    {
        self.interned.held(TypeKind::ErrorContextTable)
    }

    /// Which types stand anywhere in a tuple.
    pub fn tuple_facts(&self, i: TypeTupleIndex) -> TypeFacts
        requires held { i.0 < length self.now.tuples }
        ensures { (who : ResourceIndex → Identity) (tree : TypeTree)
            → HasTree self.now who (def.Interface (ty.Tuple i)) tree → result ≡ facts_of tree }
    {
        self.interned.tuple_facts(i)
    }

    /// Whether a handle to a resource, a future, a stream or an error context stands anywhere in a function's
    /// parameters or results. What a stream or a future carries isn't entered.
    pub fn func_contains_any_handle(&self, i: TypeFuncIndex) -> bool
        requires held { i.0 < length self.now.funcs }
        ensures { (who : ResourceIndex → Identity) (tree : TypeTree) → HasTree self.now who (def.ComponentFunc i) tree
            → result ≡ has_handle (facts_of tree) }
    {
        self.interned.func_contains_any_handle(i)
    }
}
