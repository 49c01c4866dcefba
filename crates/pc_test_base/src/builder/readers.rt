//! What the readers find in the types of a table with an entry of each kind.

ghost use Rattle.std.specs.Prelude.{◌<◌, length};

use crate::support::holds;
use pc_entity::ModuleInternedTypeIndex;
use pc_types::{
    InterfaceType, TypeComponentIndex, TypeComponentInstanceIndex,
    TypeComponentLocalErrorContextTableIndex, TypeEnumIndex, TypeFlagsIndex, TypeFuncIndex,
    TypeFutureTableIndex, TypeKind, TypeListIndex, TypeModuleIndex, TypeOptionIndex,
    TypeRecordIndex, TypeResourceTable, TypeResourceTableIndex, TypeResultIndex,
    TypeStreamTableIndex, TypeTupleIndex, TypeVariantIndex,
};
use pc_types_builder::ComponentTypesBuilder;
use pc_types_lists::TypeFacts;
use std::process::Abort;

/// That each reader finds the types of a table with an entry of each kind.
pub fn reads_each(rt: &impl Abort, types: &ComponentTypesBuilder) {
    holds(rt, "record, variant, flags and enum", reads_names(types));
    holds(rt, "list, option and result", reads_parts(types));
    holds(rt, "tables", reads_tables(types) && counts_tables(types));
    holds(rt, "component and instance", reads_externs(types));
    holds(rt, "module and signature", reads_core(types));
    reads_func(rt, types);
}

/// The types whose parts have names.
fn reads_names(types: &ComponentTypesBuilder) -> bool {
    types.held(TypeKind::Record) > 0
        && types.record_type(TypeRecordIndex(0)).fields.len() == 2
        && types.held(TypeKind::Variant) > 0
        && types.variant(TypeVariantIndex(0)).cases.len() == 2
        && types.held(TypeKind::Flags) > 0
        && types.flags(TypeFlagsIndex(0)).names.len() == 1
        && types.held(TypeKind::Enum) > 0
        && types.enum_type(TypeEnumIndex(0)).names.len() == 1
}

/// The types of other types.
fn reads_parts(types: &ComponentTypesBuilder) -> bool {
    let variant = InterfaceType::Variant(TypeVariantIndex(0));
    let flags = InterfaceType::Flags(TypeFlagsIndex(0));
    let cases = Some(InterfaceType::Enum(TypeEnumIndex(0)));
    types.held(TypeKind::List) > 0
        && types.list(TypeListIndex(0)).element == variant
        && types.held(TypeKind::Option) > 0
        && types.option(TypeOptionIndex(0)).ty == flags
        && types.held(TypeKind::Result) > 0
        && types.result(TypeResultIndex(0)).ok == cases
}

/// The tables. A resource that isn't known is abstract.
fn reads_tables(types: &ComponentTypesBuilder) -> bool {
    let result = Some(InterfaceType::Result(TypeResultIndex(0)));
    let first = TypeComponentLocalErrorContextTableIndex(0);
    types.held(TypeKind::ResourceTable) > 0
        && *types.resource_table(TypeResourceTableIndex(0)) == TypeResourceTable::Abstract(0)
        && types.held(TypeKind::FutureTable) > 0
        && types.future_table(TypeFutureTableIndex(0)).payload == None
        && types.held(TypeKind::StreamTable) > 0
        && types.stream_table(TypeStreamTableIndex(0)).payload == result
        && types.held(TypeKind::ErrorContextTable) > 0
        && types.error_context_table(first).instance.0 == 0
}

/// How many tables of a kind there are.
fn counts_tables(types: &ComponentTypesBuilder) -> bool {
    types.num_future_tables() == 1
        && types.num_stream_tables() == 1
        && types.num_error_context_tables() == 1
}

/// What a component imports and an instance exports.
fn reads_externs(types: &ComponentTypesBuilder) -> bool {
    types.held(TypeKind::Instance) > 0
        && types.instance(TypeComponentInstanceIndex(0)).exports.len() == 2
        && types.held(TypeKind::Component) > 0
        && types.component(TypeComponentIndex(0)).imports.len() == 2
}

/// What a module imports, and a signature.
fn reads_core(types: &ComponentTypesBuilder) -> bool {
    types.held(TypeKind::Module) > 0
        && types.module(TypeModuleIndex(0)).imports.len() == 1
        && types.held(TypeKind::Signature) > 0
        && types.signature(ModuleInternedTypeIndex(0)).params.len() == 0
}

/// What is known of the function.
fn reads_func(rt: &impl Abort, types: &ComponentTypesBuilder) {
    holds(rt, "function", types.held(TypeKind::Func) > 0);
    let func = TypeFuncIndex(0);
    let is_read = reads_facts(types, func) && types.func_contains_any_handle(func);
    holds(rt, "facts of the function", is_read);
}

/// The function takes a pair that holds a list and an error context, and a stream, and gives a future. What the stream
/// carries isn't entered.
fn reads_facts(types: &ComponentTypesBuilder, i: TypeFuncIndex) -> bool
    requires { i.0 < length types.now.funcs }
{
    let func = types.func(i);
    types.tuple(func.params).types.len() == 2
        && types.tuple_facts(func.params) == taken()
        && types.tuple_facts(func.results) == given()
}

/// What stands in the parameters.
fn taken() -> TypeFacts {
    TypeFacts {
        string: true,
        list: true,
        own: true,
        borrow: false,
        future: false,
        stream: true,
        error_context: true,
    }
}

/// What stands in the results.
fn given() -> TypeFacts {
    TypeFacts {
        future: true,
        ..TypeFacts::none()
    }
}
