//! The types that are interned: their `==` answers true of identical values alone.

ghost use Rattle.pc_types.specs.Equal.{wasm_exact, core_exact, interface_exact, definition_exact, func_exact};
ghost use Rattle.pc_types.specs.Equal.{tuple_exact, record_exact, variant_exact, list_exact, option_exact};
ghost use Rattle.pc_types.specs.Equal.{result_exact, flags_exact, enum_exact, table_exact, future_exact};
ghost use Rattle.pc_types.specs.Equal.{stream_exact, error_context_exact, instance_exact, component_exact};
ghost use Rattle.pc_types.specs.Equal.{module_exact, signature_exact};

use crate::{
    CoreEntity, CoreFuncSig, InterfaceType, TypeComponent, TypeComponentInstance, TypeDef,
    TypeEnum, TypeErrorContextTable, TypeFlags, TypeFunc, TypeFutureTable, TypeList, TypeModule,
    TypeOption, TypeRecord, TypeResourceTable, TypeResult, TypeStreamTable, TypeTuple, TypeVariant,
    WasmValType,
};
use pc_entity::ExactEq;

impl ExactEq for WasmValType {
    ghost exact = { wasm_exact };
}

impl ExactEq for CoreEntity {
    ghost exact = { core_exact };
}

impl ExactEq for InterfaceType {
    ghost exact = { interface_exact };
}

impl ExactEq for TypeDef {
    ghost exact = { definition_exact };
}

impl ExactEq for TypeFunc {
    ghost exact = { func_exact };
}

impl ExactEq for TypeTuple {
    ghost exact = { tuple_exact };
}

impl ExactEq for TypeRecord {
    ghost exact = { record_exact };
}

impl ExactEq for TypeVariant {
    ghost exact = { variant_exact };
}

impl ExactEq for TypeList {
    ghost exact = { list_exact };
}

impl ExactEq for TypeOption {
    ghost exact = { option_exact };
}

impl ExactEq for TypeResult {
    ghost exact = { result_exact };
}

impl ExactEq for TypeFlags {
    ghost exact = { flags_exact };
}

impl ExactEq for TypeEnum {
    ghost exact = { enum_exact };
}

impl ExactEq for TypeResourceTable {
    ghost exact = { table_exact };
}

impl ExactEq for TypeFutureTable {
    ghost exact = { future_exact };
}

impl ExactEq for TypeStreamTable {
    ghost exact = { stream_exact };
}

impl ExactEq for TypeErrorContextTable {
    ghost exact = { error_context_exact };
}

impl ExactEq for TypeComponentInstance {
    ghost exact = { instance_exact };
}

impl ExactEq for TypeComponent {
    ghost exact = { component_exact };
}

impl ExactEq for TypeModule {
    ghost exact = { module_exact };
}

impl ExactEq for CoreFuncSig {
    ghost exact = { signature_exact };
}
