//! The types that the crates above speak of: the type table of an input, the records of core modules, the converted
//! types and their numbers, and the errors.
//!
//! It stands on `pc_entity` and `pc_numbers`, on `indexmap` for sets of names, and on `thiserror` for the texts of
//! errors.
#![tactic(auto)]

mod by_kind;
mod copies;
mod core_entity;
mod decl_type;
mod distinct;
pub mod encoding;
pub mod error;
mod exact;
pub mod intrinsic;
pub mod module_record;
pub mod name_set;
pub mod parsed;
mod shared_record;
mod sound_record;
mod sound_table;
pub mod trampoline;
pub mod type_index;
pub mod types;
mod words;

pub use by_kind::ByKind;
pub use core_entity::entity_number;
pub use distinct::{distinct_keys, distinct_pairs, distinct_texts};
pub use encoding::StringEncoding;
pub use error::{Error, Place, TypeError, Unsupported};
pub use intrinsic::{UnknownName, UnsafeIntrinsic};
pub use module_record::ModuleRecord;
pub use name_set::{NameSet, PairSet};
pub use parsed::{
    CoreEntity, CoreFuncSig, CoreKind, DeclType, Entity, PrimType, TypeTable, ValType, WasmValType,
};
pub use pc_entity::ModuleInternedTypeIndex;
pub use shared_record::SharedRecord;
pub use sound_record::MAX_ENTITIES;
pub use sound_table::check_table;
pub use trampoline::TrampolineKind;
pub use type_index::{
    TypeComponentIndex, TypeComponentInstanceIndex, TypeComponentLocalErrorContextTableIndex,
    TypeEnumIndex, TypeFlagsIndex, TypeFuncIndex, TypeFutureTableIndex, TypeListIndex,
    TypeModuleIndex, TypeOptionIndex, TypeRecordIndex, TypeResourceTableIndex, TypeResultIndex,
    TypeStreamTableIndex, TypeTupleIndex, TypeVariantIndex,
};
pub use types::{
    ComponentExtern, ComponentExternData, InterfaceType, TypeComponent, TypeComponentInstance,
    TypeDef, TypeEnum, TypeErrorContextTable, TypeFlags, TypeFunc, TypeFutureTable, TypeKind,
    TypeList, TypeModule, TypeOption, TypeRecord, TypeResourceTable, TypeResult, TypeStreamTable,
    TypeTuple, TypeVariant,
};
