//! What a component exports.

use crate::{CoreDef, OptionsId};
use pc_entity::{ExportIndex, RuntimeImportIndex, StaticModuleIndex, TextMap};
use pc_types::{
    ComponentExternData, TypeComponentInstanceIndex, TypeDef, TypeFuncIndex, TypeModuleIndex,
};

/// An export of the root component, or of an instance that it exports.
#[derive(Drop)]
pub enum Export {
    /// A core function, lifted.
    LiftedFunction {
        ty: TypeFuncIndex,
        func: CoreDef,
        options: OptionsId,
    },
    /// A function of the host.
    ImportedFunction {
        ty: TypeFuncIndex,
        import: RuntimeImportIndex,
    },
    /// A core module that was handed in, with its type as a number of the type table: the one type that isn't converted
    /// yet.
    ModuleStatic {
        ty: u32,
        index: StaticModuleIndex,
    },
    /// A core module of the host.
    ModuleImport {
        ty: TypeModuleIndex,
        import: RuntimeImportIndex,
    },
    /// An instance, with what it exports in order, each by the number of an item that stands before this one.
    Instance {
        ty: TypeComponentInstanceIndex,
        exports: TextMap<(ExportIndex, ComponentExternData)>,
    },
    /// A type.
    Type_(TypeDef),
}
