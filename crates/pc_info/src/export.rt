//! What a plan exports.

use crate::core_def::CoreDef;
use pc_entity::{ExportIndex, OptionsIndex, RuntimeImportIndex, StaticModuleIndex, Text};
use pc_names::NameMap;
use pc_types::{
    ComponentExternData, TypeComponentInstanceIndex, TypeDef, TypeFuncIndex, TypeModuleIndex,
};

/// An export of the root component, or of an instance that it exports. Types are numbers of the types builder.
#[derive(Drop)]
pub enum Export {
    /// A core function, lifted.
    LiftedFunction {
        ty: TypeFuncIndex,
        func: CoreDef,
        options: OptionsIndex,
    },
    /// A function of the host.
    ImportedFunction {
        ty: TypeFuncIndex,
        import: RuntimeImportIndex,
    },
    /// A core module that was handed in.
    ModuleStatic {
        ty: TypeModuleIndex,
        index: StaticModuleIndex,
    },
    /// A core module of the host.
    ModuleImport {
        ty: TypeModuleIndex,
        import: RuntimeImportIndex,
    },
    /// An instance, with what it exports in order, each by the number of an item that stands before this one.
    Instance {
        ty: TypeComponentInstanceIndex,
        exports: NameMap<Text, (ExportIndex, ComponentExternData)>,
    },
    /// A type.
    Type_(TypeDef),
}
