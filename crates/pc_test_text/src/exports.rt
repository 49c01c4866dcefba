//! The exports of the plans that are printed.

use crate::parts::{list, text};
use crate::settings::extern_data;
use pc_entity::{
    EntityIndex, ExportIndex, FuncIndex, OptionsIndex, RuntimeImportIndex, RuntimeInstanceIndex,
    Seed, StaticModuleIndex, Text,
};
use pc_info::{CoreDef, CoreExport, Export, ExportItem};
use pc_names::{NameMap, NameMapNoIntern};
use pc_types::{
    ComponentExternData, InterfaceType, TypeComponentInstanceIndex, TypeDef, TypeFuncIndex,
    TypeModuleIndex,
};
use std::alloc::Global;

/// A name with the number of its item, its interface and its id, which are none where they are empty.
pub(crate) type Name = (&'static str, u32, [&'static str; 2]);

type Names = NameMap<Text, (ExportIndex, ComponentExternData)>;

/// The names of the smallest plan.
pub(crate) static ONE: [Name; 1] = [("f", 0, ["", ""])];

/// The names of the plan with each kind of line.
pub(crate) static ALL: [Name; 4] = [
    ("\"\\\n", 4, ["a:b/c", "d"]),
    ("i", 3, ["", ""]),
    ("m", 5, ["", ""]),
    ("again", 6, ["", "w"]),
];

/// The name of a function of the host.
pub(crate) static AGAIN: [Name; 1] = [("again", 0, ["", ""])];

/// The name of an instance of the host.
pub(crate) static INSTANCE: [Name; 1] = [("e", 1, ["", ""])];

static INNER: [Name; 1] = [("k", 0, ["", ""])];

static WITHIN: [Name; 1] = [("f", 0, ["", ""])];

static OUTER: [Name; 2] = [("j", 1, ["", "h"]), ("l", 2, ["", ""])];

/// Adds a name.
fn add_name(alloc: Global, names: &mut Names, name: Name) {
    if let Some(key) = text(alloc, name.0) {
        let entry = (ExportIndex(name.1), extern_data(alloc, name.2));
        let _ = names.insert(&key, &mut NameMapNoIntern::new(alloc), false, entry);
    }
}

/// These names.
pub(crate) fn names_of(alloc: Global, all: &[Name]) -> Names {
    let mut names = NameMap::new(alloc, Seed::fixed());
    for name in all.iter() {
        add_name(alloc, &mut names, *name);
    }
    names
}

/// A function of core instance 0, lifted.
fn function(number: u32) -> Export {
    Export::LiftedFunction {
        ty: TypeFuncIndex(0),
        func: CoreDef::Export(CoreExport {
            instance: RuntimeInstanceIndex(0),
            item: ExportItem::Index(EntityIndex::Function(FuncIndex(number))),
        }),
        options: OptionsIndex(0),
    }
}

fn instance(alloc: Global, number: u32, names: &[Name]) -> Export {
    Export::Instance {
        ty: TypeComponentInstanceIndex(number),
        exports: names_of(alloc, names),
    }
}

const TYPE: Export = Export::Type_(TypeDef::Interface(InterfaceType::Bool));

const STATIC: Export = Export::ModuleStatic {
    ty: TypeModuleIndex(0),
    index: StaticModuleIndex(1),
};

const IMPORTED: Export = Export::ModuleImport {
    ty: TypeModuleIndex(0),
    import: RuntimeImportIndex(2),
};

/// A function of the host.
fn host_function(import: u32) -> Export {
    Export::ImportedFunction {
        ty: TypeFuncIndex(0),
        import: RuntimeImportIndex(import),
    }
}

/// A function of the host alone.
pub(crate) fn host_item(alloc: Global) -> Vec<Export> {
    list(alloc, [host_function(0)])
}

/// A function of the host, and an instance that exports it.
pub(crate) fn host_items(alloc: Global) -> Vec<Export> {
    list(alloc, [host_function(0), instance(alloc, 0, &WITHIN)])
}

/// The only item of the smallest plan.
pub(crate) fn one_item(alloc: Global) -> Vec<Export> {
    list(alloc, [function(0)])
}

/// An item of each kind, two of which are instances.
pub(crate) fn all_items(alloc: Global) -> Vec<Export> {
    let all = [
        TYPE,
        instance(alloc, 0, &INNER),
        STATIC,
        instance(alloc, 1, &OUTER),
        function(10),
        IMPORTED,
        host_function(1),
    ];
    list(alloc, all)
}
