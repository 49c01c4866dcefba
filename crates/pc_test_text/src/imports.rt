//! What the plan that is printed imports.

use crate::parts::{list, text, there};
use crate::settings::extern_data;
use pc_entity::{ImportIndex, PrimaryMap, RuntimeImportIndex, Seq, Text};
use pc_types::{
    ComponentExtern, InterfaceType, TypeComponentInstanceIndex, TypeDef, TypeFuncIndex,
    TypeModuleIndex,
};
use std::alloc::Global;

const FUNC: TypeDef = TypeDef::ComponentFunc(TypeFuncIndex(0));

const INSTANCE: TypeDef = TypeDef::ComponentInstance(TypeComponentInstanceIndex(0));

const MODULE: TypeDef = TypeDef::Module(TypeModuleIndex(0));

const TYPE: TypeDef = TypeDef::Interface(InterfaceType::Bool);

/// An import with its interface and its id, which are none where they are empty.
fn import(
    alloc: Global,
    name: &str,
    ty: TypeDef,
    names: [&str; 2],
) -> Option<(Text, ComponentExtern)> {
    let data_ = extern_data(alloc, names);
    Some((text(alloc, name)?, ComponentExtern { ty, data_ }))
}

/// An import of each kind.
pub(crate) fn import_types(alloc: Global) -> PrimaryMap<ImportIndex, (Text, ComponentExtern)> {
    let all = [
        import(alloc, "f", FUNC, ["", ""]),
        import(alloc, "i", INSTANCE, ["a:b/c", ""]),
        import(alloc, "m", MODULE, ["", "say \"d\""]),
        import(alloc, "t", TYPE, ["e", "g"]),
    ];
    PrimaryMap::from_vec(there(alloc, all))
}

/// A host item within an import, and one that is an import.
pub(crate) fn imports(alloc: Global) -> PrimaryMap<RuntimeImportIndex, (ImportIndex, Seq<Text>)> {
    let names = Seq::from_vec(there(alloc, [text(alloc, "x"), text(alloc, "y")]));
    let all = [(ImportIndex(1), names), (ImportIndex(0), Seq::new(alloc))];
    PrimaryMap::from_vec(list(alloc, all))
}

/// One import, which is a function where no name leads on from it.
pub(crate) fn one_import_type(
    alloc: Global,
    name: &str,
    inner: &str,
) -> PrimaryMap<ImportIndex, (Text, ComponentExtern)> {
    let ty = if inner.is_empty() { FUNC } else { INSTANCE };
    PrimaryMap::from_vec(there(alloc, [import(alloc, name, ty, ["", ""])]))
}

/// A name, or none where it is empty.
fn path(alloc: Global, inner: &str) -> Seq<Text> {
    if inner.is_empty() {
        Seq::new(alloc)
    } else {
        Seq::from_vec(there(alloc, [text(alloc, inner)]))
    }
}

/// One host item within the only import, or that import itself where the name is empty.
pub(crate) fn one_import(
    alloc: Global,
    inner: &str,
) -> PrimaryMap<RuntimeImportIndex, (ImportIndex, Seq<Text>)> {
    PrimaryMap::from_vec(list(alloc, [(ImportIndex(0), path(alloc, inner))]))
}

/// The resources that are imported, by their host items.
pub(crate) static RESOURCES: [RuntimeImportIndex; 2] = [
    RuntimeImportIndex(1),
    RuntimeImportIndex(0),
];
