//! The payloads that are translated, with their type table.
//!
//! The root has two core modules; the second one imports what the first one exports. A component makes an instance of
//! each, and the root makes an instance of that component.

use pc_entity::{EntityIndex, FuncIndex, NoMemory, Seq, Text};
use pc_parsed::{AliasItem, ComponentInstanceItem, Encoding, InstanceItem, OuterKind, Payload};
use pc_types::{CoreEntity, CoreFuncSig, DeclType, ModuleRecord, SharedRecord, TypeTable};
use std::alloc::Global;

/// A list of one item.
fn one<T: Drop>(alloc: Global, item: T) -> Result<Seq<T>, NoMemory> {
    let mut list = Seq::new(alloc);
    list.push(item)?;
    Ok(list)
}

/// A list of two items.
fn two<T: Drop>(alloc: Global, first: T, second: T) -> Result<Seq<T>, NoMemory> {
    let mut list = Seq::new(alloc);
    list.push(first)?;
    list.push(second)?;
    Ok(list)
}

/// The signature of the core functions, and two types: 0 is that of the core modules, 1 that of an instance without
/// exports.
pub(crate) fn types(alloc: Global) -> Result<TypeTable, NoMemory> {
    let (params, results) = (Seq::new(alloc), Seq::new(alloc));
    let core_funcs = one(alloc, CoreFuncSig { params, results })?;
    let (imports, exports) = (Seq::new(alloc), Seq::new(alloc));
    let mut types = one(alloc, DeclType::Module { imports, exports })?;
    let exports = Seq::new(alloc);
    types.push(DeclType::Instance { exports })?;
    Ok(TypeTable { core_funcs, types })
}

/// A core module that imports, defines and exports functions alone. Those that it defines have these signatures.
fn functions(
    alloc: Global,
    imports: Seq<(Text, Text, CoreEntity)>,
    funcs: Seq<u32>,
    exports: Seq<(Text, EntityIndex)>,
) -> Result<Payload, NoMemory> {
    let record_ = ModuleRecord {
        imports,
        funcs,
        tables: 0,
        memories: Seq::new(alloc),
        globals: 0,
        tags: 0,
        exports,
    };
    Ok(Payload::ModuleSection {
        record_: SharedRecord::new(alloc, record_)?,
        ty: 0,
    })
}

/// An export of a core module: a function, by its number.
fn exported(alloc: Global, name: &str, number: u32) -> Result<(Text, EntityIndex), NoMemory> {
    let func = EntityIndex::Function(FuncIndex(number));
    Ok((Text::copy_of(alloc, name)?, func))
}

/// The first core module: it defines the functions `get` and `set`, and exports them.
fn store(alloc: Global) -> Result<Payload, NoMemory> {
    let get = exported(alloc, "get", 0)?;
    let set = exported(alloc, "set", 1)?;
    let funcs = two(alloc, 0, 0)?;
    let exports = two(alloc, get, set)?;
    functions(alloc, Seq::new(alloc), funcs, exports)
}

/// An import of a core module: a function of what is given under the name `store`.
fn imported(alloc: Global, name: &str) -> Result<(Text, Text, CoreEntity), NoMemory> {
    let from = Text::copy_of(alloc, "store")?;
    Ok((from, Text::copy_of(alloc, name)?, CoreEntity::Func(0)))
}

/// The second one, which imports them.
fn user(alloc: Global) -> Result<Payload, NoMemory> {
    let get = imported(alloc, "get")?;
    let set = imported(alloc, "set")?;
    let imports = two(alloc, get, set)?;
    functions(alloc, imports, Seq::new(alloc), Seq::new(alloc))
}

/// A core module that a component finds around it.
fn outer(index: u32) -> AliasItem {
    AliasItem::Outer {
        kind: OuterKind::CoreModule,
        count: 1,
        index,
    }
}

/// The core instances of the component: that of the second module is given that of the first one.
fn core_instances(alloc: Global) -> Result<Payload, NoMemory> {
    let args = Seq::new(alloc);
    let first = InstanceItem::Instantiate { module: 0, args };
    let given = (Text::copy_of(alloc, "store")?, 0);
    let args = one(alloc, given)?;
    let second = InstanceItem::Instantiate { module: 1, args };
    Ok(Payload::InstanceSection(two(alloc, first, second)?))
}

/// An instance of the component.
fn instance(alloc: Global) -> Result<Payload, NoMemory> {
    let args = Seq::new(alloc);
    let item = ComponentInstanceItem::Instantiate {
        component: 0,
        args,
        ty: 1,
    };
    Ok(Payload::ComponentInstanceSection(one(alloc, item)?))
}

/// The payloads, in written order.
pub(crate) fn payloads(alloc: Global) -> Result<Seq<Payload>, NoMemory> {
    let encoding = Encoding::Component;
    let mut list = one(alloc, Payload::Version { encoding })?;
    list.push(store(alloc)?)?;
    list.push(user(alloc)?)?;
    list.push(Payload::ComponentSection)?;
    list.push(Payload::Version { encoding })?;
    list.push(Payload::ComponentAliasSection(two(alloc, outer(0), outer(1))?))?;
    list.push(core_instances(alloc)?)?;
    list.push(Payload::End)?;
    list.push(instance(alloc)?)?;
    list.push(Payload::End)?;
    Ok(list)
}
