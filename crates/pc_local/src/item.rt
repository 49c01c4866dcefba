//! Local items: what the body of a component does, one after the other, and what a nested component is given.

use pc_entity::{
    ComponentIndex, ComponentUpvarIndex, EntityIndex, ModuleIndex, ModuleUpvarIndex, PrimaryMap,
    Seq, StaticComponentIndex, StaticModuleIndex, Text,
};
use pc_parsed::{CanonItem, CanonOption, ExternName, ItemKind};
use pc_types::{CoreKind, Entity, SharedRecord, ValType, WasmValType};

/// One item of a body. Its place in the list is its number; options stand as they are written.
#[derive(Drop)]
pub enum LocalInitializer {
    /// An import of the component.
    Import {
        name: ExternName,
        ty: Entity,
    },
    /// The root's import of the unsafe intrinsics.
    IntrinsicsImport,
    /// A resource, with its number in the type table and its destructor, a core function.
    Resource {
        id: u32,
        rep: WasmValType,
        dtor: Option<u32>,
    },
    /// A function, lifted from a core function.
    Lift {
        func: u32,
        ty: u32,
        core: u32,
        opts: Seq<CanonOption>,
    },
    /// A core function, lowered from a function.
    Lower {
        func: u32,
        ty: u32,
        core: u32,
        opts: Seq<CanonOption>,
    },
    /// A builtin of none of the kinds below.
    Builtin(CanonItem),
    /// A builtin that waits for or polls a waitable set.
    WaitableSet(CanonItem),
    /// The builtin that ends a task with its result.
    TaskReturn {
        core: u32,
        result: Option<ValType>,
        opts: Seq<CanonOption>,
    },
    /// A builtin on error contexts.
    ErrorContext(CanonItem),
    /// A read or a write of a context slot.
    Context(CanonItem),
    /// The builtin that makes a thread of a function in a table.
    ThreadNewIndirect {
        core: u32,
        start: u32,
        table: u32,
    },
    /// A core module of the program, with its type.
    ModuleStatic {
        index: StaticModuleIndex,
        ty: u32,
    },
    /// A core instance of a module of the scope, with a core instance for each module name.
    ModuleInstantiate {
        module: u32,
        args: Seq<(Text, u32)>,
    },
    /// A core instance from items of the scope.
    ModuleSynthetic(Seq<(Text, EntityIndex)>),
    /// A nested component of the program, with what it captures.
    ComponentStatic {
        index: StaticComponentIndex,
        vars: ClosedOverVars,
    },
    /// A component instance of a component of the scope. `ty` is the type that it has.
    ComponentInstantiate {
        component: u32,
        args: Seq<(Text, ItemKind, u32)>,
        ty: u32,
    },
    /// A component instance from items of the scope. `ty` is the type that it has.
    ComponentSynthetic {
        exports: Seq<(ExternName, ItemKind, u32)>,
        ty: u32,
    },
    /// An item that a core instance exports.
    AliasCoreExport {
        kind: CoreKind,
        instance: u32,
        name: Text,
    },
    /// An item that a component instance exports.
    AliasComponentExport {
        kind: ItemKind,
        instance: u32,
        name: Text,
    },
    /// A module of the scope, or one that was captured.
    AliasModule(ClosedOverModule),
    /// A component of the scope, or one that was captured.
    AliasComponent(ClosedOverComponent),
    /// An item of the scope, exported under a name.
    Export {
        name: ExternName,
        kind: ItemKind,
        index: u32,
    },
}

/// What a nested component captures, as the body around it has it.
#[derive(Drop)]
pub struct ClosedOverVars {
    pub components: PrimaryMap<ComponentUpvarIndex, ClosedOverComponent>,
    pub modules: PrimaryMap<ModuleUpvarIndex, ClosedOverModule>,
}

/// A module as a body has it: by its place among the modules of the scope, or as a captured one.
#[derive(Clone, Copy, PartialEq, Eq)]
pub enum ClosedOverModule {
    Local(ModuleIndex),
    Upvar(ModuleUpvarIndex),
}

/// A component as a body has it: by its place among the components of the scope, or as a captured one.
#[derive(Clone, Copy, PartialEq, Eq)]
pub enum ClosedOverComponent {
    Local(ComponentIndex),
    Upvar(ComponentUpvarIndex),
}

/// The body of one component: its items, and those of them that are exports once more.
#[derive(Drop)]
pub struct Translation {
    pub initializers: Seq<LocalInitializer>,
    pub exports: Seq<(ExternName, ItemKind, u32)>,
}

/// The bodies and core modules of a payload list. A nested component is named by its place among `components`.
#[derive(Drop)]
pub struct LocalProgram {
    pub root: Translation,
    pub modules: PrimaryMap<StaticModuleIndex, SharedRecord>,
    pub components: PrimaryMap<StaticComponentIndex, Translation>,
}
