//! The texts of two plans, after the format of the texts.

use crate::exports::{
    AGAIN, ALL, INSTANCE, Name, ONE, all_items, host_item, host_items, names_of, one_item,
};
use crate::held::has_items;
use crate::imports::{RESOURCES, import_types, imports, one_import, one_import_type};
use crate::modules::{all_modules, one_module};
use crate::parts::copied;
use crate::settings::{BOTH, SINGLE};
use crate::steps::{all_steps, one_step};
use crate::support::holds;
use crate::trampolines::{INTRINSICS, TRAMPOLINES};
use pc_entity::{PrimaryMap, Seed, StaticModuleIndex};
use pc_info::{Component, ComponentTranslation, Export, ModuleTranslation, Trampoline};
use pc_text::plan_text;
use std::alloc::Global;

/// The text of a plan with one module and one lifted export.
static SMALLEST: &str = "plan 1
modules 1 0
counts 1 1 0 0 0 0 0 0 0 0 0 0
init static 0 0 []
options 0 0 utf8 sync - - - -
export \"f\" lifted export(0 func 0) options 0
";

/// The text of a plan with each kind of line.
static EVERY_LINE: &str = "plan 1
modules 1 2
counts 1 2 3 4 5 6 7 8 9 10 11 12
import-type 0 \"f\" func
import-type 1 \"i\" instance implements \"a:b/c\"
import-type 2 \"m\" module id \"say \\\"d\\\"\"
import-type 3 \"t\" type implements \"e\" id \"g\"
import 0 1 \"x\" \"y\"
import 1 0
imported-resource 0 1
imported-resource 1 0
init static 7 - [export(0 table 1), export(1 memory 2), export(2 global 3), export(3 tag 4), \
export(4294967295 \"a\\\"b\\\\c\\nd\"), flags(5), trampoline(6), intrinsic(u8-native-load)]
init import 1 2 [\"m\" \"a\" trampoline(8), \"m\" \"b\" flags(9), \"n\" \"c\" trampoline(10)]
init lower 0 1
init memory 2 export(3 memory 4)
init realloc 5 export(6 func 7)
init callback 8 trampoline(9)
init post-return 10 export(11 \"p\")
init table 12 export(13 \"t\")
init resource 14 i32 - 15
init resource 16 externref trampoline(17) 18
options 0 9 utf16 async 5 6 7 8
options 1 0 compact-utf16 sync - - gc
trampoline 0 component-lower-import[3] 3 4
trampoline 1 component-resource-drop[5] 6
trampoline 2 stream-cancel-read 7 async
trampoline 3 thread-new-indirect 8 9 10
trampoline 4 component-transcode-copy_utf16-m32-m64 11 12
trampoline 5 component-start-call - 13
trampoline 6 trap-1
intrinsic u8-native-load
intrinsic context-set-i32-1
adapter 2 0 14 15 lift 1 utf8 sync - - 2 3 lower 4 utf16 async 5 6 gc
adapter 1 1 12 13 lift 1 utf8 sync - - 2 3 lower 4 utf16 async 5 6 gc
adapter 1 2 10 11 lift 1 utf8 sync - - 2 3 lower 4 utf16 async 5 6 gc
export \"\\\"\\\\\\n\" lifted export(0 func 10) options 0 implements \"a:b/c\" id \"d\"
export \"i\" instance
export \"i\" \"j\" instance id \"h\"
export \"i\" \"j\" \"k\" type
export \"i\" \"l\" module-static 1
export \"m\" module-import 2
export \"again\" imported 1 id \"w\"
";

/// The text of a plan that exports a function of the host again.
static HOST_FUNCTION: &str = "plan 1
modules 0 0
counts 0 1 0 0 0 0 0 0 0 0 0 0
import-type 0 \"f\" func
import 0 0
export \"again\" imported 0
";

/// The text of a plan that exports an instance of the host again, with a function in it.
static HOST_INSTANCE: &str = "plan 1
modules 0 0
counts 0 1 0 0 0 0 0 0 0 0 0 0
import-type 0 \"i\" instance
import 0 0 \"f\"
export \"e\" instance
export \"e\" \"f\" imported 0
";

/// The smallest plan that does something.
fn smallest(alloc: Global) -> Component {
    let mut plan = Component::new(alloc, Seed::fixed());
    plan.num_runtime_instances = 1;
    plan.num_runtime_component_instances = 1;
    plan.initializers = one_step(alloc);
    plan.options = copied(alloc, &SINGLE);
    plan.export_items = PrimaryMap::from_vec(one_item(alloc));
    plan.exports = names_of(alloc, &ONE);
    plan
}

/// A plan that exports what it imports, a function or an instance with one.
fn hosted(
    alloc: Global,
    name: &str,
    inner: &str,
    exports: &[Name],
    items: Vec<Export>,
) -> Component {
    let mut plan = Component::new(alloc, Seed::fixed());
    plan.num_runtime_component_instances = 1;
    plan.import_types = one_import_type(alloc, name, inner);
    plan.imports = one_import(alloc, inner);
    plan.export_items = PrimaryMap::from_vec(items);
    plan.exports = names_of(alloc, exports);
    plan
}

/// A plan with each kind of line, in which each count has a number of its own.
fn every_line(alloc: Global) -> Component {
    let unsafe_intrinsics = INTRINSICS;
    Component {
        import_types: import_types(alloc),
        imports: imports(alloc),
        exports: names_of(alloc, &ALL),
        export_items: PrimaryMap::from_vec(all_items(alloc)),
        initializers: all_steps(alloc),
        num_runtime_instances: 1,
        num_runtime_component_instances: 2,
        num_lowerings: 3,
        num_runtime_memories: 4,
        num_runtime_tables: 5,
        num_runtime_reallocs: 6,
        num_runtime_callbacks: 7,
        num_runtime_post_returns: 8,
        num_resources: 9,
        num_future_tables: 10,
        num_stream_tables: 11,
        num_error_context_tables: 12,
        trampolines: PrimaryMap::new(alloc),
        unsafe_intrinsics,
        imported_resources: copied(alloc, &RESOURCES),
        defined_resource_instances: PrimaryMap::new(alloc),
        options: copied(alloc, &BOTH),
    }
}

/// Whether a plan with its modules has this text.
fn is_printed(
    alloc: Global,
    t: &ComponentTranslation,
    modules: &PrimaryMap<StaticModuleIndex, ModuleTranslation>,
    want: &str,
) -> bool {
    if !has_items(&t.component) {
        return false;
    }
    match plan_text(alloc, t, modules) {
        Ok(text) => text.as_slice() == want.as_bytes(),
        Err(_) => false,
    }
}

/// Whether a plan with its trampolines and modules has this text.
fn says(
    alloc: Global,
    component: Component,
    trampolines: &[Trampoline],
    modules: Vec<ModuleTranslation>,
    want: &str,
) -> bool {
    let t = ComponentTranslation {
        component,
        trampolines: copied(alloc, trampolines),
    };
    is_printed(alloc, &t, &PrimaryMap::from_vec(modules), want)
}

#[test]
fn plans_are_printed(rt: HostRuntime) {
    let alloc = rt.alloc();
    let is_small = says(alloc, smallest(alloc), &[], one_module(alloc), SMALLEST);
    holds(&rt, "one module and one lifted export", is_small);
    let (plan, modules) = (every_line(alloc), all_modules(alloc));
    let is_whole = says(alloc, plan, &TRAMPOLINES, modules, EVERY_LINE);
    holds(&rt, "each kind of line", is_whole);
}

#[test]
fn host_functions_are_exports(rt: HostRuntime) {
    let alloc = rt.alloc();
    let plan = hosted(alloc, "f", "", &AGAIN, host_item(alloc));
    let is_again = says(alloc, plan, &[], Vec::new(alloc), HOST_FUNCTION);
    holds(&rt, "a function of the host", is_again);
    let plan = hosted(alloc, "i", "f", &INSTANCE, host_items(alloc));
    let is_within = says(alloc, plan, &[], Vec::new(alloc), HOST_INSTANCE);
    holds(&rt, "a function within an instance of the host", is_within);
}
