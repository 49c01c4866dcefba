//! The steps of a plan, a line each.

ghost use Rattle.std.specs.Prelude.{◌≡◌, ◌++◌, codes, map, OnOk};
ghost use Rattle.std.specs.List.{flat_map};
ghost use Rattle.pc_info.specs.declared.initializer.GlobalInitializer.TheVariants as init;
ghost use Rattle.pc_spec_plan.specs.PlanView as plan;
ghost use Rattle.pc_spec_plan.specs.Text.{core_type, definition, initializer_line, line_end, number};
ghost use Rattle.pc_info.specs.Definitions.{arguments_view, def_view, initializer_view, owner_view};
ghost use Rattle.pc_info.specs.Definitions.{resource_view, source_view};

use pc_entity::{
    DefinedResourceIndex, LoweredIndex, NoMemory, RuntimeComponentInstanceIndex,
    RuntimeImportIndex, StaticModuleIndex, TextMap,
};
use pc_info::{
    CoreDef, ExtractMemory, ExtractTable, GlobalInitializer, InstantiateModule, Resource,
};
use pc_text_pieces::{
    put, put_arguments, put_definition, put_definitions, put_key, put_maybe_definition,
    put_maybe_key, put_memory, put_number, put_table,
};
use pc_types::WasmValType;

/// The line of an instantiation of a module of the component.
fn put_static(
    out: &mut Vec<u8>,
    number: StaticModuleIndex,
    args: &[CoreDef],
    instance: Option<RuntimeComponentInstanceIndex>,
) -> Result<(), NoMemory>
    ensures { OnOk result (out.new.items ≡ out.old.items ++ initializer_line (plan.instantiate_static
        number.0 (map def_view args.now) (owner_view instance))) }
{
    put(out, "init static")?;
    put_key(out, number)?;
    put_maybe_key(out, instance)?;
    put(out, " [")?;
    put_definitions(out, args)?;
    put(out, "]\n")
}

/// The line of an instantiation of a module of the host.
fn put_import(
    out: &mut Vec<u8>,
    import: RuntimeImportIndex,
    args: &TextMap<TextMap<CoreDef>>,
    instance: Option<RuntimeComponentInstanceIndex>,
) -> Result<(), NoMemory>
    ensures { OnOk result (out.new.items ≡ out.old.items ++ initializer_line (plan.instantiate_import
        import.0 (flat_map arguments_view args.now) (owner_view instance))) }
{
    put(out, "init import")?;
    put_key(out, import)?;
    put_maybe_key(out, instance)?;
    put(out, " [")?;
    put_arguments(out, args)?;
    put(out, "]\n")
}

/// The line of an instantiation.
fn put_instantiation(
    out: &mut Vec<u8>,
    source: &InstantiateModule,
    instance: Option<RuntimeComponentInstanceIndex>,
) -> Result<(), NoMemory>
    ensures { OnOk result (out.new.items
        ≡ out.old.items ++ initializer_line (source_view source.now instance)) }
{
    match source {
        InstantiateModule::Static(number, args) => {
            put_static(out, *number, args.as_slice(), instance)
        }
        InstantiateModule::Import(import, args) => {
            put_import(out, *import, args.get(), instance)
        }
    }
}

/// The line of a lowered import.
fn put_lowering(
    out: &mut Vec<u8>,
    index: LoweredIndex,
    import: RuntimeImportIndex,
) -> Result<(), NoMemory>
    ensures { OnOk result (out.new.items
        ≡ out.old.items ++ initializer_line (plan.lower_import index.0 import.0)) }
{
    put(out, "init lower")?;
    put_key(out, index)?;
    put_key(out, import)?;
    put(out, "\n")
}

/// What stands before the definition that fills a slot.
fn put_slot(out: &mut Vec<u8>, kind: &str, index: u32) -> Result<(), NoMemory>
    ensures { OnOk result (out.new.items
        ≡ out.old.items ++ codes "init " ++ kind.now ++ number index ++ codes " ") }
{
    put(out, "init ")?;
    put(out, kind)?;
    put_number(out, u64::from(index))?;
    put(out, " ")
}

/// A slot of a kind, filled with a definition.
fn put_filled(out: &mut Vec<u8>, kind: &str, index: u32, def: &CoreDef) -> Result<(), NoMemory>
    ensures { OnOk result (out.new.items ≡ out.old.items
        ++ codes "init " ++ kind.now ++ number index ++ codes " " ++ definition (def_view def.now) ++ line_end) }
{
    put_slot(out, kind, index)?;
    put_definition(out, def)?;
    put(out, "\n")
}

/// The line of a memory that goes into a slot.
fn put_extract_memory(out: &mut Vec<u8>, extract: &ExtractMemory) -> Result<(), NoMemory>
    ensures { OnOk result (out.new.items
        ≡ out.old.items ++ initializer_line (initializer_view (init.ExtractMemory extract.now))) }
{
    put_slot(out, "memory", extract.index.0)?;
    put_memory(out, &extract.export)?;
    put(out, "\n")
}

/// The line of a table that goes into a slot.
fn put_extract_table(out: &mut Vec<u8>, extract: &ExtractTable) -> Result<(), NoMemory>
    ensures { OnOk result (out.new.items
        ≡ out.old.items ++ initializer_line (initializer_view (init.ExtractTable extract.now))) }
{
    put_slot(out, "table", extract.index.0)?;
    put_table(out, &extract.export)?;
    put(out, "\n")
}

/// The word for a core value type.
fn type_word(ty: WasmValType) -> &'static str
    ensures { result.now ≡ core_type ty }
{
    match ty {
        WasmValType::I32 => "i32",
        WasmValType::I64 => "i64",
        WasmValType::F32 => "f32",
        WasmValType::F64 => "f64",
        WasmValType::V128 => "v128",
        WasmValType::FuncRef => "funcref",
        WasmValType::ExternRef => "externref",
    }
}

/// What stands before the destructor of a resource.
fn put_declared(
    out: &mut Vec<u8>,
    index: DefinedResourceIndex,
    rep: WasmValType,
) -> Result<(), NoMemory>
    ensures { OnOk result (out.new.items
        ≡ out.old.items ++ codes "init resource" ++ number index.0 ++ codes " " ++ core_type rep) }
{
    put(out, "init resource")?;
    put_key(out, index)?;
    put(out, " ")?;
    put(out, type_word(rep))
}

/// The line of a resource of the component.
fn put_resource(out: &mut Vec<u8>, resource: &Resource) -> Result<(), NoMemory>
    ensures { OnOk result (out.new.items ≡ out.old.items ++ initializer_line (resource_view resource.now)) }
{
    put_declared(out, resource.index, resource.rep)?;
    put_maybe_definition(out, &resource.dtor)?;
    put_key(out, resource.instance)?;
    put(out, "\n")
}

/// The line of a step.
fn put_initializer(out: &mut Vec<u8>, step: &GlobalInitializer) -> Result<(), NoMemory>
    ensures { OnOk result (out.new.items ≡ out.old.items ++ initializer_line (initializer_view step.now)) }
{
    match step {
        GlobalInitializer::InstantiateModule(source, instance) => {
            put_instantiation(out, source, *instance)
        }
        GlobalInitializer::LowerImport { index, import } => put_lowering(out, *index, *import),
        GlobalInitializer::ExtractMemory(extract) => put_extract_memory(out, extract),
        GlobalInitializer::ExtractRealloc(extract) => {
            put_filled(out, "realloc", extract.index.0, &extract.def)
        }
        GlobalInitializer::ExtractCallback(extract) => {
            put_filled(out, "callback", extract.index.0, &extract.def)
        }
        GlobalInitializer::ExtractPostReturn(extract) => {
            put_filled(out, "post-return", extract.index.0, &extract.def)
        }
        GlobalInitializer::ExtractTable(extract) => put_extract_table(out, extract),
        GlobalInitializer::Resource(resource) => put_resource(out, resource),
    }
}

/// A line for each step, in order.
pub(crate) fn put_initializers(
    out: &mut Vec<u8>,
    steps: &[GlobalInitializer],
) -> Result<(), NoMemory>
    ensures { OnOk result (out.new.items
        ≡ out.old.items ++ flat_map initializer_line (map initializer_view steps.now)) }
{
    for step in steps {
        put_initializer(out, step)?;
    }
    Ok(())
}
