//! The imports of a plan: those of the root, the host items that are used of them, and the resources of the host.

ghost use Rattle.std.specs.Prelude.{◌≡◌, ◌++◌, codes, map, OnOk};
ghost use Rattle.pc_numbers.specs.declared.runtime.RuntimeImportIndex.{RuntimeImportIndex};
ghost use Rattle.pc_spec_plan.specs.Text.{import_kind, import_line, import_type_line, imported_resource_line};
ghost use Rattle.pc_spec_plan.specs.Text.{number, numbered, quoted, spaced_names};
ghost use Rattle.pc_info.specs.View as seen;
ghost use Rattle.pc_info.specs.View.{import_type_view, import_view};

use pc_entity::{ImportIndex, NoMemory, RuntimeImportIndex, Seq, Text};
use pc_text_pieces::{put, put_extern_data, put_key, put_number, put_quoted};
use pc_types::{ComponentExtern, TypeDef};

/// The word for a kind of import.
fn kind_word(ty: TypeDef) -> &'static str
    ensures { result.now ≡ import_kind (seen.import_kind ty) }
{
    match ty {
        TypeDef::ComponentFunc(_) => "func",
        TypeDef::ComponentInstance(_) => "instance",
        TypeDef::Module(_) => "module",
        _ => "type",
    }
}

/// What stands before the kind of an import.
fn put_named_import(out: &mut Vec<u8>, n: usize, name: &str) -> Result<(), NoMemory>
    ensures { OnOk result (out.new.items
        ≡ out.old.items ++ codes "import-type" ++ number n ++ codes " " ++ quoted name.now ++ codes " ") }
{
    put(out, "import-type")?;
    put_number(out, n as u64)?;
    put(out, " ")?;
    put_quoted(out, name)?;
    put(out, " ")
}

/// The line of an import of the root.
fn put_import_type(
    out: &mut Vec<u8>,
    n: usize,
    name: &Text,
    import: &ComponentExtern,
) -> Result<(), NoMemory>
    ensures { OnOk result (out.new.items
        ≡ out.old.items ++ import_type_line n (import_type_view (name.now, import.now))) }
{
    put_named_import(out, n, name.as_str())?;
    put(out, kind_word(import.ty))?;
    put_extern_data(out, &import.data_)?;
    put(out, "\n")
}

/// A line for each import of the root, with its number.
pub(crate) fn put_import_types(
    out: &mut Vec<u8>,
    imports: &[(Text, ComponentExtern)],
) -> Result<(), NoMemory>
    ensures { OnOk result (out.new.items
        ≡ out.old.items ++ numbered import_type_line 0 (map import_type_view imports.now)) }
{
    for (n, import) in imports.iter().enumerate() {
        put_import_type(out, n, &import.0, &import.1)?;
    }
    Ok(())
}

/// Each name in quotes after a space.
fn put_names(out: &mut Vec<u8>, names: &[Text]) -> Result<(), NoMemory>
    ensures { OnOk result (out.new.items ≡ out.old.items ++ spaced_names names.now) }
{
    for name in names {
        put(out, " ")?;
        put_quoted(out, name.as_str())?;
    }
    Ok(())
}

/// The line of a host item.
fn put_import(
    out: &mut Vec<u8>,
    n: usize,
    import: ImportIndex,
    names: &[Text],
) -> Result<(), NoMemory>
    ensures { OnOk result (out.new.items
        ≡ out.old.items ++ import_line n (import_view (import, names.now))) }
{
    put(out, "import")?;
    put_number(out, n as u64)?;
    put_key(out, import)?;
    put_names(out, names)?;
    put(out, "\n")
}

/// A line for each host item that the plan uses, with its number.
pub(crate) fn put_imports(
    out: &mut Vec<u8>,
    imports: &[(ImportIndex, Seq<Text>)],
) -> Result<(), NoMemory>
    ensures { OnOk result (out.new.items
        ≡ out.old.items ++ numbered import_line 0 (map import_view imports.now)) }
{
    for (n, import) in imports.iter().enumerate() {
        put_import(out, n, import.0, import.1.as_slice())?;
    }
    Ok(())
}

/// The line of a resource of the host.
fn put_imported_resource(
    out: &mut Vec<u8>,
    n: usize,
    import: RuntimeImportIndex,
) -> Result<(), NoMemory>
    ensures { OnOk result (out.new.items ≡ out.old.items ++ imported_resource_line n import.0) }
{
    put(out, "imported-resource")?;
    put_number(out, n as u64)?;
    put_key(out, import)?;
    put(out, "\n")
}

/// A line for each resource of the host, with its number.
pub(crate) fn put_imported_resources(
    out: &mut Vec<u8>,
    resources: &[RuntimeImportIndex],
) -> Result<(), NoMemory>
    ensures { OnOk result (out.new.items ≡ out.old.items
        ++ numbered imported_resource_line 0 (map (λ (r : RuntimeImportIndex). r.0) resources.now)) }
{
    for (n, import) in resources.iter().enumerate() {
        put_imported_resource(out, n, *import)?;
    }
    Ok(())
}
