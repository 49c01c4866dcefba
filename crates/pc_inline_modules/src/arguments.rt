//! What core modules are given for their imports.

ghost use Rattle.std.specs.Prelude.{◌≡◌, ℕ, List, option_and_then, slice_get, IfOk};
ghost use Rattle.std.specs.Option.{option_copied};
ghost use Rattle.pc_entity.specs.Lists.{map_all, names_of};
ghost use Rattle.pc_types.specs.Table.{is_module};
ghost use Rattle.pc_types.specs.TypeTree.{TypeTree};
ghost use Rattle.pc_spec_reading.specs.Arguments.{host_arguments, static_argument, static_arguments};
ghost use Rattle.pc_spec_reading.specs.Scope.{Scope};
ghost use Rattle.pc_inline_names.specs.Both.{Both};
ghost use Rattle.pc_inline_names.specs.Named.{imports_of};
ghost use Rattle.pc_inline_names.specs.Numbers.{AreImportNumbers, AreNumbersOf, IsNumber};
ghost use Rattle.pc_inline_state.specs.Bags.{argument_item};
ghost use Rattle.pc_inline_state.specs.Found.{ArgumentsStand, knows_instances};
ghost use Rattle.pc_inline_state.specs.Frames.{FrameStands};
ghost use Rattle.pc_inline_state.specs.Points.{IsInput, IsPoint};
ghost use Rattle.pc_inline_state.specs.Stands.{IsTableTree};
ghost use Rattle.pc_inline_state.specs.Tables.{tables_of};
ghost use Rattle.pc_inline_modules.specs.Given.{HostArgumentsStand};

use crate::grouped::by_module;
use pc_dfg::CoreDef;
use pc_entity::{Atom, Boxed, NoMemory, Seq, StaticModuleIndex, Text, TextMap};
use pc_inline_names::{AtomMap, ProgramNames, first_numbered};
use pc_inline_state::{Context, CoreItem, Frame, State};
use pc_types::{CoreEntity, CoreKind, DeclType, TypeTable};

/// Whether each argument, also one that no import asks for, is a core instance of the frame.
fn knows_instances(frame: &Frame, args: &[(Text, u32)]) -> bool
    ensures { result ≡ knows_instances frame.now args.now }
{
    let held = frame.core_instances.len();
    args.iter().all(|arg| (arg.1 as usize) < held)
}

/// What is given for an import: the item under the number of its name, of its kind, in the argument under the number of
/// its module name.
fn numbered_argument(
    context: &Context<'_>,
    names: &ProgramNames<'_>,
    frame: &Frame,
    args: &AtomMap<u32>,
    kind: CoreKind,
    numbers: (Atom, Atom),
) -> Option<CoreItem>
    requires modules { names.now.modules ≡ context.now.modules }
    requires table { names.now.table ≡ context.now.table.now }
    ensures { (name : List ℕ) → IsNumber names.now.texts numbers.1 name
        → result ≡ argument_item context.now.table.now context.now.modules frame.now args.now
        numbers.0 numbers.1 name kind }
{
    let place = args.get(numbers.0).copied()?;
    let instance = frame.core_instances.as_slice().get(place as usize)?;
    context.export(names, instance, kind, numbers.1)
}

/// The definitions that are given for all imports of a core module in order, or nothing where one has none.
fn numbered_arguments(
    context: &Context<'_>,
    state: &State<'_>,
    frame: &Frame,
    args: &[(Text, u32)],
    numbers: &[Atom],
    imports: &[(Text, Text, CoreEntity)],
    import_numbers: &[(Atom, Atom)],
) -> Result<Option<Seq<CoreDef>>, NoMemory>
    requires input { IsInput context.now.table.now context.now.modules }
    requires here { IsPoint context.now.table.now context.now.modules state.now frame.now }
    requires numbered { AreNumbersOf state.now.names.now.texts (names_of args.now) numbers.now }
    requires imports { AreImportNumbers state.now.names.now.texts imports.now import_numbers.now }
    ensures { IfOk result (λ defs. (s : Scope) → FrameStands context.now.modules (tables_of state.now) frame.now s
        → Both (ArgumentsStand context.now.modules (tables_of state.now)) defs
        (map_all (static_argument context.now.modules s args.now) imports.now)) }
{
    let given = first_numbered(context.alloc, context.seed, args, numbers)?;
    let mut defs = Seq::with_capacity(context.alloc, imports.len())?;
    for (place, import) in imports.iter().enumerate() {
        let kind = import.2.kind();
        match numbered_argument(
            context,
            state.names,
            frame,
            &given,
            kind,
            import_numbers[place],
        ) {
            Some(item) => defs.push(context.found_def(state, item)?)?,
            None => return Ok(None),
        }
    }
    Ok(Some(defs))
}

/// The definitions that a module is given, or nothing where it, an argument or what it imports is missing.
pub(crate) fn module_arguments(
    context: &Context<'_>,
    state: &State<'_>,
    frame: &Frame,
    core_module: StaticModuleIndex,
    args: &[(Text, u32)],
    numbers: &[Atom],
) -> Result<Option<Seq<CoreDef>>, NoMemory>
    requires input { IsInput context.now.table.now context.now.modules }
    requires here { IsPoint context.now.table.now context.now.modules state.now frame.now }
    requires numbered { AreNumbersOf state.now.names.now.texts (names_of args.now) numbers.now }
    ensures { IfOk result (λ defs. (s : Scope) → FrameStands context.now.modules (tables_of state.now) frame.now s
        → Both (ArgumentsStand context.now.modules (tables_of state.now)) defs
        (option_and_then (static_arguments context.now.modules s args.now)
        (slice_get context.now.modules core_module.0))) }
{
    let Some(record_) = context.modules.record_(core_module) else {
        return Ok(None);
    };
    let Some(import_numbers) = state.names.module_imports(core_module) else {
        return Ok(None);
    };
    if !knows_instances(frame, args) {
        return Ok(None);
    }
    numbered_arguments(
        context,
        state,
        frame,
        args,
        numbers,
        record_.imports.as_slice(),
        import_numbers.as_slice(),
    )
}

/// The imports of a table entry that is a module type.
fn module_imports(table: &TypeTable, entry: u32) -> Option<&Seq<(Text, Text, CoreEntity)>>
    ensures { option_copied result ≡ option_and_then imports_of (slice_get table.now.types entry) }
{
    match table.entry(entry) {
        Some(DeclType::Module { imports, .. }) => Some(imports),
        _ => None,
    }
}

/// What a module of the host is given under the names of its imports, or nothing where an argument or an import is
/// missing.
pub(crate) fn host_arguments(
    context: &Context<'_>,
    state: &State<'_>,
    frame: &Frame,
    entry: u32,
    args: &[(Text, u32)],
    numbers: &[Atom],
) -> Result<Option<Boxed<TextMap<TextMap<CoreDef>>>>, NoMemory>
    requires input { IsInput context.now.table.now context.now.modules }
    requires here { IsPoint context.now.table.now context.now.modules state.now frame.now }
    requires numbered { AreNumbersOf state.now.names.now.texts (names_of args.now) numbers.now }
    ensures { IfOk result (λ given. (s : Scope) (tree : TypeTree)
        → FrameStands context.now.modules (tables_of state.now) frame.now s
        → IsTableTree context.now.modules (tables_of state.now) is_module entry tree
        → Both (HostArgumentsStand context.now.modules (tables_of state.now)) given
        (host_arguments context.now.modules s args.now tree)) }
{
    let Some(imports) = module_imports(context.table, entry) else {
        return Ok(None);
    };
    let Some(import_numbers) = state.names.type_imports(entry) else {
        return Ok(None);
    };
    if !knows_instances(frame, args) {
        return Ok(None);
    }
    let Some(defs) = numbered_arguments(
        context,
        state,
        frame,
        args,
        numbers,
        imports.as_slice(),
        import_numbers.as_slice(),
    )?
    else {
        return Ok(None);
    };
    let given = by_module(
        context.alloc,
        context.seed,
        imports.as_slice(),
        defs.as_slice(),
    )?;
    Ok(Some(Boxed::new(context.alloc, given)?))
}
