//! What stands first among the parts of a builtin: a type, or a number.

ghost use Rattle.std.specs.Prelude.{◌≡◌, ◌<◌, None, IfOk, option_map};
ghost use Rattle.pc_types.specs.Table.{table_fault};
ghost use Rattle.pc_types_builder.specs.Converted.{AreConverted};
ghost use Rattle.pc_trampoline.specs.Shape.{part_shape};
ghost use Rattle.pc_spec_reading.specs.Scope.{Scope};
ghost use Rattle.pc_inline_state.specs.Adds.{Adds};
ghost use Rattle.pc_inline_state.specs.KnowsSame.{KnowsSame};
ghost use Rattle.pc_inline_state.specs.Prepares.{Converts};
ghost use Rattle.pc_inline_state.specs.Tables.{tables_of};
ghost use Rattle.pc_inline_builtins.specs.Made.{Yields, first_cost};
ghost use Rattle.pc_inline_builtins.specs.Reads.{read_first};
ghost use Rattle.pc_inline_builtins.specs.Written.{first_shape};

use crate::builtin::First;
use crate::declared::Part;
use crate::values::{handle_type, result_type};
use pc_inline_state::{Context, ItemError, State};
use pc_types::{InterfaceType, TypeDef};
use pc_types_builder::Converted;

/// The type that stands first, if one does.
pub(crate) fn first_part(
    context: &Context<'_>,
    state: &mut State<'_>,
    converted: &mut Converted,
    first: First,
) -> Result<Option<Part>, ItemError>
    requires sound { table_fault context.now.table.now ≡ None }
    requires converted { AreConverted state.old.types context.now.table.now converted.old }
    requires begun { state.old.types.resources.current.0 < state.old.graph.num_runtime_component_instances }
    ensures converts { Converts context.now.table.now state.old converted.old state.new converted.new }
    ensures adds { Adds context.now.table.now (first_cost context.now.table.now first)
        (tables_of state.old) (tables_of state.new) }
    ensures shape { IfOk result (λ p. option_map part_shape p ≡ first_shape first) }
    ensures yields { (s : Scope) → KnowsSame state.new.graph state.new.types.resources s
        → Yields (tables_of state.new) (read_first context.now.table.now s first) result }
{
    match first {
        First::Nothing => Ok(None),
        First::Handle(wanted, n) => {
            let ty = handle_type(context, state, converted, wanted, n)?;
            Ok(Some(Part::Type_(ty)))
        }
        First::Results(returned) => {
            let ty = result_type(context, state, converted, returned)?;
            Ok(Some(Part::Type_(ty)))
        }
        First::ErrorContexts => {
            let table = context.error_contexts(state)?;
            Ok(Some(Part::Type_(TypeDef::Interface(InterfaceType::ErrorContext(table)))))
        }
        First::Number(n) => Ok(Some(Part::Number(n))),
    }
}
