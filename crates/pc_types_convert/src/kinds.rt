//! An entry of a type table whose parts are done, converted by its kind.

ghost use Rattle.std.specs.Prelude.{◌≡◌, Err, IfOk, IfSome};
ghost use Rattle.pc_types.specs.declared.types.TypeDef.{TypeDef};
ghost use Rattle.pc_types_lists.specs.Types.{Grows, IsTooFullFor};
ghost use Rattle.pc_types_convert.specs.Adds.{AddsEntry};
ghost use Rattle.pc_types_convert.specs.Entries.{EntryIs};
ghost use Rattle.pc_types_convert.specs.Labels.{IsLike};
ghost use Rattle.pc_types_convert.specs.Parts.{AreHeld};
ghost use Rattle.pc_types_convert.specs.Steps.{IsReadyEntry};

use crate::defined::{
    borrow_entry, enum_entry, flags_entry, future_entry, list_entry, option_entry, own_entry,
    record_entry, result_entry, stream_entry, tuple_entry, val_entry, variant_entry,
};
use crate::done::Earlier;
use crate::entry::func_type_entry;
use crate::extern_type::{component_entry, instance_entry, module_entry, resource_entry};
use pc_types::{DeclType, TypeDef, TypeTable};
use pc_types_lists::{InternedTypes, NoPlace};

/// Entry `n`, whose parts are done. `like` may be a type with the same labels, by which the labels are found.
pub fn convert(
    interned: &mut InternedTypes,
    table: &TypeTable,
    done: &Earlier<'_>,
    n: u32,
    entry: &DeclType,
    like: Option<TypeDef>,
) -> Result<TypeDef, NoPlace>
    requires ready { IsReadyEntry table.now done.now entry.now }
    requires held { AreHeld interned.old done.now }
    requires like { IfSome like (IsLike interned.old entry.now) }
    ensures is { IfOk result (λ d. EntryIs interned.new done.now table.now n entry.now d) }
    ensures grows { Grows interned.old interned.new }
    ensures adds { AddsEntry done.now table.now n entry.now interned.old interned.new }
    ensures full { result ≡ Err NoPlace.TooMany → IsTooFullFor interned.new
        (λ b. (d : TypeDef) × EntryIs b done.now table.now n entry.now d) }
{
    match entry {
        DeclType::Resource => resource_entry(interned, n),
        DeclType::Func {
            params,
            result,
            async_,
        } => func_type_entry(interned, done, params.as_slice(), *result, *async_, like),
        DeclType::Val(v) => val_entry(interned, done, *v),
        DeclType::Record(fields) => record_entry(interned, done, fields.as_slice(), like),
        DeclType::Variant(cases) => variant_entry(interned, done, cases.as_slice(), like),
        DeclType::List(v) => list_entry(interned, done, *v),
        DeclType::Tuple(vs) => tuple_entry(interned, done, vs.as_slice()),
        DeclType::Flags(names) => flags_entry(interned, names),
        DeclType::Enum(names) => enum_entry(interned, names),
        DeclType::Option(v) => option_entry(interned, done, *v),
        DeclType::Result { ok, err } => result_entry(interned, done, *ok, *err),
        DeclType::Own(n) => Ok(own_entry(done, *n)),
        DeclType::Borrow(n) => Ok(borrow_entry(done, *n)),
        DeclType::Stream(v) => stream_entry(interned, done, *v),
        DeclType::Future(v) => future_entry(interned, done, *v),
        DeclType::Instance { exports } => instance_entry(interned, done, exports.as_slice(), like),
        DeclType::Component { imports, exports } => {
            component_entry(interned, done, imports.as_slice(), exports.as_slice(), like)
        }
        DeclType::Module { imports, exports } => {
            module_entry(interned, table, imports.as_slice(), exports.as_slice())
        }
    }
}
