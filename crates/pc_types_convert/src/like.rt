//! The numbers of types that have the labels of an entry, where they are of its kind.

ghost use Rattle.std.specs.Prelude.{◌≡◌, Some, IfSome};
ghost use Rattle.pc_types.specs.declared.types.InterfaceType.TheVariants as ty;
ghost use Rattle.pc_types.specs.declared.types.TypeDef.TheVariants as def;

use pc_types::{
    InterfaceType, TypeComponentIndex, TypeComponentInstanceIndex, TypeDef, TypeFuncIndex,
    TypeRecordIndex, TypeVariantIndex,
};

/// The number of a function type, if the type is one.
pub(crate) fn func_number(like: Option<TypeDef>) -> Option<TypeFuncIndex>
    ensures { IfSome result (λ i. like ≡ Some (def.ComponentFunc i)) }
{
    match like {
        Some(TypeDef::ComponentFunc(i)) => Some(i),
        _ => None,
    }
}

/// The number of a record, if the type is one.
pub(crate) fn record_number(like: Option<TypeDef>) -> Option<TypeRecordIndex>
    ensures { IfSome result (λ i. like ≡ Some (def.Interface (ty.Record i))) }
{
    match like {
        Some(TypeDef::Interface(InterfaceType::Record(i))) => Some(i),
        _ => None,
    }
}

/// The number of a variant, if the type is one.
pub(crate) fn variant_number(like: Option<TypeDef>) -> Option<TypeVariantIndex>
    ensures { IfSome result (λ i. like ≡ Some (def.Interface (ty.Variant i))) }
{
    match like {
        Some(TypeDef::Interface(InterfaceType::Variant(i))) => Some(i),
        _ => None,
    }
}

/// The number of an instance type, if the type is one.
pub(crate) fn instance_number(like: Option<TypeDef>) -> Option<TypeComponentInstanceIndex>
    ensures { IfSome result (λ i. like ≡ Some (def.ComponentInstance i)) }
{
    match like {
        Some(TypeDef::ComponentInstance(i)) => Some(i),
        _ => None,
    }
}

/// The number of a component type, if the type is one.
pub(crate) fn component_number(like: Option<TypeDef>) -> Option<TypeComponentIndex>
    ensures { IfSome result (λ i. like ≡ Some (def.Component i)) }
{
    match like {
        Some(TypeDef::Component(i)) => Some(i),
        _ => None,
    }
}
