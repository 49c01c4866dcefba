//! Resources that are registered, and types that are made without a table.

use crate::support::holds;
use pc_entity::{ResourceIndex, RuntimeComponentInstanceIndex, Seed, TryClone};
use pc_types::{
    TypeComponentLocalErrorContextTableIndex, TypeKind, TypeResourceTableIndex, TypeTupleIndex,
};
use pc_types_builder::{ComponentTypesBuilder, PreInliningComponentTypes, ResourcesBuilder};
use std::process::Abort;
use std::test::*;

#[test]
fn a_registered_resource_is_found(rt: HostRuntime) {
    let mut resources = ResourcesBuilder::new(rt.alloc());
    let known = resources.register_resource(3, ResourceIndex(7));
    holds(&rt, "resource", known.is_ok());
    resources.set_current_instance(RuntimeComponentInstanceIndex(2));
    let copy = resources.try_clone(rt.alloc()).expect(&rt, "no memory");
    holds(&rt, "copy", is_known(&copy));
}

/// Whether resource 3 alone is known, in instance 2.
fn is_known(resources: &ResourcesBuilder) -> bool {
    resources.lookup(3) == Some(ResourceIndex(7))
        && resources.lookup(9) == None
        && resources.current_instance().0 == 2
}

#[test]
fn types_without_a_table_are_numbered(rt: HostRuntime) {
    let mut types = ComponentTypesBuilder::new(rt.alloc(), Seed::fixed());
    let contexts = types.error_context_table_type();
    let first = TypeComponentLocalErrorContextTableIndex(0);
    holds(&rt, "error contexts", contexts == Ok(first));
    let tuple = types.new_tuple_type(Vec::new(rt.alloc()));
    holds(&rt, "tuple", tuple == Ok(TypeTupleIndex(0)));
    numbers_handles(&rt, &mut types);
}

/// The handles of a resource that is registered get a number.
fn numbers_handles(rt: &impl Abort, types: &mut ComponentTypesBuilder) {
    let known = types.resources_mut().register_resource(9, ResourceIndex(0));
    holds(rt, "resource", known.is_ok());
    let found = types.resources().lookup(9);
    holds(rt, "resource", found == Some(ResourceIndex(0)));
    let handles = types.resource_id(9);
    holds(rt, "handles", handles == Ok(TypeResourceTableIndex(0)));
}

#[test]
fn a_lent_builder_is_read_and_changed(rt: HostRuntime) {
    let mut types = ComponentTypesBuilder::new(rt.alloc(), Seed::fixed());
    lends(&rt, &mut types);
    types.types_are_distinct();
}

/// A builder that is lent numbers its error contexts, and tells of them.
fn lends(rt: &impl Abort, types: &mut ComponentTypesBuilder) {
    let mut lent = PreInliningComponentTypes::new(types);
    let found = lent.types_mut_for_inlining().error_context_table_type();
    holds(rt, "error contexts", found.is_ok());
    let held = lent.types().held(TypeKind::ErrorContextTable);
    holds(rt, "error contexts", held == 1);
}
