//! Tests of the types builder: each of its calls once, and tables that are long or whose trees are large.

mod conversions;
mod entries;
mod long_tables;
mod readers;
mod resources;

use crate::builder::conversions::converts_each;
use crate::builder::entries::{Shape, table_of};
use crate::builder::long_tables::{converts_chain, converts_diamond, forgets_a_resource};
use pc_entity::Seed;
use pc_types_builder::ComponentTypesBuilder;
use std::alloc::Global;
use std::process::Abort;

/// Converts a table of this shape. All tables are made and let go here, since that is proved anew where it stands.
fn converts(rt: &impl Abort, alloc: Global, shape: Shape) {
    let table = table_of(rt, alloc, shape);
    let mut types = ComponentTypesBuilder::new(alloc, Seed::fixed());
    match shape {
        Shape::EachKind => converts_each(rt, alloc, &mut types, &table),
        Shape::Chain => converts_chain(rt, alloc, &mut types, &table),
        Shape::Diamond => converts_diamond(rt, alloc, &mut types, &table),
        Shape::Handles => forgets_a_resource(rt, alloc, &mut types, &table),
    }
}
