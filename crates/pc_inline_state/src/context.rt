//! What an instantiation reads and doesn't change.

use crate::core_modules::CoreModules;
use pc_entity::Seed;
use pc_types::TypeTable;
use pc_types_walk::Leads;
use std::alloc::Global;

/// The type table, with what was found out of it once, and the core modules that were handed in.
pub struct Context<'a> {
    pub alloc: Global,
    /// The seed of the maps from names that it makes.
    pub seed: Seed,
    pub table: &'a TypeTable,
    /// Through which exports each instance type leads to its resources.
    pub leads: Leads,
    pub modules: CoreModules<'a>,
}

// By hand, as that of a state.
impl<'a> Drop for Context<'a> {
    fn drop(self) {
        let Context {
            alloc: _,
            seed: _,
            table: _,
            leads,
            modules,
        } = self;
        drop_modules(modules);
        drop_leads(leads);
    }
}

fn drop_modules(_modules: CoreModules<'_>) {}

fn drop_leads(_leads: Leads) {}
