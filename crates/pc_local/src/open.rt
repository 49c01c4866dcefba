//! The bodies that are open while a list is gone through, and what each payload makes of them.
//!
//! The list is flat and bodies nest as deep as it is long, so the open ones stand in a list of their own, the root
//! first. A body that ends becomes an item of the one around it.

ghost use Rattle.std.specs.Prelude.{◌≡◌, ◌<◌, length, IfOk, OnOk};
ghost use Rattle.std.specs.Option.{option_map};
ghost use Rattle.pc_local.specs.Open.{Closes, Ends, Goes, begun, empty_body, first_state, state_of, with_module};

use crate::capture::{closed_components, closed_modules, push_aliases};
use crate::captured::Captured;
use crate::entry::{push_all, push_exports, push_imports};
use crate::item::{ClosedOverVars, LocalInitializer, Translation};
use pc_entity::{
    NoMemory, PrimaryMap, Seed, Seq, StaticComponentIndex, StaticModuleIndex, TryClone,
};
use pc_parsed::Payload;
use pc_types::SharedRecord;
use std::alloc::Global;
use std::mem;

/// The open bodies, and what stands for good: the core modules, and the bodies that have ended.
#[derive(Drop)]
pub(crate) struct Open {
    /// The bodies around the innermost one, the root first.
    pub around: Vec<Translation>,
    /// The innermost one.
    pub body: Translation,
    /// The modules and components that each open body captures, the root first, which captures none.
    pub modules: Vec<Captured>,
    pub components: Vec<Captured>,
    pub records: PrimaryMap<StaticModuleIndex, SharedRecord>,
    pub ended: PrimaryMap<StaticComponentIndex, Translation>,
}

impl Translation {
    /// A body without items.
    pub(crate) fn new(alloc: Global) -> Translation
        ensures { result ≡ empty_body }
    {
        Translation {
            initializers: Seq::new(alloc),
            exports: Seq::new(alloc),
        }
    }
}

impl Open {
    /// The root has begun.
    pub fn new(alloc: Global, seed: Seed) -> Result<Open, NoMemory>
        ensures { IfOk result (λ o. state_of o ≡ first_state) }
    {
        let mut modules = Vec::new(alloc);
        modules.push(Captured::new(alloc, seed))?;
        let mut components = Vec::new(alloc);
        components.push(Captured::new(alloc, seed))?;
        Ok(Open {
            around: Vec::new(alloc),
            body: Translation::new(alloc),
            modules,
            components,
            records: PrimaryMap::new(alloc),
            ended: PrimaryMap::new(alloc),
        })
    }

    /// A nested body begins.
    fn begin(&mut self, alloc: Global, seed: Seed) -> Result<(), NoMemory>
        ensures { OnOk result (state_of self.new ≡ begun (state_of self.old)) }
    {
        self.modules.push(Captured::new(alloc, seed))?;
        self.components.push(Captured::new(alloc, seed))?;
        let body = mem::replace(&mut self.body, Translation::new(alloc));
        self.around.push(body)?;
        Ok(())
    }

    /// The innermost body ends and is an item of the one around it.
    fn close(
        &mut self,
        alloc: Global,
        modules: &Captured,
        components: &Captured,
        around: Translation,
    ) -> Result<(), NoMemory>
        requires room { length self.old.ended < 4294967295 }
        ensures closes { OnOk result (Closes (state_of self.old) around modules.now components.now
            (state_of self.new)) }
        ensures around { OnOk result (self.new.around.items ≡ self.old.around.items) }
        ensures modules { OnOk result (self.new.modules.items ≡ self.old.modules.items) }
        ensures components { OnOk result (self.new.components.items ≡ self.old.components.items) }
    {
        let vars = ClosedOverVars {
            components: closed_components(alloc, components.variables.as_slice())?,
            modules: closed_modules(alloc, modules.variables.as_slice())?,
        };
        let ended = mem::replace(&mut self.body, around);
        let index = self.ended.push(ended)?;
        self.body
            .initializers
            .push(LocalInitializer::ComponentStatic { index, vars })
    }

    /// The innermost body ends. Nothing stands behind the end of the root.
    fn end(&mut self, alloc: Global) -> Result<(), NoMemory>
        requires room { length self.old.ended < 4294967295 }
        ensures { OnOk result (Ends (state_of self.old) (state_of self.new)) }
    {
        match self.around.pop() {
            Some(around) => match (self.modules.pop(), self.components.pop()) {
                (Some(modules), Some(components)) => {
                    self.close(alloc, &modules, &components, around)
                }
                _ => Ok(()),
            },
            None => Ok(()),
        }
    }

    fn push_module(
        &mut self,
        alloc: Global,
        record_: &SharedRecord,
        ty: u32,
    ) -> Result<(), NoMemory>
        requires room { length self.old.records < 4294967295 }
        ensures { OnOk result (state_of self.new ≡ with_module (state_of self.old) record_.now ty) }
    {
        let index = self.records.push(record_.try_clone(alloc)?)?;
        self.body
            .initializers
            .push(LocalInitializer::ModuleStatic { index, ty })
    }

    /// Goes one payload further.
    pub fn push(
        &mut self,
        alloc: Global,
        seed: Seed,
        exposed: Option<&str>,
        payload: &Payload,
    ) -> Result<(), NoMemory>
        requires modules { length self.old.records < 4294967295 }
        requires components { length self.old.ended < 4294967295 }
        ensures { OnOk result (Goes (option_map (λ x. x.now) exposed.entry) (state_of self.old) payload.now
            (state_of self.new)) }
    {
        let items = &mut self.body.initializers;
        match payload {
            Payload::ComponentSection => self.begin(alloc, seed),
            Payload::End => self.end(alloc),
            Payload::ModuleSection { record_, ty } => self.push_module(alloc, record_, *ty),
            Payload::ComponentExportSection(entries) => {
                push_exports(alloc, &mut self.body, entries.as_slice())
            }
            Payload::ComponentAliasSection(entries) => push_aliases(
                alloc,
                items,
                &mut self.modules,
                &mut self.components,
                entries.as_slice(),
            ),
            // The root alone imports the unsafe intrinsics.
            Payload::ComponentImportSection(entries) => {
                let exposed = if self.around.is_empty() {
                    exposed
                } else {
                    None
                };
                push_imports(alloc, exposed, items, entries.as_slice())
            }
            Payload::ComponentTypeSection(entries) => push_all(alloc, items, entries.as_slice()),
            Payload::ComponentCanonicalSection(entries) => {
                push_all(alloc, items, entries.as_slice())
            }
            Payload::InstanceSection(entries) => push_all(alloc, items, entries.as_slice()),
            Payload::ComponentInstanceSection(entries) => {
                push_all(alloc, items, entries.as_slice())
            }
            _ => Ok(()),
        }
    }
}
