//! The resources that are known while types are converted.

ghost use Rattle.std.specs.Prelude.{◌≡◌, ℕ, [], OnOk, OnErr, if◌then◌else◌, ◌==◌, Some};
ghost use Rattle.pc_types_lists.specs.Known.{resource_of};

use pc_entity::{NoMemory, ResourceIndex, RuntimeComponentInstanceIndex, TryClone};
use std::alloc::Global;
use std::collections::BTreeMap;
use std::marker::Model;

/// A finite map from table numbers to resources, and the component instance that types are converted in.
#[derive(Drop)]
pub struct ResourcesBuilder {
    known: BTreeMap<u32, ResourceIndex>,
    current: RuntimeComponentInstanceIndex,
}

impl Model for ResourcesBuilder {
    ghost use Rattle.pc_types_lists.specs.Types.{Resources};

    ghost Value = { Resources };

    ghost view = { λ r. record { known = r.known.entries; current = r.current } };
}

impl ResourcesBuilder {
    /// No resource is known, and the component instance is that of the root.
    pub fn new(alloc: Global) -> ResourcesBuilder
        ensures { result ≡ record { known = []; current = record { 0 = 0 } } }
    {
        ResourcesBuilder {
            known: BTreeMap::new(alloc),
            current: RuntimeComponentInstanceIndex(0),
        }
    }

    /// Types are converted in component instance `i` from now on.
    pub fn set_current_instance(&mut self, i: RuntimeComponentInstanceIndex)
        ensures { self.new ≡ record self.old { current = i } }
    {
        self.current = i;
    }

    /// The component instance that types are converted in.
    pub fn current_instance(&self) -> RuntimeComponentInstanceIndex
        ensures { result ≡ self.now.current }
    {
        self.current
    }

    /// Table number `n` is resource `r` from now on.
    pub fn register_resource(&mut self, n: u32, r: ResourceIndex) -> Result<(), NoMemory>
        ensures ok { OnOk result
            ((q : ℕ) → resource_of self.new.known q ≡ (if q == n then Some r else resource_of self.old.known q)) }
        ensures current { self.new.current ≡ self.old.current }
        ensures err { OnErr result (self.new ≡ self.old) }
    {
        self.known.insert(n, r)?;
        Ok(())
    }

    /// Table number `n` stands again for what it stood for before it was registered: a resource, or none.
    pub fn restore(&mut self, n: u32, was: Option<ResourceIndex>) -> Result<(), NoMemory>
        ensures ok { OnOk result
            ((q : ℕ) → resource_of self.new.known q ≡ (if q == n then was else resource_of self.old.known q)) }
        ensures current { self.new.current ≡ self.old.current }
        ensures err { OnErr result (self.new ≡ self.old) }
    {
        match was {
            Some(r) => {
                self.known.insert(n, r)?;
                Ok(())
            }
            None => {
                self.known.remove(&n);
                Ok(())
            }
        }
    }

    /// The resource of table number `n`, if it is known.
    pub fn lookup(&self, n: u32) -> Option<ResourceIndex>
        ensures { result ≡ resource_of self.now.known n }
    {
        self.known.get(&n).copied()
    }
}

impl TryClone for ResourcesBuilder {
    fn try_clone(&self, _alloc: Global) -> Result<ResourcesBuilder, NoMemory> {
        Ok(ResourcesBuilder {
            known: self.known.clone()?,
            current: self.current,
        })
    }
}
