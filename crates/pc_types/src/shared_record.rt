//! A core module behind one pointer, so that a list of payloads takes no more room for a core module than for another
//! payload, and a plan shares the record with the payload that it was in.

ghost use Rattle.std.specs.Prelude.{◌≡◌, IfOk};

use crate::module_record::ModuleRecord;
use pc_entity::{NoMemory, TryClone};
use std::alloc::Global;
use std::marker::Model;
use std::rc::Rc;

/// A core module, seen as its record. Copies share it.
#[derive(Drop)]
pub struct SharedRecord {
    inner: Rc<ModuleRecord>,
}

impl Model for SharedRecord {
    ghost use Rattle.pc_types.specs.declared.module_record.ModuleRecord.{ModuleRecord};

    ghost Value = { ModuleRecord };

    ghost view = { λ s. s.inner.value };
}

impl SharedRecord {
    /// A record behind a pointer.
    pub fn new(alloc: Global, record_: ModuleRecord) -> Result<SharedRecord, NoMemory>
        ensures { IfOk result (λ shared. shared ≡ record_) }
    {
        Ok(SharedRecord {
            inner: Rc::new(alloc, record_)?,
        })
    }

    /// The record itself.
    pub fn get(&self) -> &ModuleRecord
        ensures { result.now ≡ self.now }
    {
        Rc::as_ref(&self.inner)
    }
}

impl TryClone for SharedRecord {
    fn try_clone(&self, _alloc: Global) -> Result<SharedRecord, NoMemory> {
        Ok(SharedRecord {
            inner: self.inner.clone()?,
        })
    }
}
