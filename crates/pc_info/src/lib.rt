//! The plan: a flat list of initializers that instantiate core modules, with all that they refer to.
//!
//! A runtime runs the initializers from front to back and then has the exports. `specs/View.antt` says how a plan is
//! seen by the machine of `pc_spec_plan`, which gives it its meaning.
//! It stands on `pc_types`, on `pc_names` for the names of exports, and on `pc_spec_plan` for the words of the view.
#![tactic(auto)]

pub mod component;
pub mod core_def;
pub mod export;
pub mod initializer;
pub mod known;
pub mod module;
pub mod options;
pub mod trampoline;

pub use component::{Component, ComponentTranslation};
pub use core_def::{CoreDef, CoreExport, ExportItem};
pub use export::Export;
pub use initializer::{
    ExtractCallback, ExtractMemory, ExtractPostReturn, ExtractRealloc, ExtractTable,
    GlobalInitializer, InstantiateModule, Resource,
};
pub use known::{KnownEntity, KnownFunc, KnownGlobal, KnownToImporters};
pub use module::{AdapterRecord, ModuleTranslation, SideRecord};
pub use options::{CanonicalOptions, CanonicalOptionsDataModel, LinearMemoryOptions};
pub use pc_trampoline::{FixedEncoding, Mark, Transcode, Trap};
pub use trampoline::Trampoline;
