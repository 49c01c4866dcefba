//! Tests of `pc_dfg`: what each way into a graph answers, that a graph with a deep tree of exports is let go, and what
//! is known of instantiations.

use pc_dfg::Export;
use pc_entity::RuntimeImportIndex;
use pc_types::{InterfaceType, TypeDef, TypeFuncIndex};

mod definitions;
mod instantiations;
mod numbers;
mod pushes;

/// An exported type.
const TYPE: Export = Export::Type_(TypeDef::Interface(InterfaceType::Bool));

/// A function of the host that is exported again.
const HOST: Export = Export::ImportedFunction {
    ty: TypeFuncIndex(0),
    import: RuntimeImportIndex(0),
};
