//! The kinds of entries of a type table.

ghost use Rattle.std.specs.Prelude.{◌≡◌, slice_get};
ghost use Rattle.std.specs.Option.{option_copied};
ghost use Rattle.pc_types.specs.Table.{is_resource, is_func, is_instance, is_component, is_module, is_defined_type};

use crate::{DeclType, TypeTable};

impl TypeTable {
    /// Entry `n`, if there is one.
    pub fn entry(&self, n: u32) -> Option<&DeclType>
        ensures { option_copied result ≡ slice_get self.now.types n }
    {
        self.types.as_slice().get(n as usize)
    }
}

impl DeclType {
    /// Whether it is a resource type.
    pub fn is_resource(&self) -> bool
        ensures { result ≡ is_resource self.now }
    {
        matches!(self, DeclType::Resource)
    }

    /// Whether it is a function type.
    pub fn is_func(&self) -> bool
        ensures { result ≡ is_func self.now }
    {
        matches!(self, DeclType::Func { .. })
    }

    /// Whether it is an instance type.
    pub fn is_instance(&self) -> bool
        ensures { result ≡ is_instance self.now }
    {
        matches!(self, DeclType::Instance { .. })
    }

    /// Whether it is a component type.
    pub fn is_component(&self) -> bool
        ensures { result ≡ is_component self.now }
    {
        matches!(self, DeclType::Component { .. })
    }

    /// Whether it is a module type.
    pub fn is_module(&self) -> bool
        ensures { result ≡ is_module self.now }
    {
        matches!(self, DeclType::Module { .. })
    }

    /// Whether it is a defined type: one that values have.
    pub fn is_defined_type(&self) -> bool
        ensures { result ≡ is_defined_type self.now }
    {
        !matches!(
            self,
            DeclType::Resource
                | DeclType::Func { .. }
                | DeclType::Instance { .. }
                | DeclType::Component { .. }
                | DeclType::Module { .. }
        )
    }
}
