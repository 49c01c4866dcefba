//! The labels and parts of the kinds of types that have labels.

ghost use Rattle.std.specs.Prelude.{◌≡◌, IfOk};
ghost use Rattle.pc_entity.specs.Lists.{names_of};
ghost use Rattle.pc_types_lists.specs.Labels.{component_labels, func_labels, instance_labels, record_labels};
ghost use Rattle.pc_types_lists.specs.Labels.{component_parts, func_parts, instance_parts, record_parts};
ghost use Rattle.pc_types_lists.specs.Labels.{values_of, variant_labels, variant_parts};
ghost use Rattle.pc_types_lists.specs.Told.{component_told, func_told, instance_told, record_told, variant_told};

use crate::labelled::HasLabels;
use pc_entity::{NoMemory, Seq, Text, TryClone};
use pc_types::{
    InterfaceType, TypeComponent, TypeComponentInstance, TypeDef, TypeFunc, TypeRecord,
    TypeTupleIndex, TypeVariant,
};
use std::alloc::Global;

impl HasLabels for TypeFunc {
    type Labels = Seq<Text>;

    type Parts = ((TypeTupleIndex, TypeTupleIndex), bool);

    ghost labels = { func_labels };

    ghost parts = { func_parts };

    ghost told = { func_told };

    fn labels(&self, alloc: Global) -> Result<Seq<Text>, NoMemory> {
        self.param_names.try_clone(alloc)
    }

    fn parts(&self, _alloc: Global) -> Result<((TypeTupleIndex, TypeTupleIndex), bool), NoMemory> {
        Ok(((self.params, self.results), self.async_))
    }
}

impl HasLabels for TypeRecord {
    type Labels = Seq<Text>;

    type Parts = Seq<InterfaceType>;

    ghost labels = { record_labels };

    ghost parts = { record_parts };

    ghost told = { record_told };

    fn labels(&self, alloc: Global) -> Result<Seq<Text>, NoMemory> {
        names(alloc, self.fields.as_slice())
    }

    fn parts(&self, alloc: Global) -> Result<Seq<InterfaceType>, NoMemory> {
        values(alloc, self.fields.as_slice())
    }
}

impl HasLabels for TypeVariant {
    type Labels = Seq<Text>;

    type Parts = Seq<Option<InterfaceType>>;

    ghost labels = { variant_labels };

    ghost parts = { variant_parts };

    ghost told = { variant_told };

    fn labels(&self, alloc: Global) -> Result<Seq<Text>, NoMemory> {
        names(alloc, self.cases.as_slice())
    }

    fn parts(&self, alloc: Global) -> Result<Seq<Option<InterfaceType>>, NoMemory> {
        values(alloc, self.cases.as_slice())
    }
}

impl HasLabels for TypeComponentInstance {
    type Labels = Seq<Text>;

    type Parts = Seq<TypeDef>;

    ghost labels = { instance_labels };

    ghost parts = { instance_parts };

    ghost told = { instance_told };

    fn labels(&self, alloc: Global) -> Result<Seq<Text>, NoMemory> {
        names(alloc, self.exports.as_slice())
    }

    fn parts(&self, alloc: Global) -> Result<Seq<TypeDef>, NoMemory> {
        values(alloc, self.exports.as_slice())
    }
}

impl HasLabels for TypeComponent {
    type Labels = (Seq<Text>, Seq<Text>);

    type Parts = (Seq<TypeDef>, Seq<TypeDef>);

    ghost labels = { component_labels };

    ghost parts = { component_parts };

    ghost told = { component_told };

    fn labels(&self, alloc: Global) -> Result<(Seq<Text>, Seq<Text>), NoMemory> {
        let imports = names(alloc, self.imports.as_slice())?;
        Ok((imports, names(alloc, self.exports.as_slice())?))
    }

    fn parts(&self, alloc: Global) -> Result<(Seq<TypeDef>, Seq<TypeDef>), NoMemory> {
        let imports = values(alloc, self.imports.as_slice())?;
        Ok((imports, values(alloc, self.exports.as_slice())?))
    }
}

/// The names of a list.
fn names<W>(alloc: Global, items: &[(Text, W)]) -> Result<Seq<Text>, NoMemory>
    ensures { IfOk result (λ ns. ns ≡ names_of items.now) }
{
    let mut names = Seq::with_capacity(alloc, items.len())?;
    for item in items {
        names.push(item.0.share()?)?;
    }
    Ok(names)
}

/// What stands under the names.
fn values<W: Copy + Drop>(alloc: Global, items: &[(Text, W)]) -> Result<Seq<W>, NoMemory>
    ensures { IfOk result (λ ws. ws ≡ values_of items.now) }
{
    let mut values = Seq::with_capacity(alloc, items.len())?;
    for item in items {
        values.push(item.1)?;
    }
    Ok(values)
}
