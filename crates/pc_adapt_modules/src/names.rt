//! Names in modules of adapters.

ghost use Rattle.std.specs.Prelude.{◌≡◌, ◌++◌, IfOk, OnOk};
ghost use Rattle.std.specs.Fmt.{decimal};
ghost use Rattle.pc_spec_adapt.specs.Record.{adapter_name};
ghost use Rattle.pc_adapt_modules.specs.Entities.{named_entities};

use pc_entity::{NoMemory, Seq, Text};
use pc_types::CoreEntity;
use std::alloc::Global;
use std::marker::Model;

/// The names in modules of adapters. One that was made is shared wherever it stands again.
#[derive(Drop)]
pub struct ModuleNames {
    /// The names of adapters, by their numbers.
    adapters: Seq<Text>,
    /// The names of the imports of an adapter, by their places.
    places: Seq<Text>,
}

impl Model for ModuleNames {
    ghost use Rattle.std.specs.Prelude.{List, ℕ};
    ghost use Rattle.std.specs.Fmt.{decimal};
    ghost use Rattle.pc_spec_adapt.specs.Record.{adapter_name};
    ghost use Rattle.pc_adapt_modules.specs.Names.{AreMade};

    ghost Value = { List (List ℕ) × List (List ℕ) };

    ghost view = { λ n. (n.adapters, n.places) };

    ghost invariant = { λ n. AreMade adapter_name n.adapters × AreMade decimal n.places };
}

impl ModuleNames {
    /// No name, which takes no memory.
    pub fn new(alloc: Global) -> ModuleNames {
        ModuleNames {
            adapters: Seq::new(alloc),
            places: Seq::new(alloc),
        }
    }

    /// The name of an adapter. It is shared if the adapters before it were asked for first.
    pub(crate) fn of_adapter(&mut self, alloc: Global, number: u32) -> Result<Text, NoMemory>
        ensures { IfOk result (λ name. name ≡ adapter_name number) }
    {
        if let Some(name) = self.adapters.as_slice().get(number as usize) {
            return name.share();
        }
        let name = name_of_adapter(alloc, number)?;
        if self.adapters.len() == number as usize {
            self.adapters.push(name.share()?)?;
        }
        Ok(name)
    }

    /// The name of an import of an adapter. It is shared if the places before it were asked for first.
    pub(crate) fn of_place(&mut self, alloc: Global, place: usize) -> Result<Text, NoMemory>
        ensures { IfOk result (λ name. name ≡ decimal place) }
    {
        if let Some(name) = self.places.as_slice().get(place) {
            return name.share();
        }
        let name = name_of_place(alloc, place)?;
        if self.places.len() == place {
            self.places.push(name.share()?)?;
        }
        Ok(name)
    }
}

/// The name of an adapter.
pub fn name_of_adapter(alloc: Global, number: u32) -> Result<Text, NoMemory>
    ensures { IfOk result (λ name. name ≡ adapter_name number) }
{
    let name = format!(in alloc; "adapter{number}")?;
    Text::from_string(name)
}

/// The name of an import of an adapter: its place among them.
fn name_of_place(alloc: Global, place: usize) -> Result<Text, NoMemory>
    ensures { IfOk result (λ name. name ≡ decimal place) }
{
    let name = format!(in alloc; "{place}")?;
    Text::from_string(name)
}

/// Adds what is imported for an adapter, under its name.
pub(crate) fn put_imports(
    alloc: Global,
    names: &mut ModuleNames,
    imports: &mut Seq<(Text, Text, CoreEntity)>,
    number: u32,
    entities: &[CoreEntity],
) -> Result<(), NoMemory>
    ensures { OnOk result (imports.new ≡ imports.old ++ named_entities number 0 entities.now) }
{
    let name = names.of_adapter(alloc, number)?;
    for place in 0..entities.len() {
        let module_name = name.share()?;
        let own_name = names.of_place(alloc, place)?;
        imports.push((module_name, own_name, entities[place]))?;
    }
    Ok(())
}
