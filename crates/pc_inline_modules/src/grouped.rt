//! The arguments of a module of the host, by the module names and the names that its type imports.

ghost use Rattle.std.specs.Prelude.{◌≡◌, [], true, length, map, unwrap_or, IfOk, OnOk};
ghost use Rattle.pc_types.specs.Names.{are_distinct, same_pair};
ghost use Rattle.pc_inline_modules.specs.Grouped.{by_module, paired, pair_of, with_argument};

use pc_dfg::CoreDef;
use pc_entity::{NoMemory, Seed, Text, TextMap, TryClone};
use pc_types::CoreEntity;
use std::alloc::Global;

/// Arguments, or none of them.
fn or_none(alloc: Global, seed: Seed, args: Option<TextMap<CoreDef>>) -> TextMap<CoreDef>
    ensures { result ≡ unwrap_or args [] }
{
    match args {
        Some(args) => args,
        None => TextMap::new(alloc, seed),
    }
}

/// One argument more: behind those of its module name.
fn add_argument(
    alloc: Global,
    seed: Seed,
    args: &mut TextMap<TextMap<CoreDef>>,
    import: &(Text, Text, CoreEntity),
    def: CoreDef,
) -> Result<(), NoMemory>
    ensures { OnOk result (args.new ≡ with_argument args.old import.now.0 import.now.1 def) }
{
    let of_module = args.insert(import.0.try_clone(alloc)?, TextMap::new(alloc, seed))?;
    let mut of_module = or_none(alloc, seed, of_module);
    of_module.insert_first(&import.1, def)?;
    args.insert(import.0.try_clone(alloc)?, of_module)?;
    Ok(())
}

/// The definitions that are given for imports, in their order, under the names of the imports.
pub(crate) fn by_module(
    alloc: Global,
    seed: Seed,
    imports: &[(Text, Text, CoreEntity)],
    defs: &[CoreDef],
) -> Result<TextMap<TextMap<CoreDef>>, NoMemory>
    requires each { length defs.now ≡ length imports.now }
    requires apart { are_distinct same_pair (map pair_of imports.now) ≡ true }
    ensures { IfOk result (λ args. args ≡ by_module (paired imports.now defs.now)) }
{
    let mut args = TextMap::new(alloc, seed);
    for (place, import) in imports.iter().enumerate() {
        add_argument(
            alloc,
            seed,
            &mut args,
            import,
            defs[place].try_clone(alloc)?,
        )?;
    }
    Ok(args)
}
