//! The weights of the bodies of a program, each made once, whatever number of instances its component has.

ghost use Rattle.std.specs.Prelude.{◌≡◌, map, IfOk};
ghost use Rattle.pc_weights.specs.Local.{translation_weight};
ghost use Rattle.pc_weights.specs.Scale.{IsScale};
ghost use Rattle.pc_weights.specs.Weighs.{Weighs};

use crate::scale::Scale;
use pc_entity::{NoMemory, PrimaryMap, StaticComponentIndex};
use pc_local::{LocalProgram, Translation};
use pc_types::TypeTable;
use std::alloc::Global;

/// What the bodies of a program weigh, each number cut where a total is full.
#[derive(Drop)]
pub struct Weights {
    /// The weight of the root: that of its items, and that of its imports once more, since they are prepared.
    pub root: u32,
    /// The weight of the body of each nested component.
    pub bodies: PrimaryMap<StaticComponentIndex, u32>,
}

fn body_weights(
    alloc: Global,
    scale: &Scale<'_>,
    bodies: &[Translation],
) -> Result<Vec<u32>, NoMemory>
    requires scale { IsScale scale.now }
    ensures { IfOk result (λ weights.
        weights.items ≡ map (translation_weight scale.now.table.now scale.now.modules.now) bodies.now) }
{
    let mut weights = Vec::with_capacity(alloc, bodies.len())?;
    for body in bodies {
        let weight = scale.body_weight(body.initializers.as_slice());
        weights.push(weight)?;
    }
    Ok(weights)
}

impl Weights {
    /// The weights of a program's bodies, for its type table. The time is linear in the table and the program.
    pub fn new(
        alloc: Global,
        table: &TypeTable,
        program: &LocalProgram,
    ) -> Result<Weights, NoMemory>
        ensures { IfOk result (Weighs table.now program.now) }
    {
        let scale = Scale::new(alloc, table, program.modules.as_slice())?;
        let root = scale.root_weight(program.root.initializers.as_slice());
        let bodies = body_weights(alloc, &scale, program.components.as_slice())?;
        Ok(Weights {
            root,
            bodies: PrimaryMap::from_vec(bodies),
        })
    }
}
