//! What a generated chain comes to.

ghost use Rattle.std.specs.Prelude.{◌≡◌, ◌<◌, ◌≤◌, IfErr, IfOk, length};
ghost use Rattle.pc_info.specs.Modules.{adapters_view};
ghost use Rattle.pc_tool.specs.Chain.{IsChainPlan, IsChainText};

use pc_entity::{NoMemory, Seed};
use pc_generate::{Generated, generate};
use pc_text::summary_text;
use pc_translate::{PlanWithModules, plan_payloads};
use pc_types::Error;
use std::alloc::Global;

/// The plan of a chain of so many links, and its core modules. Such an input is valid, so there is no refusal but want
/// of memory.
fn translate_chain(alloc: Global, n: u32) -> Result<PlanWithModules, Error>
    requires few { n ≤ 10000 }
    ensures plan { IfOk result (λ r. IsChainPlan n r.0 r.1) }
    ensures small { IfOk result (λ r. length (adapters_view 0 r.1) < 18446744073709551616) }
    ensures valid { IfErr result (λ e. e ≡ Error.NoMemory) }
{
    let input = generate(alloc, n)?;
    let Generated {
        tunables,
        table,
        payloads,
    } = input;
    plan_payloads(alloc, Seed::fixed(), &tunables, &table, None, payloads)
}

/// The line of text on the plan of a chain of so many links.
pub(crate) fn chain_text(alloc: Global, n: u32) -> Result<Vec<u8>, NoMemory>
    requires few { n ≤ 10000 }
    ensures { IfOk result (λ text. IsChainText n text.items) }
{
    match translate_chain(alloc, n) {
        Ok((plan, modules)) => summary_text(alloc, n, &plan, &modules),
        Err(_) => Err(NoMemory),
    }
}
