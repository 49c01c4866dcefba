//! The bodies that are open, and the first fault of payloads.
//!
//! One pass over the list keeps a stack of the open components with the names that each has imported and exported, so
//! that the names of a nested one are its own, and the time is nearly linear whatever is nested in what.

ghost use Rattle.std.specs.Prelude.{◌≡◌, ◌+◌, ◌∷◌, [], ℕ, List, None, length, nat_eq, IfOk, OnOk};
ghost use Rattle.std.specs.Option.{option_map};
ghost use Rattle.pc_parsed.specs.declared.payload.Payload.{Payload};
ghost use Rattle.pc_parsed.specs.Names.{GoOnBehind, Stands, around_names, fresh_names, gains_payload, open_then};
ghost use Rattle.pc_parsed.specs.StaticFault.{around, content_fault, end_error, exposed_at, payload_fault};
ghost use Rattle.pc_parsed.specs.StaticFault.{payloads_error};
ghost use Rattle.pc_parsed.specs.ItemFaults.{fault_or, unless};
ghost use Rattle.pc_parsed.specs.Structure.{nesting};
ghost use Rattle.pc_parsed.specs.declared.fault.StaticFault.TheVariants as fault;
ghost use Rattle.pc_types.specs.Record.{is_sound};

use crate::checks::first_item;
use crate::fault::StaticFault;
use crate::named::{exports_fault, imports_fault};
use crate::payload::Payload;
use crate::structure::{opens, structure_fault};
use pc_entity::{NoMemory, Seed};
use pc_types::{Error, ModuleRecord, NameSet, TypeTable, Unsupported};
use std::alloc::Global;

/// The names that a component has imported and exported so far.
#[derive(Drop)]
pub(crate) struct Names<'a> {
    pub imported: NameSet<'a>,
    pub exported: NameSet<'a>,
}

impl<'a> Names<'a> {
    fn new(alloc: Global, seed: Seed) -> Names<'a>
        ensures { result ≡ fresh_names }
    {
        Names {
            imported: NameSet::new(alloc, seed),
            exported: NameSet::new(alloc, seed),
        }
    }
}

fn module_fault(
    alloc: Global,
    seed: Seed,
    table: &TypeTable,
    record_: &ModuleRecord,
) -> Result<Option<(usize, StaticFault)>, NoMemory>
    ensures { IfOk result (λ f. f ≡ fault_or 0 (unless (is_sound table.now record_.now) fault.BadTable) None) }
{
    if record_.is_sound(alloc, seed, table)? {
        Ok(None)
    } else {
        Ok(Some((0, StaticFault::BadTable)))
    }
}

fn exposed_at<'b>(open_count: usize, exposed: Option<&'b str>) -> Option<&'b str>
    ensures { option_map (λ x. x.now) result ≡ exposed_at open_count (option_map (λ x. x.now) exposed.entry) }
{
    if open_count == 1 { exposed } else { None }
}

/// The first fault of a payload's content.
fn content_fault<'a>(
    alloc: Global,
    seed: Seed,
    table: &TypeTable,
    exposed: Option<&str>,
    open_count: usize,
    names: &mut Names<'a>,
    payload: &'a Payload,
) -> Result<Option<(usize, StaticFault)>, NoMemory>
    ensures fault { IfOk result (λ f. f ≡ content_fault table.now (option_map (λ x. x.now) exposed.entry)
        (around_names open_count names.old) payload.now) }
    ensures gains { IfOk result (λ f. f ≡ None → gains_payload names.old payload.now names.new) }
{
    match payload {
        Payload::ComponentStartSection => Ok(Some((
            0,
            StaticFault::Unsupported(Unsupported::StartSection),
        ))),
        Payload::ComponentImportSection(items) => imports_fault(
            alloc,
            table,
            exposed_at(open_count, exposed),
            &mut names.imported,
            items.as_slice(),
        ),
        Payload::ComponentCanonicalSection(items) => first_item(
            alloc,
            seed,
            open_count,
            items.as_slice(),
        ),
        Payload::ModuleSection { record_, .. } => module_fault(alloc, seed, table, record_.get()),
        Payload::InstanceSection(items) => first_item(alloc, seed, open_count, items.as_slice()),
        Payload::ComponentInstanceSection(items) => first_item(
            alloc,
            seed,
            open_count,
            items.as_slice(),
        ),
        Payload::ComponentExportSection(entries) => {
            exports_fault(&mut names.exported, entries.as_slice())
        }
        Payload::ComponentAliasSection(items) => first_item(
            alloc,
            seed,
            open_count,
            items.as_slice(),
        ),
        _ => Ok(None),
    }
}

fn payload_fault<'a>(
    alloc: Global,
    seed: Seed,
    table: &TypeTable,
    exposed: Option<&str>,
    due: bool,
    open_count: usize,
    names: &mut Names<'a>,
    payload: &'a Payload,
) -> Result<Option<(usize, StaticFault)>, NoMemory>
    ensures fault { IfOk result (λ f. f ≡ payload_fault table.now (option_map (λ x. x.now) exposed.entry) due
        (around_names open_count names.old) payload.now) }
    ensures gains { IfOk result (λ f. f ≡ None → gains_payload names.old payload.now names.new) }
{
    match structure_fault(open_count, due, payload) {
        Some(fault) => Ok(Some((0, fault))),
        None => content_fault(alloc, seed, table, exposed, open_count, names, payload),
    }
}

/// Goes on behind a payload of the component with these names: a nested one opens, or this one closes.
fn go_behind<'a>(
    alloc: Global,
    seed: Seed,
    components: &mut Vec<Names<'a>>,
    names: Names<'a>,
    payload: &Payload,
) -> Result<(), NoMemory>
    ensures { OnOk result (components.new.items ≡ open_then (nesting payload.now) components.old.items names.entry) }
{
    match payload {
        Payload::ComponentSection => {
            components.push(names)?;
            components.push(Names::new(alloc, seed))?;
        }
        Payload::End => {}
        _ => components.push(names)?,
    }
    Ok(())
}

/// The first fault of a payload of the component with these names, which stands in these components. Where there is
/// none, they go on behind it.
fn fault_in<'a>(
    alloc: Global,
    seed: Seed,
    table: &TypeTable,
    exposed: Option<&str>,
    due: bool,
    components: &mut Vec<Names<'a>>,
    names: Names<'a>,
    payload: &'a Payload,
) -> Result<Option<(usize, StaticFault)>, NoMemory>
    ensures fault { IfOk result (λ f. f ≡ payload_fault table.now (option_map (λ x. x.now) exposed.entry) due
        (around_names (length components.old.items + 1) names.entry) payload.now) }
    ensures behind { IfOk result (λ f. f ≡ None
        → GoOnBehind components.old.items names.entry payload.now components.new.items) }
{
    let mut names = names;
    let found = payload_fault(
        alloc,
        seed,
        table,
        exposed,
        due,
        components.len() + 1,
        &mut names,
        payload,
    )?;
    match found {
        Some(fault) => Ok(Some(fault)),
        None => {
            go_behind(alloc, seed, components, names, payload)?;
            Ok(None)
        }
    }
}

/// The first fault of a payload, where these components are open; the innermost is the last.
fn next_fault<'a>(
    alloc: Global,
    seed: Seed,
    table: &TypeTable,
    exposed: Option<&str>,
    due: bool,
    components: &mut Vec<Names<'a>>,
    payload: &'a Payload,
) -> Result<Option<(usize, StaticFault)>, NoMemory>
    ensures fault { IfOk result (λ f. (before : List Payload) → Stands components.old.items before
        → f ≡ payload_fault table.now (option_map (λ x. x.now) exposed.entry) due (around before) payload.now) }
    ensures stands { IfOk result (λ f. f ≡ None → (before : List Payload) → Stands components.old.items before
        → Stands components.new.items (payload.now ∷ before)) }
{
    match components.pop() {
        Some(names) => fault_in(alloc, seed, table, exposed, due, components, names, payload),
        None => Ok(Some((0, StaticFault::Malformed))),
    }
}

fn are_closed(components: &Vec<Names<'_>>) -> bool
    ensures { result ≡ nat_eq (length components.now.items) 0 }
{
    components.is_empty()
}

fn end_error(is_closed: bool, payloads: usize) -> Option<Error>
    ensures { (open_count : ℕ) → nat_eq open_count 0 ≡ is_closed → result ≡ end_error open_count payloads }
{
    if is_closed {
        None
    } else {
        Some(StaticFault::Malformed.at(payloads, 0))
    }
}

/// The first fault of payloads, and of the end of their list.
pub(crate) fn payloads_error(
    alloc: Global,
    seed: Seed,
    table: &TypeTable,
    exposed: Option<&str>,
    payloads: &[Payload],
) -> Result<Option<Error>, NoMemory>
    ensures { IfOk result (λ e. e ≡ payloads_error table.now (option_map (λ x. x.now) exposed.entry) [] payloads.now) }
{
    let mut components = Vec::new(alloc);
    components.push(Names::new(alloc, seed))?;
    let mut due = true;
    for (n, payload) in payloads.iter().enumerate() {
        match next_fault(alloc, seed, table, exposed, due, &mut components, payload)? {
            Some((item, fault)) => return Ok(Some(fault.at(n, item))),
            None => {}
        }
        due = opens(payload);
    }
    Ok(end_error(are_closed(&components), payloads.len()))
}
