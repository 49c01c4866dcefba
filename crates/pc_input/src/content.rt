//! Payloads off a reader of tokens. Only one entry of a section at a time is held as a tree.

ghost use Rattle.std.specs.Prelude.{◌≡◌, List, option_map};
ghost use Rattle.serde_json.specs.Data.{object, string};
ghost use Rattle.pc_parsed.specs.declared.payload.Payload.{Payload as payload_};
ghost use Rattle.pc_parsed.specs.declared.payload.Payload.TheVariants as content_;
ghost use Rattle.pc_input.specs.Module.{core_module};
ghost use Rattle.pc_input.specs.Payload.{instance_sections, payload_keys, payload_of};
ghost use Rattle.pc_input.specs.Takes.{Takes, TakesMembers, TakesOther};
ghost use Rattle.pc_input.specs.Content.{TakesContent, TakesOne, is_first, payload_in};
ghost use Rattle.pc_input_values.specs.Reads.{Reads};
ghost use Rattle.pc_input_values.specs.Rules.{Rules, section};
ghost use Rattle.pc_input_values.specs.Tree.{by_row, making};

use crate::entry::ReadEntry;
use crate::module::core_module;
use crate::payload::bare;
use crate::take::{passed_as, take_section};
use json::{Reader, Token};
use pc_entity::Seq;
use pc_input_tokens::{Refusal, is_in_range, pass_items, take_tree};
use pc_input_values::{DecodeError, Form};
use pc_parsed::{
    AliasItem, CanonItem, ComponentInstanceItem, ExportEntry, ImportItem, InstanceItem, Payload,
    TypeItem,
};
use std::alloc::Global;

/// A type of which a section has entries.
trait SectionEntry: ReadEntry {
    ghost payload: { List Self → payload_ };

    /// The payload of these entries.
    fn section(entries: Seq<Self>) -> Payload
        ensures { result ≡ payload entries };
}

impl SectionEntry for TypeItem {
    ghost payload = { content_.ComponentTypeSection };

    fn section(entries: Seq<TypeItem>) -> Payload
        ensures { result ≡ content_.ComponentTypeSection entries }
    {
        Payload::ComponentTypeSection(entries)
    }
}

impl SectionEntry for ImportItem {
    ghost payload = { content_.ComponentImportSection };

    fn section(entries: Seq<ImportItem>) -> Payload
        ensures { result ≡ content_.ComponentImportSection entries }
    {
        Payload::ComponentImportSection(entries)
    }
}

impl SectionEntry for CanonItem {
    ghost payload = { content_.ComponentCanonicalSection };

    fn section(entries: Seq<CanonItem>) -> Payload
        ensures { result ≡ content_.ComponentCanonicalSection entries }
    {
        Payload::ComponentCanonicalSection(entries)
    }
}

impl SectionEntry for ExportEntry {
    ghost payload = { content_.ComponentExportSection };

    fn section(entries: Seq<ExportEntry>) -> Payload
        ensures { result ≡ content_.ComponentExportSection entries }
    {
        Payload::ComponentExportSection(entries)
    }
}

impl SectionEntry for InstanceItem {
    ghost payload = { content_.InstanceSection };

    fn section(entries: Seq<InstanceItem>) -> Payload
        ensures { result ≡ content_.InstanceSection entries }
    {
        Payload::InstanceSection(entries)
    }
}

impl SectionEntry for ComponentInstanceItem {
    ghost payload = { content_.ComponentInstanceSection };

    fn section(entries: Seq<ComponentInstanceItem>) -> Payload
        ensures { result ≡ content_.ComponentInstanceSection entries }
    {
        Payload::ComponentInstanceSection(entries)
    }
}

impl SectionEntry for AliasItem {
    ghost payload = { content_.ComponentAliasSection };

    fn section(entries: Seq<AliasItem>) -> Payload
        ensures { result ≡ content_.ComponentAliasSection entries }
    {
        Payload::ComponentAliasSection(entries)
    }
}

/// The next value, read as the entries of a section.
fn take_entries<T: SectionEntry + Drop, F: Form>(
    form: &F,
    alloc: Global,
    reader: &mut Reader<'_>,
    depth: usize,
) -> Result<Payload, DecodeError>
    ensures { Takes (making T.payload (section (F.rules form.now) (T.ReadEntry.shape (F.rules form.now)))) depth
        reader.old result reader.new }
{
    match take_section::<T, F>(form, alloc, reader, depth) {
        Ok(entries) => Ok(T::section(entries)),
        Err(e) => Err(e),
    }
}

/// The next value, read as a core module.
fn take_module<F: Form>(
    form: &F,
    alloc: Global,
    reader: &mut Reader<'_>,
    depth: usize,
) -> Result<Payload, DecodeError>
    ensures { Takes (core_module (F.rules form.now)) depth reader.old result reader.new }
{
    match take_tree(alloc, reader, depth) {
        Ok(value) => core_module(form, alloc, &value),
        Err(Refusal::NotJson) => Err(DecodeError::NotJson),
        Err(Refusal::NoMemory) => Err(DecodeError::NoMemory),
    }
}

/// The next value, which stands under a key that no payload has.
fn take_other(alloc: Global, reader: &mut Reader<'_>, depth: usize) -> DecodeError
    ensures { TakesOther depth reader.old result reader.new }
{
    match take_tree(alloc, reader, depth) {
        Ok(value) => {
            drop(value);
            DecodeError::BadForm
        }
        Err(Refusal::NotJson) => DecodeError::NotJson,
        Err(Refusal::NoMemory) => DecodeError::NoMemory,
    }
}

/// The content of a payload of core modules, instances or aliases, by its key.
fn take_instances<F: Form>(
    form: &F,
    alloc: Global,
    reader: &mut Reader<'_>,
    depth: usize,
    key: &str,
) -> Result<Payload, DecodeError>
    ensures { Takes (by_row (instance_sections (F.rules form.now)) key.now) depth reader.old result reader.new }
{
    match key {
        "module" => take_module(form, alloc, reader, depth),
        "instances" => take_entries::<InstanceItem, F>(form, alloc, reader, depth),
        "component-instances" => take_entries::<ComponentInstanceItem, F>(
            form, alloc, reader, depth,
        ),
        "aliases" => take_entries::<AliasItem, F>(form, alloc, reader, depth),
        _ => Err(take_other(alloc, reader, depth)),
    }
}

/// The content of a payload, by its key.
#[tactic(auto, unfolding(crate::specs::Payload::payload_keys))]
fn take_content<F: Form>(
    form: &F,
    alloc: Global,
    reader: &mut Reader<'_>,
    depth: usize,
    key: &str,
) -> Result<Payload, DecodeError>
    ensures { Takes (by_row (payload_keys (F.rules form.now)) key.now) depth reader.old result reader.new }
{
    match key {
        "types" => take_entries::<TypeItem, F>(form, alloc, reader, depth),
        "imports" => take_entries::<ImportItem, F>(form, alloc, reader, depth),
        "canon" => take_entries::<CanonItem, F>(form, alloc, reader, depth),
        "exports" => take_entries::<ExportEntry, F>(form, alloc, reader, depth),
        _ => take_instances(form, alloc, reader, depth, key),
    }
}

/// The content of a payload, by its key, or None where the form is bad.
fn content<F: Form>(
    form: &F,
    alloc: Global,
    reader: &mut Reader<'_>,
    depth: usize,
    key: &str,
) -> Result<Option<Payload>, Refusal>
    ensures { TakesContent (F.rules form.now) depth key.now reader.old result reader.new }
{
    match take_content(form, alloc, reader, depth, key) {
        Ok(payload) => Ok(Some(payload)),
        Err(DecodeError::BadForm) => Ok(None),
        Err(DecodeError::NotJson) => Err(Refusal::NotJson),
        Err(DecodeError::NoMemory) => Err(Refusal::NoMemory),
    }
}

/// What was found in the object of a payload so far.
#[derive(Drop)]
struct Found<'a> {
    /// The first key.
    key: Option<&'a str>,
    /// What its last value is read as, if its form is good.
    payload: Option<Payload>,
    /// Whether there was another key.
    many: bool,
}

/// One more member of the object of a payload, of which the key is taken.
fn take_one<'a, F: Form>(
    form: &F,
    alloc: Global,
    reader: &mut Reader<'a>,
    depth: usize,
    key: &'a str,
    found: &mut Found<'a>,
) -> Result<(), Refusal>
    ensures { TakesOne (F.rules form.now) depth key.now reader.old found.old result reader.new found.new }
{
    if is_first(key, found.key) {
        match content(form, alloc, reader, depth, key) {
            Ok(payload) => {
                found.key = Some(key);
                found.payload = payload;
                Ok(())
            }
            Err(e) => Err(e),
        }
    } else {
        match take_tree(alloc, reader, depth) {
            Ok(value) => {
                drop(value);
                found.many = true;
                Ok(())
            }
            Err(e) => Err(e),
        }
    }
}

/// Whether a key is the first one.
fn is_first(key: &str, first: Option<&str>) -> bool
    ensures { result ≡ is_first key.now (option_map (λ k. k.now) first.entry) }
{
    match first {
        Some(first) => first == key,
        None => true,
    }
}

/// The payload of an object whose brace was taken.
fn take_tagged<F: Form>(
    form: &F,
    alloc: Global,
    reader: &mut Reader<'_>,
    depth: usize,
) -> Result<Payload, DecodeError>
    ensures { TakesMembers (λ ms. payload_of (F.rules form.now) (object ms)) depth reader.old result reader.new }
{
    let mut found = Found {
        key: None,
        payload: None,
        many: false,
    };
    'members: loop {
        match reader.next_key() {
            Ok(Some(key)) => match take_one(form, alloc, reader, depth, key, &mut found) {
                Ok(()) => {}
                Err(Refusal::NotJson) => return Err(DecodeError::NotJson),
                Err(Refusal::NoMemory) => return Err(DecodeError::NoMemory),
            },
            Ok(None) => return only(found),
            Err(_) => return Err(DecodeError::NotJson),
        }
    }
}

/// The payload of an object that is over.
fn only(found: Found<'_>) -> Result<Payload, DecodeError>
    ensures { Reads result (payload_in found.entry) }
{
    if found.many {
        return Err(DecodeError::BadForm);
    }
    found.payload.ok_or(DecodeError::BadForm)
}

/// A payload that is a word.
#[tactic(auto, unfolding(crate::specs::Payload::payload_of))]
fn by_word(word: &str) -> Result<Payload, DecodeError>
    ensures { (r : Rules) → Reads result (payload_of r (string word.now)) }
{
    bare(word)
}

/// The next value, read as a payload.
pub(crate) fn take_payload<F: Form>(
    form: &F,
    alloc: Global,
    reader: &mut Reader<'_>,
    depth: usize,
) -> Result<Payload, DecodeError>
    ensures { Takes (payload_of (F.rules form.now)) depth reader.old result reader.new }
{
    match reader.next() {
        Some(Token::String(word)) => by_word(word),
        Some(Token::BeginObject) => {
            if depth == 0 {
                Err(DecodeError::NotJson)
            } else {
                take_tagged(form, alloc, reader, depth - 1)
            }
        }
        Some(Token::BeginArray) => {
            if depth == 0 {
                Err(DecodeError::NotJson)
            } else {
                Err(passed_as(pass_items(alloc, reader, depth - 1)))
            }
        }
        Some(Token::Number(text)) => {
            if is_in_range(text) {
                Err(DecodeError::BadForm)
            } else {
                Err(DecodeError::NotJson)
            }
        }
        Some(Token::Bool(_)) => Err(DecodeError::BadForm),
        Some(Token::Null) => Err(DecodeError::BadForm),
        Some(Token::EndObject) => Err(DecodeError::NotJson),
        Some(Token::EndArray) => Err(DecodeError::NotJson),
        Some(Token::Key(_)) => Err(DecodeError::NotJson),
        Some(Token::Bad) => Err(DecodeError::NotJson),
        None => Err(DecodeError::NotJson),
    }
}
