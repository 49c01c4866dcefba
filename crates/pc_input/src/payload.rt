//! Payloads: a word, or an object whose key names the section.

ghost use Rattle.pc_entity.specs.Lists.{value_of};
ghost use Rattle.pc_input.specs.Payload.{instance_sections, payload_words, payload_keys, payload_of};
ghost use Rattle.pc_input_values.specs.Tree.{by_row};
ghost use Rattle.pc_input_values.specs.Reads.{Reads};

use crate::content::take_payload;
use crate::entry::{ReadEntry, section};
use crate::module::core_module;
use json::Reader;
use pc_input_tokens::Tree;
use pc_input_values::{DecodeError, Form};
use pc_parsed::{Encoding, Payload};
use std::alloc::Global;

/// A payload without content. Words that an input may have many of come first.
#[tactic(auto, unfolding(crate::specs::Payload::payload_words))]
pub(crate) fn bare(word: &str) -> Result<Payload, DecodeError>
    ensures { Reads result (value_of word.now payload_words) }
{
    match word {
        "custom" => Ok(Payload::CustomSection),
        "component" => Ok(Payload::ComponentSection),
        "end" => Ok(Payload::End),
        "version" => Ok(Payload::Version {
            encoding: Encoding::Component,
        }),
        "version-module" => Ok(Payload::Version {
            encoding: Encoding::Module,
        }),
        "core-types" => Ok(Payload::CoreTypeSection),
        "start" => Ok(Payload::ComponentStartSection),
        _ => Err(DecodeError::BadForm),
    }
}

/// A payload of core modules, instances or aliases, by its key.
fn instance_section<F: Form, V: Tree>(
    form: &F,
    alloc: Global,
    key: &str,
    value: &V,
) -> Result<Payload, DecodeError>
    ensures { Reads result (by_row (instance_sections (F.rules form.now)) key.now (V.means value.now)) }
{
    match key {
        "module" => core_module(form, alloc, value),
        "instances" => Ok(Payload::InstanceSection(section(form, alloc, value)?)),
        "component-instances" => Ok(Payload::ComponentInstanceSection(section(
            form, alloc, value,
        )?)),
        "aliases" => Ok(Payload::ComponentAliasSection(section(form, alloc, value)?)),
        _ => Err(DecodeError::BadForm),
    }
}

/// A payload with content, by its key.
#[tactic(auto, unfolding(crate::specs::Payload::payload_keys))]
fn with_content<F: Form, V: Tree>(
    form: &F,
    alloc: Global,
    key: &str,
    value: &V,
) -> Result<Payload, DecodeError>
    ensures { Reads result (by_row (payload_keys (F.rules form.now)) key.now (V.means value.now)) }
{
    match key {
        "types" => Ok(Payload::ComponentTypeSection(section(form, alloc, value)?)),
        "imports" => Ok(Payload::ComponentImportSection(section(form, alloc, value)?)),
        "canon" => Ok(Payload::ComponentCanonicalSection(section(form, alloc, value)?)),
        "exports" => Ok(Payload::ComponentExportSection(section(form, alloc, value)?)),
        _ => instance_section(form, alloc, key, value),
    }
}

impl ReadEntry for Payload {
    ghost shape = { payload_of };

    #[tactic(auto, unfolding(crate::specs::Payload::payload_of))]
    fn read<F: Form, V: Tree>(form: &F, alloc: Global, value: &V) -> Result<Payload, DecodeError> {
        if let Some(word) = value.as_str() {
            return bare(word);
        }
        match value.tagged() {
            Some((key, body)) => with_content(form, alloc, key, body),
            None => Err(DecodeError::BadForm),
        }
    }

    fn take<F: Form>(
        form: &F,
        alloc: Global,
        reader: &mut Reader<'_>,
        depth: usize,
    ) -> Result<Payload, DecodeError> {
        take_payload(form, alloc, reader, depth)
    }
}
