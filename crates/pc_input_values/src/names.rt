//! Names, and the items of a core module that stand under a name.

ghost use Rattle.pc_input_values.specs.Names.{extern_name, core_item};

use crate::DecodeError;
use crate::form::{Form, ReadForm};
use pc_entity::{EntityIndex, Text};
use pc_input_tokens::Tree;
use pc_parsed::ExternName;
use pc_types::CoreKind;
use std::alloc::Global;

/// A name, or an array of it, what it implements and its id.
impl ReadForm for ExternName {
    ghost shape = { extern_name };

    #[tactic(auto, unfolding(crate::specs::Names::extern_name))]
    fn read<F: Form, V: Tree>(
        form: &F,
        alloc: Global,
        value: &V,
    ) -> Result<ExternName, DecodeError> {
        if value.is_array() {
            let (name, implements, external_id) = <(Text, Option<Text>, Option<Text>)>::read(
                form, alloc, value,
            )?;
            Ok(ExternName {
                name,
                implements,
                external_id,
            })
        } else {
            Ok(ExternName {
                name: form.name(alloc, value)?,
                implements: None,
                external_id: None,
            })
        }
    }
}

/// `["name", core kind, number]`.
impl ReadForm for (Text, EntityIndex) {
    ghost shape = { core_item };

    #[tactic(auto, unfolding(crate::specs::Names::core_item))]
    fn read<F: Form, V: Tree>(
        form: &F,
        alloc: Global,
        value: &V,
    ) -> Result<(Text, EntityIndex), DecodeError> {
        let (name, kind, i) = <(Text, CoreKind, u32)>::read(form, alloc, value)?;
        Ok((name, kind.entity(i)))
    }
}
