//! The words of the input form.

ghost use Rattle.pc_input_values.specs.Words.{core_types, prim_types, core_kinds, item_kinds, outer_kinds};

use crate::form::Word;
use pc_parsed::{ItemKind, OuterKind};
use pc_types::{CoreKind, PrimType, WasmValType};

impl Word for WasmValType {
    ghost words = { core_types };

    #[tactic(auto, unfolding(crate::specs::Words::core_types))]
    fn of(word: &str) -> Option<WasmValType> {
        match word {
            "i32" => Some(WasmValType::I32),
            "i64" => Some(WasmValType::I64),
            "f32" => Some(WasmValType::F32),
            "f64" => Some(WasmValType::F64),
            "v128" => Some(WasmValType::V128),
            "funcref" => Some(WasmValType::FuncRef),
            "externref" => Some(WasmValType::ExternRef),
            _ => None,
        }
    }
}

impl Word for PrimType {
    ghost words = { prim_types };

    #[tactic(auto, unfolding(crate::specs::Words::prim_types))]
    fn of(word: &str) -> Option<PrimType> {
        match word {
            "bool" => Some(PrimType::Bool),
            "s8" => Some(PrimType::S8),
            "u8" => Some(PrimType::U8),
            "s16" => Some(PrimType::S16),
            "u16" => Some(PrimType::U16),
            "s32" => Some(PrimType::S32),
            "u32" => Some(PrimType::U32),
            "s64" => Some(PrimType::S64),
            "u64" => Some(PrimType::U64),
            "f32" => Some(PrimType::F32),
            "f64" => Some(PrimType::F64),
            "char" => Some(PrimType::Char),
            "string" => Some(PrimType::String),
            "error-context" => Some(PrimType::ErrorContext),
            _ => None,
        }
    }
}

impl Word for CoreKind {
    ghost words = { core_kinds };

    #[tactic(auto, unfolding(crate::specs::Words::core_kinds))]
    fn of(word: &str) -> Option<CoreKind> {
        match word {
            "func" => Some(CoreKind::Func),
            "table" => Some(CoreKind::Table),
            "memory" => Some(CoreKind::Memory),
            "global" => Some(CoreKind::Global),
            "tag" => Some(CoreKind::Tag),
            _ => None,
        }
    }
}

impl Word for ItemKind {
    ghost words = { item_kinds };

    #[tactic(auto, unfolding(crate::specs::Words::item_kinds))]
    fn of(word: &str) -> Option<ItemKind> {
        match word {
            "func" => Some(ItemKind::Func),
            "module" => Some(ItemKind::Module),
            "instance" => Some(ItemKind::Instance),
            "component" => Some(ItemKind::Component),
            "type" => Some(ItemKind::Type_),
            "value" => Some(ItemKind::Value),
            _ => None,
        }
    }
}

impl Word for OuterKind {
    ghost words = { outer_kinds };

    #[tactic(auto, unfolding(crate::specs::Words::outer_kinds))]
    fn of(word: &str) -> Option<OuterKind> {
        match word {
            "core-type" => Some(OuterKind::CoreType),
            "type" => Some(OuterKind::Type_),
            "core-module" => Some(OuterKind::CoreModule),
            "component" => Some(OuterKind::Component),
            _ => None,
        }
    }
}
