//! Trampolines taken apart and put together, their symbols, and the words of transcodings. The expected texts are those
//! of wasmtime.

use crate::support::{NONE, holds};
use pc_entity::{
    Interner, LoweredIndex, NoMemory, OptionsIndex, RuntimeComponentInstanceIndex,
    RuntimeMemoryIndex, Seed,
};
use pc_info::{FixedEncoding, Trampoline, Transcode, Trap};
use pc_types::{TypeFuncIndex, TypeResourceTableIndex, TypeStreamTableIndex};
use std::alloc::Global;

const INSTANCE: RuntimeComponentInstanceIndex = RuntimeComponentInstanceIndex(1);

const TRAP: Trampoline = Trampoline::Trap(Trap(1));

/// A resource let go.
const RESOURCE_DROP: Trampoline = Trampoline::ResourceDrop {
    instance: INSTANCE,
    ty: TypeResourceTableIndex(4),
};

/// A lowered import, a resource let go, a read of a stream that is given up, a memory copied as 16-bit units between
/// addresses of 32 and of 64 bits, a trap and a call that begins, each with its symbol.
static SYMBOLS: [(Trampoline, &str); 6] = [
    (
        Trampoline::LowerImport {
            index: LoweredIndex(3),
            lower_ty: TypeFuncIndex(0),
            options: OptionsIndex(0),
        },
        "component-lower-import[3]",
    ),
    (RESOURCE_DROP, "component-resource-drop[4]"),
    (
        Trampoline::StreamCancelRead {
            instance: INSTANCE,
            ty: TypeStreamTableIndex(0),
            async_: true,
        },
        "stream-cancel-read",
    ),
    (
        Trampoline::Transcoder {
            op: Transcode::Copy(FixedEncoding::Utf16),
            from: RuntimeMemoryIndex(0),
            from64: false,
            to: RuntimeMemoryIndex(1),
            to64: true,
        },
        "component-transcode-copy_utf16-m32-m64",
    ),
    (TRAP, "trap-1"),
    (Trampoline::EnterSyncCall, "enter-sync-call"),
];

/// Whether a trampoline has this symbol.
fn has_symbol(alloc: Global, trampoline: Trampoline, symbol: &str) -> Result<bool, NoMemory> {
    let name = trampoline.symbol_name(alloc)?;
    Ok(name.as_str() == symbol)
}

/// Whether what a trampoline is made of makes that trampoline.
fn comes_back(trampoline: Trampoline) -> bool {
    Trampoline::from_parts(trampoline.parts()) == Some(trampoline)
}

#[test]
fn trampolines_have_symbols_and_are_put_together_again(rt: HostRuntime) {
    for (trampoline, symbol) in SYMBOLS.iter() {
        let has_symbol = has_symbol(rt.alloc(), *trampoline, symbol).unwrap_or(false);
        holds(&rt, symbol, has_symbol & comes_back(*trampoline));
    }
}

/// Trampolines of which two are equal, with their numbers.
static THREE: [(Trampoline, u32); 3] = [(TRAP, 0), (RESOURCE_DROP, 1), (TRAP, 0)];

/// Whether a trampoline gets this number, and is found by it.
fn is_added(trampolines: &mut Interner<Trampoline>, value: &Trampoline, number: u32) -> bool {
    if trampolines.len() >= 1000 || trampolines.push(*value).unwrap_or(NONE) != number {
        return false;
    }
    match trampolines.get(number) {
        Some(held) => *held == *value,
        None => false,
    }
}

#[test]
fn equal_trampolines_share_a_number(rt: HostRuntime) {
    let mut trampolines = Interner::new(rt.alloc(), Seed::fixed());
    for (trampoline, number) in THREE.iter() {
        let is_added = is_added(&mut trampolines, trampoline, *number);
        holds(&rt, "a number", is_added);
    }
    holds(&rt, "two trampolines", trampolines.len() == 2);
}

#[test]
fn words_of_a_transcoding(rt: HostRuntime) {
    let fragment = Transcode::Utf8ToLatin1.symbol_fragment();
    holds(&rt, "in a symbol", fragment == "utf8_to_latin1");
    let desc = Transcode::Copy(FixedEncoding::Latin1).desc();
    holds(&rt, "in words", desc == "latin1-to-latin1");
    holds(
        &rt,
        "the bytes of a unit",
        FixedEncoding::Utf16.width() == 2,
    );
    holds(&rt, "their alignment", FixedEncoding::Latin1.align() == 2);
}
