//! Texts, lists and maps for the plans that are printed. What there is no memory for is left out, and then the text of
//! the plan is another one.

use pc_entity::{EntityRef, HashedText, PrimaryMap, Text, TextMap};
use std::alloc::Global;

/// This text.
pub(crate) fn text(alloc: Global, text: &str) -> Option<Text> {
    Text::copy_of(alloc, text).ok()
}

/// This text with its hash.
pub(crate) fn hashed(alloc: Global, bytes: &str) -> Option<HashedText> {
    HashedText::new(alloc, text(alloc, bytes)?).ok()
}

/// These values.
pub(crate) fn values<T: Copy>(alloc: Global, values: &[T]) -> Vec<T> {
    Vec::from_slice(alloc, values).unwrap_or(Vec::new(alloc))
}

/// These values, under keys.
pub(crate) fn copied<K: EntityRef, T: Copy>(alloc: Global, all: &[T]) -> PrimaryMap<K, T> {
    PrimaryMap::from_vec(values(alloc, all))
}

/// These values, none of which is copied.
pub(crate) fn list<T: Drop, const N: usize>(alloc: Global, all: [T; N]) -> Vec<T> {
    Vec::from_array(alloc, all).unwrap_or(Vec::new(alloc))
}

/// Those of these values that are there.
pub(crate) fn there<T: Drop, const N: usize>(alloc: Global, all: [Option<T>; N]) -> Vec<T> {
    let mut kept = Vec::new(alloc);
    for value in list(alloc, all) {
        if let Some(value) = value {
            let _ = kept.push(value);
        }
    }
    kept
}

/// Puts a value under a name.
pub(crate) fn put<T: Drop>(alloc: Global, map: &mut TextMap<T>, name: &str, value: T) {
    if let Some(name) = text(alloc, name) {
        let _ = map.insert(name, value);
    }
}
