//! Tests of `pc_entity`.

use crate::support::{holds, text};
use pc_entity::{
    Atom, Boxed, EntityRef, EntitySet, ExactEq, FuncIndex, HashedText, Interner, MemoryIndex,
    ModuleIndex, PackedOption, PrimaryMap, SecondaryMap, Seed, Seq, StringPool, TableIndex,
    TagIndex, Text, TextMap, TryClone,
};
use std::alloc::Global;
use std::process::Abort;
use std::test::*;

/// Whether 5 alone is numbered.
fn is_five(numbers: &Interner<u32>) -> bool {
    numbers.get(0).copied() == Some(5)
        && numbers.iter().count() == 1
        && numbers.as_slice().len() == 1
        && numbers.len() == 1
        && numbers.find(&5) == Some(0)
}

#[test]
fn a_value_has_a_number(rt: HostRuntime) {
    let mut numbers = Interner::new(rt.alloc(), Seed::fixed());
    let is_first = numbers.push(5u32) == Ok(0);
    holds(&rt, "number", is_first && is_five(&numbers));
}

#[test]
fn what_is_cut_off_has_no_number(rt: HostRuntime) {
    let mut numbers = Interner::new(rt.alloc(), Seed::fixed());
    let are_two = numbers.push(5u32) == Ok(0) && numbers.push(7) == Ok(1);
    numbers.truncate(1);
    holds(
        &rt,
        "cut",
        are_two && is_five(&numbers) && numbers.find(&7) == None,
    );
}

/// Whether `a` alone is held.
fn is_a(pool: &StringPool) -> bool {
    pool.len() == 1 && pool.text(Atom(0)) == "a" && pool.get_atom("a") == Some(Atom(0))
}

#[test]
fn a_text_has_an_atom(rt: HostRuntime) {
    let mut pool = StringPool::new(rt.alloc(), Seed::fixed());
    let is_first = pool.insert("a") == Ok(Atom(0)) && Atom(0).as_u32() == 0;
    holds(&rt, "atom", is_first && is_a(&pool));
}

#[test]
fn a_set_tells_whether_it_changed(rt: HostRuntime) {
    let mut set = EntitySet::new(rt.alloc());
    let last = FuncIndex(4294967295);
    let is_inserted = set.insert(last) == Ok(true) && set.contains(last);
    holds(&rt, "set", is_inserted && set.remove(last));
}

/// Whether number 2 has the value 9, and other numbers the default.
fn is_nine(map: &SecondaryMap<MemoryIndex, u32>) -> bool {
    map.len() == 3
        && !map.is_empty()
        && map.get(MemoryIndex(2)) == 9
        && map.get(MemoryIndex(7)) == 0
}

#[test]
fn a_number_that_was_not_set_has_the_default(rt: HostRuntime) {
    let mut map = SecondaryMap::new(rt.alloc(), 0u32);
    let is_set = map.set(MemoryIndex(2), 9).is_ok();
    holds(&rt, "values", is_set && is_nine(&map));
}

/// Writes 9 at a place of a list.
fn is_written(map: &mut PrimaryMap<TableIndex, u32>, place: TableIndex) -> bool {
    match map.get_mut(place) {
        Some(value) => {
            *value = 9;
            map.get(place).copied() == Some(9) && map.as_slice().len() == 1
        }
        None => false,
    }
}

#[test]
fn a_list_hands_out_its_places(rt: HostRuntime) {
    let mut map = PrimaryMap::new(rt.alloc());
    let next: TableIndex = map.next_key();
    let is_pushed = map.push(7u32) == Ok(next);
    holds(&rt, "place", is_pushed && is_written(&mut map, next));
}

#[test]
fn a_list_is_a_vector_of_its_values(rt: HostRuntime) {
    let values = [9, 8].to_vec(rt.alloc()).expect(&rt, "no memory");
    let map: PrimaryMap<TagIndex, u32> = PrimaryMap::from_vec(values);
    let is_list = !map.is_empty() && map.len() == 2 && map[TagIndex(1)] == 8;
    holds(&rt, "vector", is_list && map.into_vec().len() == 2);
}

/// Whether the name that is empty has a place and the value 1.
fn is_placed(map: &TextMap<u32>) -> bool {
    map.len() == 1 && *map.entry_at(0).1 == 1 && map.get_index(0).is_some()
}

#[test]
fn a_name_has_a_place(rt: HostRuntime) {
    let alloc = rt.alloc();
    let mut map = TextMap::new(alloc, Seed::fixed());
    let is_new = map.insert(text(&rt, alloc, ""), 1u32) == Ok(None);
    holds(&rt, "insert", is_new);
    let is_kept = map.insert_first(&text(&rt, alloc, ""), 2).is_ok();
    holds(&rt, "place", is_kept && is_placed(&map));
}

/// Whether the name that is empty has the value 4, and `c` has none.
fn is_named(map: &TextMap<u32>) -> bool {
    map.names_are_distinct();
    map.get("").copied() == Some(4) && map.contains("") && !map.contains("c")
}

#[test]
fn a_name_is_found(rt: HostRuntime) {
    let mut map = TextMap::new(rt.alloc(), Seed::fixed());
    let is_pushed = map.push(text(&rt, rt.alloc(), ""), 4u32).is_ok();
    holds(&rt, "name", is_pushed && is_named(&map));
}

#[test]
fn a_name_is_found_by_the_seed_of_an_input(rt: HostRuntime) {
    let numbers: Interner<u32> = Interner::new(rt.alloc(), Seed::of_input("wasm".as_bytes()));
    let names: TextMap<u32> = TextMap::new(rt.alloc(), numbers.seed());
    let mut map = TextMap::new(rt.alloc(), names.seed());
    let is_pushed = map.push(text(&rt, rt.alloc(), ""), 4u32).is_ok();
    holds(&rt, "name", is_pushed && is_named(&map));
}

#[test]
fn a_text_is_a_string(rt: HostRuntime) {
    let string = String::from_str(rt.alloc(), "wasm/p1").expect(&rt, "no memory");
    let made = Text::from_string(string).expect(&rt, "no memory");
    let is_string = made.as_str() == "wasm/p1" && !made.is_empty() && made.len() == 7;
    let is_greater = made > text(&rt, rt.alloc(), "");
    holds(&rt, "string", is_string && is_greater);
}

/// A text that shares its bytes with one that is gone.
fn shared(rt: &impl Abort, alloc: Global) -> Text {
    let source = text(rt, alloc, "wasm");
    source.share().expect(rt, "no memory")
}

#[test]
fn a_text_that_is_shared_equals_one_that_is_copied(rt: HostRuntime) {
    let is_copy = shared(&rt, rt.alloc()) == text(&rt, rt.alloc(), "wasm");
    let is_other = shared(&rt, rt.alloc()) == text(&rt, rt.alloc(), "wasn");
    holds(&rt, "shared", is_copy && !is_other);
}

/// This text with its hash.
fn hashed(rt: &impl Abort, alloc: Global, bytes: &str) -> HashedText {
    HashedText::new(alloc, text(rt, alloc, bytes)).expect(rt, "no memory")
}

/// Whether a text is `wasm`, and not `wasn`.
fn is_wasm(rt: &impl Abort, alloc: Global, made: &HashedText) -> bool {
    made.as_str() == "wasm"
        && made.text().len() == 4
        && *made == hashed(rt, alloc, "wasm")
        && *made != hashed(rt, alloc, "wasn")
}

#[test]
fn a_text_with_its_hash_is_that_text(rt: HostRuntime) {
    let made = hashed(&rt, rt.alloc(), "wasm");
    let copy = made.try_clone(rt.alloc()).expect(&rt, "no memory");
    let is_copy = copy == made && is_wasm(&rt, rt.alloc(), &copy);
    holds(&rt, "text", is_copy && is_wasm(&rt, rt.alloc(), &made));
}

#[test]
fn a_text_with_its_hash_has_a_number(rt: HostRuntime) {
    let alloc = rt.alloc();
    let mut numbers = Interner::new(alloc, Seed::fixed());
    let is_first = numbers.push(hashed(&rt, alloc, "a")) == Ok(0);
    let is_second = numbers.push(hashed(&rt, alloc, "b")) == Ok(1);
    let is_held = numbers.push(hashed(&rt, alloc, "a")) == Ok(0);
    let is_found = numbers.find(&hashed(&rt, alloc, "b")) == Some(1);
    let is_absent = numbers.find(&hashed(&rt, alloc, "c")) == None;
    let are_two = is_first && is_second && is_held;
    holds(&rt, "numbers", are_two && is_found && is_absent);
}

#[test]
fn a_value_stands_behind_a_pointer(rt: HostRuntime) {
    let boxed = Boxed::new(rt.alloc(), 5u32).expect(&rt, "no memory");
    holds(&rt, "value", *boxed.get() == 5);
}

#[test]
fn a_copy_is_its_source(rt: HostRuntime) {
    let alloc = rt.alloc();
    let mut texts = Seq::with_capacity(alloc, 2).expect(&rt, "no memory");
    let name = text(&rt, alloc, "");
    let is_pushed = texts.push((name, Some(FuncIndex(1)))).is_ok();
    let copy = texts.try_clone(alloc).expect(&rt, "no memory");
    let is_same = copy.is_same(&texts) && !copy.is_empty() && copy.len() == 1;
    holds(&rt, "copy", is_pushed && is_same);
}

#[test]
fn a_copy_of_three_parts_is_its_source(rt: HostRuntime) {
    let parts = (text(&rt, rt.alloc(), "a"), 1u32, true);
    let copy = parts.try_clone(rt.alloc()).expect(&rt, "no memory");
    let is_same = copy.0.as_str() == "a" && copy.1 == 1 && copy.2;
    holds(&rt, "copy", is_same);
}

/// Whether the items are three, and the second is 2.
fn are_three(items: &Seq<u32>) -> bool {
    items.iter().count() == 3
        && items.iter().nth(1).copied() == Some(2)
        && items.as_slice().len() == 3
}

#[test]
fn a_list_of_items_is_a_vector(rt: HostRuntime) {
    let values = [1u32, 2, 3].to_vec(rt.alloc()).expect(&rt, "no memory");
    let items = Seq::from_vec(values);
    let is_list = are_three(&items);
    holds(&rt, "vector", is_list && items.into_vec().len() == 3);
}

#[test]
fn the_greatest_number_may_be_held(rt: HostRuntime) {
    let most = PackedOption::some(ModuleIndex(4294967295));
    let is_held = most.expand() == Some(ModuleIndex(4294967295))
        && most.try_clone(rt.alloc()) == Ok(most)
        && !most.is_none()
        && PackedOption::<ModuleIndex>::none().is_none();
    holds(&rt, "greatest", is_held);
}
