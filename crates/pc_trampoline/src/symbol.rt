//! The symbols of a plan's trampolines.

ghost use Rattle.std.specs.Prelude.{◌≡◌, ◌++◌, ◌∷◌, [], codes, flat_map, string_bytes, IfOk, OnOk};
ghost use Rattle.std.specs.Fmt.{decimal};
ghost use Rattle.pc_spec_plan.specs.Text.{in_brackets, symbol_end};
ghost use Rattle.pc_types.specs.declared.trampoline.TrampolineKind.TheVariants as kind;
ghost use Rattle.pc_trampoline.specs.Parts.{list_of, parts_of};
ghost use Rattle.pc_trampoline.specs.Shape.{IsShaped};
ghost use Rattle.pc_trampoline.specs.Transcoding.{address_bits, place_of};
ghost use Rattle.pc_trampoline.specs.View.{plan_numbers, resource_numbers, symbol_numbers, symbol_of};

use crate::stem::stem_of;
use crate::{Head, Part, PartList, PlanPart, PlanParts, Trampoline, Transcode};
use itoa::Buffer;
use pc_entity::{
    EntityRef, LoweredIndex, NoMemory, OptionsIndex, RuntimeCallbackIndex, RuntimeMemoryIndex,
    RuntimePostReturnIndex, RuntimeTableIndex,
};
use pc_types::TypeDef;
use std::alloc::Global;

fn put(out: &mut String, text: &str) -> Result<(), NoMemory>
    ensures { OnOk result (string_bytes out.new ≡ string_bytes out.old ++ text.now) }
{
    out.push_str(text)?;
    Ok(())
}

fn put_decimal(out: &mut String, n: u32) -> Result<(), NoMemory>
    ensures { OnOk result (string_bytes out.new ≡ string_bytes out.old ++ decimal n) }
{
    let mut digits = Buffer::new();
    put(out, digits.format(n))
}

/// A number between brackets.
fn put_number(out: &mut String, n: u32) -> Result<(), NoMemory>
    ensures { OnOk result (string_bytes out.new ≡ string_bytes out.old ++ in_brackets (n ∷ [])) }
{
    put(out, "[")?;
    put_decimal(out, n)?;
    put(out, "]")
}

/// The number of a resource between brackets.
fn put_resource(out: &mut String, part: PlanPart) -> Result<(), NoMemory>
    ensures { OnOk result (string_bytes out.new
        ≡ string_bytes out.old ++ in_brackets (resource_numbers plan_numbers part)) }
{
    match part {
        Part::Type_(TypeDef::Resource(ty)) => put_number(out, ty.as_u32()),
        _ => Ok(()),
    }
}

/// The numbers of resources, each between brackets.
fn put_resources(out: &mut String, parts: PartList<PlanPart>) -> Result<(), NoMemory>
    ensures { OnOk result (string_bytes out.new
        ≡ string_bytes out.old ++ in_brackets (flat_map (resource_numbers plan_numbers) (list_of parts))) }
{
    match parts {
        PartList::Empty => Ok(()),
        PartList::One(part) => put_resource(out, part),
        PartList::Two(first, second) => {
            put_resource(out, first)?;
            put_resource(out, second)
        }
    }
}

/// How many bits the addresses of a memory have.
fn bits_of(is_64: bool) -> u32
    ensures { result ≡ address_bits is_64 }
{
    if is_64 { 64 } else { 32 }
}

fn put_bits(out: &mut String, is_64: bool) -> Result<(), NoMemory>
    ensures { OnOk result (string_bytes out.new ≡ string_bytes out.old ++ codes "-m" ++ decimal (address_bits is_64)) }
{
    put(out, "-m")?;
    put_decimal(out, bits_of(is_64))
}

fn put_transcoding(
    out: &mut String,
    op: Transcode,
    from64: bool,
    to64: bool,
) -> Result<(), NoMemory>
    ensures { OnOk result (string_bytes out.new ≡ string_bytes out.old
        ++ symbol_end kind.Transcoder (place_of op ∷ address_bits from64 ∷ address_bits to64 ∷ [])) }
{
    put(out, "-")?;
    put(out, op.symbol_fragment())?;
    put_bits(out, from64)?;
    put_bits(out, to64)
}

fn put_trap(out: &mut String, code: u8) -> Result<(), NoMemory>
    ensures { OnOk result (string_bytes out.new ≡ string_bytes out.old ++ symbol_end kind.Trap (code ∷ [])) }
{
    put(out, "-")?;
    put_decimal(out, u32::from(code))
}

/// What follows the first part of a symbol.
#[tactic(auto, unfolding(crate::specs::Shape::shape_of))]
fn put_end(out: &mut String, made: PlanParts) -> Result<(), NoMemory>
    requires shaped { IsShaped made }
    ensures { OnOk result (string_bytes out.new ≡ string_bytes out.old
        ++ symbol_end made.kind (symbol_numbers plan_numbers made.head (list_of made.parts))) }
{
    match made.head {
        Head::Lowering(index, _, _) => put_number(out, index.as_u32()),
        Head::Builtin(_) => put_resources(out, made.parts),
        Head::Helper => Ok(()),
        Head::Transcoding(op, from64, to64) => put_transcoding(out, op, from64, to64),
        Head::Trapping(code) => put_trap(out, code.0),
    }
}

impl Trampoline<
    LoweredIndex,
    OptionsIndex,
    RuntimeMemoryIndex,
    RuntimeTableIndex,
    RuntimeCallbackIndex,
    RuntimePostReturnIndex,
> {
    /// The name of its symbol.
    pub fn symbol_name(&self, alloc: Global) -> Result<String, NoMemory>
        ensures { IfOk result (λ name. string_bytes name ≡ symbol_of (parts_of self.now)) }
    {
        let made = self.parts();
        let mut name = String::new(alloc);
        put(&mut name, stem_of(made.kind))?;
        put_end(&mut name, made)?;
        Ok(name)
    }
}
