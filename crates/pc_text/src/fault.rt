//! The texts of refusals with an `Error`.

ghost use Rattle.std.specs.Prelude.{◌≡◌, ◌≢◌, ◌++◌, codes, IfOk, OnOk};
ghost use Rattle.pc_spec_plan.specs.Text.{number};
ghost use Rattle.pc_text.specs.FaultText.{fault_line, fault_text, place, unsupported_word};

use pc_entity::NoMemory;
use pc_text_pieces::{put, put_number};
use pc_types::{Error, Place, Unsupported};
use std::alloc::Global;

/// A place of one number, after what it is a number of.
fn put_at(out: &mut Vec<u8>, what: &str, n: u64) -> Result<(), NoMemory>
    ensures { OnOk result (out.new.items ≡ out.old.items ++ what.now ++ number n) }
{
    put(out, what)?;
    put_number(out, n)
}

/// Where a fault arose.
fn put_place(out: &mut Vec<u8>, at: Place) -> Result<(), NoMemory>
    ensures { OnOk result (out.new.items ≡ out.old.items ++ place at) }
{
    match at {
        Place::Table(n) => put_at(out, " at table", u64::from(n)),
        Place::Payload { payload, item } => {
            put_at(out, " at payload", payload)?;
            put_at(out, " item", item)
        }
        Place::Reading { instance, item } => {
            put_at(out, " at instance", u64::from(instance))?;
            put_at(out, " item", item)
        }
        Place::Export(n) => put_at(out, " at export", n),
        Place::Adapter(n) => put_at(out, " at adapter", u64::from(n)),
    }
}

/// The word for what isn't supported.
fn word(kind: Unsupported) -> &'static str
    ensures { result.now ≡ unsupported_word kind }
{
    match kind {
        Unsupported::Module => "module",
        Unsupported::ThreadSpawn => "thread-spawn",
        Unsupported::ContextGetType => "context-get-type",
        Unsupported::ContextSetType => "context-set-type",
        Unsupported::StreamForward => "stream-forward",
        Unsupported::FutureForward => "future-forward",
        Unsupported::StartSection => "start-section",
        Unsupported::ComponentValue => "component-value",
        Unsupported::ComponentImport => "component-import",
        Unsupported::ReexportedIntrinsic => "reexported-intrinsic",
        Unsupported::ReexportedIntrinsics => "reexported-intrinsics",
        Unsupported::ExportedComponent => "exported-component",
    }
}

/// The line of a fault without a place.
fn put_fault(out: &mut Vec<u8>, kind: &str) -> Result<(), NoMemory>
    ensures { OnOk result (out.new.items ≡ out.old.items ++ fault_line kind.now) }
{
    put(out, "fault ")?;
    put(out, kind)?;
    put(out, "\n")
}

/// The line of a fault with its place.
fn put_fault_at(out: &mut Vec<u8>, kind: &str, at: Place) -> Result<(), NoMemory>
    ensures { OnOk result (out.new.items ≡ out.old.items ++ fault_line (kind.now ++ place at)) }
{
    put(out, "fault ")?;
    put(out, kind)?;
    put_place(out, at)?;
    put(out, "\n")
}

/// The line of what isn't supported, with its place.
fn put_unsupported(out: &mut Vec<u8>, kind: Unsupported, at: Place) -> Result<(), NoMemory>
    ensures { OnOk result (out.new.items
        ≡ out.old.items ++ fault_line (codes "unsupported " ++ unsupported_word kind ++ place at)) }
{
    put(out, "fault unsupported ")?;
    put(out, word(kind))?;
    put_place(out, at)?;
    put(out, "\n")
}

/// The line of a refusal.
fn put_error(out: &mut Vec<u8>, e: Error) -> Result<(), NoMemory>
    requires has_text { e ≢ Error.NoMemory }
    ensures { OnOk result (out.new.items ≡ out.old.items ++ fault_text e) }
{
    match e {
        Error::Malformed(at) => put_fault_at(out, "malformed", at),
        Error::BadTable(at) => put_fault_at(out, "bad-table", at),
        Error::Unsupported(kind, at) => put_unsupported(out, kind, at),
        Error::BadIntrinsics(at) => put_fault_at(out, "bad-intrinsics", at),
        Error::UnknownIntrinsic(at) => put_fault_at(out, "unknown-intrinsic", at),
        Error::DefinedTwice(at) => put_fault_at(out, "defined-twice", at),
        Error::Invalid(at) => put_fault_at(out, "invalid", at),
        Error::BadType(at) => put_fault_at(out, "bad-type", at),
        Error::BadOptions(at) => put_fault_at(out, "bad-options", at),
        Error::TooManyInstances => put_fault(out, "too-many-instances"),
        Error::TooMany => put_fault(out, "too-many"),
        Error::NoMemory => unreachable!(),
    }
}

/// The text of a refusal: its kind and its place on one line. Want of memory has no text.
pub fn fault_text(alloc: Global, e: &Error) -> Result<Vec<u8>, NoMemory>
    requires has_text { e.now ≢ Error.NoMemory }
    ensures { IfOk result (λ text. text.items ≡ fault_text e.now) }
{
    let mut out = Vec::new(alloc);
    put_error(&mut out, *e)?;
    Ok(out)
}
