//! The structure of a payload list: where a body begins and ends.

ghost use Rattle.std.specs.Prelude.{◌≡◌};
ghost use Rattle.pc_parsed.specs.Structure.{is_opening, nesting, structure_fault, version_fault, version_of};

use crate::fault::StaticFault;
use crate::payload::{Encoding, Payload};
use pc_types::Unsupported;

/// Whether a nested body begins behind a payload.
pub(crate) fn opens(payload: &Payload) -> bool
    ensures { result ≡ is_opening (nesting payload.now) }
{
    matches!(payload, Payload::ComponentSection)
}

fn version_of(payload: &Payload) -> Option<Encoding>
    ensures { result ≡ version_of payload.now }
{
    match payload {
        Payload::Version { encoding } => Some(*encoding),
        _ => None,
    }
}

fn version_fault(due: bool, version: Option<Encoding>) -> Option<StaticFault>
    ensures { result ≡ version_fault due version }
{
    match (due, version) {
        (true, Some(Encoding::Component)) | (false, None) => None,
        (true, Some(Encoding::Module)) => Some(StaticFault::Unsupported(Unsupported::Module)),
        (true, None) | (false, Some(_)) => Some(StaticFault::Malformed),
    }
}

/// What is wrong with the place of a payload, where so many bodies are open and a version may be due.
pub(crate) fn structure_fault(
    open_count: usize,
    due: bool,
    payload: &Payload,
) -> Option<StaticFault>
    ensures { result ≡ structure_fault open_count due payload.now }
{
    if open_count == 0 {
        return Some(StaticFault::Malformed);
    }
    version_fault(due, version_of(payload))
}
