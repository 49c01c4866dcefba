//! What each refusal looks like, and the texts that depend on nothing.

use crate::support::holds;
use pc_text::{bad_form_text, fault_text, not_json_text, too_long_text, usage_text};
use pc_types::{Error, Place, Unsupported};
use std::alloc::Global;

const BODY: Place = Place::Payload {
    payload: 2,
    item: 3,
};

const ITEM: Place = Place::Reading {
    instance: 4,
    item: 1,
};

const EXPORT: Place = Place::Export(0);

/// A fault of each kind, with each kind of place, and what isn't supported: in a list of payloads, and of an import or
/// an export.
static FAULTS: [(Error, &str); 22] = [
    (
        Error::Malformed(BODY),
        "fault malformed at payload 2 item 3\n",
    ),
    (
        Error::BadTable(Place::Table(0)),
        "fault bad-table at table 0\n",
    ),
    (
        Error::BadIntrinsics(BODY),
        "fault bad-intrinsics at payload 2 item 3\n",
    ),
    (
        Error::UnknownIntrinsic(ITEM),
        "fault unknown-intrinsic at instance 4 item 1\n",
    ),
    (
        Error::DefinedTwice(BODY),
        "fault defined-twice at payload 2 item 3\n",
    ),
    (Error::Invalid(ITEM), "fault invalid at instance 4 item 1\n"),
    (
        Error::BadType(ITEM),
        "fault bad-type at instance 4 item 1\n",
    ),
    (
        Error::BadOptions(Place::Adapter(10)),
        "fault bad-options at adapter 10\n",
    ),
    (Error::TooManyInstances, "fault too-many-instances\n"),
    (Error::TooMany, "fault too-many\n"),
    (
        Error::Unsupported(Unsupported::Module, BODY),
        "fault unsupported module at payload 2 item 3\n",
    ),
    (
        Error::Unsupported(Unsupported::ThreadSpawn, BODY),
        "fault unsupported thread-spawn at payload 2 item 3\n",
    ),
    (
        Error::Unsupported(Unsupported::ContextGetType, BODY),
        "fault unsupported context-get-type at payload 2 item 3\n",
    ),
    (
        Error::Unsupported(Unsupported::ContextSetType, BODY),
        "fault unsupported context-set-type at payload 2 item 3\n",
    ),
    (
        Error::Unsupported(Unsupported::StreamForward, BODY),
        "fault unsupported stream-forward at payload 2 item 3\n",
    ),
    (
        Error::Unsupported(Unsupported::FutureForward, BODY),
        "fault unsupported future-forward at payload 2 item 3\n",
    ),
    (
        Error::Unsupported(Unsupported::StartSection, BODY),
        "fault unsupported start-section at payload 2 item 3\n",
    ),
    (
        Error::Unsupported(Unsupported::ComponentValue, BODY),
        "fault unsupported component-value at payload 2 item 3\n",
    ),
    (
        Error::Unsupported(Unsupported::ComponentImport, EXPORT),
        "fault unsupported component-import at export 0\n",
    ),
    (
        Error::Unsupported(Unsupported::ReexportedIntrinsic, EXPORT),
        "fault unsupported reexported-intrinsic at export 0\n",
    ),
    (
        Error::Unsupported(Unsupported::ReexportedIntrinsics, EXPORT),
        "fault unsupported reexported-intrinsics at export 0\n",
    ),
    (
        Error::Unsupported(Unsupported::ExportedComponent, EXPORT),
        "fault unsupported exported-component at export 0\n",
    ),
];

/// The texts that depend on nothing.
static TEXTS: [&str; 4] = [
    "fault not-json\n",
    "fault bad-form\n",
    "fault too-long\n",
    "usage: plan translate | plan context | plan facts | plan gen N\n",
];

/// Whether a refusal has this text. That there was no memory has none.
fn says(alloc: Global, e: &Error, want: &str) -> bool {
    match e {
        Error::NoMemory => false,
        _ => match fault_text(alloc, e) {
            Ok(text) => text.as_slice() == want.as_bytes(),
            Err(_) => false,
        },
    }
}

/// Whether the texts that depend on nothing are these.
fn texts_are(texts: &[&str]) -> bool {
    let all = [
        not_json_text(),
        bad_form_text(),
        too_long_text(),
        usage_text(),
    ];
    all.as_slice() == texts
}

#[test]
fn every_fault_and_place_and_unsupported_item_has_its_line(rt: HostRuntime) {
    for (e, want) in FAULTS.iter() {
        holds(&rt, want, says(rt.alloc(), e, want));
    }
    holds(&rt, "the texts that depend on nothing", texts_are(&TEXTS));
}
