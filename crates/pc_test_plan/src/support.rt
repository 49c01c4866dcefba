//! What the tests share.

use pc_dfg::PushError;
use pc_entity::EntityRef;
use pc_types::ComponentExternData;
use std::process::Abort;

/// A number that no entry has.
pub(crate) const NONE: u32 = 4294967295;

/// Data of an import or an export that says nothing.
pub(crate) const NO_DATA: ComponentExternData = ComponentExternData {
    implements: None,
    external_id: None,
};

/// That something holds. All assertions stand here, since each is proved anew where it stands.
pub(crate) fn holds(rt: &impl Abort, what: &str, holds: bool) {
    assert!(rt; holds, "{what}");
}

/// The number that an entry got, or none where it was refused.
pub(crate) fn number<K: EntityRef>(added: Result<K, PushError>) -> u32 {
    match added {
        Ok(key) => key.as_u32(),
        Err(_) => NONE,
    }
}
