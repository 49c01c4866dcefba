//! The track of a name: what all names that are compatible with it have in common.
//!
//! The track is written anew from the version's numbers. `semver` reads no number with a leading zero, so this is the
//! name cut before a dot of its version, as `laws::track_is_cut` says.

ghost use Rattle.std.specs.Prelude.{◌≡◌, IfOk};
ghost use Rattle.std.specs.Option.{option_map};
ghost use Rattle.std.specs.Result.{result_ok};
ghost use Rattle.std.specs.String.{string_bytes};
ghost use Rattle.pc_names.specs.Track.{track_of, shared_numbers};
ghost use Rattle.semver.specs.Identifiers.{parts_of};
ghost use Rattle.semver.specs.Parse.{version_parts};

use pc_entity::NoMemory;
use semver::Version;
use std::alloc::{AllocError, Global};

/// The track of a name, and the name's version on it.
///
/// What follows the first `@` of a name may be a version. Versions that `semver` takes for compatible share a track:
/// those with one major number, or with one minor number where the major number is 0. A name without a version, a
/// pre-release and `0.0.x` have no track, since nothing is compatible with them.
pub fn alternate_lookup_key(
    alloc: Global,
    name: &str,
) -> Result<Option<(String, Version)>, NoMemory>
    ensures { IfOk result (λ found. option_map (λ t. (string_bytes t.0, parts_of t.1)) found ≡ track_of name.now) }
{
    let Some((plain, text)) = name.split_once('@') else {
        return Ok(None);
    };
    let Some(version) = read_version(alloc, text)? else {
        return Ok(None);
    };
    match shared(alloc, &version)? {
        Some(numbers) => {
            let track = format!(in alloc; "{plain}@{numbers}")?;
            Ok(Some((track, version)))
        }
        None => Ok(None),
    }
}

/// The version that `semver` reads from `text`, or none where it reads none. Only being out of memory is an error.
fn read_version(alloc: Global, text: &str) -> Result<Option<Version>, NoMemory>
    ensures { IfOk result (λ found. option_map parts_of found ≡ result_ok (version_parts text.now)) }
{
    match Version::parse(alloc, text) {
        Ok(version) => Ok(Some(version)),
        Err(error) => {
            if error == semver::Error::from(AllocError) {
                Err(NoMemory)
            } else {
                Ok(None)
            }
        }
    }
}

/// The numbers that a version shares with those that it is compatible with.
fn shared(alloc: Global, version: &Version) -> Result<Option<String>, NoMemory>
    ensures { IfOk result (λ found. option_map string_bytes found ≡ shared_numbers (parts_of version.now)) }
{
    if !version.pre.is_empty() {
        Ok(None)
    } else if version.major != 0 {
        Ok(Some(format!(in alloc; "{}", version.major)?))
    } else if version.minor != 0 {
        Ok(Some(format!(in alloc; "0.{}", version.minor)?))
    } else {
        Ok(None)
    }
}
