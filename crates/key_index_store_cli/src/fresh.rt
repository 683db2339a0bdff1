//! Fresh files of stores, which are written beside the names that they take once they are whole.
ghost use Rattle.std.specs.Prelude.{IfOk};
ghost use Rattle.key_index_store.specs.Places.{IsFresh};

use crate::failure::{Failure, Refusal, at, needed, tell};
use crate::file::{Disk, headed, lock};
use key_index_store::file_folder::FileFolder;
use key_index_store::folder::Identity;
use key_index_store::place::{Fresh, NameFault, Place};
use std::fs::{File, OpenFile, Permissions};
use std::io::ErrorKind;
use std::os::unix::fs::PermissionsExt;
use std::random::RandomSource;
use std::{fs, io};

/// The permissions to read and to write of a file's owner.
const OWNER: u32 = 0o600;

/// The empty file at a path, locked, so that nobody opens it meanwhile; or none.
fn empty_file<'a>(
    place: &mut Place<FileFolder<'_>>,
    path: &'a str,
) -> Result<Option<(File, Identity)>, Failure<'a>> {
    let (file, identity) = match place.open(path, true) {
        Ok(opened) => opened,
        Err(error) if error.kind() == ErrorKind::NotFound => return Ok(None),
        Err(error) => return Err(Failure::CannotOpen(path, error)),
    };
    let locked = lock(&file, path, false);
    let metadata = at(path, file.metadata())?;
    if !metadata.is_file() || metadata.len() != 0 {
        return Err(Failure::Refused(Refusal::For("not empty"), path));
    }
    locked?;
    Ok(Some((file, identity)))
}

/// What stands behind the header of a new file, which gets the permissions of another one, and which its owner may write.
fn disk_of<'a>(
    rt: &HostRuntime,
    file: File,
    path: &'a str,
    from: &str,
) -> Result<Disk, Failure<'a>> {
    lock(&file, path, false)?;
    let mode = match fs::metadata(rt, from) {
        Ok(metadata) => metadata.permissions().mode(),
        // Where that one has lost its name, its owner's alone.
        Err(_) => 0,
    };
    let permissions = Permissions::from_mode(mode | OWNER);
    if permissions != at(path, file.metadata())?.permissions() {
        at(path, OpenFile::set_permissions(&file, permissions))?;
    }
    headed(rt, file, path)
}

/// A fresh file that takes a name, what stands behind its header, and the empty file that it replaces, if there is one.
pub type Made = (Fresh, Disk, Option<File>);

/// A fresh file that takes the name of a path, or where none is given that of a place's own file.
pub fn make(
    rt: &HostRuntime,
    place: &mut Place<FileFolder<'_>>,
    path: Option<&str>,
) -> Result<Made, Refusal>
    ensures { IfOk result (λ made. IsFresh place.new.calls made.0) }
{
    let alloc = rt.alloc();
    let from = String::from_str(alloc, place.name())?;
    let empty = match path {
        Some(path) => needed(rt, empty_file(place, path))?,
        None => None,
    };
    let over = match (&empty, path) {
        (Some((_, identity)), _) => Some(*identity),
        (None, Some(_)) => None,
        (None, None) => Some(place.file()),
    };
    let target = String::from_str(alloc, path.unwrap_or(from.as_str()))?;
    let mut seed = [0; 8];
    if rt.fill_bytes(&mut seed).is_err() {
        return Err(Refusal::For("open"));
    }
    let (fresh, file) = match place.make(alloc, target, over, u64::from_le_bytes(seed)) {
        Ok(made) => made,
        Err(NameFault::Failed(error)) => {
            let path = path.unwrap_or(from.as_str());
            return Err(Failure::CannotOpen(path, error).into_refusal(rt));
        }
        Err(fault) => return Err(refusal_of(rt, from.as_str(), fault)),
    };
    match disk_of(rt, file, fresh.part.as_str(), from.as_str()) {
        Ok(disk) => Ok((fresh, disk, empty.map(|(file, _)| file))),
        Err(failure) => {
            let refusal = failure.into_refusal(rt);
            place.give_up(&fresh);
            Err(refusal)
        }
    }
}

/// Why a command is refused that needed the name of a file.
pub fn refusal_of(rt: &HostRuntime, name: &str, fault: NameFault<io::Error>) -> Refusal {
    match fault {
        NameFault::Gone => Refusal::For("gone"),
        NameFault::Store(fault) => Refusal::from(fault),
        NameFault::NotSynced(error) => {
            tell(rt, Failure::CannotSync(name, error));
            Refusal::For("sync")
        }
        NameFault::Failed(error) => match error.kind() {
            ErrorKind::AlreadyExists => Refusal::For("not empty"),
            ErrorKind::OutOfMemory => Refusal::For("memory"),
            _ => {
                tell(rt, Failure::CannotOpen(name, error));
                Refusal::For("write")
            }
        },
    }
}
