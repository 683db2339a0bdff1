//! The files of stores: how they are opened and locked.

use crate::failure::{Failure, Refusal, at, tell};
use key_index_store::file_device::FileDevice;
use key_index_store::file_folder::{FileFolder, folder_of};
use key_index_store::folder::Folder;
use key_index_store::headed::{Headed, OpenError};
use key_index_store::place::{NameFault, Place};
use std::fs::{File, Metadata, OpenOptions, TryLockError};
use std::io::ErrorKind;
use std::os::fd::AsRawFd;
use std::path::Path;
use std::{fs, io};

/// What a store stands on.
pub type Disk = Headed<FileDevice>;

/// Where nothing is read or written.
const NULL: &str = "/dev/null";

/// What the system limits of this process.
const LIMITS: &str = "/proc/self/limits";

/// A file at the number of a standard stream, if one is closed.
fn null<'a>(rt: &HostRuntime) -> Result<File, Failure<'a>> {
    let mut how = OpenOptions::new();
    at(NULL, how.read(true).write(true).open(rt, NULL))
}

/// Files for the standard streams that are closed. Without them, the file of a store could get the number of one.
pub fn fill_streams<'a>(rt: &HostRuntime) -> Result<[File; 3], Failure<'a>> {
    let files = [null(rt)?, null(rt)?, null(rt)?];
    for file in &files {
        if file.as_raw_fd() < 2 {
            return Err(Failure::Closed);
        }
    }
    Ok(files)
}

/// Locks a file that was opened at a path, for this process alone or for all that read it.
pub fn lock<'a>(file: &File, path: &'a str, is_shared: bool) -> Result<(), Failure<'a>> {
    let locked = if is_shared {
        file.try_lock_shared()
    } else {
        file.try_lock()
    };
    match locked {
        Ok(()) => Ok(()),
        Err(TryLockError::WouldBlock) => Err(Failure::Refused(Refusal::For("busy"), path)),
        Err(TryLockError::Error(error)) => Err(Failure::CannotOpen(path, error)),
    }
}

/// How many bytes a file may have that this process writes, where the system says it.
fn size_limit(rt: &HostRuntime) -> u64 {
    let limits = fs::read_to_string(rt, LIMITS).ok();
    let limits = limits.as_ref().map_or("", |limits| limits.as_str());
    let mut behind = limits.split("Max file size ").skip(1);
    let mut words = behind.next().unwrap_or("").split_ascii_whitespace();
    words.next().unwrap_or("").parse().unwrap_or(u64::MAX)
}

/// What stands behind the header of a file.
pub fn headed<'a>(rt: &HostRuntime, file: File, path: &'a str) -> Result<Disk, Failure<'a>> {
    match Headed::open(rt.alloc(), FileDevice::new(file, size_limit(rt))) {
        Ok(disk) => Ok(disk),
        Err(refused) => {
            let reason = match refused.reason {
                OpenError::ReadFailed => "read",
                OpenError::NoStore => return Err(Failure::NoStore(path)),
                OpenError::OlderVersion => "older version",
                OpenError::NewerVersion => "newer version",
            };
            Err(Failure::Refused(Refusal::For(reason), path))
        }
    }
}

/// Refuses what is no regular file, by what the system says of it.
pub fn check_regular(path: &str, metadata: io::Result<Metadata>) -> Result<(), Failure<'_>> {
    if at(path, metadata)?.is_file() {
        return Ok(());
    }
    Err(Failure::CannotOpen(path, io::Error::other("not a regular file")))
}

/// A file of a store.
#[derive(Drop)]
pub struct Opened<'a> {
    /// What stands behind its header.
    pub disk: Disk,
    /// Where its name is.
    pub place: Place<FileFolder<'a>>,
    /// It may not be written.
    pub is_read_only: bool,
}

/// The name that a path leads to, by links that end there, or by one that leads to a file that isn't there.
fn real_name(rt: &HostRuntime, path: &str) -> io::Result<String> {
    match fs::canonicalize(rt, path) {
        Err(error) if error.kind() == ErrorKind::NotFound => {}
        found => return Ok(found?.into_os_string()),
    }
    let Ok(target) = fs::read_link(rt, path) else {
        return Ok(String::from_str(rt.alloc(), path)?);
    };
    match Path::new(path).parent() {
        Some(folder) => Ok(folder.join(rt.alloc(), target)?.into_os_string()),
        None => Ok(target.into_os_string()),
    }
}

/// The file at a path, locked. Unless it is only read, it is made where there is none. Without its header it has to be only read.
pub fn open_store<'a>(
    rt: &'a HostRuntime,
    path: &'a str,
    reads_only: bool,
    is_headless: bool,
) -> Result<Opened<'a>, Failure<'a>> {
    let name = at(path, real_name(rt, path))?;
    let mut folder = FileFolder::new(rt);
    let mut is_read_only = reads_only;
    let opened = match folder.open(name.as_str(), !reads_only) {
        Err(error) => match error.kind() {
            ErrorKind::NotFound if !reads_only => folder.make(name.as_str()),
            ErrorKind::PermissionDenied | ErrorKind::ReadOnlyFilesystem => {
                is_read_only = true;
                folder.open(name.as_str(), false)
            }
            _ => Err(error),
        },
        opened => opened,
    };
    let (file, identity) = at(path, opened)?;
    check_regular(path, file.metadata())?;
    lock(&file, path, is_read_only)?;
    let mut place = Place::new(folder, name, identity);
    // Another file may be there by now.
    match place.is_there() {
        Ok(true) => {}
        Err(NameFault::Failed(error)) => return Err(Failure::CannotOpen(path, error)),
        _ => return Err(Failure::Refused(Refusal::For("busy"), path)),
    }
    let disk = if is_headless {
        Headed::headless(rt.alloc(), FileDevice::new(file, size_limit(rt)))
    } else {
        headed(rt, file, path)?
    };
    Ok(Opened {
        disk,
        place,
        is_read_only,
    })
}

/// Whether a name is one of the fresh files beside a file, by what follows the file's own name in it.
fn is_fresh(behind: &str) -> bool {
    match behind.as_bytes() {
        [b'.', number @ .., b'.', b'p', b'a', b'r', b't'] => {
            number.len() == 16 && number.iter().all(|byte| byte.is_ascii_hexdigit())
        }
        _ => false,
    }
}

/// Tells which fresh files an interrupted command left beside a file. None is removed.
pub fn tell_left_over(rt: &HostRuntime, name: &str) {
    let path = Path::new(name);
    let Some(file) = path.file_name() else {
        return;
    };
    let Ok(entries) = fs::read_dir(rt, folder_of(name)) else {
        return;
    };
    for entry in entries {
        let Ok(entry) = entry else {
            return;
        };
        if entry.file_name().strip_prefix(file).is_some_and(is_fresh) {
            tell(rt, format_args!("left over: {}", entry.path().as_str()));
        }
    }
}
