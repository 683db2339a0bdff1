//! The folders of the operating system.
ghost use Rattle.std.specs.Prelude.{◌≡◌, []};

use crate::folder::{Folder, Identity, NameCall};
use crate::history::{History, noted};
use std::fs::{File, Metadata, OpenOptions};
use std::io::ErrorKind;
use std::os::unix::fs::MetadataExt;
use std::path::Path;
use std::{fs, io};

/// Folders of the operating system. A call that fails is taken as one that did nothing, but for those that give or remove a name, which
/// may have been done. What others do at a name is known once it is seen.
#[derive(Drop)]
pub struct FileFolder<'a> {
    rt: &'a HostRuntime,
    history: History,
}

fn identity_of(metadata: &Metadata) -> Identity {
    Identity {
        device: metadata.dev(),
        number: metadata.ino(),
    }
}

/// The folder in which a name stands.
pub fn folder_of(name: &str) -> &str {
    match Path::new(name).parent() {
        Some(folder) if folder.as_str() != "" => folder.as_str(),
        _ => ".",
    }
}

impl<'a> FileFolder<'a> {
    /// The folders of a system, of whose names nothing is known.
    pub fn new(rt: &'a HostRuntime) -> FileFolder<'a>
        ensures { result.history.calls ≡ [] }
    {
        FileFolder {
            rt,
            history: History::new(),
        }
    }
}

impl Folder for FileFolder<'_> {
    type File = File;

    type Error = io::Error;

    ghost calls = { λ f. f.history.calls };

    fn open(&mut self, name: &str, writes: bool) -> io::Result<(File, Identity)> {
        let mut how = OpenOptions::new();
        how.read(true).write(writes);
        let file = how.open(self.rt, name)?;
        let identity = identity_of(&file.metadata()?);
        self.history = noted(&self.history, NameCall::Saw(Some(identity)), name);
        Ok((file, identity))
    }

    fn make(&mut self, name: &str) -> io::Result<(File, Identity)> {
        let mut how = OpenOptions::new();
        how.read(true).write(true).create_new(true);
        let file = how.open(self.rt, name)?;
        let identity = identity_of(&file.metadata()?);
        self.history = noted(&self.history, NameCall::Made(identity), name);
        Ok((file, identity))
    }

    fn look(&mut self, name: &str) -> io::Result<Option<Identity>> {
        let seen = match fs::metadata(self.rt, name) {
            Ok(metadata) => Some(identity_of(&metadata)),
            Err(error) if error.kind() == ErrorKind::NotFound => None,
            Err(error) => return Err(error),
        };
        self.history = noted(&self.history, NameCall::Saw(seen), name);
        Ok(seen)
    }

    fn link(&mut self, from: &str, to: &str, file: Identity) -> io::Result<()> {
        let linked = fs::hard_link(self.rt, from, to);
        self.history = noted(
            &self.history,
            NameCall::Given(Some(file), linked.is_ok()),
            to,
        );
        linked
    }

    fn rename(&mut self, from: &str, to: &str, file: Identity, _over: Identity) -> io::Result<()> {
        let renamed = fs::rename(self.rt, from, to);
        self.history = noted(
            &self.history,
            NameCall::Given(Some(file), renamed.is_ok()),
            to,
        );
        self.history = noted(&self.history, NameCall::Given(None, renamed.is_ok()), from);
        renamed
    }

    fn remove(&mut self, name: &str) -> io::Result<()> {
        let removed = fs::remove_file(self.rt, name);
        self.history = noted(&self.history, NameCall::Given(None, removed.is_ok()), name);
        removed
    }

    fn sync(&mut self, name: &str) -> io::Result<()> {
        File::open(self.rt, folder_of(name))?.sync_all()?;
        self.history = noted(&self.history, NameCall::Synced, name);
        Ok(())
    }
}
