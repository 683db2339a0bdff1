//! Folders in memory.
ghost use Rattle.std.specs.Prelude.{◌≡◌, ◌++◌, ◌∷◌, [], ℕ, List, OnErr, OnOk, is_ok};
ghost use Rattle.key_index_store.specs.MemoryFolder.{IsMemory, file_in, named_in};
ghost use Rattle.key_index_store.specs.Names.{may_be, noted};
ghost use Rattle.key_index_store.specs.declared.folder.NameCall.TheVariants.{Given};

use crate::device::Failed;
use crate::folder::{Folder, Identity, NameCall};
use crate::history::{History, noted};
use std::alloc::Global;
use std::marker::Model;

/// Folders in memory, which have no names at first. A crash loses any last part of what was done at names since the last sync.
#[derive(Drop)]
pub struct MemoryFolder {
    alloc: Global,
    /// What each name was given, the newest last.
    names: Vec<(Vec<u8>, Option<Identity>)>,
    /// How many of them a crash keeps.
    kept: usize,
    /// The number of the next file.
    next: u64,
    history: History,
}

impl Model for MemoryFolder {
    ghost use Rattle.key_index_store.specs.MemoryFolder.{IsMemory, Names, named_in};

    ghost Value = { Names };

    ghost view = { λ f. record { calls = f.history.calls; given = named_in f.names.items; kept = f.kept } };

    ghost invariant = { λ f. IsMemory
        (record { calls = f.history.calls; given = named_in f.names.items; kept = f.kept }) };
}

/// Gives a name to a file, or to none.
fn set(
    alloc: Global,
    names: &mut Vec<(Vec<u8>, Option<Identity>)>,
    name: &str,
    file: Option<Identity>,
) -> Result<(), Failed>
    ensures done { OnOk result (named_in names.new.items ≡ named_in names.old.items ++ (name.now, file) ∷ []) }
    ensures failed { OnErr result (names.new.items ≡ names.old.items) }
{
    let at = Vec::from_slice(alloc, name.as_bytes()).map_err(|_| Failed)?;
    names.push((at, file)).map_err(|_| Failed)
}

/// Gives a name to a file, or to none, and notes that.
#[tactic(auto, using(crate::proofs::NameLemmas::memory_given, crate::proofs::NameLemmas::memory_not_done))]
fn give(
    alloc: Global,
    names: &mut Vec<(Vec<u8>, Option<Identity>)>,
    history: &mut History,
    name: &str,
    file: Option<Identity>,
) -> Result<(), Failed>
    ensures kept { (kept : ℕ)
        → IsMemory (record { calls = history.old.calls; given = named_in names.old.items; kept = kept })
        → IsMemory (record { calls = history.new.calls; given = named_in names.new.items; kept = kept }) }
    ensures noted { history.new.calls ≡ noted (Given file (is_ok result)) name.now history.old.calls }
{
    let given = set(alloc, names, name, file);
    *history = noted(history, NameCall::Given(file, given.is_ok()), name);
    given
}

impl MemoryFolder {
    /// Folders without names.
    pub fn new(alloc: Global) -> MemoryFolder
        ensures { result.calls ≡ [] }
    {
        MemoryFolder {
            alloc,
            names: Vec::new(alloc),
            kept: 0,
            next: 0,
            history: History::new(),
        }
    }

    /// The file at a name.
    #[tactic(auto, using(crate::proofs::NameLemmas::folded))]
    pub fn file(&self, name: &str) -> Option<Identity>
        ensures { result ≡ file_in self.now name.now }
    {
        self.names.iter().fold(None, |found, (at, file)| {
            if at.as_slice() == name.as_bytes() {
                *file
            } else {
                found
            }
        })
    }

    /// What a crash leaves that loses the last `lost` of what was done at names, but nothing that is synced.
    pub fn crash(mut self, lost: usize) -> MemoryFolder
        ensures { (name : List ℕ) → may_be self.calls name (file_in result name) }
    {
        let left = self.names.len().saturating_sub(lost);
        self.names.truncate(left.max(self.kept));
        self.kept = self.names.len();
        self.history = History::new();
        self
    }
}

impl Folder for MemoryFolder {
    type File = ();

    type Error = Failed;

    ghost calls = { λ f. f.calls };

    #[tactic(auto, using(crate::proofs::NameLemmas::memory_asked))]
    fn open(&mut self, name: &str, _writes: bool) -> Result<((), Identity), Failed> {
        let file = self.file(name).ok_or(Failed)?;
        self.history = noted(&self.history, NameCall::Saw(Some(file)), name);
        Ok(((), file))
    }

    #[tactic(auto, using(crate::proofs::NameLemmas::memory_made))]
    fn make(&mut self, name: &str) -> Result<((), Identity), Failed> {
        let file = Identity {
            device: 0,
            number: self.next,
        };
        if self.file(name).is_some() {
            return Err(Failed);
        }
        set(self.alloc, &mut self.names, name, Some(file))?;
        self.next = self.next.wrapping_add(1);
        self.history = noted(&self.history, NameCall::Made(file), name);
        Ok(((), file))
    }

    #[tactic(auto, using(crate::proofs::NameLemmas::memory_asked))]
    fn look(&mut self, name: &str) -> Result<Option<Identity>, Failed> {
        let file = self.file(name);
        self.history = noted(&self.history, NameCall::Saw(file), name);
        Ok(file)
    }

    #[tactic(auto, using(crate::proofs::NameLemmas::memory_not_done))]
    fn link(&mut self, _from: &str, to: &str, file: Identity) -> Result<(), Failed> {
        if self.file(to).is_some() {
            self.history = noted(&self.history, NameCall::Given(Some(file), false), to);
            return Err(Failed);
        }
        give(
            self.alloc,
            &mut self.names,
            &mut self.history,
            to,
            Some(file),
        )
    }

    #[tactic(auto, using(crate::proofs::NameLemmas::memory_not_done))]
    fn rename(
        &mut self,
        from: &str,
        to: &str,
        file: Identity,
        _over: Identity,
    ) -> Result<(), Failed> {
        let given = give(
            self.alloc,
            &mut self.names,
            &mut self.history,
            to,
            Some(file),
        );
        if given.is_ok() {
            return give(self.alloc, &mut self.names, &mut self.history, from, None);
        }
        self.history = noted(&self.history, NameCall::Given(None, false), from);
        given
    }

    fn remove(&mut self, name: &str) -> Result<(), Failed> {
        give(self.alloc, &mut self.names, &mut self.history, name, None)
    }

    #[tactic(auto, using(crate::proofs::NameLemmas::memory_synced))]
    fn sync(&mut self, name: &str) -> Result<(), Failed> {
        self.kept = self.names.len();
        self.history = noted(&self.history, NameCall::Synced, name);
        Ok(())
    }
}
