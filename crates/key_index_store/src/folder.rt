//! What a store's program does with the names of files.
ghost use Rattle.std.specs.Prelude.{◌≡◌, Bool, List, Some, None, true, false, IfOk, OnErr, OnOk, is_ok};
ghost use Rattle.key_index_store.specs.History.{Noted};
ghost use Rattle.key_index_store.specs.Names.{asked, is_made, known, noted};
ghost use Rattle.key_index_store.specs.declared.folder.NameCall.TheVariants.{Given, Made, Saw, Synced};

/// Which file it is, whatever names it has: the numbers of its device and of the file there.
#[derive(Clone, Copy, Debug, PartialEq, Eq)]
pub struct Identity {
    pub device: u64,
    pub number: u64,
}

/// A call at a name, which stands beside it.
#[derive(Clone, Copy, Debug)]
pub enum NameCall {
    /// This file was seen at the name, or none.
    Saw(Option<Identity>),
    /// The name was made, and this file with it.
    Made(Identity),
    /// The name was given to this file, or removed; where the call failed, that may have been done all the same.
    Given(Option<Identity>, bool),
    /// What stands at the name is on the disk.
    Synced,
}

/// Folders, whose names may change meanwhile by others' calls: what is known of a name is what was last seen or done there (`known`).
/// A name is removed only where it was made here. A file is replaced only where the call before has seen that it is still the one that is
/// to be replaced.
pub trait Folder {
    type File: Drop;

    type Error: Drop;

    /// The calls so far, the newest first.
    ghost calls: { Self → List Noted };

    /// Opens the file at a name, for reading, and where that is asked for writing.
    fn open(&mut self, name: &str, writes: bool) -> Result<(Self::File, Identity), Self::Error>
        ensures seen { IfOk result (λ r. calls self.new ≡ noted (Saw (Some r.1)) name.now (calls self.old)) }
        ensures failed { OnErr result (calls self.new ≡ calls self.old) };

    /// Makes a file and its name, where there is no file.
    fn make(&mut self, name: &str) -> Result<(Self::File, Identity), Self::Error>
        ensures made { IfOk result (λ r. calls self.new ≡ noted (Made r.1) name.now (calls self.old)) }
        ensures failed { OnErr result (calls self.new ≡ calls self.old) };

    /// Which file is at a name.
    fn look(&mut self, name: &str) -> Result<Option<Identity>, Self::Error>
        ensures seen { IfOk result (λ file. calls self.new ≡ noted (Saw file) name.now (calls self.old)) }
        ensures failed { OnErr result (calls self.new ≡ calls self.old) };

    /// Gives a file that was made here a second name, where there is no file.
    fn link(&mut self, from: &str, to: &str, file: Identity) -> Result<(), Self::Error>
        requires { known (calls self.old) from.now ≡ Some (Some file) }
        ensures { calls self.new ≡ noted (Given (Some file) (is_ok result)) to.now (calls self.old) };

    /// Gives a file that was made here the name of another one, which the call before has seen there.
    fn rename(
        &mut self,
        from: &str,
        to: &str,
        file: Identity,
        over: Identity,
    ) -> Result<(), Self::Error>
        requires made { is_made (calls self.old) from.now ≡ true }
        requires known { known (calls self.old) from.now ≡ Some (Some file) }
        requires asked { asked (calls self.old) to.now ≡ Some (Some over) }
        ensures renamed { OnOk result (calls self.new
            ≡ noted (Given None true) from.now (noted (Given (Some file) true) to.now (calls self.old))) }
        ensures failed { OnErr result ((done : Bool) × (calls self.new
            ≡ noted (Given None false) from.now (noted (Given (Some file) done) to.now (calls self.old)))) };

    /// Removes a name that was made here.
    fn remove(&mut self, name: &str) -> Result<(), Self::Error>
        requires { is_made (calls self.old) name.now ≡ true }
        ensures { calls self.new ≡ noted (Given None (is_ok result)) name.now (calls self.old) };

    /// Forces what stands at a name to the disk: the folder, not the file's bytes.
    fn sync(&mut self, name: &str) -> Result<(), Self::Error>
        ensures synced { IfOk result (λ _. calls self.new ≡ noted Synced name.now (calls self.old)) }
        ensures failed { OnErr result (calls self.new ≡ calls self.old) };
}
