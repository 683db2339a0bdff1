//! What a log needs of a file: its length, reads and writes at a place, a new length, and that what was written is forced to the disk.
ghost use Rattle.std.specs.Prelude.{◌≡◌, ◌≤◌, ◌+◌, List, length, take, drop, Some, IfOk, OnOk, OnErr, Option, ℕ, ◌++◌};
ghost use Rattle.key_index_store.specs.Device.{Adds, AddsAtMost, Changes, Gives, IsBegun, KeepsDamage, NoMore, Sees, Stays};

/// A call of a device that failed.
#[derive(Clone, Copy, Debug, PartialEq, Eq)]
pub struct Failed;

/// A device. Of a file no contract can say what it gives back. So what its calls do is said of the bytes that are `seen`: the content of
/// the device, while each of its answers was that of a device which has that content; none once an answer was not. That the file gives
/// back what it was given is the one premise of all that is said of a store over it; but for `read_record`, which may be given a damaged
/// record.
pub trait Device {
    /// Its bytes, while it has given no wrong answer.
    ghost seen: { Self → Option (List ℕ) };

    /// What a crash at this moment may leave: some bytes; or `None`, which stands for any, as of a file of which nothing was synced yet.
    ghost may_leave: { Self → Option (List ℕ) → Type 0 };

    /// The places of the records of which `read_record` was given other bytes than there are.
    ghost damaged: { Self → ℕ → Type 0 };

    /// How many bytes there are.
    fn len(&mut self) -> Result<u64, Failed>
        ensures told { Sees (seen self.new) (λ bytes. IfOk result (λ n. n ≡ length bytes)) }
        ensures stays { Stays (seen self.old) (seen self.new) }
        ensures damage { KeepsDamage (damaged self.old) (damaged self.new) }
        ensures crash { NoMore (may_leave self.old) (may_leave self.new) };

    /// Fills a buffer with the bytes from a position on. It fails where there are fewer.
    fn read_at(&mut self, position: u64, buffer: &mut [u8]) -> Result<(), Failed>
        ensures told { Sees (seen self.new) (λ bytes. OnOk result
            (buffer.new ≡ take (length buffer.old) (drop position bytes))) }
        ensures stays { Stays (seen self.old) (seen self.new) }
        ensures damage { KeepsDamage (damaged self.old) (damaged self.new) }
        ensures crash { NoMore (may_leave self.old) (may_leave self.new) };

    /// Fills a buffer with the bytes from the front of the record on that stands at a place of a log, which begins at a position. It fails
    /// where there are fewer. What it gives of a damaged record is no wrong answer, while none of its parts has a checksum but those that
    /// are the record's own: so damage hides this record, and no other.
    fn read_record(&mut self, log: u64, place: u64, buffer: &mut [u8]) -> Result<(), Failed>
        ensures told { Sees (seen self.new) (λ bytes. OnOk result (Gives (damaged self.new) place
            (take (length buffer.old) (drop (log + place) bytes)) buffer.new)) }
        ensures stays { Stays (seen self.old) (seen self.new) }
        ensures damage { KeepsDamage (damaged self.old) (damaged self.new) }
        ensures crash { NoMore (may_leave self.old) (may_leave self.new) };

    /// Writes bytes at a position. What it does is said where that is the end. Where it fails, it has written fewer than all of them.
    fn write_at(&mut self, position: u64, bytes: &[u8]) -> Result<(), Failed>
        ensures written { OnOk result (Changes (seen self.old) (seen self.new) (λ old new.
            position ≡ length old → new ≡ old ++ bytes.now)) }
        ensures failed { OnErr result (Changes (seen self.old) (seen self.new) (λ old new.
            position ≡ length old → IsBegun bytes.now old new)) }
        ensures crash { (old : List ℕ) → seen self.old ≡ Some old → position ≡ length old
            → AddsAtMost old bytes.now (may_leave self.old) (may_leave self.new) };

    /// Cuts the bytes behind the first `len` off.
    fn set_len(&mut self, len: u64) -> Result<(), Failed>
        ensures cut { OnOk result (Changes (seen self.old) (seen self.new) (λ old new.
            len ≤ length old → new ≡ take len old)) }
        ensures failed { OnErr result (Stays (seen self.old) (seen self.new)) }
        ensures crash { (old : List ℕ) → seen self.old ≡ Some old → len ≤ length old
            → Adds (λ c. c ≡ take len old) (may_leave self.old) (may_leave self.new) };

    /// Forces what was written to the disk: a crash behind it leaves these bytes.
    fn sync(&mut self) -> Result<(), Failed>
        ensures durable { OnOk result (Sees (seen self.new) (λ bytes. NoMore (λ c. c ≡ Some bytes) (may_leave self.new))) }
        ensures same { seen self.new ≡ seen self.old }
        ensures crash { Sees (seen self.old) (λ bytes. Adds (λ c. c ≡ bytes) (may_leave self.old) (may_leave self.new)) };
}
