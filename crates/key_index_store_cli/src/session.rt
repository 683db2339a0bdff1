//! A session: commands, and a line that answers each.

use crate::answer::{Answer, Answered, Bytes, Entry, Line};
use crate::counter::Counter;
use crate::failure::{Refusal, tell};
use crate::file::Disk;
use crate::fitting::Fitting;
use crate::fresh::{make, refusal_of};
use crate::help::COMMANDS;
use crate::line::{Command, Wrong, parse};
use crate::order::Order;
use key_index_flat::index::Factory;
use key_index_store::file_folder::FileFolder;
use key_index_store::place::Place;
use key_index_store::salvage::{LeftOut, Salvaged};
use key_index_store::store::{Fault, Store, Tail};
use std::io;
use std::io::{BufRead, BufReader, BufWriter, Stdin, Stdout, Write};

/// How many bytes of a file stand in front of its records.
const HEADER: u64 = 16;

/// The answer to what was done.
pub const DONE: Answer = Answer::Word("ok");

/// Where commands come from.
pub type Input = BufReader<Stdin>;

/// Where answers go.
pub type Output = BufWriter<Stdout>;

/// What the flags ask.
#[derive(Clone, Copy)]
pub struct Options {
    /// Answers have texts.
    pub is_text: bool,
    /// Each change is forced to the disk before it is answered.
    pub is_durable: bool,
    /// The file is not written.
    pub reads_only: bool,
    /// A line that is no command doesn't end the session.
    pub keeps_going: bool,
    /// The file is only read, and its first bytes are taken for a header, whatever they are.
    pub is_headless: bool,
}

/// What a session is besides its store.
#[derive(Drop)]
pub struct Context<'a> {
    /// The system.
    pub rt: &'a HostRuntime,
    /// What the flags ask.
    pub options: Options,
    /// Where the file has its name.
    pub place: Place<FileFolder<'a>>,
    /// The file may not be written.
    pub is_read_only: bool,
    /// The disk may not have what was written.
    pub is_changed: bool,
    /// No line was refused, and nothing failed.
    pub is_well: bool,
}

impl Context<'_> {
    /// Refuses to change a file that may only be read.
    pub fn check_writable(&self) -> Result<(), Refusal> {
        if self.is_read_only {
            return Err(Refusal::For("read-only"));
        }
        Ok(())
    }

    /// Refuses where the file has lost its name, and forces the name to the disk, if that may not have it.
    fn sync_name(&mut self) -> Result<(), Refusal> {
        match self.place.sync() {
            Ok(()) => Ok(()),
            Err(fault) => Err(refusal_of(self.rt, self.place.name(), fault)),
        }
    }

    /// Refuses a change to a file that may only be read, and a durable one to a file that has lost its name.
    fn begin_change(&mut self) -> Result<(), Refusal> {
        self.check_writable()?;
        if !self.options.is_durable {
            return Ok(());
        }
        match self.place.is_there() {
            Ok(true) => Ok(()),
            Ok(false) => Err(Refusal::For("gone")),
            Err(fault) => Err(refusal_of(self.rt, self.place.name(), fault)),
        }
    }

    /// Tells what stands behind the last whole record, from a place of the file on.
    fn tell_tail(&self, tail: Tail, place: u64, length: u64) {
        match tail {
            Tail::Nothing => {}
            Tail::Torn => tell(
                self.rt,
                format_args!(
                    "a torn record at {place}, {length} bytes: the next put or delete cuts it off"
                ),
            ),
            Tail::Damaged => tell(
                self.rt,
                format_args!(
                    "damaged at {place}, {length} bytes behind it: put and delete are refused; salvage FILE saves what reads"
                ),
            ),
        }
    }

    /// Tells of bytes that a salvage left out.
    fn tell_gap(&self, gap: &LeftOut) {
        let (place, length) = (gap.place.saturating_add(HEADER), gap.length);
        match &gap.key {
            Some(key) => {
                let key = Bytes(key, self.options.is_text);
                tell(
                    self.rt,
                    format_args!(
                        "left out {length} bytes at {place}: a record of {key}, which may have an older value now"
                    ),
                );
            }
            None => tell(
                self.rt,
                format_args!(
                    "left out {length} bytes at {place}: keys that are set in front of it may have older values"
                ),
            ),
        }
    }

    /// Reads a line, without its end. Gives whether there is one. Answers wait only while another line is there to be read.
    fn read_line(
        &mut self,
        number: u64,
        line: &mut Vec<u8>,
        input: &mut Input,
        output: &mut Output,
    ) -> io::Result<bool> {
        if !input.buffer().contains(&b'\n') {
            output.flush()?;
        }
        line.clear();
        if input.read_until(b'\n', line)? == 0 {
            return Ok(false);
        }
        if line.pop() != Some(b'\n') {
            tell(self.rt, format_args!("line {number} has no end"));
            self.is_well = false;
            return Ok(false);
        }
        if line.ends_with(b"\r") {
            line.pop();
        }
        Ok(true)
    }

    /// Writes the answer to a line. Gives whether another one is to be read.
    fn write_answer(
        &mut self,
        number: u64,
        line: &[u8],
        answered: &Answered,
        output: &mut Output,
    ) -> io::Result<bool> {
        if let Err(wrong @ (Refusal::NoCommand | Refusal::Word(_))) = answered {
            output.flush()?;
            let wrong = Wrong(line, wrong);
            tell(self.rt, format_args!("bad line {number}: {wrong}"));
            self.is_well = false;
            return Ok(self.options.keeps_going);
        }
        self.is_well &= answered.is_ok();
        writeln!(output, "{}", Line(answered, self.options.is_text))?;
        Ok(true)
    }

    /// Writes where bytes of the file don't read, and how many they are.
    pub fn write_gap(
        &mut self,
        place: u64,
        length: u64,
        output: &mut Output,
    ) -> Result<(), Refusal> {
        self.is_well = false;
        match writeln!(output, "gap {} {length}", place.saturating_add(HEADER)) {
            Ok(()) => Ok(()),
            Err(_) => Err(Refusal::For("write")),
        }
    }

    /// Writes an entry of a scan.
    pub fn write_entry(&self, entry: Entry, output: &mut Output) -> Result<(), Refusal> {
        let entry = Ok(Answer::Entry(Some(entry)));
        match writeln!(output, "{}", Line(&entry, self.options.is_text)) {
            Ok(()) => Ok(()),
            // What can't be written here can't be written behind it either, and is told there.
            Err(_) => Err(Refusal::For("write")),
        }
    }
}

/// A store over the file of a name, and how the session went.
#[derive(Drop)]
pub struct Session<'a, I: Factory<Value = u64> + Drop> {
    /// How the session stands.
    pub context: Context<'a>,
    /// The store.
    pub store: Store<Disk, I>,
    /// What makes an index of the store's kind.
    pub translator: I::Translator,
    /// How many bytes of a key the index has in front of it.
    pub skipped: usize,
    /// With how many keys a better one is looked for.
    pub check_at: usize,
}

/// With how many keys a translator is looked at, where there are so many.
pub fn next_check(len: usize) -> usize {
    len.saturating_mul(8).max(1024)
}

impl<I: Factory<Translator = T, Value = u64> + Drop, T: Fitting> Session<'_, I> {
    /// Where the last whole record ends in the file, and how many bytes stand behind it.
    fn tail(&mut self) -> Result<(u64, u64), Refusal> {
        let (len, end) = (self.store.log_len()?, self.store.end());
        Ok((end.saturating_add(HEADER), len.saturating_sub(end)))
    }

    /// Tells what stands behind the last whole record, if its place can be read.
    pub fn tell_tail(&mut self) {
        if let (Ok((place, length)), Ok(tail)) = (self.tail(), self.store.tail()) {
            self.context.tell_tail(tail, place, length);
        }
    }

    /// Forces what was written to the disk.
    pub fn sync(&mut self) -> Answered {
        self.context.sync_name()?;
        if self.store.sync().is_err() {
            return Err(Refusal::For("sync"));
        }
        self.context.is_changed = false;
        Ok(DONE)
    }

    /// What follows a change.
    fn changed(&mut self) -> Answered {
        self.context.is_changed = true;
        if self.context.options.is_durable {
            return self.sync();
        }
        Ok(DONE)
    }

    /// Cuts off what a failed write left of a record, or all of it, where the system told a failure of what it did.
    fn undone(&mut self, fault: Fault) -> Answered {
        if fault == Fault::WriteFailed {
            let _ = self.store.cut_tail();
        }
        Err(Refusal::from(fault))
    }

    /// Files the records by a better translator, where one is found. A refusal leaves the store as it is, and isn't told.
    fn refit(&mut self) -> Result<(), Fault>
        requires { I.makes }
    {
        let Some(better) = self.translator.fit_store(&mut self.store, self.skipped)? else {
            return Ok(());
        };
        let Ok(index) = I::new(self.context.rt.alloc(), better) else {
            return Err(Fault::Memory);
        };
        self.store.reindex(index)?;
        self.translator = better;
        Ok(())
    }

    fn put(&mut self, key: &[u8], value: &[u8]) -> Answered
        requires { I.makes }
    {
        self.context.begin_change()?;
        match self.store.put(key, value) {
            Ok(()) => {
                let len = self.store.len();
                if len >= self.check_at {
                    self.check_at = next_check(len);
                    let _ = self.refit();
                }
                self.changed()
            }
            Err(fault) => self.undone(fault),
        }
    }

    fn delete(&mut self, key: &[u8]) -> Answered {
        self.context.begin_change()?;
        match self.store.delete(key) {
            Ok(true) => self.changed(),
            Ok(false) => Ok(Answer::Word("none")),
            Err(fault) => self.undone(fault),
        }
    }

    fn has(&mut self, key: &[u8]) -> Answered {
        let has = self.store.contains_key(key)?;
        Ok(Answer::Word(if has { "yes" } else { "no" }))
    }

    fn cut(&mut self) -> Answered {
        self.context.begin_change()?;
        let (place, length) = self.tail()?;
        if length != 0 {
            let mut behind = Counter {
                from: self.store.end(),
                count: 0,
            };
            let is_read = self.store.salvage(&mut behind).is_ok();
            let (count, more) = (behind.count, if is_read { "" } else { " or more" });
            tell(
                self.context.rt,
                format_args!(
                    "cuts off {length} bytes at {place}, with {count} whole records{more}"
                ),
            );
        }
        self.store.cut_tail()?;
        self.changed()
    }

    fn salvage(&mut self, target: &str) -> Answered {
        let (rt, place) = (self.context.rt, &mut self.context.place);
        let (fresh, mut disk, _empty) = make(rt, place, Some(target))?;
        match place.salvage(&mut self.store, &fresh, &mut disk) {
            Ok(salvaged) => {
                for gap in &salvaged.gaps {
                    self.context.tell_gap(gap);
                }
                Ok(Answer::Salvaged(salvaged.records, salvaged.left_out))
            }
            Err(fault) => Err(refusal_of(rt, target, fault)),
        }
    }

    /// Writes which bytes don't read, where a copy lacks a key for that.
    fn write_gaps(&mut self, copied: &Salvaged, output: &mut Output) -> Result<(), Refusal> {
        if copied.records == self.store.len() as u64 {
            return Ok(());
        }
        for gap in &copied.gaps {
            self.context.write_gap(gap.place, gap.length, output)?;
        }
        Ok(())
    }

    /// How many bytes of the file a compaction leaves out.
    fn dead(&mut self, output: &mut Output) -> Answered {
        let (_, behind) = self.tail()?;
        let mut nothing = Counter {
            from: u64::MAX,
            count: 0,
        };
        let copied = self.store.compact(&mut nothing)?;
        self.write_gaps(&copied, output)?;
        Ok(Answer::Number("dead", copied.left_out.saturating_add(behind)))
    }

    /// Copies the store to a fresh file at a path.
    fn copy_to(&mut self, target: &str, output: &mut Output) -> Answered {
        let (rt, place) = (self.context.rt, &mut self.context.place);
        let (fresh, mut disk, _empty) = make(rt, place, Some(target))?;
        match place.copy_to(&mut self.store, &fresh, &mut disk) {
            Ok(copied) => {
                self.write_gaps(&copied, output)?;
                Ok(DONE)
            }
            Err(fault) => Err(refusal_of(rt, target, fault)),
        }
    }

    /// Goes on over a copy, at a path or in the place of the file.
    fn move_to(&mut self, target: Option<&str>, output: &mut Output) -> Answered
        requires { I.makes }
    {
        let (rt, place) = (self.context.rt, &mut self.context.place);
        let Ok(index) = I::new(rt.alloc(), self.translator) else {
            return Err(Refusal::For("memory"));
        };
        let (fresh, disk, _empty) = make(rt, place, target)?;
        match place.move_to(rt.alloc(), &mut self.store, fresh, disk, index) {
            Ok((copy, copied)) => {
                let told = self.write_gaps(&copied, output);
                self.store = copy;
                self.context.is_read_only = false;
                self.context.is_changed = true;
                told?;
                self.sync()
            }
            Err(fault) => Err(refusal_of(rt, place.name(), fault)),
        }
    }

    /// Puts a copy in the place of the file. A file with damage is kept, since a copy has nothing that stands behind it.
    fn compact(&mut self, output: &mut Output) -> Answered
        requires { I.makes }
    {
        self.context.check_writable()?;
        if self.store.tail()? == Tail::Damaged {
            return Err(Refusal::For("damaged"));
        }
        self.move_to(None, output)
    }

    fn answer<O: Order<I, T>>(&mut self, command: Command, output: &mut Output) -> Answered
        requires { I.makes }
    {
        match command {
            Command::Put(key, value) => self.put(&key, &value),
            Command::Get(key) => Ok(Answer::Value(self.store.get(&key)?)),
            Command::Has(key) => self.has(&key),
            Command::Delete(key) => self.delete(&key),
            Command::Count => Ok(Answer::Number("count", self.store.len() as u64)),
            Command::Sync => self.sync(),
            Command::Cut => self.cut(),
            Command::Help => Ok(Answer::Word(COMMANDS)),
            Command::Salvage(target) => self.salvage(target.as_str()),
            Command::Dead => self.dead(output),
            Command::Compact(None) => self.compact(output),
            Command::Compact(Some(target)) => self.copy_to(target.as_str(), output),
            Command::Move(target) => self.move_to(Some(target.as_str()), output),
            Command::InOrder(command) => O::answer(self, command, output),
        }
    }

    /// Runs the commands of the input's lines, to its end.
    pub fn run_lines<O: Order<I, T>>(
        &mut self,
        input: &mut Input,
        output: &mut Output,
    ) -> io::Result<()>
        requires { I.makes }
    {
        let alloc = self.context.rt.alloc();
        let mut line = Vec::new(alloc);
        for number in 1..u64::MAX {
            if !self.context.read_line(number, &mut line, input, output)? {
                break;
            }
            if line.is_empty() || line.starts_with(b"#") {
                continue;
            }
            if line.as_slice() == b"quit".as_slice() {
                break;
            }
            let answered = match parse(alloc, &line) {
                Ok(command) => self.answer::<O>(command, output),
                Err(refusal) => Err(refusal),
            };
            if !self.context.write_answer(number, &line, &answered, output)? {
                break;
            }
        }
        Ok(())
    }

    /// Ends the session: what was written is forced to the disk. Gives whether all went well.
    pub fn finish(&mut self) -> bool {
        if self.context.is_changed && self.sync().is_err() {
            tell(
                self.context.rt,
                format_args!("cannot sync {}", self.context.place.name()),
            );
            return false;
        }
        self.context.is_well
    }
}
