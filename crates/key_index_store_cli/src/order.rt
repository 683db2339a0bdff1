//! The commands that ask for the order of the keys, which not every kind of index keeps.

use crate::answer::{Answer, Answered};
use crate::failure::Refusal;
use crate::fitting::Fitting;
use crate::line::InOrder;
use crate::session::{Output, Session};
use key_index_flat::index::{Factory, OrderedLists};
use key_index_store::store::Passed;

/// What runs the commands that ask for the order of the keys.
pub trait Order<I: Factory<Translator = T, Value = u64> + Drop, T: Fitting> {
    /// Runs one. A scan writes its entries to the output.
    fn answer(session: &mut Session<'_, I>, command: InOrder, output: &mut Output) -> Answered
        requires { I.makes };
}

/// Refuses them.
pub struct Without;

impl<I: Factory<Translator = T, Value = u64> + Drop, T: Fitting> Order<I, T> for Without {
    fn answer(_session: &mut Session<'_, I>, _command: InOrder, _output: &mut Output) -> Answered {
        Err(Refusal::For("unordered"))
    }
}

/// Runs them over an index that keeps the order.
pub struct With;

impl<I: OrderedLists<Value = u64> + Factory<Translator = T> + Drop, T: Fitting> Order<I, T>
    for With {
    fn answer(session: &mut Session<'_, I>, command: InOrder, output: &mut Output) -> Answered {
        match command {
            InOrder::Next(key) => Ok(Answer::Entry(session.store.next(&key)?)),
            InOrder::Prev(key) => Ok(Answer::Entry(session.store.prev(&key)?)),
            InOrder::Absent(key) => Ok(Answer::Gap(session.store.absent(&key)?)),
            InOrder::First => Ok(Answer::Entry(session.store.first()?)),
            InOrder::Last => Ok(Answer::Entry(session.store.last()?)),
            InOrder::Scan(key, count) => session.scan(&key, count, b"", output),
            InOrder::ScanPrefix(key, count) => session.scan(&key, count, &key, output),
        }
    }
}

impl<I: OrderedLists<Value = u64> + Factory<Translator = T> + Drop, T: Fitting> Session<'_, I> {
    /// Writes the entries from a key on, so many at most, whose keys begin with a prefix, and where records don't read.
    fn scan(&mut self, start: &[u8], count: u64, prefix: &[u8], output: &mut Output) -> Answered {
        let mut last: Option<Vec<u8>> = None;
        for _ in 0..count {
            let Passed { entry, passed } = match &last {
                Some(key) => self.store.readable_above(key)?,
                None => self.store.readable_at_least(start)?,
            };
            for record in &passed {
                self.context.write_gap(record.place, record.length, output)?;
            }
            let Some((key, value)) = entry else {
                break;
            };
            if !key.starts_with(prefix) {
                break;
            }
            // Where another file was put beneath the session, a scan may come back.
            if last.is_some_and(|last| key <= last) {
                return Err(Refusal::For("damaged"));
            }
            last = Some(Vec::from_slice(self.context.rt.alloc(), &key)?);
            self.context.write_entry((key, value), output)?;
        }
        Ok(Answer::Word("end"))
    }
}
