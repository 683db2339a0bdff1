//! Records of a log, found by an index of their positions under shortened keys.
ghost use Rattle.std.specs.Prelude.{◌≡◌, length, map, zip, IfErr, OnErr, OnOk};
ghost use Rattle.std.specs.List.{last_or};
ghost use Rattle.key_index_flat.specs.View.{run_of};
ghost use Rattle.key_index_uses.specs.Records.{event_of, is_record, records_of, with_event};

use key_index_flat::index::Fault;
use key_index_flat::index::implement::Lists;
use key_index_parts::index::partitioned::ordered::{Ahead, same_visits, visit_ahead};
use std::alloc::Global;

/// Whether the record at a position of a log has a full key.
pub(crate) fn is_record(log: &[&[u8]], position: u64, key: &[u8]) -> bool
    ensures { result ≡ is_record (map (λ key. key.now) log.now) key.now position }
{
    match log.get(position as usize) {
        Some(full_key) => *full_key == key,
        None => false,
    }
}

/// Answers each key of a batch with the position of its record in a log, which has the full keys of the records by position. The index
/// finds positions by shortened keys, so each one is looked up in the log, while the lists of the next keys are found. Of several
/// records of a key the last in list order is the answer, and the answer of a key without a record stays. A refusal changes none.
pub fn find_records<I: Lists<Value = u64>>(
    alloc: Global,
    index: &I,
    log: &[&[u8]],
    keys: &[&[u8]],
    answers: &mut [Option<u64>],
) -> Result<(), Fault>
    requires { length answers.old ≡ length keys.now }
    ensures found { let full_keys = map (λ key. key.now) log.now in
        OnOk result (answers.new ≡ map (λ p. last_or p.0 (records_of full_keys p.1.now
        (run_of I.Key.cmp (I.view index.now) p.1.now))) (zip answers.old keys.now)) }
    ensures refused { OnErr result (answers.new ≡ answers.old) }
    ensures fault { IfErr result (λ f. f ≡ Fault.Memory) }
{
    same_visits::<I::Key, u64>();
    let mut look_up = |event: Ahead<'_, u64>|
        ensures { answers.exit.now ≡ with_event (map (λ key. key.now) log.entry.now)
            (map (λ key. key.now) keys.entry.now) answers.entry.now (event_of event.entry) }
    {
        if let Ahead::Visit(place, position) = event {
            if place < keys.len()
                && place < answers.len()
                && is_record(log, *position, keys[place])
            {
                answers[place] = Some(*position);
            }
        }
    };
    visit_ahead(alloc, index, keys.iter(), &mut look_up)
}
