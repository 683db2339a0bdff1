//! What an index that keeps positions is asked for by full keys, which a log has: where the record of a key stands, and that none has it.
ghost use Rattle.std.specs.Prelude.{◌≡◌, refl, IfErr, IfOk};
ghost use Rattle.std.specs.Option.{option_copied};
ghost use Rattle.key_index_flat.specs.FullKeys.{FailsOn, IsFiledIn, IsFullGap, first_with, gap_copied};
ghost use Rattle.key_index_flat.specs.Values.{values_of};
ghost use Rattle.key_index_flat.specs.View.{run_of};
ghost use Rattle.key_index_uses.specs.Log.{IsMissing, key_in};

use key_index_flat::index::{Ordered, Records, Unordered, absent, find_record};

/// The keys of a log.
#[derive(Drop)]
pub struct Log<'l> {
    pub keys: &'l [Vec<u8>],
}

/// No record stands at the position.
#[derive(Debug, Clone, Copy)]
pub struct Missing;

impl<'a, 'l> Records<'a, u64> for Log<'l> {
    ghost use Rattle.std.proofs.Common.{ap, ◌∙◌};

    type Key = &'l [u8];

    type Error = Missing;

    ghost agrees = { λ log keys. keys ≡ key_in log.keys.now };

    ghost reads = { λ before after. after.keys.now ≡ before.keys.now };

    ghost fails = { λ log position _. IsMissing log.keys.now position };

    ghost reads_nothing = { λ _. refl };

    ghost reads_both = { λ _ _ _ first second. second ∙ first };

    ghost agreed = { λ _ _ _ same agrees. agrees ∙ ap key_in same };

    fn key_of(&mut self, position: &'a u64) -> Result<&'l [u8], Missing> {
        match self.keys.get(*position as usize) {
            Some(key) => Ok(key.as_slice()),
            None => Err(Missing),
        }
    }
}

/// The position of the first record with a key, over any index whose positions were inserted under their records' keys. It fails only
/// where the list of the key has a position that the log lacks.
pub fn position<'a, I: Unordered<Value = u64>>(
    index: &'a I,
    keys: &[Vec<u8>],
    key: &[u8],
) -> Result<Option<&'a u64>, Missing>
    ensures first { IsFiledIn (key_in keys.now) I.Key.cmp (I.view index.now) → IfOk result (λ found.
        option_copied found ≡ first_with (key_in keys.now) key.now (values_of (I.view index.now).content)) }
    ensures missing { IfErr result
        (FailsOn (λ position _. IsMissing keys.now position) (run_of I.Key.cmp (I.view index.now) key.now)) }
{
    find_record(index, &mut Log { keys }, key)
}

/// The positions of the records next to a key that no record has, below and above: what shows a reader of the log that it is absent.
/// `None` where a record has the key. It fails only where the index has a position that the log lacks.
pub fn gap<'a, I: Ordered<Value = u64>>(
    index: &'a I,
    keys: &[Vec<u8>],
    key: &[u8],
) -> Result<Option<(Option<&'a u64>, Option<&'a u64>)>, Missing>
    ensures gap { IsFiledIn (key_in keys.now) I.Key.cmp (I.view index.now) → IfOk result (λ gap.
        IsFullGap (key_in keys.now) (I.view index.now).content key.now (gap_copied gap)) }
    ensures missing { IfErr result
        (FailsOn (λ position _. IsMissing keys.now position) (values_of (I.view index.now).content)) }
{
    absent(index, &mut Log { keys }, key)
}
