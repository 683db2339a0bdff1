//! One op in one range, proved once over any range.
ghost use Rattle.std.specs.Prelude.{◌≡◌, ◌<◌, length, take, IsTrue, IfErr, OnOk};
ghost use Rattle.key_index_flat.specs.CursorRun.{EditsBy};
ghost use Rattle.key_index_flat.specs.Run.{one_if_absent};
ghost use Rattle.key_index_flat.specs.View.{run_at, after_insert, with_edit, growth_fault_in, Admits};
ghost use Rattle.key_index_parts.specs.Fill.{RefusesStep, IsFillFault};
ghost use Rattle.key_index_parts.specs.Ops.{after_op, after_begun, after_steps, edited_by, op_key};

use super::op::Op;
use crate::index::partitioned::PartitionRange;
use key_index_flat::index::{Fault, IndexCursor, Runs, Search, Step};

/// The steps of an edit in turn. One that the cursor's place does not allow is skipped.
fn fill_steps<R: Search>(
    cursor: &mut IndexCursor<'_, R>,
    steps: Vec<Step<R::Value>>,
) -> Result<(), Fault>
where
    R::Value: Drop,
    ensures filled { OnOk result (EditsBy (after_steps steps.items) cursor.old cursor.new) }
    ensures refused { IfErr result (RefusesStep steps.items cursor.old) }
{
    let mut rest = steps.into_iter();
    'steps: while let Some(step) = rest.next() {
        cursor.step(step)?;
    }
    Ok(())
}

/// The steps of an edit in turn, from before the first value of an index key that has so many.
fn fill_list<R: Search>(
    range: &mut R,
    slot: R::Key,
    len: usize,
    steps: Vec<Step<R::Value>>,
) -> Result<(), Fault>
where
    R::Value: Drop,
    requires admits { IsTrue ((R.view range.old).admitted slot) }
    requires known { len ≡ length (run_at R.Key.cmp (R.view range.old) slot) }
    requires held { 0 < len }
    ensures filled { OnOk result (R.view range.new ≡ edited_by R.Key.cmp steps.items slot (R.view range.old)) }
    ensures refused { IfErr result (λ f.
        IsFillFault f (λ n. edited_by R.Key.cmp (take n steps.items) slot (R.view range.old))) }
{
    let mut cursor = IndexCursor::with_len(range, slot, len);
    fill_steps(&mut cursor, steps)?;
    cursor.close();
    Ok(())
}

/// An edit, where the key has a value.
fn fill_edit<R: Search>(range: &mut R, key: &[u8], steps: Vec<Step<R::Value>>) -> Result<(), Fault>
where
    R::Value: Drop,
    requires { Admits (R.view range.old) key.now }
    ensures filled { OnOk result (R.view range.new
        ≡ edited_by R.Key.cmp steps.items ((R.view range.old).slot key.now) (R.view range.old)) }
    ensures refused { IfErr result (λ f. IsFillFault f
        (λ n. edited_by R.Key.cmp (take n steps.items) ((R.view range.old).slot key.now) (R.view range.old))) }
{
    let (slot, len) = range.reach(key)?;
    if len == 0 {
        return Ok(());
    }
    fill_list(range, slot, len, steps)
}

/// A value, where the key has none.
fn fill_absent<R: Search>(range: &mut R, key: &[u8], value: R::Value) -> Result<(), Fault>
where
    R::Value: Drop,
    requires { Admits (R.view range.old) key.now }
    ensures filled { OnOk result (R.view range.new
        ≡ with_edit R.Key.cmp (R.view range.old) ((R.view range.old).slot key.now) (one_if_absent value)) }
    ensures fault { IfErr result (λ f. f ≡ growth_fault_in (R.view range.old)) }
{
    range.reach_or_insert(key, value)?;
    Ok(())
}

/// A value, at its end of the key's list.
fn fill_insert<R: PartitionRange>(range: &mut R, key: &[u8], value: R::Value) -> Result<(), Fault>
where
    R::Value: Drop,
    requires { Admits (R.view range.old) key.now }
    ensures filled { OnOk result (R.view range.new
        ≡ after_insert R.Key.cmp R.INSERT_FIRST (R.view range.old) key.now value) }
    ensures fault { IfErr result (λ f. f ≡ growth_fault_in (R.view range.old)) }
{
    range.insert(key, value)?;
    Ok(())
}

/// One op, at a key whose partition the range covers.
pub(crate) fn fill<R: PartitionRange>(range: &mut R, op: Op<R::Value>) -> Result<(), Fault>
where
    R::Value: Drop,
    requires { Admits (R.view range.old) (op_key op) }
    ensures filled { OnOk result (R.view range.new ≡ after_op R.Key.cmp R.INSERT_FIRST op (R.view range.old)) }
    ensures refused { IfErr result (λ f. IsFillFault f (λ n. after_begun R.Key.cmp n op (R.view range.old))) }
{
    match op {
        Op::Insert(key, value) => fill_insert(range, key.as_slice(), value),
        Op::GetOrInsert(key, value) => fill_absent(range, key.as_slice(), value),
        Op::Edit(key, steps) => fill_edit(range, key.as_slice(), steps),
    }
}
