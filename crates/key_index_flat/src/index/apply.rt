//! The run of a list of commands, proved once over any index.
ghost use Rattle.std.specs.Prelude.{◌≡◌, ◌<◌, false, not, map, length, IsTrue, IfOk, OnOk, OnErr, IfErr};
ghost use Rattle.std.specs.Fn.{CalledAt};
ghost use Rattle.key_index_flat.specs.CursorRun.{RunsSteps};
ghost use Rattle.key_index_flat.specs.View.{items_in, run_at, with_edit, growth_fault_in};
ghost use Rattle.key_index_flat.specs.Run.{is_full, IsLegal, one_if_absent, EditAt, EditOf, CommandGives, HasTest, HaveTests, HasRoom, HaveRoom};

use super::{Command, Fault, IndexCursor, Outcome, Runs, Step, Unordered};
use std::alloc::Global;
use std::mem;

/// One flag for each step, and none set.
fn unset<V>(alloc: Global, steps: &[Step<V>]) -> Result<Vec<bool>, Fault>
    ensures flags { IfOk result (λ flags. flags.items ≡ map (λ x. false) steps.now) }
    ensures fault { IfErr result (λ f. f ≡ Fault.Memory) }
{
    let mut flags = Vec::new(alloc);
    flags.resize(steps.len(), false)?;
    Ok(flags)
}

/// The steps of an edit in turn, and of each whether it was accepted.
fn apply_steps<I: Unordered>(
    cursor: &mut IndexCursor<'_, I>,
    steps: Vec<Step<I::Value>>,
    flags: &mut [bool],
)
where
    I::Value: Drop,
    requires { length flags.old ≡ length steps.items }
    ensures { RunsSteps steps.items flags.new cursor.old cursor.new }
{
    let mut rest = steps.into_iter();
    let mut at = 0;
    'steps: while let Some(step) = rest.next() {
        flags[at] = cursor.step(step).unwrap_or(false);
        at += 1;
    }
}

/// The steps of an edit in turn, from before the first value of an index key that has so many.
fn edit_list<I: Unordered>(
    index: &mut I,
    slot: I::Key,
    len: usize,
    steps: Vec<Step<I::Value>>,
    flags: &mut [bool],
)
where
    I::Value: Drop,
    requires admits { IsTrue ((I.view index.old).admitted slot) }
    requires known { len ≡ length (run_at I.Key.cmp (I.view index.old) slot) }
    requires held { 0 < len }
    requires room { length flags.old ≡ length steps.items }
    ensures { EditAt I.Key.cmp slot steps.items flags.new (I.view index.old) (I.view index.new) }
{
    let mut cursor = IndexCursor::with_len(index, slot, len);
    apply_steps(&mut cursor, steps, flags);
    cursor.close();
}

/// What `get_mut` does with a key before an edit, and then the edit.
fn edit<I: Unordered>(
    index: &mut I,
    key: &[u8],
    steps: Vec<Step<I::Value>>,
    flags: &mut [bool],
) -> Result<(), Fault>
where
    I::Value: Drop,
    requires { flags.old ≡ map (λ x. false) steps.items }
    ensures edited { OnOk result (EditOf I.Key.cmp key.now
        steps.items flags.new (I.view index.old) (I.view index.new)) }
    ensures refused { OnErr result (I.view index.new ≡ I.view index.old) }
    ensures fault { IfErr result (λ f. f ≡ Fault.Memory) }
{
    let (slot, len) = index.reach(key)?;
    if len == 0 {
        return Ok(());
    }
    edit_list(index, slot, len, steps, flags);
    Ok(())
}

/// What `get_mut_or_insert` does with a key and a value.
fn get_or_insert<I: Unordered>(index: &mut I, key: &[u8], value: I::Value) -> Result<(), Fault>
where
    I::Value: Drop,
    ensures room { OnOk result (IsTrue (not (is_full (items_in (I.view index.old))))) }
    ensures accepted { OnOk result (I.view index.new
        ≡ with_edit I.Key.cmp (I.view index.old) ((I.view index.old).slot key.now) (one_if_absent value)) }
    ensures refused { OnErr result (I.view index.new ≡ I.view index.old) }
    ensures fault { IfErr result (λ f. f ≡ growth_fault_in (I.view index.old)) }
{
    index.reach_or_insert(key, value)?;
    Ok(())
}

/// One command, and what it came to.
fn apply<I: Unordered, F: Fn(&I::Value) -> bool + Drop>(
    index: &mut I,
    command: Command<I::Value, F>,
    room: Outcome,
) -> Outcome
where
    I::Value: Drop,
    requires callable { HasTest (λ f. F.IsAlwaysCallable f) command }
    requires room { HasRoom command room }
    ensures gives { CommandGives I.Key.cmp I.INSERT_FIRST (CalledAt F.FnMut)
        command result (I.view index.old) (I.view index.new) }
{
    match command {
        Command::Insert(key, value) => match index.insert(key.as_slice(), value) {
            Ok(()) => Outcome::Done,
            Err(refused) => Outcome::Refused(refused.fault),
        },
        Command::InsertAndRetain(key, value, test) => {
            match index.insert_and_retain(key.as_slice(), value, test) {
                Ok(()) => Outcome::Done,
                Err(refused) => Outcome::Refused(refused.fault),
            }
        }
        Command::Retain(key, test) => match index.retain(key.as_slice(), test) {
            Ok(()) => Outcome::Done,
            Err(fault) => Outcome::Refused(fault),
        },
        Command::Remove(key) => match index.remove(key.as_slice()) {
            Ok(()) => Outcome::Done,
            Err(fault) => Outcome::Refused(fault),
        },
        Command::GetOrInsert(key, value) => match get_or_insert(index, key.as_slice(), value) {
            Ok(()) => Outcome::Done,
            Err(fault) => Outcome::Refused(fault),
        },
        Command::Edit(key, steps) => match room {
            Outcome::Edited(mut flags) => match edit(
                index,
                key.as_slice(),
                steps,
                flags.as_mut_slice(),
            ) {
                Ok(()) => Outcome::Edited(flags),
                Err(fault) => Outcome::Refused(fault),
            },
            Outcome::Done | Outcome::Refused(_) => unreachable!(),
        },
    }
}

/// The commands in turn, with a place for the outcome of each.
fn apply_all<I: Unordered, F: Fn(&I::Value) -> bool + Drop>(
    index: &mut I,
    commands: Vec<Command<I::Value, F>>,
    outcomes: &mut [Outcome],
)
where
    I::Value: Drop,
    requires callable { HaveTests (λ f. F.IsAlwaysCallable f) commands.items }
    requires room { HaveRoom commands.items outcomes.old }
    ensures { IsLegal I.Key.cmp I.INSERT_FIRST (CalledAt F.FnMut)
        commands.items outcomes.new (I.view index.old) (I.view index.new) }
{
    let mut rest = commands.into_iter();
    let mut at = 0;
    'commands: while let Some(command) = rest.next() {
        let room = mem::replace(&mut outcomes[at], Outcome::Done);
        outcomes[at] = apply(index, command, room);
        at += 1;
    }
}

/// A place for the outcome of a command, with the memory that it takes.
fn place_for<V, F>(alloc: Global, command: &Command<V, F>) -> Result<Outcome, Fault>
    ensures room { IfOk result (λ outcome. HasRoom command.now outcome) }
    ensures fault { IfErr result (λ f. f ≡ Fault.Memory) }
{
    match command {
        Command::Edit(_, steps) => Ok(Outcome::Edited(unset(alloc, steps.as_slice())?)),
        Command::Insert(_, _) => Ok(Outcome::Done),
        Command::InsertAndRetain(_, _, _) => Ok(Outcome::Done),
        Command::Retain(_, _) => Ok(Outcome::Done),
        Command::Remove(_) => Ok(Outcome::Done),
        Command::GetOrInsert(_, _) => Ok(Outcome::Done),
    }
}

/// A place for the outcome of each command.
fn room_for<V, F>(alloc: Global, commands: &[Command<V, F>]) -> Result<Vec<Outcome>, Fault>
    ensures room { IfOk result (λ outcomes. HaveRoom commands.now outcomes.items) }
    ensures fault { IfErr result (λ f. f ≡ Fault.Memory) }
{
    let mut outcomes = Vec::with_capacity(alloc, commands.len())?;
    'commands: for command in commands {
        outcomes.push(place_for(alloc, command)?)?;
    }
    Ok(outcomes)
}

/// Runs commands in order. The room for all outcomes is taken before the first command, and its refusal is the only `Err`: then
/// nothing has changed. Else there is one outcome for each command, and the content is the fold of the accepted ones.
pub fn run<I: Unordered, F: Fn(&I::Value) -> bool + Drop>(
    alloc: Global,
    index: &mut I,
    commands: Vec<Command<I::Value, F>>,
) -> Result<Vec<Outcome>, Fault>
where
    I::Value: Drop,
    requires { HaveTests (λ f. F.IsAlwaysCallable f) commands.items }
    ensures legal { IfOk result (λ outcomes. IsLegal I.Key.cmp I.INSERT_FIRST (CalledAt F.FnMut)
        commands.items outcomes.items (I.view index.old) (I.view index.new)) }
    ensures refused { OnErr result (I.view index.new ≡ I.view index.old) }
    ensures fault { IfErr result (λ f. f ≡ Fault.Memory) }
{
    let mut outcomes = room_for(alloc, commands.as_slice())?;
    apply_all(index, commands, outcomes.as_mut_slice());
    Ok(outcomes)
}
