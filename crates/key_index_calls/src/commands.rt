//! Lists of commands.
use crate::answer::Answer;
use crate::line::{Line, Move, Stop};
use crate::serve::Request;
use key_index_flat::index::{Command, Outcome, Step, Unordered, run};
use std::alloc::{AllocError, Global};

/// Which values the test of a command keeps.
#[derive(Clone, Copy)]
enum Keeps {
    None,
    Equal(u64),
    Below(u64),
    /// Those of which the quarter is below, of 0 to 3.
    Quarters(u64),
}

impl Keeps {
    /// What the last two numbers of a line say.
    fn of(line: &Line) -> Keeps {
        let place = match line.name() {
            "insert_and_retain" => 1,
            _ => 0,
        };
        let limit = line.number(place + 1);
        match line.number(place) {
            0 => Keeps::None,
            1 => Keeps::Equal(limit),
            2 => Keeps::Below(limit),
            _ => Keeps::Quarters(limit),
        }
    }

    fn keeps(self, value: u64) -> bool {
        match self {
            Keeps::None => false,
            Keeps::Equal(wanted) => value == wanted,
            Keeps::Below(limit) => value < limit,
            Keeps::Quarters(limit) => value / 4096 % 4 < limit,
        }
    }
}

/// The steps of an edit, which are the moves of a line.
pub(crate) fn steps(alloc: Global, line: &Line) -> Result<Vec<Step<u64>>, AllocError> {
    let mut steps = Vec::new(alloc);
    for next in line.moves.iter() {
        steps.push(match *next {
            Move::Next => Step::Next,
            Move::Insert(value) => Step::Insert(value),
            Move::Update(value) => Step::Update(value),
            _ => Step::Delete,
        })?;
    }
    Ok(steps)
}

/// The command of a line, with the test of its values.
fn command<F: Drop>(alloc: Global, line: &Line, test: F) -> Result<Command<u64, F>, Stop> {
    let value = line.number(0);
    let key = line.key(0).to_vec(alloc)?;
    Ok(match line.name() {
        "insert" => Command::Insert(key, value),
        "insert_and_retain" => Command::InsertAndRetain(key, value, test),
        "retain" => Command::Retain(key, test),
        "remove" => Command::Remove(key),
        "get_or_insert" => Command::GetOrInsert(key, value),
        "edit" => Command::Edit(key, steps(alloc, line)?),
        _ => return Err(Stop::BadLine),
    })
}

/// The outcomes of commands.
fn tell(outcomes: &[Outcome], answer: &mut Answer) {
    for outcome in outcomes {
        match outcome {
            Outcome::Done => answer.word("done"),
            Outcome::Refused(fault) => answer.refused(*fault),
            Outcome::Edited(flags) => tell_edited(flags.as_slice(), answer),
        }
    }
    answer.word("ok");
}

/// The flags of an edit.
fn tell_edited(flags: &[bool], answer: &mut Answer) {
    answer.word("edited");
    for flag in flags {
        answer.flag(*flag);
    }
}

/// `run` of commands.
fn run_commands<I: Unordered<Value = u64>, F: Fn(&u64) -> bool + Drop>(
    alloc: Global,
    index: &mut I,
    commands: Vec<Command<u64, F>>,
    answer: &mut Answer,
)
    requires { (f : F) → F.IsAlwaysCallable f }
{
    match run(alloc, index, commands) {
        Ok(outcomes) => tell(outcomes.as_slice(), answer),
        Err(fault) => answer.refused(fault),
    }
}

/// `run` of the commands of the lines that are kept.
pub(crate) fn run_lines<I: Unordered<Value = u64>>(
    index: &mut I,
    request: &mut Request,
) -> Result<(), Stop> {
    let alloc = request.alloc;
    let mut commands = Vec::new(alloc);
    for line in request.kept.iter() {
        let keeps = Keeps::of(line);
        let test = move |value: &u64| keeps.keeps(*value);
        commands.push(command(alloc, line, test)?)?;
    }
    run_commands(alloc, index, commands, &mut request.answer);
    Ok(())
}
