//! One line of input, parsed into a command.

ghost use Rattle.std.specs.Prelude.{◌≡◌, ◌==◌, ◌/◌, ◌<◌, ◌↔◌, [], ◌∷◌, length, take, IsTrue, IsNone, IfSome, IfOk, IfErr, OnOk, OnErr, IsErrOf, vec_capacity};
ghost use Rattle.std.specs.Char.{digit_value, is_ascii_hexdigit};
ghost use Rattle.key_index.specs.Line.{alone, command_of, hex_bytes, is_hex, key_of, number_of, ordered_command_of, immutable_command_of, number_alone, number_and_key, with_key, words_in, words_of};

use std::alloc::AllocError;

/// What a line says. The key that it names is in the buffer that `parse` filled.
#[derive(Clone, Copy, Debug, PartialEq, Eq)]
pub enum Command {
    /// Puts this value under the key.
    Insert(u64),
    /// Removes the key.
    Remove,
    /// Shows the values of the key.
    Get,
    /// Shows the counts.
    Counts,
}

/// What a line says to an index whose keys are in order.
#[derive(Clone, Copy, Debug, PartialEq, Eq)]
pub enum OrderedCommand {
    /// What each index can be told.
    Common(Command),
    /// Shows the values of the least index key above that of the key, or of the first where there is none.
    Next,
    /// Shows the values of the greatest index key below that of the key, or of the last where there is none.
    Prev,
    /// Shows the values of the least index key.
    First,
    /// Shows the values of the greatest index key.
    Last,
}

/// What a line says to an immutable index.
#[derive(Clone, Copy, Debug, PartialEq, Eq)]
pub enum ImmutableCommand {
    /// Indexes the key at this position.
    Insert(u64),
    /// Shows the positions of the key.
    Get,
    /// Removes every position below this one.
    Prune(u64),
    /// Shows the counts.
    Counts,
}

/// Why a line gave no command.
#[derive(Clone, Copy, Debug, PartialEq, Eq)]
pub enum LineFault {
    /// The line is no command.
    BadLine,
    /// Memory for the key was refused.
    Memory,
}

// Up to three words behind the first of a line. A command has two at most.
type Words<'a> = (Option<&'a [u8]>, Option<&'a [u8]>, Option<&'a [u8]>);

// The first word of a line, and those behind it.
fn words_of(line: &[u8]) -> (&[u8], Words<'_>)
    ensures { result.0.now ∷ words_in result.1 ≡ take 4 (words_of line.now) }
{
    let mut words = line.split(|byte| *byte == b' ');
    (
        words.next().unwrap(),
        (words.next(), words.next(), words.next()),
    )
}

// The value of a hexadecimal digit of either case.
fn hex_digit(digit: u8) -> u8
    requires { IsTrue (is_ascii_hexdigit digit) }
    ensures value { result ≡ digit_value digit }
    ensures small { result < 16 }
{
    char::from(digit).to_digit(16).unwrap() as u8
}

fn is_hex(word: &[u8]) -> bool
    ensures { result ≡ is_hex word.now }
{
    !word.is_empty() && word.len() % 2 == 0 && word.iter().all(u8::is_ascii_hexdigit)
}

// Puts the bytes that hexadecimal digits write into an empty buffer.
fn decode_hex(word: &[u8], key: &mut Vec<u8>) -> Result<(), AllocError>
    requires digits { IsTrue (is_hex word.now) }
    requires empty { key.old.items ≡ [] }
    ensures decoded { OnOk result (key.new.items ≡ hex_bytes word.now) }
    ensures memory { OnErr result (vec_capacity key.old < length (hex_bytes word.now)) }
{
    for i in 0..word.len() / 2 {
        key.push(16 * hex_digit(word[2 * i]) + hex_digit(word[2 * i + 1]))?;
    }
    Ok(())
}

// Puts the key that a word writes into an empty buffer.
#[tactic(auto, unfolding(crate::specs::Line::key_of))]
fn decode_key(word: &[u8], key: &mut Vec<u8>) -> Result<(), LineFault>
    requires { key.old.items ≡ [] }
    ensures accepted { OnOk result (key_of word.now ≡ Some key.new.items) }
    ensures refused { IsErrOf result LineFault.BadLine ↔ IsNone (key_of word.now) }
    ensures memory { IsErrOf result LineFault.Memory
        → IfSome (key_of word.now) (λ bytes. vec_capacity key.old < length bytes) }
{
    if word == b"-".as_slice() {
        return Ok(());
    }
    if !is_hex(word) {
        return Err(LineFault::BadLine);
    }
    decode_hex(word, key).map_err(|_| LineFault::Memory)
}

// The number that a word writes. A sign, which `parse` would take, is no digit.
pub(crate) fn number_of(word: &[u8]) -> Option<u64>
    ensures { result ≡ number_of word.now }
{
    if !word.iter().all(u8::is_ascii_digit) {
        return None;
    }
    str::from_utf8(word).ok()?.parse().ok()
}

// Reads the two words of `insert`: a key and a number.
fn number_and_key(words: Words<'_>, key: &mut Vec<u8>) -> Result<u64, LineFault>
    requires { key.old.items ≡ [] }
    ensures accepted { IfOk result (λ n. number_and_key (words_in words.entry) ≡ Some (n, key.new.items)) }
    ensures refused { IsErrOf result LineFault.BadLine ↔ IsNone (number_and_key (words_in words.entry)) }
    ensures memory { IsErrOf result LineFault.Memory
        → IfSome (number_and_key (words_in words.entry)) (λ said. vec_capacity key.old < length said.1) }
{
    let (Some(hex), Some(number), None) = words else {
        return Err(LineFault::BadLine);
    };
    let number = number_of(number).ok_or(LineFault::BadLine)?;
    decode_key(hex, key)?;
    Ok(number)
}

// Reads the one word, a key, of a command.
fn with_key<C: Drop>(command: C, words: Words<'_>, key: &mut Vec<u8>) -> Result<C, LineFault>
    requires { key.old.items ≡ [] }
    ensures accepted { IfOk result (λ read. with_key command (words_in words.entry) ≡ Some (read, key.new.items)) }
    ensures refused { IsErrOf result LineFault.BadLine ↔ IsNone (with_key command (words_in words.entry)) }
    ensures memory { IsErrOf result LineFault.Memory
        → IfSome (with_key command (words_in words.entry)) (λ said. vec_capacity key.old < length said.1) }
{
    let (Some(hex), None, _) = words else {
        return Err(LineFault::BadLine);
    };
    decode_key(hex, key)?;
    Ok(command)
}

// Reads the one word, a number, of `prune`.
fn number_alone(words: Words<'_>) -> Result<u64, LineFault>
    ensures accepted { IfOk result (λ n. number_alone (words_in words.entry) ≡ Some (n, [])) }
    ensures refused { IsErrOf result LineFault.BadLine ↔ IsNone (number_alone (words_in words.entry)) }
    ensures only { IfErr result (λ fault. fault ≡ LineFault.BadLine) }
{
    let (Some(number), None, _) = words else {
        return Err(LineFault::BadLine);
    };
    number_of(number).ok_or(LineFault::BadLine)
}

// Sees that no word follows a command.
fn alone<C: Drop>(command: C, words: Words<'_>) -> Result<C, LineFault>
    ensures accepted { IfOk result (λ read. alone command (words_in words.entry) ≡ Some (read, [])) }
    ensures refused { IsErrOf result LineFault.BadLine ↔ IsNone (alone command (words_in words.entry)) }
    ensures only { IfErr result (λ fault. fault ≡ LineFault.BadLine) }
{
    match words {
        (None, _, _) => Ok(command),
        _ => Err(LineFault::BadLine),
    }
}

/// The command that a line says, without its newline. The key that the command names is put into
/// `key`, whose room is used again; what `key` holds after an `Err` is open.
#[tactic(auto, using(crate::proofs::lines::LineLemmas::command_of_four))]
pub fn parse(line: &[u8], key: &mut Vec<u8>) -> Result<Command, LineFault>
    ensures accepted { IfOk result (λ command. command_of line.now ≡ Some (command, key.new.items)) }
    ensures refused { IsErrOf result LineFault.BadLine ↔ IsNone (command_of line.now) }

    // Memory is wanted only where the buffer has no room for the key.
    ensures memory { IsErrOf result LineFault.Memory
        → IfSome (command_of line.now) (λ said. vec_capacity key.old < length said.1) }
{
    key.clear();
    let (name, words) = words_of(line);
    if name == b"insert".as_slice() {
        number_and_key(words, key).map(Command::Insert)
    } else if name == b"remove".as_slice() {
        with_key(Command::Remove, words, key)
    } else if name == b"get".as_slice() {
        with_key(Command::Get, words, key)
    } else if name == b"counts".as_slice() {
        alone(Command::Counts, words)
    } else {
        Err(LineFault::BadLine)
    }
}

/// The same of an index whose keys are in order, which has commands more.
#[tactic(auto, using(crate::proofs::lines::LineLemmas::command_of_four, crate::proofs::lines::LineLemmas::ordered_command_of_four))]
pub fn parse_ordered(line: &[u8], key: &mut Vec<u8>) -> Result<OrderedCommand, LineFault>
    ensures accepted { IfOk result (λ command. ordered_command_of line.now ≡ Some (command, key.new.items)) }
    ensures refused { IsErrOf result LineFault.BadLine ↔ IsNone (ordered_command_of line.now) }

    // Memory is wanted only where the buffer has no room for the key.
    ensures memory { IsErrOf result LineFault.Memory
        → IfSome (ordered_command_of line.now) (λ said. vec_capacity key.old < length said.1) }
{
    key.clear();
    let (name, words) = words_of(line);
    if name == b"next".as_slice() {
        with_key(OrderedCommand::Next, words, key)
    } else if name == b"prev".as_slice() {
        with_key(OrderedCommand::Prev, words, key)
    } else if name == b"first".as_slice() {
        alone(OrderedCommand::First, words)
    } else if name == b"last".as_slice() {
        alone(OrderedCommand::Last, words)
    } else {
        parse(line, key).map(OrderedCommand::Common)
    }
}

/// The same of an immutable index, which is told to prune and not to remove.
#[tactic(auto, using(crate::proofs::lines::LineLemmas::immutable_command_of_four))]
pub fn parse_immutable(line: &[u8], key: &mut Vec<u8>) -> Result<ImmutableCommand, LineFault>
    ensures accepted { IfOk result (λ command. immutable_command_of line.now ≡ Some (command, key.new.items)) }
    ensures refused { IsErrOf result LineFault.BadLine ↔ IsNone (immutable_command_of line.now) }

    // Memory is wanted only where the buffer has no room for the key.
    ensures memory { IsErrOf result LineFault.Memory
        → IfSome (immutable_command_of line.now) (λ said. vec_capacity key.old < length said.1) }
{
    key.clear();
    let (name, words) = words_of(line);
    if name == b"prune".as_slice() {
        number_alone(words).map(ImmutableCommand::Prune)
    } else if name == b"insert".as_slice() {
        number_and_key(words, key).map(ImmutableCommand::Insert)
    } else if name == b"get".as_slice() {
        with_key(ImmutableCommand::Get, words, key)
    } else if name == b"counts".as_slice() {
        alone(ImmutableCommand::Counts, words)
    } else {
        Err(LineFault::BadLine)
    }
}
