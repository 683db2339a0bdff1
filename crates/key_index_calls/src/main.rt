//! The program `key_index_calls`: makes the calls that its input names, each of an index of the kind that its arguments name, and answers
//! each by a line.
#![tactic(auto)]

ghost use Rattle.std.specs.Prelude.{◌≤◌};

mod answer;
mod arrays;
mod calls;
mod commands;
mod cursors;
mod flat;
mod immutable;
mod line;
mod partitions;
mod records;
mod serve;
mod snapshots;
mod spilling;
mod table;

use arrays::Arrays;
use flat::{InNoOrder, InOrder};
use immutable::{Immutable, Segmented};
use key_index::snapshot::{Record, Snapshot};
use key_index_flat::index::{Factory, Fault, Ordered, ordered, unordered};
use key_index_flat::translator::{
    Cap, EightCap, FourCap, Hashed, KeyHash, OneCap, OrderedTranslator, Translator, TwoCap,
};
use key_index_parts::index::partitioned;
use line::Stop;
use partitions::Punordered;
use records::Filed;
use serve::{Streams, serve};
use snapshots::{Built, Whole};
use spilling::{Spilling, at_threshold};
use std::env;
use std::io::{BufRead, BufReader, BufWriter, Write};
use std::process::ExitCode;
use std::rt::Env;
use table::Listed;

/// A key hash that an attacker would like: the first byte of a key, whatever the seed. Over it a hashed translator gives what its
/// inner one gives of that byte.
#[derive(Clone, Copy)]
struct FirstByte;

impl KeyHash for FirstByte {
    ghost use Rattle.std.specs.Prelude.{slice_index};

    ghost seeded = { λ _. record {} };

    ghost digest = { λ _ key. slice_index key 0 };

    fn from_seed(_seed: u64) -> FirstByte {
        FirstByte
    }

    fn hash(&self, key: &[u8]) -> u64 {
        match key.first() {
            Some(byte) => u64::from(*byte),
            None => 0,
        }
    }
}

/// The translator by the first byte of a key as its hash.
fn by_hash() -> Hashed<FourCap, FirstByte> {
    Hashed::from_seed(0, FourCap)
}

/// The translator by three bytes.
fn by_arrays() -> Cap<3> {
    Cap::new()
}

/// Serves the flat unordered index.
fn serve_unordered<T: Translator, R: BufRead, W: Write>(
    translator: T,
    streams: &mut Streams<R, W>,
) -> Result<(), Stop> {
    let index = unordered::Index::new(streams.alloc, translator)?;
    serve(InNoOrder { index }, streams)
}

/// Serves the flat ordered index.
fn serve_ordered<T: OrderedTranslator, R: BufRead, W: Write>(
    translator: T,
    streams: &mut Streams<R, W>,
) -> Result<(), Stop> {
    let index = ordered::Index::new(streams.alloc, translator)?;
    serve(InOrder { index }, streams)
}

/// Serves the plain index.
fn serve_plain<T: OrderedTranslator, R: BufRead, W: Write>(
    translator: T,
    streams: &mut Streams<R, W>,
) -> Result<(), Stop> {
    let index = key_index_plain::Index::new(streams.alloc, translator)?;
    serve(InOrder { index }, streams)
}

/// Serves the partitioned unordered index by one byte.
fn serve_punordered<R: BufRead, W: Write>(streams: &mut Streams<R, W>) -> Result<(), Stop> {
    let index = partitioned::unordered::Index::<OneCap, u64, 1>::new(streams.alloc, OneCap)?;
    serve(Punordered { index }, streams)
}

/// Serves the partitioned unordered index by two bytes.
fn serve_punordered_by_two<R: BufRead, W: Write>(streams: &mut Streams<R, W>) -> Result<(), Stop> {
    let index = partitioned::unordered::Index::<OneCap, u64, 2>::new(streams.alloc, OneCap)?;
    serve(Punordered { index }, streams)
}

/// Serves the partitioned unordered index by one byte and two more.
fn serve_punordered_wide<R: BufRead, W: Write>(streams: &mut Streams<R, W>) -> Result<(), Stop> {
    let index = partitioned::unordered::Index::<TwoCap, u64, 1>::new(streams.alloc, TwoCap)?;
    serve(Punordered { index }, streams)
}

/// The thresholds of the indices of which ranges are made.
const THRESHOLDS: [usize; 6] = [1, 2, 3, 8, 64, 512];

/// Serves the partitioned ordered index by one byte, beside others.
fn serve_pordered<R: BufRead, W: Write>(
    threshold: usize,
    streams: &mut Streams<R, W>,
) -> Result<(), Stop> {
    let index = at_threshold::<OneCap, u64, 1>(streams.alloc, OneCap, threshold)?;
    let mut others = Vec::new(streams.alloc);
    for other in THRESHOLDS {
        others.push(at_threshold::<OneCap, u64, 1>(streams.alloc, OneCap, other)?)?;
    }
    serve(Spilling { index, others }, streams)
}

/// Serves the partitioned ordered index by two bytes.
fn serve_pordered_by_two<R: BufRead, W: Write>(
    threshold: usize,
    streams: &mut Streams<R, W>,
) -> Result<(), Stop> {
    let index = at_threshold::<OneCap, u64, 2>(streams.alloc, OneCap, threshold)?;
    let others = Vec::new(streams.alloc);
    serve(Spilling { index, others }, streams)
}

/// Serves the partitioned ordered index by one byte and two more.
fn serve_pordered_wide<R: BufRead, W: Write>(
    threshold: usize,
    streams: &mut Streams<R, W>,
) -> Result<(), Stop> {
    let index = at_threshold::<TwoCap, u64, 1>(streams.alloc, TwoCap, threshold)?;
    let others = Vec::new(streams.alloc);
    serve(Spilling { index, others }, streams)
}

/// Serves a snapshot over the flat ordered index.
fn serve_snapshot<T: OrderedTranslator, R: BufRead, W: Write>(
    translator: T,
    streams: &mut Streams<R, W>,
) -> Result<(), Stop> {
    let index = ordered::Index::new(streams.alloc, translator)?;
    let snapshot = Snapshot::new(streams.alloc, index);
    serve(Whole { snapshot }, streams)
}

/// Serves an index of records.
fn serve_records<I: Ordered<Value = Record> + Drop, R: BufRead, W: Write>(
    index: Result<I, Fault>,
    streams: &mut Streams<R, W>,
) -> Result<(), Stop> {
    serve(Filed { index: index? }, streams)
}

/// Records in partitions by their first byte.
type Parted = partitioned::ordered::Index<OneCap, Record, 1>;

/// Serves an index of records, or none.
fn serve_kind_of_records<R: BufRead, W: Write>(
    kind: &str,
    streams: &mut Streams<R, W>,
) -> Result<(), Stop> {
    let alloc = streams.alloc;
    match kind {
        "records_ordered" => serve_records(ordered::Index::new(alloc, OneCap), streams),
        "records_pordered" => serve_records(Parted::new(alloc, OneCap), streams),
        "records_plain" => serve_records(key_index_plain::Index::new(alloc, OneCap), streams),
        _ => Err(Stop::Usage),
    }
}

/// Serves an index without partitions, or another one.
fn serve_flat<R: BufRead, W: Write>(
    kind: &str,
    threshold: usize,
    streams: &mut Streams<R, W>,
) -> Result<(), Stop> {
    match kind {
        "unordered" => serve_unordered(OneCap, streams),
        "unordered_by_hash" => serve_unordered(by_hash(), streams),
        "ordered" => serve_ordered(OneCap, streams),
        "ordered_by_eight" => serve_ordered(EightCap, streams),
        "ordered_by_arrays" => serve_ordered(by_arrays(), streams),
        "plain" => serve_plain(OneCap, streams),
        _ => serve_in_partitions(kind, threshold, streams),
    }
}

/// Serves an index in partitions, or another one.
fn serve_in_partitions<R: BufRead, W: Write>(
    kind: &str,
    threshold: usize,
    streams: &mut Streams<R, W>,
) -> Result<(), Stop> {
    match kind {
        "punordered" => serve_punordered(streams),
        "punordered_by_two" => serve_punordered_by_two(streams),
        "punordered_wide" => serve_punordered_wide(streams),
        "pordered" => serve_pordered(threshold, streams),
        "pordered_by_two" => serve_pordered_by_two(threshold, streams),
        "pordered_wide" => serve_pordered_wide(threshold, streams),
        _ => serve_snapshots(kind, threshold, streams),
    }
}

/// Serves a snapshot, or another one.
fn serve_snapshots<R: BufRead, W: Write>(
    kind: &str,
    threshold: usize,
    streams: &mut Streams<R, W>,
) -> Result<(), Stop> {
    match kind {
        "snapshot_ordered" => serve_snapshot(OneCap, streams),
        "snapshot_ordered_by_two" => serve_snapshot(TwoCap, streams),
        "snapshot_ordered_by_eight" => serve_snapshot(EightCap, streams),
        "snapshot_pordered" => serve(Built::new(streams.alloc, threshold)?, streams),
        _ => serve_positions(kind, threshold, streams),
    }
}

/// Serves an index of positions, what it is made of, or another one.
fn serve_positions<R: BufRead, W: Write>(
    kind: &str,
    start: usize,
    streams: &mut Streams<R, W>,
) -> Result<(), Stop> {
    let alloc = streams.alloc;
    match kind {
        "immutable" => serve(Immutable::new(alloc, TwoCap, start, 0)?, streams),
        "immutable_by_eight" => serve(Immutable::new(alloc, EightCap, start, 0)?, streams),
        "immutable_for_four" => serve(Immutable::new(alloc, EightCap, start, 4)?, streams),
        "segments" => serve(Segmented::new(alloc)?, streams),
        "table" => serve(Listed::new(alloc)?, streams),
        "arrays" => serve(Arrays::new(alloc), streams),
        _ => serve_kind_of_records(kind, streams),
    }
}

/// The kind and the threshold that the arguments name, which is 0 where they name none.
fn arguments(words: &[String]) -> Result<(&str, usize), Stop> {
    match words {
        [kind] => Ok((kind.as_str(), 0)),
        [kind, threshold] => match threshold.as_str().parse::<usize>() {
            Ok(threshold) if threshold > 0 => Ok((kind.as_str(), threshold)),
            _ => Err(Stop::Usage),
        },
        _ => Err(Stop::Usage),
    }
}

/// Serves an index of the kind that the arguments name.
fn serve_words<R: BufRead, W: Write>(
    words: &[String],
    streams: &mut Streams<R, W>,
) -> Result<(), Stop> {
    let (kind, threshold) = arguments(words)?;
    serve_flat(kind, threshold, streams)
}

/// Runs the program. Each answer is written before it ends, also where it ends early.
fn run(rt: &HostRuntime) -> Result<(), Stop> {
    let alloc = rt.alloc();
    let Ok(args) = env::args(rt) else {
        return Err(Stop::Failed);
    };
    let words: Vec<String> = args.skip(1).collect(alloc)?;
    let Ok(input) = BufReader::new(alloc, rt.stdin()) else {
        return Err(Stop::Failed);
    };
    let Ok(output) = BufWriter::new(alloc, rt.stdout()) else {
        return Err(Stop::Failed);
    };
    let mut streams = Streams::new(alloc, input, output);
    let ended = serve_words(words.as_slice(), &mut streams);
    streams.flush()?;
    ended
}

fn main(rt: HostRuntime) -> ExitCode {
    let (said, status) = match run(&rt) {
        Ok(()) => return ExitCode::SUCCESS,
        Err(Stop::Usage) => ("usage: key_index_calls KIND [THRESHOLD]", 2),
        Err(Stop::BadLine) => ("bad line", 1),
        Err(Stop::Refused) => ("refused memory", 1),
        Err(Stop::Failed) => ("failed", 1),
    };
    let _ = writeln!(rt.stderr(), "{said}");
    ExitCode::from(status)
}
