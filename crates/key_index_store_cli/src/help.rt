//! What `--help`, `help` and `--version` print.

use crate::line::first_word;

/// The name, and the version of the file's format.
pub const VERSION: &str = "key_index_store 2";

/// All that can be said to the program, in front of the commands.
pub const HELP: &str = "usage: key_index_store [FLAGS] FILE [KIND]
       key_index_store --help | -h | --version

A key-value store over FILE, which is made where there is none. Each line of standard input is a
command, and gets a line as its answer. An empty line, and one that begins with #, is nothing.

  --text         shows keys and values that are UTF-8 as texts in double quotes
  --durable      forces each change to the disk before it is answered
  --read-only    reads FILE, beside others that only read it: no change is made to it
  --keep-going   goes on behind a line that is no command, as at a terminal
  --headless     only reads FILE, whose first 16 bytes may be damaged

KIND is how positions are kept in memory:
  ordered        in the order of keys (without a KIND, this one)
  pordered       the same, in partitions: for more than 100,000 keys
  unordered      by a hash, without the commands that need an order
  punordered     the same, in partitions
  hashed         the same by a secret seed, for keys that someone else picks
";

/// The commands: a row of each has its name and its words, and behind two spaces its answer.
pub const COMMANDS: &str =
    "K and V are bytes: two hexadecimal digits for each, - for none, or a text in double quotes, where
\\\", \\\\, \\n and \\xNN stand for a quote, a backslash, the end of a line and the byte NN.
  put K V          ok
  get K            value V, or none
  has K            yes, or no
  delete K         ok, or none where K had no value
  count            count N
  sync             ok: what was written is on the disk
  cut              ok: bytes behind the last whole record are cut off
  dead             dead N: how many bytes a compaction frees
  compact [FILE2]  ok: FILE has the newest record of each key alone; or FILE2 has, and FILE stays
  move FILE2       the same, and the session goes on over FILE2
  salvage FILE2    salvaged N records, M bytes left out: FILE2 has each whole record of FILE
  help             these lines
  quit             the session ends

With an order:
  next K           entry K V: the next greater key, or none
  prev K           entry K V: the next smaller key, or none
  absent K         between K K: its neighbours, each a key or none; held where K has a value
  first            entry K V, or none
  last             the same, of the greatest key
  scan K N         entry K V for each of N keys from K on, and then end
  scan-prefix K N  the same, of keys that begin with K

Where records don't read any more, scan, scan-prefix, dead, compact FILE2 and move FILE2 go on
without them. They tell gap N M for M bytes at the place N of FILE (a scan tells an M of 0 where it
isn't known), and the status is 1.";

/// What is said behind the commands.
pub const STATUS: &str = "
A command that can't be carried out is answered: refused REASON
Status: 0; 1 where a line was refused or no command, where FILE is damaged at the end, or where a
file or a stream failed; 2 for wrong arguments.";

/// The name of a command with its words, as its row has them.
pub fn form_of(name: &[u8]) -> Option<&'static str> {
    for row in COMMANDS.split("\n  ").skip(1) {
        let form = row.split("  ").next().unwrap_or(row);
        if first_word(form.as_bytes()) == name {
            return Some(form);
        }
    }
    None
}
