//! Examples of the pages for callers that stand in no file of `key_index_uses`.
use key_index::index::immutable;
use key_index::snapshot::{Record, Snapshot};
use key_index_flat::index::ordered::Index;
use key_index_flat::index::{Factory, Fault, Keyed, Ordered, resolve_next, resolve_prev};
use key_index_flat::translator::{FourCap, TwoCap};
use std::alloc::Global;

/// A value that knows its full key.
pub struct Fruit {
    pub name: Vec<u8>,
    pub price: u64,
}

impl Keyed for Fruit {
    ghost full_key = { λ fruit. fruit.name.items };

    fn full_key(&self) -> &[u8] {
        self.name.as_slice()
    }
}

/// The prices next to a name, below and above.
pub fn prices_around<I: Ordered<Value = Fruit>>(
    index: &I,
    name: &[u8],
) -> (Option<u64>, Option<u64>) {
    let below = resolve_prev(index, name).map(|fruit| fruit.price);
    let above = resolve_next(index, name).map(|fruit| fruit.price);
    (below, above)
}

/// Indexes three records by position, drops the first one, and returns a position that may have the key "tea": 2.
pub fn archive(alloc: Global) -> Result<Option<u64>, Fault> {
    let mut index = immutable::Index::new(alloc, FourCap, 0, 3)?;
    index.insert(b"tea", 0)?;
    index.insert(b"oil", 1)?;
    index.insert(b"tea", 2)?;
    index.prune(1);
    Ok(index.get(b"tea").next())
}

/// Whether "apq" lies between two keys and is absent.
pub fn is_between(alloc: Global) -> Result<bool, Fault> {
    let index = Index::<TwoCap, Record>::new(alloc, TwoCap)?;
    let mut snapshot = Snapshot::new(alloc, index);
    snapshot.set(b"apple", 1)?;
    snapshot.set(b"apricot", 2)?;
    let below = snapshot.prev(b"apq").is_some();
    let above = snapshot.next(b"apq").is_some();
    Ok(below && above && snapshot.get(b"apq").is_none())
}
