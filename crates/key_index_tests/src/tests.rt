//! What no program of the cases can say: types, constants, loans that are kept, the proved callers over slices, and texts.
mod batches;
mod checks;
mod checksums;
mod crashes;
mod partitions;
mod plain;
mod program;
mod room;
mod small;
mod translators;
mod walks;
