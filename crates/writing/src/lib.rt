// The pieces of the trace text, written: words, numbers, names and answer lines, each at the start of an output or from a place of it on.
// What each text is stands in the crate text; every byte that a writer leaves is told by its contract.
//
// Nothing that an entry point reaches calls a function of the library: docs/DESIGN-PASS.md says why, and what stands in its place.
#![tactic(auto)]

pub mod inner;
