// The archive a second time, written from its rules alone and without regard to cost: each version is a list of its own, its FlexList is made anew
// from the definition, and what an edit writes is counted by comparing stretches.
pub(crate) mod answer;
pub(crate) mod calls;
pub(crate) mod edits;
pub(crate) mod lists;
pub(crate) mod rows;
pub(crate) mod shape;
