//! Lists in one call. A call fills the caller's array with what the steps of a walk return one after the other, and leaves the
//! walk after them, so that the next call goes on there. At the end of the walk a call writes no entry. An error is returned by
//! a call of its own: where entries come before it, a call returns these, and leaves the walk before the error.
//!
//! The list is that of the steps, whatever they walk over: one loop makes all of these calls.

pub mod x64;
