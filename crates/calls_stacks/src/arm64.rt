//! The functions of ARM64 images, and how their frames are unwound. An entry of the function table has the start RVA of
//! a function and its unwind data: packed into the entry, or the RVA of a record with a stream of unwind codes. Undo
//! the codes to find the caller's frame.
//! https://learn.microsoft.com/cpp/build/arm64-exception-handling

pub mod frames;
pub mod stack_walk;
