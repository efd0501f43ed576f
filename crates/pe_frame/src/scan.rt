//! Scans of a stack, where no unwind records lead on: the first word that is a return address into executable code, or that of the
//! call which leads to the nearest start of a function before a frame. It may have been left there by a call that is over, so what a
//! scan finds is a guess.

ghost use Rattle.std.specs.Prelude.{◌≡◌, ◌+◌, ◌<◌, ◌≤◌, ◌^◌, ℕ, Option, IfNone, IfSome};
ghost use Rattle.pe_core.specs.SectionMap.{rounded_up};
ghost use Rattle.pe_frame.specs.Scans.{call_at, first_return, higher_call, highest_call, most_words, return_at};

use crate::memory::{Memory, SIZE_OF_WORD};

/// How many words a scan reads at most.
const MOST_WORDS: usize = 128;

/// The first address that is too high for a word of the stack: the stack pointer could not be above it.
const LAST_WORD: u64 = u64::MAX - 7;

/// What says of the words of a stack which are return addresses.
pub(crate) trait ReturnWords {
    // The return address that a word is, if it is one.
    ghost returns: { Self → ℕ → Option ℕ };

    /// The return address into executable code that a word is, if it is one.
    fn return_of(&self, word: u64) -> Option<u64>
        ensures { result ≡ returns self.now word };
}

/// The return address that the word at an address of the stack is, if it is one.
fn return_at<R: ReturnWords, M: Memory>(returns: &R, memory: &M, address: u64) -> Option<u64>
    requires { address + 8 < 2 ^ 64 }
    ensures { result ≡ return_at (M.word memory.now) (R.returns returns.now) address }
{
    match memory.u64_at(address) {
        Some(word) => returns.return_of(word),
        None => None,
    }
}

/// The first return address from an address of the stack on, and where it stands.
#[tactic(auto, using(crate::proofs::Scans::next_word, crate::proofs::Scans::this_word, crate::proofs::Scans::past_the_end, crate::proofs::Scans::no_word))]
fn first_return<R: ReturnWords, M: Memory>(
    returns: &R,
    memory: &M,
    start: u64,
) -> Option<(u64, u64)>
    ensures value { result ≡ first_return most_words
        (M.word memory.now) (R.returns returns.now) start }
    ensures room { IfSome result (λ found. found.0 + 8 < 2 ^ 64) }
{
    let mut address = start;
    for _ in 0..MOST_WORDS {
        if address >= LAST_WORD {
            return None;
        }
        if let Some(word) = return_at(returns, memory, address) {
            return Some((address, word));
        }
        address += SIZE_OF_WORD;
    }
    None
}

/// A stack pointer, rounded up to a word. None if that is too high for one.
fn first_word(pointer: u64) -> Option<u64>
    ensures some { IfSome result (λ a. a ≡ rounded_up pointer 8) }
    ensures none { IfNone result (2 ^ 64 ≤ rounded_up pointer 8 + 8) }
{
    if pointer >= LAST_WORD {
        return None;
    }
    Some((pointer + (SIZE_OF_WORD - 1)) / SIZE_OF_WORD * SIZE_OF_WORD)
}

/// The first return address from a stack pointer on, rounded up to a word, and where it stands.
#[tactic(auto, using(crate::proofs::Scans::past_the_end))]
pub(crate) fn first_return_above<R: ReturnWords, M: Memory>(
    returns: &R,
    memory: &M,
    pointer: u64,
) -> Option<(u64, u64)>
    ensures value { result ≡ first_return most_words
        (M.word memory.now) (R.returns returns.now) (rounded_up pointer 8) }
    ensures room { IfSome result (λ found. found.0 + 8 < 2 ^ 64) }
{
    match first_word(pointer) {
        Some(start) => first_return(returns, memory, start),
        None => None,
    }
}

/// A call by the return address that stands on a stack.
#[derive(Clone, Copy)]
pub(crate) struct FoundCall {
    /// Where the return address stands.
    pub address: u64,
    /// The return address.
    pub word: u64,
    /// Where the call leads.
    pub target: u64,
}

/// What says of the words of a stack where the calls lead that end there.
pub(crate) trait CallTargets {
    // Where the call leads that ends at a word, if it is one that is looked for.
    ghost targets: { Self → ℕ → Option ℕ };

    /// Where the call leads that ends at a word, if it is one that is looked for.
    fn target_of(&self, word: u64) -> Option<u64>
        ensures { result ≡ targets self.now word };
}

/// The call that ends at the word at an address of the stack, if it is one that is looked for.
fn call_at<T: CallTargets, M: Memory>(targets: &T, memory: &M, address: u64) -> Option<FoundCall>
    requires { address + 8 < 2 ^ 64 }
    ensures value { result ≡ call_at (M.word memory.now) (T.targets targets.now) address }
    ensures room { IfSome result (λ found. found.address + 8 < 2 ^ 64) }
{
    let word = memory.u64_at(address)?;
    let target = targets.target_of(word)?;
    Some(FoundCall {
        address,
        word,
        target,
    })
}

/// Of two calls that which leads higher, of two that lead to one address the first.
fn higher_call(first: Option<FoundCall>, second: Option<FoundCall>) -> Option<FoundCall>
    ensures value { result ≡ higher_call first second }
    ensures room { IfSome first (λ found. found.address + 8 < 2 ^ 64) →
        IfSome second (λ found. found.address + 8 < 2 ^ 64) →
        IfSome result (λ found. found.address + 8 < 2 ^ 64) }
{
    match (first, second) {
        (None, call) => call,
        (call, None) => call,
        (Some(first), Some(second)) => {
            if first.target < second.target {
                Some(second)
            } else {
                Some(first)
            }
        }
    }
}

/// Of the calls that end at the words from an address of the stack on that which leads highest.
fn highest_call<T: CallTargets, M: Memory>(targets: &T, memory: &M, start: u64) -> Option<FoundCall>
    ensures value { result ≡ highest_call most_words
        (M.word memory.now) (T.targets targets.now) start }
    ensures room { IfSome result (λ found. found.address + 8 < 2 ^ 64) }
{
    let mut address = start;
    let mut highest = None;
    for _ in 0..MOST_WORDS {
        if address >= LAST_WORD {
            return highest;
        }
        highest = higher_call(highest, call_at(targets, memory, address));
        address += SIZE_OF_WORD;
    }
    highest
}

/// The same from a stack pointer on, rounded up to a word.
#[tactic(auto, using(crate::proofs::Scans::no_call_above))]
pub(crate) fn highest_call_above<T: CallTargets, M: Memory>(
    targets: &T,
    memory: &M,
    pointer: u64,
) -> Option<FoundCall>
    ensures value { result ≡ highest_call most_words
        (M.word memory.now) (T.targets targets.now) (rounded_up pointer 8) }
    ensures room { IfSome result (λ found. found.address + 8 < 2 ^ 64) }
{
    match first_word(pointer) {
        Some(start) => highest_call(targets, memory, start),
        None => None,
    }
}
