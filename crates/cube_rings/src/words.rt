//! What each thread of a run is told before it begins.
use crate::link_ends::{Inlet, Outlet};
use std::sync::Wait;
use std::thread;

/// The one word of a thread's own link: to do its work, or to end without.
#[derive(Clone, Copy, Debug, Drop)]
pub enum Word {
    Go,
    Stop,
}

/// Waits until the word is there, and yields between the tries.
pub(crate) fn wait_for_word<W: Wait>(rt: &W, mut post: Inlet<Word>) -> Word {
    for _ in rt.forever() {
        if let Some(word) = post.take() {
            return word;
        }
        thread::yield_now();
    }
    unreachable!()
}

/// Tells all threads the same word. Each link has room for it, since nothing else is sent there.
pub(crate) fn tell_all(words: &mut Vec<Outlet<Word>>, word: Word) {
    for outlet in words.iter_mut() {
        let _ = outlet.offer(word);
    }
}
