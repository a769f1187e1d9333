//! The words of the command line.
use std::env;
use std::env::Env;

/// Returns the words after the program's name, or none if they can't be read: if one isn't UTF-8, or
/// memory for them is refused.
pub fn command_words<R: Env + Alloc>(rt: &R) -> Vec<String<R::A>, R::A> {
    let Ok(words) = env::args(rt) else {
        return Vec::new(rt.alloc());
    };
    match words.skip(1).collect(rt.alloc()) {
        Ok(words) => words,
        Err(_) => Vec::new(rt.alloc()),
    }
}
