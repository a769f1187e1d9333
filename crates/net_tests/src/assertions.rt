//! Comparisons of tests. Each is a function of its own, since an `assert!` makes the proof of the
//! body that it is in several times as long.
use std::fmt;
use std::process::Abort;

/// Where a test is: the words of a mode or the name of what is compared, and the number of a row, a call or a request.
pub type Place<'a> = (&'a str, usize);

/// Stops the test unless this holds.
pub fn assert_holds(rt: &impl Abort, fact: bool, (name, number): Place<'_>) {
    assert!(rt; fact, "{name}, {number}");
}

/// Stops the test unless these counts are equal.
pub fn assert_count(rt: &impl Abort, found: usize, wanted: usize, (name, number): Place<'_>) {
    assert!(rt; found == wanted, "{name}, {number}: {found}, not {wanted}");
}

/// Stops the test unless these bytes are equal.
pub fn assert_bytes(rt: &impl Abort, found: &[u8], wanted: &[u8], (name, number): Place<'_>) {
    assert!(rt;
        found == wanted,
        "{name}, {number}: {found:?}, not {wanted:?}"
    );
}

/// A text that is compared piece by piece.
#[derive(Drop)]
pub struct Expected {
    rest: &'static [u8],
    is_same: bool,
}

impl Expected {
    /// Returns a comparison with this text.
    pub fn of(text: &'static str) -> Expected {
        Expected {
            rest: text.as_bytes(),
            is_same: true,
        }
    }

    /// Returns whether all of the text was written, and nothing else.
    pub fn is_whole(&self) -> bool {
        self.is_same && self.rest.is_empty()
    }
}

impl fmt::Write for Expected {
    fn write_str(&mut self, piece: &str) -> fmt::Result {
        let bytes = piece.as_bytes();
        if self.rest.starts_with(bytes) {
            self.rest = &self.rest[bytes.len()..];
        } else {
            self.is_same = false;
        }
        Ok(())
    }
}
