//! The elements of a queue, one after another.
use crate::width::most;
use std::marker::Model;

/// An iterator over the elements of a queue, the first one first, made by
/// [`RingOver::iter`](super::RingOver::iter).
///
/// ```
/// use net_base::storage::RingBuffer;
///
/// let mut storage = [0u8; 4];
/// let mut ring = RingBuffer::new(&mut storage[..]);
/// assert_eq!(ring.enqueue_slice(b"abc"), 3);
/// let mut left = ring.iter();
/// assert_eq!((left.next(), left.next_back()), (Some(&b'a'), Some(&b'c')));
/// assert!(left.eq(b"b"));
/// ```
#[derive(Drop)]
pub struct Iter<'a, T> {
    pub(super) first: &'a [T],
    pub(super) second: &'a [T],
}

/// Contracts see the list of the elements that are left.
impl<'a, T> Model for Iter<'a, T> {
    ghost use Rattle.std.specs.Prelude.{◌+◌, List, ◌++◌, length};
    ghost use Rattle.net_ring.specs.Width.{IsUsize};

    ghost Value = { List T };

    ghost view = { λ s. s.first.now ++ s.second.now };

    ghost invariant = { λ s. IsUsize (length s.first.now + length s.second.now) };
}

impl<'a, T> Iterator for Iter<'a, T> {
    ghost use Rattle.std.specs.Iterator.{UpTo, YieldsFirstRef, at_most, item_count};
    ghost use Rattle.std.specs.Iterator.SizeHint.{IsWithinCount};
    ghost use Rattle.std.specs.Prelude.{◌≡◌, length, Some, IfSome};

    type Item = &'a T;

    ghost next_gives = { YieldsFirstRef (λ s. s) };

    ghost remaining = { item_count (λ s. s) };

    fn next(&mut self) -> Option<&'a T> {
        let first = self.first;
        if !first.is_empty() {
            self.first = &first[1..];
            return Some(&first[0]);
        }
        let second = self.second;
        if !second.is_empty() {
            self.second = &second[1..];
            return Some(&second[0]);
        }
        None
    }

    fn size_hint(&self) -> (usize, Option<usize>)
        ensures lower { IsWithinCount result.0 (at_most (length self.now)) }
        ensures upper { IfSome result.1 (UpTo (at_most (length self.now))) }
        ensures exact { result ≡ (length self.now, Some (length self.now)) }
    {
        let count = self.first.len() + self.second.len();
        prove!(count <= most(), "in any `usize`");
        (count, Some(count))
    }
}

impl<'a, T> DoubleEndedIterator for Iter<'a, T> {
    ghost use Rattle.std.specs.Iterator.{YieldsLastRef};

    ghost next_back_gives = { YieldsLastRef (λ s. s) };

    fn next_back(&mut self) -> Option<&'a T> {
        let second = self.second;
        if !second.is_empty() {
            let last = second.len() - 1;
            self.second = &second[..last];
            return Some(&second[last]);
        }
        let first = self.first;
        if !first.is_empty() {
            let last = first.len() - 1;
            self.first = &first[..last];
            return Some(&first[last]);
        }
        None
    }
}
