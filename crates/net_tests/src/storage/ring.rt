//! The tests of rings and of their storage.

mod ring_buffer;
