//! An allocator that counts requests, and refuses one.
use crate::testing::requests::Requests;
use std::alloc::{AllocError, Allocator, Global};

/// An allocator that counts the requests for memory, their bytes and the bytes that are given back,
/// and refuses exactly one of the requests.
///
/// Each growth of a list is a request too, and a list whose growth is refused stays as it was. A
/// `&Refusing` is an allocator that can be copied.
pub struct Refusing<A: Allocator = Global> {
    inner: A,
    requests: Requests,
}

impl<A: Allocator> Refusing<A> {
    /// Returns an allocator that takes memory from `alloc`, and refuses request number `refused`,
    /// counted from 0.
    pub fn new(alloc: A, refused: usize) -> Refusing<A> {
        Refusing {
            inner: alloc,
            requests: Requests::new(refused),
        }
    }

    /// Returns how many requests there were, including the one that was refused.
    pub fn requests(&self) -> usize {
        self.requests.count()
    }

    /// Returns how many bytes the requests asked for in all, including those of the one that was
    /// refused. A growth of a list asks for all bytes of its new room.
    pub fn bytes(&self) -> usize {
        self.requests.bytes()
    }

    /// Returns how many of the granted bytes were not given back: 0 once everything made of this
    /// memory is dropped.
    pub fn live(&self) -> usize {
        self.requests.live()
    }

    /// Returns the most bytes that were granted and not given back at one time. While a list grows,
    /// its old room and its new one both count.
    pub fn most(&self) -> usize {
        self.requests.most()
    }
}

unsafe impl<A: Allocator> Allocator for Refusing<A> {
    ghost dealloc_token = { λ heap ty ptr. A.dealloc_token heap.inner ty ptr };

    fn allocate(&self, size: usize, align: usize) -> Result<*mut u8, AllocError> {
        if self.requests.refuses_next(size) {
            return Err(AllocError);
        }
        self.inner.allocate(size, align)
    }

    unsafe fn deallocate(&self, ptr: *mut u8, size: usize, align: usize) {
        self.requests.gives_back(size);
        self.inner.deallocate(ptr, size, align);
    }
}

impl<A: Allocator> Drop for Refusing<A> {
    fn drop(self) {
        let Refusing {
            inner: _,
            requests: _,
        } = self;
    }
}
