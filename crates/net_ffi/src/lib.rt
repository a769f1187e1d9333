//! Functions for C over memory that the caller keeps. There is no heap and no global state. Each call tests what it
//! needs, but for the duties below, and then calls a proved function.
//!
//! # Memory
//!
//! - A *head* is a struct of numbers. You keep it beside its memory: a *storage*, which has the bytes, and for some
//!   heads an array of runs or of slots. Its `.._init` makes it, also of one that was used: then all its old state is
//!   gone. One of zeros is new too, as the comment of the struct says.
//! - A *run* is a range of positions that is stored in one element of such an array. In a receiver it is a *waiting
//!   range*: bytes that have arrived, but wait for earlier ones. It is *held* as long as they wait.
//! - A *position* is the number of a byte in a stream, with 64 bits, so that it never wraps. The end of a stream has one
//!   too, after the last byte.
//! - A *place* is a ring's head: where a queue is in its storage.
//!
//! Lengths are in elements. A length of 0 is allowed: without runs no range may wait. A length, an index or a count is
//! a `size_t` on every processor, a position is a `uint64_t`, and a moment an `int64_t`. Times are in microseconds. A
//! flag of a slot is as wide as the number beside it; others are a `bool`.
//!
//! You may read the fields of a head: `length` is how many elements are queued, and `used` how many runs are stored.
//! `start` and `end` of a stored run are offsets from `first_start` of the head, so the first run starts at 0. A block
//! of an acknowledgement has positions of the stream.
//!
//! # Duties
//!
//! Calls don't test these, but for some in a build with the feature `check`. A call that breaks one of the first four
//! can touch any memory. The others are about answers, and the proofs assume them: a call that breaks one touches no
//! other memory than it was passed, but it may answer anything, or trap.
//!
//! 1. A pointer that isn't null is aligned and valid. That of an array, such as `data`, is valid for as many elements
//!    as the parameter after it says, here `data_length`, which have at most `PTRDIFF_MAX` bytes together. Any other is
//!    valid for one value. If the length is 0, the pointer may be any. A `bool` outside of a struct is 0 or 1. What is
//!    read has values; memory that a call writes first needs none: a head at its `.._init`, a storage, runs and slots,
//!    `into` of a read, and results such as `counts`. Only if the linker optimizes C and Rust together (LTO of both),
//!    give these any values too, since Rust wants values behind a reference.
//! 2. What a call may write overlaps nothing else that it is passed.
//! 3. Two calls that share memory aren't made at once, by threads or by an interrupt and what it interrupts, unless
//!    both take it by `const`. So let one task own a head, and make all calls on it. If several do, hold a mutex around
//!    each call, and around what reads fields. Only if an interrupt calls too, mask it there. Bytes that you copy
//!    yourself need neither, if one side alone writes and one alone reads: see `RingHead`.
//! 4. There is enough stack for a call.
//! 5. A storage, its runs and its slots have the same lengths in each call on a head.
//! 6. A head, its runs and its slots are written by calls of its own kind alone. For a finite receiver these are
//!    `net_base_finite_receiver_..`, and its `place` isn't written by `net_base_ring_..`. You may set a head to zeros.
//!    A call that is stopped midway, as when its task is deleted, leaves a head half changed: make it anew by `.._init`.
//! 7. Call a head's `.._init` before its other calls, or set it to zeros. With duties 5 and 6 it then is *sound*: head
//!    and runs are such as calls of its kind leave. A comment that says `Requires` needs that, and a call whose name
//!    ends in `_is_sound` tests it, for a head that anything else may have written.
//!
//! # Refusals
//!
//! All else that a call needs, it tests. A call *is refused* if an argument is nonsense: a null pointer, but to an
//! array of length 0; a struct with a `bool` that is neither 0 nor 1; or what the comment of the call names. A refused
//! call changes nothing, and returns by its type:
//!
//! - `bool`: `false`, but `net_base_fragments_differs`: `true`, as of a packet that isn't to be trusted
//! - a status: its `NET_BASE_.._REFUSED`, which is never returned for anything else
//! - `size_t`: `NET_BASE_NONE`
//! - `uint64_t`: `UINT64_MAX`
//! - `uint16_t`: 0
//! - a struct: the same in its first field, and in the others what the comment of the call says
//! - `void`: nothing
//!
//! `false`, `NET_BASE_NONE` and 0 can also be the result of a call that is done. A call that returns a `bool`, and
//! whose comment asks no question, returns `true` if it is done. A status is 0 if the call is done, as in other
//! libraries of C; only `enum net_base_arrival_status`, which says what to do with a segment, has no 0.
//!
//! # What C writes itself
//!
//! There is no export for these:
//!
//! - moments and lengths of time: `+`, `-`, `<` on `int64_t` and `uint64_t`, and `__builtin_add_overflow` where a sum
//!   may not fit. A moment is later than an earlier one by `(uint64_t)later - (uint64_t)earlier`
//! - sequence numbers: they are added and subtracted as `uint32_t`, and one is later if `(int32_t)(later - number) > 0`
//! - the bytes of a span: `contiguous` from `from` on, and the rest from 0 on. `if (!ring.length)
//!   net_base_ring_init(&ring)` has all free elements contiguous
//! - waiting range k, of `held.used`: it begins `held.first_start + runs[k].start` above the first missing position
//! - the window of a header: `(uint64_t)window << scale`, and of a SYN without `scale`, which is at most 14; the
//!   smallest one for a storage: `while (capacity >> scale > 65535 && scale < 14) scale++`
//! - the payload of each fragment but the last: `(mtu - header) & ~7`; whether a packet has waited too long:
//!   `fragments.expires_at < now`; whether a sum with its checksum is right: `net_base_parts_sum_checksum` is 0
//!
//! # Traps
//!
//! If you keep the duties, no call panics. If a call that breaks duty 5, 6 or 7 would, the program stops: at `ud2` on
//! x86 (exception 6), `udf` on ARM (the UsageFault of a Cortex-M, the HardFault where that isn't enabled and on M0,
//! else an undefined instruction), `unimp` on RISC-V (exception 2), elsewhere in an endless loop. Under Linux that is
//! SIGILL. The library prints nothing, and has no symbol to hook. While the duties are kept, each sum is proved to fit
//! its type; otherwise one may wrap.
#![tactic(auto)]

pub mod answer_limit;
pub mod finite_receiver;
pub mod fragments;
pub mod heads;
pub mod packets;
pub mod receiver;
pub mod receiving_end;
pub mod refusals;
pub mod results;
pub mod retransmission;
pub mod sending_end;
pub mod sequence_number;
