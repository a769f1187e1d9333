//! What a sender has sent.
ghost use Rattle.std.specs.Prelude.{◌≡◌, ◌-◌};

/// How far a stream was acknowledged, and how far it was sent, as positions: RFC 9293's SND.UNA and SND.NXT. The FIN
/// has the position after the last byte's.
///
/// ```
/// use net_base::finite::FiniteSender;
/// use net_base::finite::SentNumbers;
///
/// let mut storage = [0u8; 8];
/// let mut sender = FiniteSender::new_at(&mut storage[..], 100);
/// assert!(sender.write(b"abc") == 3 && sender.mark_sent(102));
/// let numbers: SentNumbers = sender.sent_numbers();
/// assert_eq!((numbers.first_unacknowledged, numbers.sent, numbers.flight_size()), (100, 102, 2));
/// ```
#[derive(Copy, Clone, Debug, PartialEq, Eq, Hash)]
pub struct SentNumbers {
    /// The first position that isn't acknowledged.
    pub first_unacknowledged: u64,
    /// The position after the last one that was sent.
    pub sent: u64,
}

impl SentNumbers {
    /// Returns RFC 5681's flight size, `sent` minus `first_unacknowledged`. It counts what was lost or acknowledged in
    /// between. It is 0 if `sent` is below `first_unacknowledged`.
    #[must_use]
    pub const fn flight_size(self) -> u64
        ensures { result ≡ self.sent - self.first_unacknowledged }
    {
        self.sent.saturating_sub(self.first_unacknowledged)
    }
}
