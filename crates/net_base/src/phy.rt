//! Network devices: their frames, tokens and capabilities, and a device that receives what it
//! sends.
ghost use Rattle.std.specs.Prelude.{◌≡◌, ◌↔◌, IsTrue};
ghost use Rattle.net_base.specs.Phy.{is_verified, is_computed, no_checksums, HasIpMtu, ip_mtu_of, FitsIpHeader};
ghost use Rattle.net_base.specs.Phy.{fragment_size_of};

mod device;
mod echo;
mod frame_lists;
pub mod laws;
pub mod loopback;
mod non_zero;

pub use device::{Device, RxToken, TxToken};
pub use echo::echo_once;
pub use frame_lists::FrameLists;
pub use loopback::Loopback;
pub use non_zero::{NonZeroU16, NonZeroUsize};

/// The payload of each IPv4 fragment except the last is a multiple of this many bytes.
///
/// ```
/// assert_eq!(net_base::phy::IPV4_FRAGMENT_PAYLOAD_ALIGNMENT, 8);
/// ```
pub const IPV4_FRAGMENT_PAYLOAD_ALIGNMENT: usize = 8;

/// The bytes of an Ethernet header.
const ETHERNET_HEADER_LEN: usize = 14;

/// The metadata of a packet, besides its bytes. By default the identifier is 0, and no segmentation
/// is asked for.
///
/// ```
/// let mut meta = net_base::phy::PacketMeta::default();
/// meta.id = 15;
/// ```
#[derive(Debug, PartialEq, Eq, Hash, Clone, Copy, Default)]
pub struct PacketMeta {
    /// The identifier that the user or the device gave to the packet.
    pub id: u32,
    /// The payload bytes of each segment that the device is asked to cut the packet into, not
    /// counting the headers that it repeats; `None` asks for no segmentation.
    pub segmentation_offload_size: Option<NonZeroU16>,
}

/// How the stack handles the checksums of one protocol; the device does the rest.
///
/// ```
/// # use net_base::phy::Checksum;
/// assert!(Checksum::default().rx() && Checksum::default().tx());
/// ```
#[derive(Debug, Clone, Copy, Default)]
pub enum Checksum {
    /// Verifies them when receiving and computes them when sending.
    #[default]
    Both,
    /// Verifies them when receiving.
    Rx,
    /// Computes them when sending.
    Tx,
    /// Leaves them alone.
    None,
}

impl Checksum {
    /// Returns whether checksums are verified when receiving.
    ///
    /// ```
    /// # use net_base::phy::Checksum;
    /// assert!(Checksum::Rx.rx() && !Checksum::Tx.rx());
    /// ```
    #[must_use]
    pub fn rx(&self) -> bool
        ensures { result ≡ is_verified self.now }
    {
        matches!(self, Checksum::Both | Checksum::Rx)
    }

    /// Returns whether checksums are computed when sending.
    ///
    /// ```
    /// # use net_base::phy::Checksum;
    /// assert!(Checksum::Tx.tx() && !Checksum::Rx.tx());
    /// ```
    #[must_use]
    pub fn tx(&self) -> bool
        ensures { result ≡ is_computed self.now }
    {
        matches!(self, Checksum::Both | Checksum::Tx)
    }
}

/// How the stack handles the checksums of each protocol. By default it verifies and computes all of
/// them.
///
/// ```
/// # use net_base::phy::{Checksum, ChecksumCapabilities};
/// let mut checksums = ChecksumCapabilities::default();
/// checksums.udp = Checksum::Tx;
/// ```
#[derive(Debug, Clone, Default, Drop)]
pub struct ChecksumCapabilities {
    /// Of IPv4 headers.
    pub ipv4: Checksum,
    /// Of UDP datagrams.
    pub udp: Checksum,
    /// Of TCP segments.
    pub tcp: Checksum,
    /// Of ICMPv4 messages.
    pub icmpv4: Checksum,
    /// Of ICMPv6 messages.
    pub icmpv6: Checksum,
}

impl ChecksumCapabilities {
    /// Returns the capabilities under which the stack verifies and computes no checksum of any
    /// protocol.
    ///
    /// ```
    /// # use net_base::phy::ChecksumCapabilities;
    /// assert!(!ChecksumCapabilities::ignored().tcp.rx());
    /// ```
    #[must_use]
    pub fn ignored() -> ChecksumCapabilities
        ensures { result ≡ no_checksums }
    {
        ChecksumCapabilities {
            ipv4: Checksum::None,
            udp: Checksum::None,
            tcp: Checksum::None,
            icmpv4: Checksum::None,
            icmpv6: Checksum::None,
        }
    }
}

/// The capabilities of a device. Nothing here is enforced: a layer above should keep to it.
///
/// By default the medium is Ethernet, the longest frame has 0 bytes, bursts have no limit, the
/// stack handles all checksums and the device cuts no segments.
///
/// ```
/// # use net_base::phy::{DeviceCapabilities, Medium};
/// let mut capabilities = DeviceCapabilities::default();
/// capabilities.max_transmission_unit = 1_514;
/// assert_eq!((capabilities.medium, capabilities.ip_mtu()), (Medium::Ethernet, 1_500));
/// ```
#[derive(Debug, Clone, Default, Drop)]
pub struct DeviceCapabilities {
    /// The kind of the device's frames.
    pub medium: Medium,
    /// The bytes of the longest frame. On Ethernet the 14 bytes of the Ethernet header are counted,
    /// and the frame check sequence is not: it is the IP MTU plus 14. The MTU of an Ethernet device
    /// that an operating system names is the IP MTU, mostly 1500, which is 1514 here.
    pub max_transmission_unit: usize,
    /// How many frames may be sent or received at once; `None` if there is no limit.
    pub max_burst_size: Option<usize>,
    /// How the stack handles checksums; the device does the rest.
    pub checksum: ChecksumCapabilities,
    /// The segmentation that the device can do for the stack.
    pub segmentation: SegmentationCapabilities,
}

impl DeviceCapabilities {
    /// Returns whether the longest frame has room for the header of its medium, which `ip_mtu`
    /// needs.
    ///
    /// ```
    /// # use net_base::phy::DeviceCapabilities;
    /// assert!(!DeviceCapabilities::default().has_ip_mtu());
    /// ```
    #[must_use]
    pub fn has_ip_mtu(&self) -> bool
        ensures { IsTrue result ↔ HasIpMtu self.now }
    {
        match self.medium {
            Medium::Ethernet => self.max_transmission_unit >= ETHERNET_HEADER_LEN,
            Medium::Ip => true,
        }
    }

    /// Returns the bytes of the longest IP packet: those of the longest frame, less 14 on Ethernet.
    ///
    /// ```
    /// # use net_base::phy::{DeviceCapabilities, Medium};
    /// let mut capabilities = DeviceCapabilities::default();
    /// capabilities.max_transmission_unit = 1_500;
    /// assert_eq!(capabilities.ip_mtu(), 1_486);
    /// capabilities.medium = Medium::Ip;
    /// assert_eq!(capabilities.ip_mtu(), 1_500);
    /// ```
    ///
    /// # Requires
    ///
    /// The MTU has room for the medium's header, as `has_ip_mtu` tests.
    #[track_caller]
    #[must_use]
    pub fn ip_mtu(&self) -> usize
        requires has_ip_mtu { HasIpMtu self.now }
        ensures { result ≡ ip_mtu_of self.now }
    {
        prove!(self.has_ip_mtu(), "attempt to subtract with overflow");
        match self.medium {
            Medium::Ethernet => self.max_transmission_unit - ETHERNET_HEADER_LEN,
            Medium::Ip => self.max_transmission_unit,
        }
    }

    /// Returns whether the longest IP packet has room for an IP header of `ip_header_len` bytes, which
    /// `max_ipv4_fragment_size` needs.
    ///
    /// ```
    /// # use net_base::phy::DeviceCapabilities;
    /// let mut capabilities = DeviceCapabilities::default();
    /// capabilities.max_transmission_unit = 34;
    /// assert!(capabilities.fits_ip_header(20) && !capabilities.fits_ip_header(24));
    /// ```
    #[must_use]
    pub fn fits_ip_header(&self, ip_header_len: usize) -> bool
        ensures { IsTrue result ↔ FitsIpHeader self.now ip_header_len }
    {
        self.has_ip_mtu() && ip_header_len <= self.ip_mtu()
    }

    /// Returns the bytes of the longest payload of an IPv4 fragment after an IP header of
    /// `ip_header_len` bytes: the rest of the longest IP packet, down to a multiple of 8.
    ///
    /// ```
    /// # use net_base::phy::{DeviceCapabilities, Medium};
    /// let mut capabilities = DeviceCapabilities::default();
    /// capabilities.medium = Medium::Ip;
    /// capabilities.max_transmission_unit = 1_501;
    /// assert_eq!(capabilities.max_ipv4_fragment_size(20), 1_480);
    /// ```
    ///
    /// # Requires
    ///
    /// The MTU has room for the medium's header and this one, as `fits_ip_header` tests.
    #[track_caller]
    #[must_use]
    pub fn max_ipv4_fragment_size(&self, ip_header_len: usize) -> usize
        requires fits_ip_header { FitsIpHeader self.now ip_header_len }
        ensures { result ≡ fragment_size_of self.now ip_header_len }
    {
        prove!(
            self.fits_ip_header(ip_header_len),
            "attempt to subtract with overflow"
        );
        let room = self.ip_mtu() - ip_header_len;
        let size = room / IPV4_FRAGMENT_PAYLOAD_ALIGNMENT * IPV4_FRAGMENT_PAYLOAD_ALIGNMENT;
        prove!(size <= room, "in any `usize`");
        size
    }
}

/// The largest buffer, in bytes, that the device cuts into segments for each protocol pair; `None`,
/// the default, if it cuts none. On Ethernet the 14 bytes of the Ethernet header are counted,
/// and the frame check sequence is not.
///
/// ```
/// use core::num::NonZeroUsize;
/// use net_base::phy::SegmentationCapabilities;
///
/// let mut segmentation = SegmentationCapabilities::default();
/// segmentation.tcpv4 = NonZeroUsize::new(65_549);
/// assert!(segmentation.tcpv6.is_none());
/// ```
#[derive(Debug, Clone, Default, Drop)]
pub struct SegmentationCapabilities {
    /// TCP over IPv4.
    pub tcpv4: Option<NonZeroUsize>,
    /// TCP over IPv6.
    pub tcpv6: Option<NonZeroUsize>,
}

/// The kind of a device's frames.
///
/// ```
/// # use net_base::phy::Medium;
/// assert_eq!(Medium::default(), Medium::Ethernet);
/// ```
#[derive(Debug, PartialEq, Eq, Clone, Copy, Default)]
pub enum Medium {
    /// Ethernet frames: each begins with an Ethernet header of 14 bytes.
    #[default]
    Ethernet,
    /// IP packets with no header before them.
    Ip,
}
