//! Laws of all values of the types of this module, and of its constant. No function here changes
//! anything.

ghost use Rattle.std.specs.Prelude.{◌≡◌, ◌++◌};
ghost use Rattle.std.specs.Hash as fed;
ghost use Rattle.net_base.specs.Phy.{all_checksums, default_capabilities, no_segmentation, no_metadata};
ghost use Rattle.net_base.specs.Values.{ClonesAreSame, ComparesValues};
ghost use Rattle.net_base.specs.declared.phy.Checksum.TheVariants.{Both};
ghost use Rattle.net_base.specs.declared.phy.Medium.TheVariants.{Ethernet};

use crate::phy::{
    Checksum, ChecksumCapabilities, DeviceCapabilities, IPV4_FRAGMENT_PAYLOAD_ALIGNMENT, Medium,
    NonZeroU16, NonZeroUsize, PacketMeta, RxToken, SegmentationCapabilities, TxToken, loopback,
};
use std::alloc::Allocator;
use std::hash::Hash;

/// States that the payload of each IPv4 fragment except the last is a multiple of 8 bytes.
pub fn fragment_payload_alignment() -> usize
    ensures { result ≡ 8 }
{
    IPV4_FRAGMENT_PAYLOAD_ALIGNMENT
}

/// States that the tokens of a loopback device have no metadata.
pub fn loopback_tokens<A: Allocator + Copy>(rx: &loopback::RxToken<A>, tx: &loopback::TxToken)
    ensures received { ⟦<loopback::RxToken<A> as RxToken>⟧.is_plain rx.now }
    ensures sent { ⟦<loopback::TxToken as TxToken>⟧.is_plain tx.now }
{}

/// States that a clone of a value is the same value, and is never refused.
pub fn clones()
    ensures packet_meta { ClonesAreSame ⟦<PacketMeta as Clone>⟧.is_clone
        ⟦<PacketMeta as Clone>⟧.is_infallible }
    ensures capabilities { ClonesAreSame ⟦<DeviceCapabilities as Clone>⟧.is_clone
        ⟦<DeviceCapabilities as Clone>⟧.is_infallible }
    ensures checksums { ClonesAreSame ⟦<ChecksumCapabilities as Clone>⟧.is_clone
        ⟦<ChecksumCapabilities as Clone>⟧.is_infallible }
    ensures checksum { ClonesAreSame ⟦<Checksum as Clone>⟧.is_clone
        ⟦<Checksum as Clone>⟧.is_infallible }
    ensures segmentation { ClonesAreSame ⟦<SegmentationCapabilities as Clone>⟧.is_clone
        ⟦<SegmentationCapabilities as Clone>⟧.is_infallible }
    ensures medium { ClonesAreSame ⟦<Medium as Clone>⟧.is_clone
        ⟦<Medium as Clone>⟧.is_infallible }
    ensures nonzero_u16 { ClonesAreSame ⟦<NonZeroU16 as Clone>⟧.is_clone
        ⟦<NonZeroU16 as Clone>⟧.is_infallible }
    ensures nonzero_usize { ClonesAreSame ⟦<NonZeroUsize as Clone>⟧.is_clone
        ⟦<NonZeroUsize as Clone>⟧.is_infallible }
{}

/// States that two values are equal exactly if they are the same.
pub fn equality()
    ensures packet_meta { ComparesValues ⟦<PacketMeta as PartialEq>⟧.eq }
    ensures medium { ComparesValues ⟦<Medium as PartialEq>⟧.eq }
    ensures nonzero_u16 { ComparesValues ⟦<NonZeroU16 as PartialEq>⟧.eq }
    ensures nonzero_usize { ComparesValues ⟦<NonZeroUsize as PartialEq>⟧.eq }
{}

/// States what a hasher is fed: the identifier and the segment size of a packet's metadata, or a number.
pub fn hashes()
    ensures packet_meta { (x : _) → ⟦<PacketMeta as Hash>⟧.hash_input x
        ≡ fed.u32 x.id ++ fed.option fed.u16 x.segmentation_offload_size }
    ensures nonzero_u16 { (x : _) → ⟦<NonZeroU16 as Hash>⟧.hash_input x ≡ fed.u16 x }
    ensures nonzero_usize { (x : _) → ⟦<NonZeroUsize as Hash>⟧.hash_input x ≡ fed.usize x }
{}

/// States which values are the default: the identifier 0 and no segmentation; Ethernet, frames of 0 bytes, no limit on
/// bursts, all checksums, verified and computed, and no segmentation.
pub fn defaults()
    ensures packet_meta { (x : _) → ⟦<PacketMeta as Default>⟧.is_default x → x ≡ no_metadata }
    ensures capabilities { (x : _) → ⟦<DeviceCapabilities as Default>⟧.is_default x →
        x ≡ default_capabilities }
    ensures checksum { (x : _) → ⟦<Checksum as Default>⟧.is_default x → x ≡ Both }
    ensures checksums { (x : _) → ⟦<ChecksumCapabilities as Default>⟧.is_default x →
        x ≡ all_checksums }
    ensures segmentation { (x : _) → ⟦<SegmentationCapabilities as Default>⟧.is_default x →
        x ≡ no_segmentation }
    ensures medium { (x : _) → ⟦<Medium as Default>⟧.is_default x → x ≡ Ethernet }
{}
