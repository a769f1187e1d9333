//! Sizes of packets and fragments that a device's capabilities allow.
use crate::assertions::assert_holds;
use net_base::phy::{DeviceCapabilities, Medium};

/// Returns capabilities with this medium and this greatest size of a frame, and otherwise the
/// default ones.
fn with_size(medium: Medium, max_transmission_unit: usize) -> DeviceCapabilities {
    let mut capabilities = DeviceCapabilities::default();
    capabilities.medium = medium;
    capabilities.max_transmission_unit = max_transmission_unit;
    capabilities
}

/// Returns the greatest size of an IP packet, if there is one.
fn ip_mtu(capabilities: &DeviceCapabilities) -> Option<usize> {
    if capabilities.has_ip_mtu() {
        Some(capabilities.ip_mtu())
    } else {
        None
    }
}

/// Returns the greatest size of a fragment after a header of 20 bytes, if such a header fits.
fn fragment_size(capabilities: &DeviceCapabilities) -> Option<usize> {
    if capabilities.fits_ip_header(20) {
        Some(capabilities.max_ipv4_fragment_size(20))
    } else {
        None
    }
}

/// A medium and the greatest size of a frame, with those of an IP packet and of a fragment.
type Row = (Medium, usize, Option<usize>, Option<usize>);

/// Returns whether the sizes are those of the row.
fn has_sizes((medium, frame, packet, fragment): Row) -> bool {
    let capabilities = with_size(medium, frame);
    ip_mtu(&capabilities) == packet && fragment_size(&capabilities) == fragment
}

#[test]
fn sizes_that_fit(rt: HostRuntime) {
    for row in [
        (Medium::Ethernet, 1514, Some(1500), Some(1480)),
        (Medium::Ethernet, 1513, Some(1499), Some(1472)),
        (Medium::Ip, 1500, Some(1500), Some(1480)),
    ] {
        assert_holds(&rt, has_sizes(row), ("bytes", row.1));
    }
}

#[test]
fn sizes_that_do_not_fit(rt: HostRuntime) {
    let medium = DeviceCapabilities::default().medium;
    assert_holds(&rt, has_sizes((medium, 14, Some(0), None)), ("step", 1));
    assert_holds(&rt, has_sizes((medium, 13, None, None)), ("step", 2));
    let by_default = DeviceCapabilities::default();
    assert_holds(
        &rt,
        !by_default.has_ip_mtu() && !by_default.fits_ip_header(0),
        ("step", 3),
    );
}
