//! A struct over a storage of any kind.
ghost use Rattle.std.specs.Prelude.{◌≡◌, ◌<◌, length, slice_get, slice_set, Some};

use net_ring::Storage;

/// The last sample of each sensor, in any storage.
#[derive(Drop)]
pub struct Samples<S: Storage<u16>> {
    /// One for each sensor.
    pub samples: S,
}

impl<S: Storage<u16>> Samples<S> {
    /// Returns the samples that the storage has.
    pub fn new(samples: S) -> Self
        ensures { result.samples ≡ samples }
    {
        Samples { samples }
    }

    /// Notes a sample of a sensor.
    pub fn note(&mut self, sensor: usize, sample: u16)
        requires { sensor < length (S.elements self.old.samples) }
        ensures { S.elements self.new.samples
            ≡ slice_set (S.elements self.old.samples) sensor sample }
    {
        *self.samples.element_mut(sensor) = sample;
    }

    /// Returns the last sample of a sensor.
    pub fn last(&self, sensor: usize) -> u16
        requires { sensor < length (S.elements self.now.samples) }
        ensures { slice_get (S.elements self.now.samples) sensor ≡ Some result }
    {
        *self.samples.element(sensor)
    }
}
