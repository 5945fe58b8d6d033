//! Where a caller may watch the links of a run, and hold it.
use crate::gatherer::Place;

/// What is called around the parcels of a run (this project's choice). A gate that doesn't return holds its thread.
///
/// Sources are numbered from 1 and builders from 0; `k` counts the parcels of the link of both, from 1, its end
/// among them.
pub trait Gate {
    /// Called once before the first try to send a link's `k`-th parcel.
    fn before_offer(&self, source: u32, builder: u32, k: u64);

    /// Called once after a link's `k`-th parcel was taken.
    fn after_take(&self, source: u32, builder: u32, k: u64);
}

/// A gate that is always open: it does nothing.
#[derive(Clone, Copy, Debug)]
pub struct OpenGate;

impl Gate for OpenGate {
    fn before_offer(&self, _source: u32, _builder: u32, _k: u64) {}

    fn after_take(&self, _source: u32, _builder: u32, _k: u64) {}
}

/// A link, by the number that its builder has for its source and by the builder's place, with the gate that is called
/// around its parcels.
#[derive(Drop)]
pub(crate) struct GatedLink<'g, G: Gate> {
    pub source: u32,
    pub place: Place,
    pub gate: &'g G,
}

impl<'g, G: Gate> GatedLink<'g, G> {
    /// Tells the gate that the link's `k`-th parcel was taken.
    pub(crate) fn tell(&self, k: u64) {
        let source = self.place.before.saturating_add(self.source);
        self.gate.after_take(source, self.place.builder, k);
    }
}
