//! Sending a parcel to each builder.
ghost use Rattle.std.specs.Prelude.{◌≡◌, ◌≤◌, ◌<◌, ◌+◌, ◌∷◌, [], map, get_or, set, vec_len, length};
ghost use Rattle.std.specs.List.{All};
ghost use Rattle.cube_rings.specs.Link.{Sending};
ghost use Rattle.cube_rings.specs.Parcels.{sends};
ghost use Rattle.cube_rings.specs.declared.parcel.Parcel.{Parcel as TheParcel};
ghost use Rattle.cube_rings.specs.declared.parcel.Parcel.TheVariants.{Line, End};

use crate::gate::Gate;
use crate::lots::LotOutlet;
use crate::patience::Patience;
use cube_feed::FeedItem;
use std::sync::Wait;

/// How far a source has come with its offers to the builders.
#[derive(Drop)]
pub(crate) struct Offering<'g, G: Gate> {
    source: u32,
    gate: &'g G,
    // How many parcels of each link were begun.
    parcels: u64,
    patience: Patience,
}

impl<'g, G: Gate> Offering<'g, G> {
    /// A source that has offered nothing yet.
    pub(crate) fn new(source: u32, gate: &'g G) -> Offering<'g, G> {
        Offering {
            source,
            gate,
            parcels: 0,
            patience: Patience::new(),
        }
    }

    // Goes on to the next parcel of each link.
    fn begin_parcel(&mut self) {
        self.parcels = self.parcels.saturating_add(1);
    }

    // Calls the gate before the parcel is offered to a builder.
    fn pass_gate(&self, builder: u32) {
        self.gate.before_offer(self.source, builder, self.parcels);
    }
}

// Sends an item to a builder, as the next parcel of its link.
fn offer_item<W: Wait, G: Gate>(
    rt: &W,
    offering: &mut Offering<'_, G>,
    builder: usize,
    outlets: &mut [LotOutlet],
    item: FeedItem,
)
    requires { (builder < length outlets.old) × (length outlets.old ≤ 8) }
    ensures { (d : Sending TheParcel) → outlets.new ≡
        set outlets.old builder (sends (Line item ∷ []) (get_or outlets.old builder d)) }
{
    offering.pass_gate(builder as u32);
    outlets[builder].send_line(rt, &mut offering.patience, item);
}

/// Sends an item to each builder, in their order, as the next parcel of each link: its copies, and itself to the last.
pub(crate) fn offer_copies<W: Wait, G: Gate>(
    rt: &W,
    offering: &mut Offering<'_, G>,
    outlets: &mut [LotOutlet],
    item: FeedItem,
    copies: &mut Vec<FeedItem>,
)
    requires count { vec_len copies.old + 1 ≡ length outlets.old }
    requires few { length outlets.old ≤ 8 }
    requires equal { All (λ copy. copy ≡ item) copies.old.items }
    ensures { outlets.new ≡ map (sends (Line item ∷ [])) outlets.old }
{
    offering.begin_parcel();
    let mut builder = 0usize;
    while let Some(copy) = copies.pop() {
        offer_item(rt, offering, builder, outlets, copy);
        builder += 1;
    }
    offer_item(rt, offering, builder, outlets, item);
}

/// Sends the end to each builder, in their order, as the next parcel of each link.
pub(crate) fn offer_end<W: Wait, G: Gate>(
    rt: &W,
    offering: &mut Offering<'_, G>,
    outlets: &mut [LotOutlet],
)
    requires { length outlets.old ≤ 8 }
    ensures { outlets.new ≡ map (sends (End ∷ [])) outlets.old }
{
    offering.begin_parcel();
    let mut builder = 0u32;
    for outlet in outlets.iter_mut() {
        offering.pass_gate(builder);
        outlet.send_end(rt, &mut offering.patience);
        builder += 1;
    }
}
