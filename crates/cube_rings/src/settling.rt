//! Holding the receipts of the feeders' links against what the builders received.
ghost use Rattle.std.specs.Prelude.{◌≡◌, ◌≤◌, ◌<◌, false, map, vec_len, length, IfOk, IfErr, IfSome, IsErrOf, IsFalse, IsTrue};
ghost use Rattle.std.specs.List.{All};
ghost use Rattle.cube_rings.specs.Ends.{HasNoStop};
ghost use Rattle.cube_rings.specs.Settling.{received_on, received_by, kept_of, receipt_of, IsOfLink, Begins, FitLinks, IsOneWanting, BeginReceipts, AllFitLinks, AllBegin, SettlesBuilders, StopsFeeding};

use crate::ends::first_unsealed;
use crate::fault::FeedingFault;
use crate::gatherer::Gatherer;
use crate::lots::LotInlet;
use crate::parcel::FeederEnd;

// Holds the receipt of the link to a builder, if one was given, against the link's inlet.
fn hold(builder: usize, end: &mut FeederEnd, inlet: &mut LotInlet)
    requires builder { builder < 8 }
    requires fits { IfSome (receipt_of end.old builder) (IsOfLink (received_on inlet.old)) }
    ensures end { end.new ≡ end.old }
    ensures received { received_on inlet.new ≡ received_on inlet.old }
    ensures begins { IfSome (receipt_of end.old builder) (Begins (received_on inlet.old)) }
{
    if let Some(receipt) = &mut end.receipts[builder] {
        inlet.see_all(receipt);
    }
}

// Holds the receipts of all sources' links to a builder against its inlets.
fn hold_builder(builder: usize, ends: &mut Vec<FeederEnd>, inlets: &mut Vec<LotInlet>)
    requires builder { builder < 8 }
    requires fit { FitLinks builder ends.old.items (map received_on inlets.old.items) }
    ensures ends { ends.new.items ≡ ends.old.items }
    ensures received { map received_on inlets.new.items ≡ map received_on inlets.old.items }
    ensures begin { BeginReceipts builder ends.old.items (map received_on inlets.old.items) }
{
    for source in 0..ends.len() {
        hold(builder, &mut ends[source], &mut inlets[source]);
    }
}

// Holds all receipts against the builders' inlets.
fn hold_all<B: Drop>(ends: Vec<FeederEnd>, gatherers: Vec<Gatherer<B>>) -> Vec<Gatherer<B>>
    requires few { vec_len gatherers ≤ 8 }
    requires fit { AllFitLinks ends.items (map received_by gatherers.items) }
    ensures kept { map kept_of result.items ≡ map kept_of gatherers.items }
    ensures begin { AllBegin ends.items (map received_by gatherers.items) }
{
    let mut ends = ends;
    let mut gatherers = gatherers;
    for builder in 0..gatherers.len() {
        hold_builder(builder, &mut ends, &mut gatherers[builder].inlets);
    }
    gatherers
}

// Whether memory ran out for a builder.
fn is_wanting<B: Drop>(gatherers: &[Gatherer<B>]) -> bool
    ensures none { IsFalse result → All (λ gatherer. gatherer.wanting ≡ false) gatherers.now }
    ensures some { IsTrue result → IsOneWanting gatherers.now }
{
    for gatherer in gatherers {
        if gatherer.wanting {
            return true;
        }
    }
    false
}

/// Tells why the ends of feeders that didn't stop and the builders make no run, or gives the builders back, each receipt
/// held against its link.
///
/// The first fault of these: out of memory, the lowest source that lacks a receipt. A link that gave its end has nothing
/// left that its receipt names.
pub fn settle<B: Drop>(
    ends: Vec<FeederEnd>,
    gatherers: Vec<Gatherer<B>>,
) -> Result<Vec<Gatherer<B>>, FeedingFault>
    requires sources { vec_len ends ≤ 64 }
    requires builders { (1 ≤ vec_len gatherers) × (vec_len gatherers ≤ 8) }
    requires fit { AllFitLinks ends.items (map received_by gatherers.items) }
    requires good { All HasNoStop ends.items }
    ensures ok { IfOk result (λ settled. SettlesBuilders ends.items gatherers.items settled.items) }
    ensures err { IfErr result (StopsFeeding (vec_len gatherers) ends.items) }
    ensures full { IsErrOf result FeedingFault.Full → IsOneWanting gatherers.items }
{
    if is_wanting(&gatherers) {
        return Err(FeedingFault::Full);
    }
    if let Some(source) = first_unsealed(&ends, gatherers.len() as u32) {
        return Err(FeedingFault::Unsealed { source });
    }
    Ok(hold_all(ends, gatherers))
}
