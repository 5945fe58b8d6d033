//! Making the builders of all parts, side by side.
ghost use Rattle.std.specs.Prelude.{◌≡◌, ◌<◌, ◌++◌, ◌∷◌, [], ℕ, map, option_map, slice_index_or, vec_len, IfOk, IfSome, OnOk, Option, Some};
ghost use Rattle.cube_build.specs.Drafts.{IsMadePart};

use crate::counts::Counts;
use crate::draft::Draft;
use cube_cells::{Counted, Numbers};
use cube_rings::{Gatherer, LotInlet};
use std::alloc::{AllocError, Global};
use std::thread;
use std::thread::Threads;

/// What was counted of a part, with the inlets by which the feeds came.
#[derive(Drop)]
pub(crate) struct MadePart<N: Numbers = Counted> {
    pub builder: Counts<N>,
    pub inlets: Vec<LotInlet>,
}

// The builder of a part, whose cells over the finest grouping set so many threads make, unless memory runs out.
fn make<T: Threads + Sync>(
    rt: &T,
    threads: usize,
    gatherer: Gatherer<Draft<Counted>>,
) -> Option<MadePart>
    ensures { IfSome result (IsMadePart gatherer) }
{
    let Gatherer {
        builder: draft,
        place: _,
        inlets,
        wanting: _,
    } = gatherer;
    match draft.finish(rt, threads) {
        Ok(builder) => {
            let builder = Counts::of(builder);
            Some(MadePart { builder, inlets })
        }
        Err(_) => None,
    }
}

/// The builder of each part, where memory didn't run out for it. Each is made on a thread of its own, where one can be
/// started, and makes its cells over the finest grouping set by its share of so many threads. The only error is that
/// memory ran out.
pub(crate) fn make_all<T: Threads + Sync>(
    rt: &T,
    threads: usize,
    gatherers: Vec<Gatherer<Draft<Counted>>>,
) -> Result<Vec<Option<MadePart>>, AllocError>
    ensures count { IfOk result (λ made. vec_len made ≡ vec_len gatherers) }
    ensures each { IfOk result (λ made. (part : ℕ) (gatherer : _) (d : _) →
        part < vec_len gatherers → IfSome (slice_index_or made.items part d)
        (IsMadePart (slice_index_or gatherers.items part gatherer))) }
{
    let share = threads / gatherers.len().max(1);
    thread::map_vec(rt, gatherers, &|gatherer| make(rt, share, gatherer))
}

// The inlets of a builder, from the first source's.
#[derive(Drop)]
pub(crate) struct Links {
    pub inlets: Vec<LotInlet>,
}

/// What was counted of the first parts, in their order, with their inlets.
#[derive(Drop)]
pub(crate) struct Making {
    pub builders: Vec<Counts>,
    pub links: Vec<Links>,
}

impl Making {
    /// No builder, and room for so many. The only error is that memory ran out.
    pub fn with_room(alloc: Global, builders: usize) -> Result<Making, AllocError>
        ensures builders { IfOk result (λ making. making.builders.items ≡ []) }
        ensures links { IfOk result (λ making. making.links.items ≡ []) }
    {
        Ok(Making {
            builders: Vec::with_capacity(alloc, builders)?,
            links: Vec::with_capacity(alloc, builders)?,
        })
    }

    /// Keeps the builder of each part, in their order, with its inlets. The only error is that memory ran out, where one
    /// wasn't made too.
    pub fn keep_all(&mut self, made: Vec<Option<MadePart>>) -> Result<(), AllocError>
        requires none { self.old.builders.items ≡ [] }
        requires no_links { self.old.links.items ≡ [] }
        ensures builders { OnOk result (map (option_map (λ part. part.builder)) made.items
            ≡ map Some self.new.builders.items) }
        ensures links { OnOk result (map (option_map (λ part. part.inlets.items)) made.items
            ≡ map Some (map (λ links. links.inlets.items) self.new.links.items)) }
    {
        for one in made {
            let Some(part) = one else {
                return Err(AllocError);
            };
            self.keep(part)?;
        }
        Ok(())
    }

    /// Keeps one more. The only error is that memory ran out.
    pub fn keep(&mut self, part: MadePart) -> Result<(), AllocError>
        ensures builders { OnOk result
            (self.new.builders.items ≡ self.old.builders.items ++ part.builder ∷ []) }
        ensures links { OnOk result (map (λ links. links.inlets.items) self.new.links.items
            ≡ map (λ links. links.inlets.items) self.old.links.items
            ++ part.inlets.items ∷ []) }
    {
        let MadePart { builder, inlets } = part;
        self.builders.push(builder)?;
        self.links.push(Links { inlets })?;
        Ok(())
    }
}
