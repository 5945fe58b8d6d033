//! The sales of a shop, and their cube.
ghost use Rattle.std.specs.Prelude.{◌≡◌, ◌<◌, ◌+◌, ◌^◌, [], IfOk, IfSome, OnOk, length, option_map};
ghost use Rattle.cube_library.specs.Builder.{StandsAt};
ghost use Rattle.cube_library.specs.Layout.{cube_schema};
ghost use Rattle.cube_library.specs.Ledger.{account_of};
ghost use Rattle.sales_example.specs.Sales.{TakesSale, sale};

use anyhow::{Result, bail};
use cube_library::{Builder, Change, Cube, Fact, Item, Refusal, Schema, Text};
use std::alloc::{AllocError, Global};

/// The place of the dimension `product` among those of the schema.
pub const PRODUCT: usize = 1;

/// The number of the only source.
const SHOP: u32 = 1;

/// Sales by city and product, each with what was paid, known by ids of the shop's own.
///
/// A change that doesn't fit, such as a second insert of an id, changes nothing and is among the refusals.
#[derive(Drop)]
pub struct Sales {
    schema: Schema,
    builder: Builder,
    changes: u32,
    alloc: Global,
    ghost one_source: { length builder.ledger.accounts ≡ 1 },
    ghost two_dimensions: { length (cube_schema builder.ledger.schema).dimensions ≡ 2 },
}

impl Sales {
    /// No sales yet.
    pub fn new(alloc: Global) -> Result<Sales>
        ensures { IfOk result (λ sales. StandsAt sales.builder []) }
    {
        let schema = Schema::new(
            alloc,
            &["city", "product"],
            &["cents"],
            &["count(*)", "sum(cents)", "avg(cents)"],
        )?;
        let builder = Builder::new(alloc, &schema, SHOP)?;
        Ok(Sales {
            schema,
            builder,
            changes: 0,
            alloc,
        })
    }

    /// Something was sold; `city` is null where nobody knows it.
    pub fn insert(&mut self, id: &str, city: Option<&str>, product: &str, cents: i64) -> Result<()>
        ensures { OnOk result (TakesSale self.new.changes
            (Change.Insert id.now (sale (option_map (λ text. text.now) city.entry) product.now cents))
            self.old.builder self.new.builder) }
    {
        let id = Text::from_str(self.alloc, id)?;
        let fact = fact_of(self.alloc, city, product, cents)?;
        self.take(Change::Insert { id, fact })
    }

    /// What was noted of a sale is put right.
    pub fn update(&mut self, id: &str, city: Option<&str>, product: &str, cents: i64) -> Result<()>
        ensures { OnOk result (TakesSale self.new.changes
            (Change.Update id.now (sale (option_map (λ text. text.now) city.entry) product.now cents))
            self.old.builder self.new.builder) }
    {
        let id = Text::from_str(self.alloc, id)?;
        let fact = fact_of(self.alloc, city, product, cents)?;
        self.take(Change::Update { id, fact })
    }

    /// A sale is taken back.
    pub fn delete(&mut self, id: &str) -> Result<()>
        ensures { OnOk result (TakesSale self.new.changes (Change.Delete id.now) self.old.builder self.new.builder) }
    {
        let id = Text::from_str(self.alloc, id)?;
        self.take(Change::Delete { id })
    }

    // Hands the next change to the builder.
    fn take(&mut self, change: Change) -> Result<()>
        ensures { OnOk result (TakesSale self.new.changes change self.old.builder self.new.builder) }
    {
        let Some(number) = self.next_number() else {
            drop(change);
            bail!("too many changes, or too many facts");
        };
        self.changes = number;
        let what = Ok(change);
        self.builder.apply(SHOP, Item { number, what })?;
        Ok(())
    }

    // The number of the next change; none where no change can be numbered, or no fact counted.
    fn next_number(&self) -> Option<u32>
        ensures number { IfSome result (λ number. self.now.changes + 1 ≡ number) }
        ensures room { IfSome result (λ number. self.now.builder.cube.facts + 1 < 2 ^ 64) }
    {
        if self.builder.facts() == u64::MAX {
            return None;
        }
        self.changes.checked_add(1)
    }

    /// The schema of the sales.
    pub fn schema(&self) -> &Schema
        ensures { result.now ≡ self.now.schema }
    {
        &self.schema
    }

    /// The cube of the sales that there are.
    pub fn cube(&self) -> &Cube
        ensures cube { result.now ≡ self.now.builder.cube }
        ensures dimensions { length result.now.schema.dimensions ≡ 2 }
    {
        self.builder.cube()
    }

    /// The changes that were refused: the number of each, from 1, and its code.
    pub fn refusals(&self) -> &[Refusal]
        ensures { result.now ≡ (account_of self.now.builder.ledger 1).refusals }
    {
        self.builder.refusals(SHOP)
    }
}

// The fact of a sale: a value for each dimension, and for each measure.
fn fact_of(alloc: Global, city: Option<&str>, product: &str, cents: i64) -> Result<Fact, AllocError>
    ensures { IfOk result (λ fact. fact ≡ sale (option_map (λ text. text.now) city.entry) product.now cents) }
{
    Fact::new(alloc, &[city, Some(product)], &[Some(cents)])
}
