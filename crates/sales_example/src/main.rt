//! A worked example of the library: the cube of a shop's sales, which is kept right sale by sale and asked in between.
//!
//! Its parts are to be copied: [`Sales`] wraps a builder round the calls that a shop needs, and each function below asks
//! its cube one question: for a cell, a roll-up, a slice, and the refused changes.
#![tactic(auto)]

ghost use Rattle.std.specs.Prelude.{◌≡◌, length};

mod sales;
mod text;

use anyhow::Result;
use cube_library::{CoordRef, Cube, Key, Pattern, Refusal, Row};
use sales::{PRODUCT, Sales};
use std::alloc::Global;
use text::text_of;

fn main(rt: HostRuntime) -> Result<()> {
    let mut sales = Sales::new(rt.alloc())?;
    keep_shop(&rt, rt.alloc(), &mut sales)
}

// A few changes, with questions in between.
fn keep_shop(rt: &impl Print, alloc: Global, sales: &mut Sales) -> Result<()> {
    sales.insert("a1", Some("York"), "tea", 350)?;
    sales.insert("a2", Some("York"), "coffee", 900)?;
    sales.insert("a3", None, "tea", 1200)?;
    print_city(rt, alloc, sales.cube(), "York")?;

    // Coffee was cheaper.
    sales.update("a2", Some("York"), "coffee", 450)?;
    print_above(rt, alloc, sales.cube(), "York", "coffee")?;

    // The first sale is taken back, and once more, which is refused.
    sales.delete("a1")?;
    sales.delete("a1")?;
    print_cities(rt, alloc, sales)?;
    print_refusals(rt, sales.refusals())
}

// A cell, by its key: a city over all products.
fn print_city(rt: &impl Print, alloc: Global, cube: &Cube, city: &str) -> Result<()> {
    let key = Key::new(alloc, &[CoordRef::Text(city), CoordRef::All])?;
    let count = cube.get(&key).map_or(0, |cell| cell.count());
    println!(rt; "sales in {city}: {count}")?;
    Ok(())
}

// A roll-up: what is one step above a product in a city, over all products.
fn print_above(rt: &impl Print, alloc: Global, cube: &Cube, city: &str, product: &str) -> Result<()>
    requires { length cube.now.schema.dimensions ≡ 2 }
{
    let key = Key::new(alloc, &[CoordRef::Text(city), CoordRef::Text(product)])?;
    if let Some(row) = cube.roll_up(&key, PRODUCT)? {
        print!(rt; "above {product} in {city}:\n{}", text_of(alloc, &[row])?)?;
    }
    Ok(())
}

// A slice: each city over all products.
fn print_cities(rt: &impl Print, alloc: Global, sales: &Sales) -> Result<()> {
    let rows = rows_of_cities(alloc, sales)?;
    print!(rt; "each city:\n{}", text_of(alloc, &rows)?)?;
    Ok(())
}

fn rows_of_cities(alloc: Global, sales: &Sales) -> Result<Vec<Row>> {
    let cities = Pattern::parse(alloc, sales.schema(), "?,\\A")?;
    Ok(sales.cube().slice(&cities)?)
}

fn print_refusals(rt: &impl Print, refusals: &[Refusal]) -> Result<()> {
    for refusal in refusals {
        println!(rt;
            "change {} is refused with code {}",
            refusal.number, refusal.code
        )?;
    }
    Ok(())
}
