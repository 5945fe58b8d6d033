//! Items and facts, read as those of a feed.
use crate::columns::{columns_of, push_name};
use anyhow::{Result, bail};
use cube_core::{Change, Fact, Item, Schema};
use cube_feed::{Feed, FeedFault};
use std::alloc::{AllocError, Global};

/// The item of a record.
pub fn item_of(alloc: Global, schema: &Schema, record: &str) -> Result<Item> {
    let text = feed_of(alloc, schema, record)?;
    match first_of(alloc, schema, text.as_bytes())? {
        Some(item) => Ok(item),
        None => bail!("no record"),
    }
}

// The feed of one record.
fn feed_of(alloc: Global, schema: &Schema, record: &str) -> Result<String, AllocError> {
    let mut text = String::from_str(alloc, "op,id")?;
    push_names(alloc, &mut text, schema)?;
    write!(text, "\n{record}\n")?;
    Ok(text)
}

// The first item of a feed.
fn first_of(alloc: Global, schema: &Schema, bytes: &[u8]) -> Result<Option<Item>, FeedFault> {
    let mut feed = Feed::new(alloc, schema, bytes);
    feed.next()
}

// Adds the names of the columns, in quotes, a comma before each.
fn push_names(alloc: Global, text: &mut String, schema: &Schema) -> Result<(), AllocError> {
    for column in &columns_of(alloc, schema)? {
        text.push_str(",\"")?;
        push_name(text, schema, *column)?;
        text.push_str("\"")?;
    }
    Ok(())
}

/// The fact of the fields of an insert, which stand behind its id.
pub fn fact_of(alloc: Global, schema: &Schema, fields: &str) -> Result<Fact> {
    let record = format!(in alloc; "I,1,{fields}")?;
    let item = item_of(alloc, schema, record.as_str())?;
    match item.what {
        Ok(change) => inserted(change),
        Err(fault) => bail!("{fault}"),
    }
}

fn inserted(change: Change) -> Result<Fact> {
    match change {
        Change::Insert { fact, .. } => Ok(fact),
        _ => bail!("no insert"),
    }
}
