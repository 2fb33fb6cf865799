//! The locations of depend items inside loops.
ghost use Rattle.std.specs.Prelude.{◌≡◌, ◌++◌, reverse, IfOk, OnOk};
ghost use Rattle.std.specs.String.{string_bytes};
ghost use Rattle.task_program.specs.Subscripts.{subscript};
ghost use Rattle.task_program.specs.Expansion.{value_of_variable, subscript_of, is_negative};
ghost use Rattle.task_program.specs.Expansion.{size_of, index_fits, index_line};

use crate::AllocFault;
use loop_text::loops::{Index, LoopItem};
use program_text::limits::LARGEST_INDEX;
use std::alloc::Global;

fn put_subscript(out: &mut String, is_negative: bool, size: u64) -> Result<(), AllocFault>
    ensures { OnOk result (string_bytes out.new
        ≡ string_bytes out.old ++ subscript is_negative size) }
{
    out.push_str("[")?;
    if is_negative {
        out.push_str("-")?;
    }
    write!(out, "{size}]")
}

/// The value of a variable, by the number of loops between its own and this place.
fn value_of(values: &[u32], variable: Option<u32>) -> u32
    ensures { result ≡ value_of_variable (reverse values.now) variable }
{
    match variable {
        Some(variable) => {
            let number = variable as usize;
            if number < values.len() {
                values[values.len() - 1 - number]
            } else {
                0
            }
        }
        None => 0,
    }
}

fn is_negative(values: &[u32], index: Index) -> bool
    ensures { result ≡ is_negative (reverse values.now) index }
{
    index.is_minus && value_of(values, index.variable) < index.by
}

/// How far the value of an index is from 0.
fn size_of(values: &[u32], index: Index) -> u64
    ensures { result ≡ size_of (reverse values.now) index }
{
    let value = u64::from(value_of(values, index.variable));
    let by = u64::from(index.by);
    if !index.is_minus {
        value + by
    } else if value < by {
        by - value
    } else {
        value - by
    }
}

/// Whether an item's index is in range.
pub fn index_fits(values: &[u32], index: Option<Index>) -> bool
    ensures { result ≡ index_fits (reverse values.now) index }
{
    match index {
        Some(index) => size_of(values, index) <= LARGEST_INDEX,
        None => true,
    }
}

/// The line of an index, 0 where there is none.
pub fn index_line(index: Option<Index>) -> u32
    ensures { result ≡ index_line index }
{
    match index {
        Some(index) => index.line,
        None => 0,
    }
}

/// The text of a location.
pub fn location(alloc: Global, values: &[u32], item: &LoopItem) -> Result<String, AllocFault>
    ensures { IfOk result (λ location.
        string_bytes location ≡ item.now.name ++ subscript_of (reverse values.now) item.now.index) }
{
    let mut location = String::from_str(alloc, item.name.as_str())?;
    if let Some(index) = item.index {
        put_subscript(
            &mut location,
            is_negative(values, index),
            size_of(values, index),
        )?;
    }
    Ok(location)
}
