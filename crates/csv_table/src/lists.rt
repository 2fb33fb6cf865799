//! A field of many numbers.
ghost use Rattle.std.specs.Prelude.{◌≡◌, ◌++◌, ◌∷◌, [], IfOk, OnOk, flat_map, true};
ghost use Rattle.std.specs.Fmt.{decimal};
ghost use Rattle.csv_table.specs.Row.{is_plain, numbers_text};

use crate::table::digits_of;
use itoa::Buffer;
use std::alloc::{AllocError, Global};

/// Numbers with a blank between each two. No byte calls for quotes.
pub(crate) fn list_text(alloc: Global, numbers: &[u32]) -> Result<Vec<u8>, AllocError>
    ensures text { IfOk result (λ text. text.items ≡ numbers_text numbers.now) }
    ensures plain { IfOk result (λ text. is_plain text.items ≡ true) }
{
    let mut text = Vec::new(alloc);
    put_numbers(&mut text, numbers)?;
    Ok(text)
}

/// Puts numbers behind a text, with a blank between each two.
fn put_numbers(text: &mut Vec<u8>, numbers: &[u32]) -> Result<(), AllocError>
    requires { is_plain text.old.items ≡ true }
    ensures text { OnOk result (text.new.items ≡ text.old.items ++ numbers_text numbers.now) }
    ensures plain { OnOk result (is_plain text.new.items ≡ true) }
{
    match numbers {
        [] => Ok(()),
        [first, later @ ..] => {
            put_number(text, *first)?;
            put_later(text, later)
        }
    }
}

/// Puts numbers behind a text, each after a blank.
fn put_later(text: &mut Vec<u8>, numbers: &[u32]) -> Result<(), AllocError>
    requires { is_plain text.old.items ≡ true }
    ensures text { OnOk result (text.new.items
        ≡ text.old.items ++ flat_map (λ n. 32 ∷ decimal n) numbers.now) }
    ensures plain { OnOk result (is_plain text.new.items ≡ true) }
{
    for number in numbers {
        text.push(b' ')?;
        put_number(text, *number)?;
    }
    Ok(())
}

/// Puts a number behind a text.
#[tactic(auto, using(crate::proofs::WrittenRows::plain_append))]
fn put_number(text: &mut Vec<u8>, number: u32) -> Result<(), AllocError>
    requires { is_plain text.old.items ≡ true }
    ensures text { OnOk result (text.new.items ≡ text.old.items ++ decimal number) }
    ensures plain { OnOk result (is_plain text.new.items ≡ true) }
{
    let mut buffer = Buffer::new();
    text.extend_from_slice(digits_of(&mut buffer, u64::from(number)))
}
