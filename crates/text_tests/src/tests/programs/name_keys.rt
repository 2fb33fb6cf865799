//! Names that were made up so that they collide.
use super::fault_of;
use std::alloc::Global;
use std::hash::BuildHasher;
use std::process::Abort;
use std::test::Fail;
use std::time::Instant;
use task_program::name_key::NameKey;

/// Under the fixed key the hasher's state behind its first 16 bytes is the 8 bytes that follow, and
/// a product with zero forgets all else. It was searched for with a plain program.
const COLLIDING: &str = "Kuxo0343OZaYBI_9gQiE18r";

/// The same but for the last byte, so no product is zero.
const PLAIN: &str = "Kuxo0343OZaYBI_9gQiE18q";

#[test]
fn keys_tell_names_apart(rt: HostRuntime) {
    let one = "Kuxo0343OZaYBI_9gQiE18r00000001";
    let other = "Kuxo0343OZaYBI_9gQiE18r00000002";
    let fixed = NameKey::fixed();
    assert!(rt; fixed.hash_one(one) == fixed.hash_one(other));
    for key in [
        NameKey::of_number(0),
        NameKey::of_number(1),
        NameKey::of_text(b""),
        NameKey::of_text(b"a"),
        NameKey::of_text(b"b"),
    ] {
        assert!(rt; key.hash_one(one) != key.hash_one(other));
        assert!(rt; key.hash_one(PLAIN) != fixed.hash_one(PLAIN));
    }
    let first = NameKey::of_text(b"a").hash_one(one);
    assert!(rt; first != NameKey::of_text(b"b").hash_one(one));
    assert!(rt; first == NameKey::of_text(b"a").hash_one(one));
}

/// Adds a task whose 32 names are this, the task's number and a number of their own.
fn add_task(text: &mut String, alloc: Global, begin: &str, task: u32) -> Result<(), Fail> {
    text.push_str("task depend(out: ")?;
    for place in 0..32u32 {
        let comma = if place == 0 { "" } else { ", " };
        let name = format!(in alloc; "{comma}{begin}{task:04}{place:04}")?;
        text.push_str(name.as_str())?;
    }
    text.push_str(") { work 1 }\n")?;
    Ok(())
}

/// A text of 30,016 such names, 31 bytes each, which is nearly as many as a text can have.
fn text_of(alloc: Global, begin: &str) -> Result<String, Fail> {
    let mut text = String::from_str(alloc, "omptasks 1\n")?;
    for task in 0..938u32 {
        add_task(&mut text, alloc, begin, task)?;
    }
    Ok(text)
}

/// No clause speaks of time. Under the fixed key these names take some 400 times as long as others.
#[test]
fn colliding_names_take_no_longer(rt: HostRuntime) -> Result<(), Fail> {
    let alloc = rt.alloc();
    let text = text_of(alloc, PLAIN)?;
    let began = Instant::now(&rt)?;
    assert_eq!(rt; fault_of(alloc, text.as_bytes()), None);
    let plain = began.elapsed(&rt)?;
    let text = text_of(alloc, COLLIDING)?;
    let began = Instant::now(&rt)?;
    assert_eq!(rt; fault_of(alloc, text.as_bytes()), None);
    let colliding = began.elapsed(&rt)?;
    assert!(rt; colliding.as_micros() / 40 <= plain.as_micros());
    Ok(())
}
