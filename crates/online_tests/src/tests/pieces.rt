//! Texts in pieces: however a text is cut, the answer is that of the whole.
ghost use Rattle.std.specs.Prelude.{◌≤◌, length};
ghost use Rattle.large_text.specs.declared.limits.TheConstants.{LARGEST_PIECE};

use super::{Numbers, numbers_of};
use large_text::fault::LargeFault;
use large_text::{TextMeter, measure_text};
use online_span::Meter;
use std::alloc::Global;
use std::process::Abort;
use std::test::Fail;
use task_program::fault::ReadKind;
use task_program::name_key::NameKey;

/// With comments, CR and names to cut, and with faults early, late and at the end.
static TEXTS: [&str; 11] = [
    "omptasks 1 # a\r\nwork 12 task depend(inout: ab) { # } {\r\nwork 3 }\ntaskwait work 4",
    "omptasks 1\n\n\ntask { work 1 }\n# the end",
    "omptasks 1 work 345",
    "omptasks 1\nwork 5\n\nwork $ work\n}\n",
    "omptasks 1\ntask {\ntaskgroup {\nwork 1\n",
    "omptasks 1\nwork\n\n",
    "omptasks 2\nfor ij 1 3 {\r\nwork 12 task depend(inout: a[ij-1]) { # } {\nwork 3 }\n}",
    "omptasks 2 # a\nfor i 0 1 {\ntask depend(in: a[i+1000000]) { } }\n",
    "omptasks 2\nfor i 0 1 {\nwork 1\n",
    "omptasks 3\nwork 1\n",
    "",
];

/// The numbers of a text, or its fault and the line.
type Told = Result<Numbers, (ReadKind, u64)>;

fn told(measured: Result<Meter, LargeFault>) -> Told {
    match measured {
        Ok(meter) => Ok(numbers_of(&meter)),
        Err(fault) => Err((fault.kind, fault.line)),
    }
}

fn in_two(alloc: Global, text: &[u8], cut: usize) -> Result<Meter, LargeFault>
    requires short { length text.now ≤ LARGEST_PIECE }
    requires within { cut ≤ length text.now }
{
    let (first, rest) = text.split_at(cut);
    let mut meter = TextMeter::new(alloc, NameKey::fixed());
    meter.take(first)?;
    meter.take(rest)?;
    meter.finish()
}

fn by_bytes(alloc: Global, text: &[u8]) -> Result<Meter, LargeFault>
    requires { length text.now ≤ LARGEST_PIECE }
{
    let mut meter = TextMeter::new(alloc, NameKey::fixed());
    let mut taken = 0;
    'bytes: while taken < text.len() {
        meter.take(&text[taken..taken + 1])?;
        taken += 1;
    }
    meter.finish()
}

/// Asserts the answer about a text that was cut there, or into its bytes.
fn assert_told(rt: &impl Abort, told: Told, whole: Told, text: &str, cut: Option<usize>) {
    assert_eq!(rt; told, whole, "{text} at {cut:?}");
}

#[test]
fn any_cut(rt: HostRuntime) -> Result<(), Fail> {
    for text in &TEXTS {
        let bytes = text.as_bytes();
        assert!(&rt; bytes.len() < 1000);
        let whole = told(measure_text(rt.alloc(), bytes));
        for cut in 0..bytes.len() + 1 {
            let cut_there = told(in_two(rt.alloc(), bytes, cut));
            assert_told(&rt, cut_there, whole, text, Some(cut));
        }
        assert_told(&rt, told(by_bytes(rt.alloc(), bytes)), whole, text, None);
    }
    Ok(())
}
