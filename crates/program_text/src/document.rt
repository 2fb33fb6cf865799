//! Documents: a program text, and what follows it after a line of three hyphens.
ghost use Rattle.std.specs.Prelude.{◌≡◌};
ghost use Rattle.std.specs.Option.{option_copied};
ghost use Rattle.program_text.specs.Tokens.{is_line_feed};
ghost use Rattle.program_text.specs.Document.{is_divider, program_part, rest_part};

/// A document in its two parts.
#[derive(Clone, Copy, Debug)]
pub struct Document<'a> {
    /// The program text: the lines before the line `---`, or the whole document where it has no
    /// such line.
    pub program: &'a [u8],
    /// What stands after the line `---`, where there is one.
    pub rest: Option<&'a [u8]>,
}

/// Splits a document at its divider: the first line that is `---`, which one CR may follow. A line
/// ends before an LF, or where the document ends. The divider belongs to neither part, and the
/// program text keeps the LF of its last line.
pub fn split_document(document: &[u8]) -> Document<'_>
    ensures program { result.program.now ≡ program_part document.now }
    ensures rest { option_copied result.rest ≡ rest_part document.now }
{
    let mut start = 0;
    for line in document.split(|byte| is_line_feed(*byte)) {
        let after = start + line.len() + 1;
        if is_divider(line) {
            return Document {
                program: &document[..start],
                rest: Some(&document[after.min(document.len())..]),
            };
        }
        start = after;
    }
    Document {
        program: document,
        rest: None,
    }
}

fn is_line_feed(byte: u8) -> bool
    ensures { result ≡ is_line_feed byte }
{
    byte == b'\n'
}

fn is_divider(line: &[u8]) -> bool
    ensures { result ≡ is_divider line.now }
{
    line == b"---".as_slice() || line == b"---\r".as_slice()
}
