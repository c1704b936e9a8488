//! The reader that goes through the lines of a file.
ghost use Rattle.std.specs.Prelude.{◌≡◌, ◌+◌, ◌≤◌, length, drop};

/// Where reading stands in a file: the byte that comes next, from 0, and its line, from 1.
/// A slice with a place beside it: the product reads a file in this form.
/// It has no Model: a struct with a lifetime and a model is refused as Copy, which this is.
#[derive(Clone, Copy, Debug, PartialEq, Eq)]
pub struct Reader<'a> {
    pub(crate) file: &'a [u8],
    pub(crate) at: usize,
    pub(crate) line_number: usize,
    ghost within: { at ≤ length file.now },
    ghost counted: { line_number ≤ at + 1 },
}

impl<'a> Reader<'a> {
    /// At the beginning of a file.
    pub fn new(file: &'a [u8]) -> Reader<'a>
        ensures line { result.line_number ≡ 1 }
        ensures rest { drop result.at result.file.now ≡ file.now }
    {
        Reader {
            file,
            at: 0,
            line_number: 1,
        }
    }

    /// The line that comes next.
    pub fn line_number(&self) -> usize
        ensures { result ≡ self.now.line_number }
    {
        self.line_number
    }
}
