//! The fields of a line, one after another.
ghost use Rattle.std.specs.Prelude.{◌≡◌, ◌+◌, ◌^◌, ◌≤◌, drop, slice_get};
ghost use Rattle.std.specs.Option.{option_map};
ghost use Rattle.file_fields.specs.Fields.{split, remaining, width, place_after};

/// What is left of a line, None after its last field, and the place where the next field begins, counted from 1.
/// It has no Model: a struct with a lifetime and a model is refused as Copy, which this is.
#[derive(Clone, Copy, Debug, PartialEq, Eq)]
pub struct Fields<'a> {
    rest: Option<&'a [u8]>,
    place: usize,
    ghost some: { 1 ≤ place },
    ghost fits: { place + width rest ≤ 2 ^ 63 + 100 },
}

impl<'a> Fields<'a> {
    /// The fields of a value that begins at a place of its line.
    /// The place is from 1 to 100.
    pub fn new(rest: &'a [u8], place: usize) -> Fields<'a>
        requires { (1 ≤ place) × (place ≤ 100) }
        ensures { (remaining result.rest ≡ split 44 rest.now) × (result.place ≡ place) }
    {
        Fields {
            rest: Some(rest),
            place,
        }
    }

    /// Where the next field begins.
    pub fn place(&self) -> usize
        ensures value { result ≡ self.now.place }
        ensures some { 1 ≤ result }
    {
        self.place
    }

    /// The next field, or None where no field is left.
    pub fn take_field(&mut self) -> Option<&'a [u8]>
        ensures value { option_map (λ x. x.now) result ≡ slice_get (remaining self.old.rest) 0 }
        ensures rest { remaining self.new.rest ≡ drop 1 (remaining self.old.rest) }
        ensures place { self.new.place ≡ place_after self.old.place (remaining self.old.rest) }
    {
        let rest = self.rest?;
        let n = rest.iter().position(|b| *b == b',').unwrap_or(rest.len());
        self.rest = rest.get(n + 1..);
        self.place += n + 1;
        Some(&rest[..n])
    }
}
