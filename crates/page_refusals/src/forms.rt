//! The lines of a file: their keys, their fields, and what a field may be.
ghost use Rattle.std.specs.Prelude.{◌≡◌, map};
ghost use Rattle.page_refusals.specs.Forms.{form_words, key_text, line_words, field_names, form_of, line_kind, due_kind};

/// A line by what it is for.
#[derive(Clone, Copy)]
pub enum LineKind {
    Size,
    Market,
    Price,
    Reduced,
    Floor,
    Futures,
    Tracking,
    Spot,
    Position,
    Claim,
    Mark,
}

/// A field by what may stand in it.
#[derive(Clone, Copy)]
pub enum FieldForm {
    Number,
    Rate,
    Mark,
    Letter,
    Answer,
    Market,
}

impl FieldForm {
    /// What the field may be, in words.
    pub(crate) fn words(self) -> &'static str
        ensures { result.now ≡ form_words self }
    {
        match self {
            FieldForm::Number => "a number has 1 to 15 digits and no leading zero",
            FieldForm::Rate => "a number, of 1 to 15 digits with no leading zero, or none",
            FieldForm::Mark =>
                "1 to 15 digits with no leading zero; a minus sign may stand first, never before 0",
            FieldForm::Letter => "one letter, A to Z",
            FieldForm::Answer => "yes or no",
            FieldForm::Market => "share or currency",
        }
    }
}

impl LineKind {
    const ALL: [LineKind; 11] = [
        LineKind::Size,
        LineKind::Market,
        LineKind::Price,
        LineKind::Reduced,
        LineKind::Floor,
        LineKind::Futures,
        LineKind::Tracking,
        LineKind::Spot,
        LineKind::Position,
        LineKind::Claim,
        LineKind::Mark,
    ];

    /// What the line begins with.
    pub(crate) fn key(self) -> &'static str
        ensures { result.now ≡ key_text self }
    {
        match self {
            LineKind::Size => "size=",
            LineKind::Market => "market=",
            LineKind::Price => "price=",
            LineKind::Reduced => "reduced=",
            LineKind::Floor => "floor=",
            LineKind::Futures => "futures=",
            LineKind::Tracking => "tracking=",
            LineKind::Spot => "spot=",
            LineKind::Position => "pos=",
            LineKind::Claim => "claim=",
            LineKind::Mark => "mark=",
        }
    }

    /// The whole line, in words.
    pub(crate) fn words(self) -> &'static str
        ensures { result.now ≡ line_words self }
    {
        match self {
            LineKind::Size => "size= and the units in a contract, a number",
            LineKind::Market => "market=share or market=currency",
            LineKind::Price => "price= and the price in cents, a number",
            LineKind::Reduced => "reduced=yes or reduced=no",
            LineKind::Floor => "floor= and the floor rate in basis points, a number",
            LineKind::Futures => "futures= and the futures rate in basis points, a number or none",
            LineKind::Tracking =>
                "tracking= and the tracking rate in basis points, a number or none",
            LineKind::Spot => "spot= and the spot rate in basis points, a number",
            LineKind::Position => "pos= and six fields: side, kind, strike, days, price, quantity",
            LineKind::Claim =>
                "claim= and five fields: article, first leg, second leg, third leg, sets",
            LineKind::Mark => "mark= and an amount in parts, a number that may have a minus sign",
        }
    }

    /// The names of its fields.
    pub(crate) fn fields(self) -> &'static [&'static str]
        ensures { map (λ name. name.now) result.now ≡ field_names self }
    {
        match self {
            LineKind::Size => &["contract size"],
            LineKind::Market => &["market"],
            LineKind::Price => &["price"],
            LineKind::Reduced => &["reduced"],
            LineKind::Floor => &["floor rate"],
            LineKind::Futures => &["futures rate"],
            LineKind::Tracking => &["tracking rate"],
            LineKind::Spot => &["spot rate"],
            LineKind::Position => &["side", "kind", "strike", "days", "price", "quantity"],
            LineKind::Claim => &["article", "first leg", "second leg", "third leg", "sets"],
            LineKind::Mark => &["mark"],
        }
    }

    /// What may stand in a field, by its number.
    pub(crate) fn form(self, field: usize) -> FieldForm
        ensures { result ≡ form_of self field }
    {
        match (self, field) {
            (LineKind::Market, _) => FieldForm::Market,
            (LineKind::Reduced, _) => FieldForm::Answer,
            (LineKind::Futures | LineKind::Tracking, _) => FieldForm::Rate,
            (LineKind::Position, 1 | 2) => FieldForm::Letter,
            (LineKind::Mark, _) => FieldForm::Mark,
            _ => FieldForm::Number,
        }
    }

    /// The kind whose key a line begins with.
    pub(crate) fn of(line: &[u8]) -> Option<LineKind>
        ensures { result ≡ line_kind line.now }
    {
        LineKind::ALL
            .iter()
            .copied()
            .find(|kind| line.starts_with(kind.key().as_bytes()))
    }

    /// The kind that a line of the head has to be, by its number and the market's name; none after the head.
    pub(crate) fn due(number: usize, currency: bool) -> Option<LineKind>
        ensures { result ≡ due_kind number currency }
    {
        match (number, currency) {
            (1, _) => Some(LineKind::Size),
            (2, _) => Some(LineKind::Market),
            (3, _) => Some(LineKind::Price),
            (4, true) => Some(LineKind::Spot),
            (4, false) => Some(LineKind::Reduced),
            (5, false) => Some(LineKind::Floor),
            (6, false) => Some(LineKind::Futures),
            (7, false) => Some(LineKind::Tracking),
            _ => None,
        }
    }
}
