//! The letters of sides and kinds, read and written.
ghost use Rattle.std.specs.Prelude.{◌≡◌, ◌<◌, ok_or};
ghost use Rattle.rules_positions.specs.Letters.{side_of, kind_of, side_letter, kind_letter};
ghost use Rattle.rules_positions.specs.declared.Field.{Field};
ghost use Rattle.rules_positions.specs.declared.RecordFault.{RecordFault};

use crate::{Field, Kind, RecordFault, Side};

impl TryFrom<char> for Side {
    type Error = RecordFault;

    ghost try_from_gives = { λ letter side. side
        ≡ ok_or (side_of letter) (RecordFault.OutOfRange Field.Side) };

    fn try_from(letter: char) -> Result<Side, RecordFault> {
        match letter {
            'L' => Ok(Side::Long),
            'S' => Ok(Side::Short),
            _ => Err(RecordFault::OutOfRange(Field::Side)),
        }
    }
}

impl TryFrom<char> for Kind {
    type Error = RecordFault;

    ghost try_from_gives = { λ letter kind. kind
        ≡ ok_or (kind_of letter) (RecordFault.OutOfRange Field.Kind) };

    fn try_from(letter: char) -> Result<Kind, RecordFault> {
        match letter {
            'U' => Ok(Kind::Units),
            'C' => Ok(Kind::Call),
            'P' => Ok(Kind::Put),
            'F' => Ok(Kind::Futures),
            'R' => Ok(Kind::Receipt),
            _ => Err(RecordFault::OutOfRange(Field::Kind)),
        }
    }
}

/// The letter of a side.
impl From<Side> for char {
    ghost from_gives = { λ side letter. (letter ≡ side_letter side) × (letter < 128) };

    fn from(side: Side) -> char {
        match side {
            Side::Long => 'L',
            Side::Short => 'S',
        }
    }
}

/// The letter of a kind.
impl From<Kind> for char {
    ghost from_gives = { λ kind letter. (letter ≡ kind_letter kind) × (letter < 128) };

    fn from(kind: Kind) -> char {
        match kind {
            Kind::Units => 'U',
            Kind::Call => 'C',
            Kind::Put => 'P',
            Kind::Futures => 'F',
            Kind::Receipt => 'R',
        }
    }
}
