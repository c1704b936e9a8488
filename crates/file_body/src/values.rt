//! The values of pos and claim lines, field by field: a function for each, since they make different records.
ghost use Rattle.std.specs.Prelude.{◌≡◌, ◌≤◌};
ghost use Rattle.file_fields.specs.Fields.{split};
ghost use Rattle.file_body.specs.Values.{entry_at, claim_at};

use certificate_pairing::Claim;
use file_fields::BadField;
use file_fields::fields::Fields;
use file_fields::values::{end, take};
use rules_positions::Entry;

/// Side, kind, strike, days, price and quantity, of which the first begins at a place of its line.
pub fn entry_in(value: &[u8], place: usize) -> Result<Entry, BadField>
    requires { (1 ≤ place) × (place ≤ 100) }
    ensures { result ≡ entry_at place (split 44 value.now) }
{
    let mut fields = Fields::new(value, place);
    let side = take::<char>(&mut fields)?;
    let kind = take::<char>(&mut fields)?;
    let strike = take::<u64>(&mut fields)?;
    let days = take::<u64>(&mut fields)?;
    let price = take::<u64>(&mut fields)?;
    let quantity = take::<u64>(&mut fields)?;
    end(&mut fields)?;
    Ok(Entry {
        side,
        kind,
        strike,
        days,
        price,
        quantity,
    })
}

/// Article, three legs and sets, of which the first begins at a place of its line.
pub fn claim_in(value: &[u8], place: usize) -> Result<Claim, BadField>
    requires { (1 ≤ place) × (place ≤ 100) }
    ensures { result ≡ claim_at place (split 44 value.now) }
{
    let mut fields = Fields::new(value, place);
    let article = take::<u64>(&mut fields)?;
    let first = take::<u64>(&mut fields)?;
    let second = take::<u64>(&mut fields)?;
    let third = take::<u64>(&mut fields)?;
    let sets = take::<u64>(&mut fields)?;
    end(&mut fields)?;
    Ok(Claim {
        article,
        first,
        second,
        third,
        sets,
    })
}
