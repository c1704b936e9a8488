//! The head of a file: the contract size, and the lines of a sheet.
ghost use Rattle.std.specs.Prelude.{◌≡◌, IfOk};
ghost use Rattle.std.specs.Result.{result_map_both};
ghost use Rattle.calls_docket.specs.Dockets.{empty};
ghost use Rattle.rules_market.specs.Share.{shares_on};
ghost use Rattle.rules_market.specs.Currency.{currency_on};
ghost use Rattle.file_head.specs.Rates.{rates_on, share, currency};
ghost use Rattle.file_head.specs.Head.{market_name, shares_at, currency_at, sheet_at, size_at, head_at};
ghost use Rattle.file_head.specs.Lines.{left_by, read_by};

use crate::faults::ReadFault;
use crate::lines::value_line;
use crate::reader::Reader;
use calls_docket::{Docket, Refusal};
use file_fields::values::Value;
use rules_amounts::ContractSize;
use rules_books::Sheet;
use rules_market::{CurrencySheet, ShareSheet};

/// The market that a sheet is for.
#[derive(Debug, Clone, Copy, PartialEq, Eq)]
pub enum MarketName {
    Share,
    Currency,
}

/// share or currency.
impl Value for MarketName {
    ghost reads = { market_name };

    fn of_field(field: &[u8]) -> Option<MarketName> {
        match field {
            b"share" => Some(MarketName::Share),
            b"currency" => Some(MarketName::Currency),
            _ => None,
        }
    }
}

/// price, reduced, floor, futures and tracking; judged at the last line.
fn share_sheet(reader: &mut Reader) -> Result<ShareSheet, ReadFault>
    ensures { left_by reader.new (result_map_both (λ s. share (shares_on s)) (λ e. e) result)
        ≡ read_by reader.old shares_at }
{
    let price = value_line::<u64>(reader, b"price=")?;
    let reduced = value_line::<bool>(reader, b"reduced=")?;
    let floor = value_line::<u64>(reader, b"floor=")?;
    let futures = value_line::<Option<u64>>(reader, b"futures=")?;
    let last = reader.line_number();
    let tracking = value_line::<Option<u64>>(reader, b"tracking=")?;
    ShareSheet::new(price, reduced, floor, futures, tracking).map_err(|fault| ReadFault::on(
        last, fault,
    ))
}

/// price and spot; judged at the last line.
fn currency_sheet(reader: &mut Reader) -> Result<CurrencySheet, ReadFault>
    ensures { left_by reader.new (result_map_both (λ s. currency (currency_on s)) (λ e. e) result)
        ≡ read_by reader.old currency_at }
{
    let price = value_line::<u64>(reader, b"price=")?;
    let last = reader.line_number();
    let spot = value_line::<u64>(reader, b"spot=")?;
    CurrencySheet::new(price, spot).map_err(|fault| ReadFault::on(last, fault))
}

/// The market's name, and its sheet: a match, since each market has its own lines.
fn read_sheet(reader: &mut Reader) -> Result<Sheet, ReadFault>
    ensures { left_by reader.new (result_map_both rates_on (λ e. e) result)
        ≡ read_by reader.old sheet_at }
{
    match value_line::<MarketName>(reader, b"market=")? {
        MarketName::Share => Ok(Sheet::Share(share_sheet(reader)?)),
        MarketName::Currency => Ok(Sheet::Currency(currency_sheet(reader)?)),
    }
}

/// The contract size, judged at its own line.
fn read_size(reader: &mut Reader) -> Result<ContractSize, ReadFault>
    ensures { left_by reader.new (result_map_both (λ s. s.units) (λ e. e) result)
        ≡ read_by reader.old size_at }
{
    let line = reader.line_number();
    let size = value_line::<u64>(reader, b"size=")?;
    ContractSize::new(size).ok_or(ReadFault::on(line, Refusal::SizeOutOfRange))
}

/// The docket that a file's head opens.
pub fn open_docket(reader: &mut Reader) -> Result<Docket<Sheet>, ReadFault>
    ensures head { left_by reader.new
        (result_map_both (λ d. record { size = d.size; rates = rates_on d.book }) (λ e. e) result)
        ≡ read_by reader.old head_at }
    ensures tally { IfOk result (λ d. d.tally ≡ empty) }
{
    let size = read_size(reader)?;
    let sheet = read_sheet(reader)?;
    Ok(Docket::new(sheet, size))
}
