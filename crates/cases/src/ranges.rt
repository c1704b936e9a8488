//! Tries each range at its edges, and prints what is made and what is refused.
use rules_amounts::ContractSize;
use rules_market::{CurrencySheet, ShareSheet};
use rules_positions::{Entry, Field, Record};
use std::fmt::Display;

/// The least entry of a kind.
fn least(side: char, kind: char) -> Entry {
    Entry {
        side,
        kind,
        strike: if matches!(kind, 'C' | 'P') { 1 } else { 0 },
        days: 0,
        price: if kind == 'F' { 1 } else { 0 },
        quantity: 1,
    }
}

/// Prints that a value was made, or why not.
fn print_made<T: Drop, E: Display + Drop>(
    rt: &HostRuntime,
    made: Result<T, E>,
) -> anyhow::Result<()> {
    match made {
        Ok(_) => println!(rt; " made")?,
        Err(fault) => println!(rt; " {fault}")?,
    }
    Ok(())
}

/// Tries the entry that `with` makes of each number, which is the field's.
fn print_numbers<F: Fn(u64) -> Entry + Drop>(
    rt: &HostRuntime,
    size: ContractSize,
    field: Field,
    values: &[u64],
    with: F,
) -> anyhow::Result<()>
    requires { F.IsAlwaysCallable with }
{
    for &value in values {
        let entry = with(value);
        print!(rt; "{} field {} at {value}:", entry.kind, field.number())?;
        print_made(rt, Record::new(size, &entry))?;
    }
    Ok(())
}

/// The four numbers of an entry that is in range as it stands.
fn print_kind(rt: &HostRuntime, size: ContractSize, entry: Entry, most: u64) -> anyhow::Result<()> {
    let cents = [0, 1, 500_000, 500_001];
    let days = [0, 1, 4_000, 4_001];
    let quantities = [0, 1, most, most.saturating_add(1), 999_999_999_999_999];
    print_numbers(
        rt,
        size,
        Field::Strike,
        &cents,
        |strike| Entry { strike, ..entry },
    )?;
    print_numbers(rt, size, Field::Days, &days, |days| Entry { days, ..entry })?;
    print_numbers(
        rt,
        size,
        Field::Price,
        &cents,
        |price| Entry { price, ..entry },
    )?;
    print_numbers(
        rt,
        size,
        Field::Quantity,
        &quantities,
        |quantity| Entry { quantity, ..entry },
    )
}

fn print_letters(rt: &HostRuntime, size: ContractSize) -> anyhow::Result<()> {
    for side in ['L', 'S', 'l', 'X'] {
        for kind in ['U', 'C', 'P', 'F', 'R', 'K'] {
            print!(rt; "{side},{kind}:")?;
            print_made(rt, Record::new(size, &least(side, kind)))?;
        }
    }
    Ok(())
}

fn print_records(rt: &HostRuntime, size: ContractSize) -> anyhow::Result<()> {
    println!(rt; "contracts of {}", size.units)?;
    let units = 5_000 * u64::from(size.units);
    for (side, kind, most) in [
        ('S', 'U', units),
        ('L', 'C', 5_000),
        ('S', 'P', 5_000),
        ('L', 'F', 5_000),
        ('L', 'R', 5_000),
    ] {
        print_kind(rt, size, least(side, kind), most)?;
    }
    print_letters(rt, size)
}

fn print_sheets(rt: &HostRuntime) -> anyhow::Result<()> {
    for value in [0, 1, 500_000, 500_001] {
        print!(rt; "share price {value}:")?;
        print_made(rt, ShareSheet::new(value, true, 0, None, None))?;
        print!(rt; "currency price {value}:")?;
        print_made(rt, CurrencySheet::new(value, 0))?;
    }
    for value in [0, 1, 10_000, 10_001] {
        print!(rt; "share floor {value}:")?;
        print_made(rt, ShareSheet::new(1, true, value, None, None))?;
        print!(rt; "share futures {value}:")?;
        print_made(rt, ShareSheet::new(1, true, 0, Some(value), None))?;
        print!(rt; "share tracking {value}:")?;
        print_made(rt, ShareSheet::new(1, true, 0, None, Some(value)))?;
        print!(rt; "currency spot {value}:")?;
        print_made(rt, CurrencySheet::new(1, value))?;
    }
    Ok(())
}

/// An entry as text: its six fields in their order.
fn print_entry(rt: &HostRuntime) -> anyhow::Result<()> {
    let entry = Entry {
        side: 'S',
        kind: 'C',
        strike: 5_500,
        days: 100,
        price: 120,
        quantity: 7,
    };
    println!(rt; "entry {entry}")?;
    Ok(())
}

pub(crate) fn print(rt: &HostRuntime) -> anyhow::Result<()> {
    print_entry(rt)?;
    for value in [0, 1, 1_000, 1_001] {
        print!(rt; "size {value}:")?;
        print_made(rt, ContractSize::new(value).ok_or("none"))?;
    }
    for size in [1, 100, 1_000].into_iter().filter_map(ContractSize::new) {
        print_records(rt, size)?;
    }
    print_sheets(rt)
}
