//! Prices positions and sets of the share book, and prints what was priced and the parts that it requires.
use rules_amounts::ContractSize;
use rules_books::{Book, Sheet};
use rules_market::ShareSheet;
use rules_positions::{Entry, Record};
use rules_priced_examples::{sample_sheet, sample_size};
use std::alloc::{AllocError, Global};

/// A position of one unit or contract.
fn one(side: char, kind: char, strike: u64, days: u64, price: u64) -> Entry {
    Entry {
        side,
        kind,
        strike,
        days,
        price,
        quantity: 1,
    }
}

/// The records that the entries make; an entry out of range makes none.
fn records(heap: Global, size: ContractSize, entries: &[Entry]) -> Result<Vec<Record>, AllocError> {
    entries
        .iter()
        .filter_map(|entry| Record::new(size, entry).ok())
        .collect(heap)
}

fn print_alone(rt: &HostRuntime, what: &str, book: &Sheet, position: Entry) -> anyhow::Result<()> {
    match Record::new(sample_size(), &position) {
        Ok(record) => println!(rt; "{what}: {}", book.alone(sample_size(), &record))?,
        Err(fault) => println!(rt; "{what}: {fault}")?,
    }
    Ok(())
}

fn print_set(
    rt: &HostRuntime,
    article: u8,
    what: &str,
    book: &Sheet,
    entries: &[Entry],
) -> anyhow::Result<()> {
    let legs = records(rt.alloc(), sample_size(), entries)?;
    let has = (1..=book.articles()).contains(&article);
    if !has || legs.len() != usize::from(book.legs(article)) {
        println!(rt; "{article}: {what}: no such set")?;
        return Ok(());
    }
    match book.paired(sample_size(), article, legs.as_slice()) {
        Ok(parts) => println!(rt; "{article}: {what}: {parts}")?,
        Err(fault) => println!(rt; "{article}: {what}: {fault}")?,
    }
    Ok(())
}

/// A unit of a share at another price, all else as on the sample sheet.
fn print_unit(rt: &HostRuntime, what: &str, side: char, price: u64) -> anyhow::Result<()> {
    match ShareSheet::new(price, false, 500, Some(2_000), Some(150)) {
        Ok(sheet) => print_alone(rt, what, &Sheet::Share(sheet), one(side, 'U', 0, 0, 0))?,
        Err(fault) => println!(rt; "{what}: {fault}")?,
    }
    Ok(())
}

fn print_positions(rt: &HostRuntime, book: &Sheet) -> anyhow::Result<()> {
    for (what, position) in [
        ("short C 5500 at 120", one('S', 'C', 5_500, 100, 120)),
        ("short C 9000 at 5", one('S', 'C', 9_000, 100, 5)),
        (
            "long C 4500 at 620, days 269",
            one('L', 'C', 4_500, 269, 620),
        ),
        (
            "long C 4500 at 620, days 270",
            one('L', 'C', 4_500, 270, 620),
        ),
    ] {
        print_alone(rt, what, book, position)?;
    }
    Ok(())
}

fn print_sets(rt: &HostRuntime, book: &Sheet) -> anyhow::Result<()> {
    let sets: [(u8, &str, &[Entry]); 9] = [
        (
            1,
            "long C 5500 at 120, short C 5000 at 300",
            &[
                one('L', 'C', 5_500, 100, 120),
                one('S', 'C', 5_000, 100, 300),
            ],
        ),
        (
            3,
            "short C 5500 at 120, short P 5200 at 350",
            &[
                one('S', 'C', 5_500, 100, 120),
                one('S', 'P', 5_200, 100, 350),
            ],
        ),
        (
            4,
            "long P 4800 at 150, long U",
            &[one('L', 'P', 4_800, 100, 150), one('L', 'U', 0, 0, 0)],
        ),
        (
            5,
            "long P 5000 at 180, short C 5100 at 140, long F 5060",
            &[
                one('L', 'P', 5_000, 100, 180),
                one('S', 'C', 5_100, 100, 140),
                one('L', 'F', 0, 100, 5_060),
            ],
        ),
        (
            6,
            "short P 5000 at 180, long C 5100 at 140, short F 5060",
            &[
                one('S', 'P', 5_000, 100, 180),
                one('L', 'C', 5_100, 100, 140),
                one('S', 'F', 0, 100, 5_060),
            ],
        ),
        (
            1,
            "long C 5500 with 100 days, short C 5000 with 101",
            &[
                one('L', 'C', 5_500, 100, 120),
                one('S', 'C', 5_000, 101, 300),
            ],
        ),
        (
            3,
            "short C 5500, long P 5200",
            &[
                one('S', 'C', 5_500, 100, 120),
                one('L', 'P', 5_200, 100, 350),
            ],
        ),
        (
            5,
            "long P 5000, long C 5100, long F 5060",
            &[
                one('L', 'P', 5_000, 100, 180),
                one('L', 'C', 5_100, 100, 140),
                one('L', 'F', 0, 100, 5_060),
            ],
        ),
        (
            6,
            "short P 5000 and long C 5100 with 100 days, short F 5060 with 99",
            &[
                one('S', 'P', 5_000, 100, 180),
                one('L', 'C', 5_100, 100, 140),
                one('S', 'F', 0, 99, 5_060),
            ],
        ),
    ];
    for (article, what, legs) in sets {
        print_set(rt, article, what, book, legs)?;
    }
    Ok(())
}

fn print_units(rt: &HostRuntime) -> anyhow::Result<()> {
    for (what, side, price) in [
        ("long U at 199", 'L', 199),
        ("long U at 200", 'L', 200),
        ("short U at 24", 'S', 24),
        ("short U at 25", 'S', 25),
        ("short U at 149", 'S', 149),
        ("short U at 150", 'S', 150),
    ] {
        print_unit(rt, what, side, price)?;
    }
    Ok(())
}

pub(crate) fn print(rt: &HostRuntime) -> anyhow::Result<()> {
    let book = Sheet::Share(sample_sheet());
    print_positions(rt, &book)?;
    print_sets(rt, &book)?;
    print_units(rt)
}
