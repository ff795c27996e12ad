use super::{LineFault, entry_of};
use book::Offer;
use figures::{Factor, Hour, Kw, Load, Price, Product, Seat, TermFigures, TradeNumber, Zone};
use records::{Amount, Confirmation, Entry, LoadSet, MonthSet};

type Answer = Result<Option<Entry>, LineFault>;

const NOTHING: Answer = Ok(None);

fn record(entry: Entry) -> Answer {
    Ok(Some(entry))
}

fn amount(seat: u8, zone: u8, product: u8, kw: u32) -> Amount {
    Amount {
        seat: Seat(seat),
        zone: Zone(zone),
        product: Product(product),
        kw: Kw(kw),
    }
}

#[test]
fn the_month_and_amounts(rt: HostRuntime) {
    let month = MonthSet {
        seats: 2,
        zones: 1,
        terms: TermFigures {
            hours: 320,
            tmnsr: Price(900_000),
            tmor: Price(500_000),
            capacity: Price(300_000),
            factor: Factor(150),
        },
    };
    assert_eq!(rt;
        entry_of(b"M 2 1 320 900000 500000 300000 150"),
        record(Entry::Month(month))
    );
    assert_eq!(rt;
        entry_of(b"A 3 2 1 4000"),
        record(Entry::Award(amount(3, 2, 1, 4000)))
    );
    assert_eq!(rt;
        entry_of(b"T 0 1 2 8000"),
        record(Entry::Tell(amount(0, 1, 2, 8000)))
    );
}

#[test]
fn trades(rt: HostRuntime) {
    let offer = Offer {
        number: TradeNumber(7),
        seller: Seat(1),
        buyer: Seat(2),
        zone: Zone(3),
        product: Product(4),
        first: Hour(5),
        last: Hour(6),
        kw: Kw(2500),
    };
    let confirmation = Confirmation {
        number: TradeNumber(7),
        seat: Seat(1),
    };
    assert_eq!(rt;
        entry_of(b"O 7 1 2 3 4 5 6 2500"),
        record(Entry::Offer(offer))
    );
    assert_eq!(rt; entry_of(b"C 7 1"), record(Entry::Confirm(confirmation)));
    assert_eq!(rt; entry_of(b"X 7"), record(Entry::Cancel(TradeNumber(7))));
}

#[test]
fn hours(rt: HostRuntime) {
    let load = LoadSet {
        seat: Seat(1),
        load: Load(150),
    };
    assert_eq!(rt; entry_of(b"H 743"), record(Entry::Open(Hour(743))));
    assert_eq!(rt; entry_of(b"L 1 150"), record(Entry::Load(load)));
    assert_eq!(rt; entry_of(b"E"), record(Entry::Close));
    assert_eq!(rt; entry_of(b"B"), record(Entry::Abandon));
}

#[test]
fn blanks_and_comments(rt: HostRuntime) {
    assert_eq!(rt; entry_of(b""), NOTHING);
    assert_eq!(rt; entry_of(b" \t\r"), NOTHING);
    assert_eq!(rt; entry_of(b"# H 1"), NOTHING);
    assert_eq!(rt; entry_of(b"#H"), NOTHING);
    assert_eq!(rt; entry_of(b"\tH   0012 \r"), record(Entry::Open(Hour(12))));
}

#[test]
fn unknown_kinds(rt: HostRuntime) {
    assert_eq!(rt; entry_of(b"Z 1"), Err(LineFault::Unknown));
    assert_eq!(rt; entry_of(b"h 1"), Err(LineFault::Unknown));
    assert_eq!(rt; entry_of(b"HH 1"), Err(LineFault::Unknown));
    // the letter comes before the count
    assert_eq!(rt;
        entry_of(b"1 2 3 4 5 6 7 8 9 10 11"),
        Err(LineFault::Unknown)
    );
}

#[test]
fn counts_of_fields(rt: HostRuntime) {
    assert_eq!(rt;
        entry_of(b"M 2 1 320 900000 500000 300000"),
        Err(LineFault::Count(7))
    );
    assert_eq!(rt; entry_of(b"O 7 1 2 3 4 5 6 7 8"), Err(LineFault::Count(8)));
    assert_eq!(rt;
        entry_of(b"O 7 1 2 3 4 5 6 7 8 9 10"),
        Err(LineFault::Count(8))
    );
    assert_eq!(rt; entry_of(b"E 0"), Err(LineFault::Count(0)));
    // the count comes before the first field that does not fit
    assert_eq!(rt; entry_of(b"X no 1"), Err(LineFault::Count(1)));
}

#[test]
fn limits_of_fields(rt: HostRuntime) {
    let largest = Entry::Award(amount(255, 255, 255, 4_294_967_295));
    assert_eq!(rt; entry_of(b"A 255 255 255 4294967295"), record(largest));
    assert_eq!(rt;
        entry_of(b"A 256 255 255 4294967296"),
        Err(LineFault::Field(1, 255))
    );
    assert_eq!(rt;
        entry_of(b"A 255 255 255 4294967296"),
        Err(LineFault::Field(4, 4_294_967_295))
    );
    assert_eq!(rt;
        entry_of(b"X 65535"),
        record(Entry::Cancel(TradeNumber(65_535)))
    );
    assert_eq!(rt; entry_of(b"X 65536"), Err(LineFault::Field(1, 65_535)));
    // 2^64 + 7 is not taken for 7
    assert_eq!(rt;
        entry_of(b"X 18446744073709551623"),
        Err(LineFault::Field(1, 65_535))
    );
}

#[test]
fn fields_that_are_no_numbers(rt: HostRuntime) {
    assert_eq!(rt;
        entry_of(b"L 1 1.5"),
        Err(LineFault::Field(2, 4_294_967_295))
    );
    assert_eq!(rt; entry_of(b"L +1 -5"), Err(LineFault::Field(1, 255)));
    assert_eq!(rt; entry_of(b"C seven 1"), Err(LineFault::Field(1, 65_535)));
}
