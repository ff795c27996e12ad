use crate::{
    Amount, Confirmation, Entry, LoadSet, MonthSet, Record, TapeFault, figure_back, read, read_all,
    write_abandoned, write_denial, write_figure, write_letter, write_line, written_back,
};
use book::Offer;
use figures::{
    Cents, Factor, Ground, Hour, Kw, Layer, Load, Price, Product, Seat, StatementLine, TermFigures,
    TradeNumber, Zone,
};
use std::test::Fail;

// 2 seats, 1 zone, 320 hours, prices 900,000, 500,000 and 300,000, factor 1.50
const MONTH: [u8; 19] = [
    77, 2, 1, 1, 64, 0, 13, 187, 160, 0, 7, 161, 32, 0, 4, 147, 224, 0, 150,
];

fn month() -> Entry {
    Entry::Month(MonthSet {
        seats: 2,
        zones: 1,
        terms: TermFigures {
            hours: 320,
            tmnsr: Price(900_000),
            tmor: Price(500_000),
            capacity: Price(300_000),
            factor: Factor(150),
        },
    })
}

fn offer() -> Entry {
    Entry::Offer(Offer {
        number: TradeNumber(7),
        seller: Seat(0),
        buyer: Seat(1),
        zone: Zone(0),
        product: Product::TMNSR,
        first: Hour(258),
        last: Hour(743),
        kw: Kw(2_500),
    })
}

fn amount(seat: u8, kw: u32) -> Amount {
    Amount {
        seat: Seat(seat),
        zone: Zone(0),
        product: Product::TMNSR,
        kw: Kw(kw),
    }
}

fn confirmation() -> Entry {
    Entry::Confirm(Confirmation {
        number: TradeNumber(7),
        seat: Seat(1),
    })
}

fn load() -> Entry {
    Entry::Load(LoadSet {
        seat: Seat(1),
        load: Load(300_000),
    })
}

// What the record at a byte says.
fn said(tape: &[u8], place: usize) -> Result<Option<Entry>, TapeFault> {
    read(tape, place).map(|record| record.map(|record| record.entry()))
}

#[test]
fn records_by_hand(rt: HostRuntime) {
    assert_eq!(rt; said(&MONTH, 0), Ok(Some(month())));
    assert_eq!(rt;
        said(&[65, 0, 0, 0, 0, 0, 39, 16], 0),
        Ok(Some(Entry::Award(amount(0, 10_000))))
    );
    assert_eq!(rt;
        said(&[79, 0, 7, 0, 1, 0, 0, 1, 2, 2, 231, 0, 0, 9, 196], 0),
        Ok(Some(offer()))
    );
    assert_eq!(rt; said(&[67, 0, 7, 1], 0), Ok(Some(confirmation())));
    assert_eq!(rt;
        said(&[88, 255, 255], 0),
        Ok(Some(Entry::Cancel(TradeNumber(65_535))))
    );
    assert_eq!(rt; said(&[72, 1, 2], 0), Ok(Some(Entry::Open(Hour(258)))));
    assert_eq!(rt;
        said(&[84, 1, 0, 0, 0, 0, 7, 208], 0),
        Ok(Some(Entry::Tell(amount(1, 2_000))))
    );
    assert_eq!(rt; said(&[76, 1, 0, 4, 147, 224], 0), Ok(Some(load())));
    // one after the other
    assert_eq!(rt; said(&[69, 66], 0), Ok(Some(Entry::Close)));
    assert_eq!(rt; said(&[69, 66], 1), Ok(Some(Entry::Abandon)));
    assert_eq!(rt; said(&[69, 66], 2), Ok(None));
}

#[test]
fn refused_where_the_record_starts(rt: HostRuntime) {
    assert_eq!(rt; said(&[69, 67, 0, 7], 1), Err(TapeFault::Short(1)));
    assert_eq!(rt; said(&[69, 109], 1), Err(TapeFault::Unknown(1)));
    assert_eq!(rt;
        Ground::from(TapeFault::Short(9)),
        Ground {
            number: 3,
            layer: Layer::Tape,
            place: 9
        }
    );
    assert_eq!(rt;
        Ground::from(TapeFault::Unknown(9)),
        Ground {
            number: 2,
            layer: Layer::Tape,
            place: 9
        }
    );
    // the body is the tape's own part, and the place the kind letter's
    let tape = [69, 67, 0, 7, 1];
    assert!(rt;
        matches!(read(&tape, 1), Ok(Some(Record::Confirm(body))) if body.place == 1 && *body.bytes == [0, 7, 1])
    );
}

#[test]
fn a_whole_tape(rt: HostRuntime) -> Result<(), Fail> {
    // an H, an E, and an L that breaks off
    let reading = read_all(rt.alloc(), &[72, 0, 0, 69, 76, 1, 0])?;
    assert_eq!(rt;
        reading.entries.as_slice(),
        [Entry::Open(Hour(0)), Entry::Close].as_slice()
    );
    assert_eq!(rt; reading.bytes, 4);
    assert_eq!(rt; reading.fault, Some(TapeFault::Short(4)));
    Ok(())
}

#[test]
fn written_as_it_is_read(rt: HostRuntime) {
    let mut column = [9; 21];
    assert_eq!(rt; month().write(&mut column, 1), Some(20));
    assert_eq!(rt; column[1..20], MONTH[..]);
    assert_eq!(rt; (column[0], column[20]), (9, 9));
    // no room: nothing is written
    let mut short = [9; 3];
    assert_eq!(rt; confirmation().write(&mut short, 0), None);
    assert_eq!(rt; Entry::Open(Hour(258)).write(&mut short, 1), None);
    assert_eq!(rt; short, [9, 9, 9]);
    assert_eq!(rt; Entry::Open(Hour(258)).write(&mut short, 0), Some(3));
    assert_eq!(rt; short, [72, 1, 2]);
    assert_eq!(rt; written_back(&offer(), &mut column, 6), Some(offer()));
}

#[test]
fn text_of_a_statement(rt: HostRuntime) {
    let mut column = [46; 24];
    let line = StatementLine {
        hour: Hour(0),
        seat: Seat(1),
        credits: Cents(3_750),
        penalties: Cents(5_156),
        charge: Cents(-17),
    };
    assert_eq!(rt; write_line(&mut column, 2, &line), Some(20));
    assert_eq!(rt; column, *b"..0 1 3750 5156 -17\n....");
    let ground = Ground {
        number: 14,
        layer: Layer::Month,
        place: 0,
    };
    assert_eq!(rt; write_denial(&mut column, 0, 12, ground), Some(10));
    assert_eq!(rt; column, *b"? 12 14 m\n 5156 -17\n....");
    assert_eq!(rt; write_letter(&mut column, 0, 'R'), Some(2));
    assert_eq!(rt; write_abandoned(&mut column, 18, Hour(743)), Some(24));
    assert_eq!(rt; column, *b"R\n12 14 m\n 5156 -1! 743\n");
    // too small
    assert_eq!(rt; write_line(&mut column, 7, &line), None);
    assert_eq!(rt; column, *b"R\n12 14 m\n 5156 -1! 743\n");
}

#[test]
fn figures_in_decimal(rt: HostRuntime) {
    let mut column = [46; 20];
    assert_eq!(rt; write_figure(&mut column, 0, i64::MIN), Some(20));
    assert_eq!(rt; column, *b"-9223372036854775808");
    assert_eq!(rt; write_figure(&mut column, 1, i64::MAX), Some(20));
    assert_eq!(rt; write_figure(&mut column, 0, 0), Some(1));
    assert_eq!(rt; column, *b"09223372036854775807");
    assert_eq!(rt; write_figure(&mut column, 19, -1), None);
    assert_eq!(rt; figure_back(i64::MIN), Ok(i64::MIN));
}
