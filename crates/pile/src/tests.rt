use super::{confirm_above, pile_of_four, total_above};
use book::{Book, Deal, Offer, Pages};
use figures::{Ground, Hour, Kw, Layer, Product, Seat, TradeNumber, Zone};
use sheet::{AwardSheet, HourlySheet, Place, Sheet, SheetFault, SheetSize};
use std::test::Fail;

// What a call answered, with the ground in place of a fault.
fn grounds<T, F: Into<Ground>>(answer: Result<T, F>) -> Result<T, Ground> {
    answer.map_err(|fault| fault.into())
}

// A denial by a book.
fn by_book(number: u8, place: usize) -> Ground {
    Ground {
        number,
        layer: Layer::Book,
        place,
    }
}

// A denial by a sheet.
fn by_sheet(number: u8) -> Ground {
    Ground {
        number,
        layer: Layer::Sheet,
        place: 0,
    }
}

fn sized(seats: u8, zones: u8) -> Result<(), Ground> {
    grounds(SheetSize::new(seats, zones).map(|_| ()))
}

fn at(zone: u8, product: u8, hour: u16) -> Place {
    Place {
        zone: Zone(zone),
        product: Product(product),
        hour: Hour(hour),
    }
}

// An offer of product 0 in zone 0.
fn sale(number: u16, seller: u8, buyer: u8, first: u16, last: u16, kw: u32) -> Offer {
    Offer {
        number: TradeNumber(number),
        seller: Seat(seller),
        buyer: Seat(buyer),
        zone: Zone(0),
        product: Product::TMNSR,
        first: Hour(first),
        last: Hour(last),
        kw: Kw(kw),
    }
}

// What a seat holds of product 0 in zone 0.
fn held<S: Sheet>(sheet: &S, seat: u8, hour: u16) -> Option<Kw> {
    sheet.cell(Seat(seat), at(0, 0, hour))
}

fn all<S: Sheet>(sheet: &S, hour: u16) -> Option<Kw> {
    sheet.total(at(0, 0, hour))
}

#[test]
fn size_of_a_sheet(rt: HostRuntime) {
    assert_eq!(rt;
        [
            sized(1, 1),
            sized(16, 4),
            sized(0, 1),
            sized(17, 1),
            sized(1, 0),
            sized(1, 5),
        ],
        [
            Ok(()),
            Ok(()),
            Err(by_sheet(5)),
            Err(by_sheet(5)),
            Err(by_sheet(5)),
            Err(by_sheet(5))
        ]
    );
}

#[test]
fn awards(rt: HostRuntime) -> Result<(), Fail> {
    let mut sheet = AwardSheet::new(SheetSize::new(2, 1)?);
    // an award of 0 is an award
    let answers = [
        grounds(sheet.award(Seat(0), Zone(0), Product::TMNSR, Kw(1_000_000))),
        grounds(sheet.award(Seat(0), Zone(0), Product::TMOR, Kw(0))),
        grounds(sheet.award(Seat(0), Zone(0), Product::TMOR, Kw(7))),
        grounds(sheet.award(Seat(0), Zone(0), Product::TMNSR, Kw(1_000_001))),
        grounds(sheet.award(Seat(2), Zone(0), Product::TMNSR, Kw(1_000_001))),
        grounds(sheet.award(Seat(1), Zone(1), Product::TMNSR, Kw(1))),
        grounds(sheet.award(Seat(1), Zone(0), Product(2), Kw(1))),
    ];
    assert_eq!(rt;
        answers,
        [
            Ok(()),
            Ok(()),
            Err(by_sheet(8)),
            Err(by_sheet(7)),
            Err(by_sheet(6)),
            Err(by_sheet(6)),
            Err(by_sheet(6))
        ]
    );
    let cells = [
        held(&sheet, 0, 0),
        held(&sheet, 0, 743),
        held(&sheet, 0, 744),
        held(&sheet, 1, 5),
        held(&sheet, 2, 5),
        all(&sheet, 5),
        all(&sheet, 744),
        sheet.cell(Seat(0), at(0, 1, 0)),
    ];
    assert_eq!(rt;
        cells,
        [
            Some(Kw(1_000_000)),
            Some(Kw(1_000_000)),
            None,
            Some(Kw(0)),
            None,
            Some(Kw(1_000_000)),
            None,
            Some(Kw(0))
        ]
    );
    assert_eq!(rt; [Layer::Sheet.letter(), Layer::Book.letter()], ['s', 'b']);
    Ok(())
}

#[test]
fn figures_hour_by_hour(rt: HostRuntime) -> Result<(), Fail> {
    // seat 0 and seat 1, products 0 and 1; hour 1 breaks off after seat 0's product 0
    let column = [10, 11, 20, 1_000_001, 1_000_000];
    let sheet = HourlySheet::new(SheetSize::new(2, 1)?, &column[..]);
    let cells = [
        held(&sheet, 0, 0),
        held(&sheet, 1, 0),
        all(&sheet, 0),
        sheet.cell(Seat(0), at(0, 1, 0)),
        sheet.cell(Seat(1), at(0, 1, 0)),
        sheet.total(at(0, 1, 0)),
        held(&sheet, 0, 1),
        held(&sheet, 1, 1),
        all(&sheet, 1),
    ];
    assert_eq!(rt;
        cells,
        [
            Some(Kw(10)),
            Some(Kw(20)),
            Some(Kw(30)),
            Some(Kw(11)),
            None,
            None,
            Some(Kw(1_000_000)),
            None,
            None
        ]
    );
    Ok(())
}

#[test]
fn zones_come_before_products(rt: HostRuntime) -> Result<(), Fail> {
    // one seat and two zones in one hour
    let column = [1, 2, 3, 4];
    let sheet = HourlySheet::new(SheetSize::new(1, 2)?, &column[..]);
    assert_eq!(rt;
        [
            sheet.cell(Seat(0), at(0, 1, 0)),
            sheet.cell(Seat(0), at(1, 0, 0)),
        ],
        [Some(Kw(2)), Some(Kw(3))]
    );
    Ok(())
}

// Three seats and one zone; seat 0 was awarded 10 kW of product 0.
fn ten_for_seat_0() -> Result<AwardSheet, SheetFault> {
    let mut sheet = AwardSheet::new(SheetSize::new(3, 1)?);
    sheet.award(Seat(0), Zone(0), Product::TMNSR, Kw(10))?;
    Ok(sheet)
}

#[test]
fn a_blank_met_at_its_hour(rt: HostRuntime) -> Result<(), Fail> {
    // product 0 of seats 0 and 1, hours 0 to 3: 5 and 5, 1 and 5, 5 and blank; hour 3 is beyond the column's end
    let column = [5, 0, 5, 0, 1, 0, 5, 0, 5, 0, 1_000_001, 0];
    let sheet = HourlySheet::new(SheetSize::new(2, 1)?, &column[..]);
    let mut book = Book::new(sheet, Pages::new(rt.alloc())?);
    let offers = [
        grounds(book.offer(sale(1, 0, 1, 0, 2, 3))),
        grounds(book.offer(sale(2, 1, 0, 0, 3, 3))),
        grounds(book.offer(sale(3, 0, 1, 3, 743, 3))),
        grounds(book.offer(sale(4, 0, 1, 0, 1, 3))),
        grounds(book.offer(sale(5, 0, 1, 0, 0, 3))),
    ];
    assert_eq!(rt; offers, [Ok(()), Ok(()), Ok(()), Ok(()), Ok(())]);
    // the blank in hour 2 comes before the short seller in hour 1
    let confirms = [
        grounds(book.confirm(TradeNumber(1), Seat(1))),
        grounds(book.confirm(TradeNumber(2), Seat(0))),
        grounds(book.confirm(TradeNumber(3), Seat(1))),
        grounds(book.confirm(TradeNumber(4), Seat(1))),
        grounds(book.confirm(TradeNumber(5), Seat(1))),
    ];
    assert_eq!(rt;
        confirms,
        [
            Err(by_book(16, 2)),
            Err(by_book(16, 2)),
            Err(by_book(16, 3)),
            Err(by_book(17, 1)),
            Ok(())
        ]
    );
    assert_eq!(rt;
        [
            held(&book, 0, 0),
            held(&book, 1, 0),
            all(&book, 0),
            held(&book, 1, 2),
            all(&book, 2),
        ],
        [Some(Kw(2)), Some(Kw(8)), Some(Kw(10)), None, None]
    );
    Ok(())
}

#[test]
fn a_chain_is_covered_in_the_right_order_only(rt: HostRuntime) -> Result<(), Fail> {
    let mut book = Book::new(ten_for_seat_0()?, Pages::new(rt.alloc())?);
    let answers = [
        grounds(book.offer(sale(1, 0, 1, 5, 5, 10))),
        grounds(book.offer(sale(2, 1, 2, 5, 5, 10))),
        grounds(book.confirm(TradeNumber(2), Seat(2))),
        grounds(book.confirm(TradeNumber(1), Seat(1))),
        grounds(book.confirm(TradeNumber(2), Seat(2))),
        grounds(book.cancel(TradeNumber(1))),
    ];
    assert_eq!(rt;
        answers,
        [
            Ok(()),
            Ok(()),
            Err(by_book(17, 5)),
            Ok(()),
            Ok(()),
            Err(by_book(18, 5))
        ]
    );
    assert_eq!(rt;
        [
            held(&book, 0, 5),
            held(&book, 1, 5),
            held(&book, 2, 5),
            held(&book, 2, 4),
            all(&book, 5),
        ],
        [
            Some(Kw(0)),
            Some(Kw(0)),
            Some(Kw(10)),
            Some(Kw(0)),
            Some(Kw(10))
        ]
    );
    let back = [
        grounds(book.cancel(TradeNumber(2))),
        grounds(book.cancel(TradeNumber(1))),
    ];
    assert_eq!(rt; back, [Ok(()), Ok(())]);
    assert_eq!(rt;
        [held(&book, 0, 5), held(&book, 1, 5), held(&book, 2, 5)],
        [Some(Kw(10)), Some(Kw(0)), Some(Kw(0))]
    );
    Ok(())
}

#[test]
fn short_in_a_middle_hour(rt: HostRuntime) -> Result<(), Fail> {
    let mut book = Book::new(ten_for_seat_0()?, Pages::new(rt.alloc())?);
    // trade 1 leaves seat 0 with 5 kW in hour 3, trade 3 leaves seat 1 with none in hour 4
    let answers = [
        grounds(book.offer(sale(1, 0, 2, 3, 3, 5))),
        grounds(book.confirm(TradeNumber(1), Seat(2))),
        grounds(book.offer(sale(2, 0, 1, 1, 5, 6))),
        grounds(book.confirm(TradeNumber(2), Seat(1))),
        grounds(book.cancel(TradeNumber(2))),
        grounds(book.offer(sale(2, 0, 1, 1, 5, 5))),
        grounds(book.confirm(TradeNumber(2), Seat(1))),
        grounds(book.offer(sale(3, 1, 2, 4, 4, 5))),
        grounds(book.confirm(TradeNumber(3), Seat(2))),
        grounds(book.cancel(TradeNumber(2))),
    ];
    assert_eq!(rt;
        answers,
        [
            Ok(()),
            Ok(()),
            Ok(()),
            Err(by_book(17, 3)),
            Ok(()),
            Ok(()),
            Ok(()),
            Ok(()),
            Ok(()),
            Err(by_book(18, 4)),
        ]
    );
    Ok(())
}

#[test]
fn the_33rd_trade(rt: HostRuntime) -> Result<(), Fail> {
    let mut book = Book::new(ten_for_seat_0()?, Pages::new(rt.alloc())?);
    for number in 0..32 {
        assert_eq!(rt; grounds(book.offer(sale(number, 0, 1, 0, 0, 1))), Ok(()));
    }
    // a number that is in the book is met before the full book
    let answers = [
        grounds(book.offer(sale(32, 0, 1, 0, 0, 1))),
        grounds(book.offer(sale(31, 0, 1, 0, 0, 1))),
        grounds(book.cancel(TradeNumber(5))),
        grounds(book.cancel(TradeNumber(5))),
        grounds(book.offer(sale(32, 0, 1, 0, 0, 1))),
        grounds(book.offer(sale(5, 0, 1, 0, 0, 1))),
    ];
    assert_eq!(rt;
        answers,
        [
            Err(by_book(11, 0)),
            Err(by_book(10, 0)),
            Ok(()),
            Err(by_book(12, 0)),
            Ok(()),
            Err(by_book(11, 0))
        ]
    );
    Ok(())
}

#[test]
fn limits_of_an_offer(rt: HostRuntime) -> Result<(), Fail> {
    let mut book = Book::new(ten_for_seat_0()?, Pages::new(rt.alloc())?);
    let taken = sale(65_535, 2, 0, 743, 743, 16_000_000);
    let other = Offer {
        product: Product::TMOR,
        ..sale(0, 0, 2, 0, 743, 1)
    };
    let answers = [
        grounds(book.offer(taken)),
        grounds(book.offer(other)),
        grounds(book.offer(sale(1, 3, 0, 0, 0, 1))),
        grounds(book.offer(sale(1, 0, 3, 0, 0, 1))),
        grounds(book.offer(Offer {
            zone: Zone(1),
            ..sale(1, 0, 1, 0, 0, 1)
        })),
        grounds(book.offer(Offer {
            product: Product(2),
            ..sale(1, 0, 1, 0, 0, 1)
        })),
        grounds(book.offer(sale(1, 0, 1, 744, 743, 1))),
        grounds(book.offer(sale(1, 0, 1, 743, 744, 0))),
        grounds(book.offer(sale(1, 0, 0, 0, 0, 0))),
        grounds(book.offer(sale(1, 0, 1, 0, 0, 16_000_001))),
        grounds(book.offer(sale(65_535, 1, 1, 0, 0, 1))),
        grounds(book.offer(sale(1, 0, 1, 1, 0, 1))),
        grounds(book.offer(sale(65_535, 0, 1, 0, 0, 1))),
    ];
    assert_eq!(rt;
        answers,
        [
            Ok(()),
            Ok(()),
            Err(by_book(6, 0)),
            Err(by_book(6, 0)),
            Err(by_book(6, 0)),
            Err(by_book(6, 0)),
            Err(by_book(6, 0)),
            Err(by_book(6, 0)),
            Err(by_book(7, 0)),
            Err(by_book(7, 0)),
            Err(by_book(9, 0)),
            Err(by_book(9, 0)),
            Err(by_book(10, 0)),
        ]
    );
    Ok(())
}

#[test]
fn who_confirms_and_how_often(rt: HostRuntime) -> Result<(), Fail> {
    let mut book = Book::new(ten_for_seat_0()?, Pages::new(rt.alloc())?);
    let answers = [
        grounds(book.offer(sale(9, 0, 1, 0, 0, 10))),
        grounds(book.confirm(TradeNumber(8), Seat(3))),
        grounds(book.confirm(TradeNumber(8), Seat(1))),
        grounds(book.confirm(TradeNumber(9), Seat(0))),
        grounds(book.confirm(TradeNumber(9), Seat(1))),
        grounds(book.confirm(TradeNumber(9), Seat(1))),
        grounds(book.cancel(TradeNumber(8))),
    ];
    assert_eq!(rt;
        answers,
        [
            Ok(()),
            Err(by_book(6, 0)),
            Err(by_book(12, 0)),
            Err(by_book(13, 0)),
            Ok(()),
            Err(by_book(13, 0)),
            Err(by_book(12, 0))
        ]
    );
    Ok(())
}

#[test]
fn held_back_by_a_layer_above(rt: HostRuntime) -> Result<(), Fail> {
    let mut book = Book::new(ten_for_seat_0()?, Pages::new(rt.alloc())?);
    let answers = [
        grounds(book.offer_from(sale(1, 0, 1, 3, 9, 11), Hour(4))),
        grounds(book.offer_from(sale(1, 0, 0, 3, 9, 11), Hour(4))),
        grounds(book.offer_from(sale(1, 0, 1, 3, 9, 11), Hour(3))),
        grounds(book.offer_from(sale(1, 0, 1, 3, 9, 11), Hour(4))),
        grounds(book.confirm_from(TradeNumber(1), Seat(0), Hour(4))),
        grounds(book.confirm_from(TradeNumber(1), Seat(1), Hour(4))),
        grounds(book.confirm_from(TradeNumber(1), Seat(1), Hour(3))),
        grounds(book.cancel_from(TradeNumber(2), Hour(4))),
        grounds(book.cancel_from(TradeNumber(1), Hour(4))),
        grounds(book.cancel_from(TradeNumber(1), Hour(3))),
        grounds(book.cancel_from(TradeNumber(1), Hour(3))),
    ];
    assert_eq!(rt;
        answers,
        [
            Ok(Deal::Held),
            Err(by_book(9, 0)),
            Ok(Deal::Done),
            Err(by_book(10, 0)),
            Err(by_book(13, 0)),
            Ok(Deal::Held),
            Err(by_book(17, 3)),
            Err(by_book(12, 0)),
            Ok(Deal::Held),
            Ok(Deal::Done),
            Err(by_book(12, 0)),
        ]
    );
    Ok(())
}

#[test]
fn four_books_over_awards(rt: HostRuntime) -> Result<(), Fail> {
    let mut pile = pile_of_four(
        ten_for_seat_0()?,
        Pages::new(rt.alloc())?,
        Pages::new(rt.alloc())?,
        Pages::new(rt.alloc())?,
        Pages::new(rt.alloc())?,
    );
    let answers = [
        grounds(pile.offer(sale(1, 0, 2, 7, 8, 4))),
        grounds(pile.confirm(TradeNumber(1), Seat(2))),
        grounds(pile.confirm(TradeNumber(1), Seat(2))),
    ];
    assert_eq!(rt; answers, [Ok(()), Ok(()), Err(by_book(13, 0))]);
    assert_eq!(rt;
        [
            held(&pile, 0, 7),
            held(&pile, 1, 7),
            held(&pile, 2, 7),
            held(&pile, 2, 9),
            all(&pile, 7),
        ],
        [
            Some(Kw(6)),
            Some(Kw(0)),
            Some(Kw(4)),
            Some(Kw(0)),
            Some(Kw(10))
        ]
    );
    Ok(())
}

#[test]
fn two_books_over_figures_by_the_hour(rt: HostRuntime) -> Result<(), Fail> {
    // product 0 of seats 0 and 1 in hours 0 and 1: 8 and 1, 8 and blank
    let column = [8, 0, 1, 0, 8, 0, 1_000_001, 0];
    let sheet = HourlySheet::new(SheetSize::new(2, 1)?, &column[..]);
    let mut lower = Book::new(sheet, Pages::new(rt.alloc())?);
    let below = [
        grounds(lower.offer(sale(1, 0, 1, 0, 0, 5))),
        grounds(lower.confirm(TradeNumber(1), Seat(1))),
    ];
    assert_eq!(rt; below, [Ok(()), Ok(())]);
    let mut pile = Book::new(lower, Pages::new(rt.alloc())?);
    // the upper book knows its own trades only, and counts on what the lower one leaves: 3 and 6
    let above = [
        grounds(pile.offer(sale(1, 1, 0, 0, 0, 6))),
        grounds(confirm_above(&mut pile, TradeNumber(1), Seat(0))),
        grounds(pile.offer(sale(2, 1, 0, 0, 0, 1))),
        grounds(confirm_above(&mut pile, TradeNumber(2), Seat(0))),
        grounds(pile.offer(sale(3, 0, 1, 0, 1, 1))),
        grounds(confirm_above(&mut pile, TradeNumber(3), Seat(1))),
    ];
    assert_eq!(rt;
        above,
        [
            Ok(()),
            Ok(()),
            Ok(()),
            Err(by_book(17, 0)),
            Ok(()),
            Err(by_book(16, 1))
        ]
    );
    assert_eq!(rt;
        [
            held(&pile, 0, 0),
            held(&pile, 1, 0),
            total_above(&pile, at(0, 0, 0)),
            total_above(&pile, at(0, 0, 1)),
        ],
        [Some(Kw(9)), Some(Kw(0)), Some(Kw(9)), None]
    );
    Ok(())
}
