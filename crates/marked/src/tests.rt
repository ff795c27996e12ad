use division::{DivisionFault, DivisionRule, LargestRemainder, RunningCut, divide_signed};
use figures::{Cents, Factor, Ground, Kw, Layer, Load, Price, Product, TermFigures, Terms};
use std::test::Fail;

// 320 hours, net price 600,000 for product 0 and 0 for product 1, factor 1.50.
fn example() -> TermFigures {
    TermFigures {
        hours: 320,
        tmnsr: Price(900_000),
        tmor: Price(300_000),
        capacity: Price(300_000),
        factor: Factor(150),
    }
}

// The highest terms that are accepted, in the shortest month.
fn highest() -> TermFigures {
    TermFigures {
        hours: 1,
        tmnsr: Price(2_000_000),
        tmor: Price(2_000_000),
        capacity: Price(0),
        factor: Factor(500),
    }
}

// The ground on which terms are refused, where they are.
fn denial(figures: TermFigures) -> Option<Ground> {
    Terms::new(figures).err().map(Ground::from)
}

const REFUSED: Option<Ground> = Some(Ground {
    number: 5,
    layer: Layer::Month,
    place: 0,
});

#[test]
fn credits_and_penalties(rt: HostRuntime) -> Result<(), Fail> {
    let terms = Terms::new(example())?;
    assert_eq!(rt; terms.credit(Product::TMNSR, Kw(7_500)), Cents(14_063));
    assert_eq!(rt; terms.penalty(Product::TMNSR, Kw(500)), Cents(1_406));
    // the price of product 1 equals the capacity price; there is no product 2
    assert_eq!(rt; terms.credit(Product::TMOR, Kw(7_500)), Cents(0));
    assert_eq!(rt; terms.credit(Product(2), Kw(7_500)), Cents(0));
    Ok(())
}

#[test]
fn rounded_once_and_each_by_itself(rt: HostRuntime) -> Result<(), Fail> {
    let terms = Terms::new(example())?;
    // 1.875 cents a kW: rounding that rate first would give 15,000
    assert_eq!(rt; terms.credit(Product::TMNSR, Kw(7_500)), Cents(14_063));
    // 937.5 and 1,406.25 cents: netting before rounding would give -469
    assert_eq!(rt; terms.credit(Product::TMNSR, Kw(500)), Cents(938));
    let account = terms
        .credit(Product::TMNSR, Kw(500))
        .0
        .checked_sub(terms.penalty(Product::TMNSR, Kw(500)).0);
    assert_eq!(rt; account, Some(-468));
    Ok(())
}

#[test]
fn limits_of_terms(rt: HostRuntime) {
    assert_eq!(rt;
        denial(TermFigures {
            hours: 744,
            ..highest()
        }),
        None
    );
    assert_eq!(rt;
        denial(TermFigures {
            hours: 745,
            ..highest()
        }),
        REFUSED
    );
    assert_eq!(rt;
        denial(TermFigures {
            hours: 0,
            ..highest()
        }),
        REFUSED
    );
    assert_eq!(rt;
        denial(TermFigures {
            tmnsr: Price(2_000_001),
            ..highest()
        }),
        REFUSED
    );
    assert_eq!(rt;
        denial(TermFigures {
            tmor: Price(2_000_001),
            ..highest()
        }),
        REFUSED
    );
    assert_eq!(rt;
        denial(TermFigures {
            capacity: Price(2_000_000),
            ..highest()
        }),
        None
    );
    assert_eq!(rt;
        denial(TermFigures {
            capacity: Price(2_000_001),
            ..highest()
        }),
        REFUSED
    );
    assert_eq!(rt;
        denial(TermFigures {
            factor: Factor(501),
            ..highest()
        }),
        REFUSED
    );
    assert_eq!(rt; Layer::Month.letter(), 'm');
}

#[test]
fn largest_products(rt: HostRuntime) -> Result<(), Fail> {
    let terms = Terms::new(highest())?;
    assert_eq!(rt;
        terms.credit(Product::TMOR, Kw(4_294_967_295)),
        Cents(8_589_934_590_000)
    );
    assert_eq!(rt;
        terms.penalty(Product::TMOR, Kw(4_294_967_295)),
        Cents(42_949_672_950_000)
    );
    // a capacity price above the clearing price leaves nothing, and no less
    let low = Terms::new(TermFigures {
        tmnsr: Price(299_999),
        ..example()
    })?;
    assert_eq!(rt; low.net(Product::TMNSR), Price(0));
    Ok(())
}

// The shares of three seats under a rule, or what stood in the column before a denial.
fn three<R: DivisionRule>(
    rule: &R,
    total: i64,
    loads: [u32; 3],
) -> (Result<(), DivisionFault>, [Cents; 3]) {
    let mut out = [Cents(-7); 3];
    let answer = rule.divide(Cents(total), &loads.map(Load), &mut out);
    (answer, out)
}

#[test]
fn rules_apart(rt: HostRuntime) {
    // leaving all left-over cents to the last seat would give 1, 1, 3
    assert_eq!(rt;
        three(&RunningCut, 5, [1, 1, 1]),
        (Ok(()), [1, 2, 2].map(Cents))
    );
    assert_eq!(rt;
        three(&LargestRemainder, 5, [1, 1, 1]),
        (Ok(()), [2, 2, 1].map(Cents))
    );
    assert_eq!(rt;
        three(&RunningCut, 101, [1, 2, 1]),
        (Ok(()), [25, 50, 26].map(Cents))
    );
    assert_eq!(rt;
        three(&LargestRemainder, 101, [1, 2, 1]),
        (Ok(()), [25, 51, 25].map(Cents))
    );
}

#[test]
fn denied_and_unaltered(rt: HostRuntime) {
    assert_eq!(rt;
        three(&RunningCut, -1, [1, 1, 1]),
        (Err(DivisionFault::Beyond), [Cents(-7); 3])
    );
    assert_eq!(rt;
        three(&RunningCut, 1_500_000_000_001, [1, 1, 1]),
        (Err(DivisionFault::Beyond), [Cents(-7); 3])
    );
    assert_eq!(rt;
        three(&LargestRemainder, 9, [1, 300_001, 1]),
        (Err(DivisionFault::Beyond), [Cents(-7); 3])
    );
    assert_eq!(rt;
        three(&LargestRemainder, 9, [0, 0, 0]),
        (Err(DivisionFault::NoLoad), [Cents(-7); 3])
    );
    // a figure beyond its limit comes before loads that are all 0
    assert_eq!(rt;
        three(&LargestRemainder, -9, [0, 0, 0]),
        (Err(DivisionFault::Beyond), [Cents(-7); 3])
    );
}

#[test]
fn columns_and_signs(rt: HostRuntime) {
    let mut out = [Cents(-7); 2];
    // a column shorter than the loads, and one longer
    let short = LargestRemainder.divide(Cents(9), &[Load(1); 3], &mut out);
    assert_eq!(rt; short, Err(DivisionFault::Beyond));
    let long = RunningCut.divide(Cents(9), &[Load(1)], &mut out);
    assert_eq!(rt; long, Err(DivisionFault::Beyond));
    assert_eq!(rt; out, [Cents(-7), Cents(-7)]);
    let loads = [Load(100), Load(150)];
    assert!(rt; divide_signed(&RunningCut, Cents(-12_657), &loads, &mut out).is_ok());
    assert_eq!(rt; out, [Cents(-5_062), Cents(-7_595)]);
    // a total of 0 needs no load, another does
    assert!(rt; divide_signed(&RunningCut, Cents(0), &[Load(0), Load(0)], &mut out).is_ok());
    assert_eq!(rt; out, [Cents(0), Cents(0)]);
    let idle = divide_signed(&RunningCut, Cents(-1), &[Load(0), Load(0)], &mut out);
    assert_eq!(rt; idle, Err(DivisionFault::NoLoad));
    let least = divide_signed(&RunningCut, Cents(i64::MIN), &loads, &mut out);
    assert_eq!(rt; least, Err(DivisionFault::Beyond));
}
