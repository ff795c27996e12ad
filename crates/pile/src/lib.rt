// Books piled on one another: what is proved of a book over any sheet holds of a book over a book, with nothing proved anew.
#![tactic(auto)]

ghost use Rattle.std.specs.Prelude.{◌≡◌, []};
ghost use Rattle.sheet.specs.Tables.{kilowatts, total_at};
ghost use Rattle.book.specs.Deals.{confirm_answer, confirmed_in, deal_of};
ghost use Rattle.book.specs.Books.{table_of, Lawful, Called};

use book::{Book, BookFault, Pages};
use figures::{Kw, Seat, TradeNumber};
use sheet::{Place, Sheet};

#[cfg(test)]
mod tests;

// Lays four empty books on a sheet, one on the other.
pub fn pile_of_four<S: Sheet>(
    below: S,
    first: Pages,
    second: Pages,
    third: Pages,
    fourth: Pages,
) -> Book<Book<Book<Book<S>>>>
    ensures sheet { result.below.below.below.below ≡ below }
    ensures empty { (result.ledger.trades.items ≡ []) × (result.below.ledger.trades.items ≡ []) × (result.below.below.ledger.trades.items ≡ []) × (result.below.below.below.ledger.trades.items ≡ []) }
    ensures lawful { S.Sheet.lawful below → Lawful (table_of (table_of (table_of S.Sheet.table))) (Lawful (table_of (table_of S.Sheet.table)) (Lawful (table_of S.Sheet.table) (Lawful S.Sheet.table S.Sheet.lawful))) result }
{
    Book::new(
        Book::new(Book::new(Book::new(below, first), second), third),
        fourth,
    )
}

// Confirms a trade of the upper of two books, over whatever sheet the lower one lies on.
pub fn confirm_above<S: Sheet>(
    pile: &mut Book<Book<S>>,
    number: TradeNumber,
    seat: Seat,
) -> Result<(), BookFault>
    ensures { Called (table_of S.Sheet.table) (Lawful S.Sheet.table S.Sheet.lawful) (confirm_answer number.0 seat.0) (λ rs. confirmed_in rs number.0) pile.old (deal_of result) pile.new }
{
    pile.confirm(number, seat)
}

// What all seats hold together in the upper of two books.
pub fn total_above<S: Sheet>(pile: &Book<Book<S>>, place: Place) -> Option<Kw>
    ensures { Lawful (table_of S.Sheet.table) (Lawful S.Sheet.table S.Sheet.lawful) pile.now → kilowatts result ≡ total_at (table_of (table_of S.Sheet.table) pile.now) place }
{
    pile.total(place)
}
