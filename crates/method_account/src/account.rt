// Steps 1 to 5 one after the other.
ghost use Rattle.std.specs.Prelude.{◌≡◌, true};
ghost use Rattle.rules.specs.Book.{good, filed_notices};
ghost use Rattle.rules.specs.Expiry.Passes.{elevators_in};
ghost use Rattle.method_delivery.specs.Lent.{ColumnsOf};
ghost use Rattle.method_account.specs.Account.{AccountOf};

use crate::across::Across;
use crate::drawing::Drawn;
use crate::failing::Failed;
use crate::in_codes::InCodes;
use crate::outside::Outside;
use crate::{across, drawing, failing, in_codes, outside};
use method_steps::columns::SectionColumns;
use rules::book::Book;

// Steps 1 to 5 of an expiry, each with its numbers.
#[derive(Drop)]
pub struct Account {
    pub failing: Failed,
    pub in_codes: InCodes,
    pub across: Across,
    pub outside: Outside,
    pub drawn: Drawn,
}

// The account of a good book, on its columns (01, Expiry, 1.2; 01, Expiry, 5.1).
pub fn account_of(
    b: Book,
    codes: &[u8],
    positions: &[i64],
    keys: &[u64],
    selling: &[u8],
    stock: &[u64],
) -> Account
    requires { (good b ≡ true) × ColumnsOf b codes.now positions.now keys.now selling.now (elevators_in (filed_notices b)) stock.now }
    ensures { AccountOf b result }
{
    let held = b.held;
    let columns = SectionColumns {
        codes,
        positions,
        keys,
    };
    let first = failing::who_fails(b, selling, stock);
    let failed = first.failed;
    let second = in_codes::close_codes(columns, &failed[..held]);
    let third = across::close_across(columns, second);
    let kept = third.kept;
    let fourth = outside::part(columns, kept);
    let near = fourth.near;
    let fifth = drawing::draw(positions, selling, stock, &kept[..held], &near[..held]);
    Account {
        failing: first,
        in_codes: second,
        across: third,
        outside: fourth,
        drawn: fifth,
    }
}
