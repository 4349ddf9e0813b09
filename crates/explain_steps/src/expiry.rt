// The steps of an expiry one after the other.
ghost use Rattle.std.specs.Prelude.{◌≡◌, true};
ghost use Rattle.rules.specs.Book.{good};
ghost use Rattle.method_delivery.specs.Lent.{ColumnsBy};
ghost use Rattle.method_account.specs.Passes.{Behind, Near};

use crate::formed::Formed;
use crate::{step_five, step_four, step_one, step_six, step_three, step_two};
use explain_row::row::Rows;
use method_account::account::Account;
use method_account::{account, passes};
use method_columns::whole;
use method_columns::whole::Columns;
use method_register::columns::NoticeColumns;
use method_steps::columns::SectionColumns;
use rules::book::Book;
use rules::limits::{NOTICE_PLACES, SETTLEMENT_CODES};
use std::io;
use std::io::Print;

// Steps 1 to 5 (01, Expiry, 1.1; 01, Expiry, 2.1; 01, Expiry, 3.1; 01, Expiry, 4.1; 01, Expiry, 5.1).
fn giving_steps(
    rows: &Rows<impl Print>,
    b: &Book,
    columns: &Columns,
    a: &Account,
) -> io::Result<()> {
    let held = b.held;
    let failed = &a.failing.failed;
    step_one::explain(rows, b, &a.failing)?;
    step_two::explain(rows, columns, failed, held, &a.in_codes)?;
    step_three::explain(rows, columns, &a.in_codes.left, held, &a.across)?;
    step_four::explain(rows, columns, &a.across.kept, held, &a.outside)?;
    step_five::explain(rows, b, columns, failed, &a.drawn)
}

// The inside passes by settlement code; one that forms nothing is passed over. `near` and `inside` are the account's fronts (01, Expiry, 6.1).
fn inside_passes(
    rows: &Rows<impl Print>,
    columns: &Columns,
    sections: SectionColumns<'_>,
    notices: NoticeColumns<'_>,
    near: &[u64],
    inside: &[u64],
    formed: &mut Formed,
) -> io::Result<()>
    requires { Behind (Near sections.codes.now sections.positions.now sections.keys.now notices.sellers.now notices.stands.now near.now inside.now) }
{
    for c in 0..SETTLEMENT_CODES {
        let p = passes::inside_pass(
            sections.codes,
            sections.positions,
            sections.keys,
            notices.sellers,
            notices.stands,
            near,
            inside,
            c as u8,
        );
        step_six::inside(rows, &p, c, columns, formed)?;
    }
    Ok(())
}

// All steps of a good book, on its columns; the answer is what is drawn of each notice (01, Expiry, 1.1; 01, Expiry, 6.1; 02, a, 6).
fn on_columns(
    rows: &Rows<impl Print>,
    b: Book,
    columns: &Columns,
    sections: SectionColumns<'_>,
    notices: NoticeColumns<'_>,
    kept: usize,
) -> io::Result<[u64; NOTICE_PLACES]>
    requires { (good b ≡ true) × ColumnsBy b sections notices }
{
    let held = b.held;
    let filed = b.filed;
    let a = account::account_of(
        b,
        sections.codes,
        sections.positions,
        sections.keys,
        notices.sellers,
        notices.lots,
    );
    let near = a.outside.near;
    let far = a.outside.giving.given;
    let inside = a.drawn.inside;
    let beyond = a.drawn.beyond;
    let mut formed = Formed {
        pairs: 0,
        lines: 0,
        drawn: [0; NOTICE_PLACES],
    };
    giving_steps(rows, &b, columns, &a)?;
    step_six::head(rows)?;
    inside_passes(
        rows,
        columns,
        sections,
        notices,
        &near[..held],
        &inside[..filed],
        &mut formed,
    )?;
    let p = passes::outside_pass(
        sections.positions,
        sections.keys,
        notices.sellers,
        notices.stands,
        &far[..held],
        &beyond[..filed],
    );
    step_six::outside(rows, &p, columns, &mut formed)?;
    step_six::end(rows, &formed, kept)?;
    Ok(formed.drawn)
}

// All steps of a good book, which keeps so many lines; the answer is what is drawn of each notice (01, Expiry, 1.1; 01, Expiry, 6.1).
pub fn steps(rows: &Rows<impl Print>, b: Book, kept: usize) -> io::Result<[u64; NOTICE_PLACES]>
    requires { good b ≡ true }
{
    let held = b.held;
    let filed = b.filed;
    let whole = whole::columns_of(b);
    let codes = whole.codes;
    let positions = whole.positions;
    let keys = whole.keys;
    let selling = whole.selling;
    let stands = whole.stands;
    let stock = whole.stock;
    let sections = SectionColumns {
        codes: &codes[..held],
        positions: &positions[..held],
        keys: &keys[..held],
    };
    let notices = NoticeColumns {
        sellers: &selling[..filed],
        stands: &stands[..filed],
        lots: &stock[..filed],
    };
    on_columns(rows, b, &whole, sections, notices, kept)
}
