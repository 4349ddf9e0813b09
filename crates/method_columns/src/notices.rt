// The columns of the notices filed.
ghost use Rattle.std.specs.Prelude.{◌≡◌, true, length};
ghost use Rattle.rules.specs.Book.{good, filed_notices};
ghost use Rattle.rules.specs.Expiry.Passes.{sellers_in, elevators_in};
ghost use Rattle.method_laws.specs.Columns.{notice_lots_in};

use rules::book::Book;

// Sellers, elevators and lots, in one walk (01, Expiry, 5.1).
pub fn fill(b: Book, sellers: &mut [u8], stands: &mut [u8], lots: &mut [u64])
    requires { (good b ≡ true) × (length sellers.old ≡ b.filed) × (length stands.old ≡ b.filed) × (length lots.old ≡ b.filed) }
    ensures sellers_after { sellers.new ≡ sellers_in (filed_notices b) }
    ensures stands_after { stands.new ≡ elevators_in (filed_notices b) }
    ensures lots_after { lots.new ≡ notice_lots_in (filed_notices b) }
{
    for k in 0..b.filed {
        let n = b.notices[k];
        let own = n.lots.0;
        sellers[k] = n.section;
        stands[k] = n.elevator;
        lots[k] = own.unsigned_abs();
    }
}
