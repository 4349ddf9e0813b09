// One pattern: what a section delivers under it.
ghost use Rattle.std.specs.Prelude.{◌≡◌, ◌≤◌, ◌<◌, ◌-◌, length};
ghost use Rattle.rules.specs.declared.book.Book.{Book};
ghost use Rattle.rules.specs.Failures.{delivered_in};
ghost use Rattle.method_patterns.specs.Patterns.{book_under, StandsBy, StandingBy, MarksBy, NamedBy};

use crate::marks;
use crate::marks::Marked;
use method_register::columns::NoticeColumns;
use method_register::passes;
use method_steps::columns::SectionColumns;
use method_steps::remaining;
use rules::limits::SECTION_PLACES;

// What is delivered of what is left when some of it lapses (02, n, 3; 02, a, 5).
fn not_lapsed(left: u64, lapsed: u64) -> u64
    requires { lapsed ≤ left }
    ensures { result ≡ left - lapsed }
{
    left - lapsed
}

// What a section delivers, given what fails: what the method leaves it, less what lapses of that (02, n, 3 and 4; 02, a, 5).
fn delivered(
    persons: &[u32],
    columns: SectionColumns<'_>,
    notices: NoticeColumns<'_>,
    failed: &[u64],
    asked: usize,
) -> u64
    requires { StandingBy persons.now columns notices failed.now × (asked < length failed.now) }
    ensures { (b : Book) → StandsBy b persons.now columns.entry notices.entry failed.now → result ≡ delivered_in asked b }
{
    let held = failed.len();
    let mut kept = [0; SECTION_PLACES];
    let mut gone = [0; SECTION_PLACES];
    remaining::remaining(columns, failed, &mut kept[..held]);
    let formed = passes::form(columns, notices, &kept[..held]);
    let register = formed.register;
    method_removal::lapsed(persons, register, &mut gone[..held]);
    let left = kept[asked];
    let lapsed = gone[asked];
    not_lapsed(left, lapsed)
}

// What a section delivers under a pattern (02, n, 1 and 4).
pub fn delivered_under(
    persons: &[u32],
    columns: SectionColumns<'_>,
    notices: NoticeColumns<'_>,
    marked: Marked<'_>,
    pattern: u32,
    asked: usize,
) -> u64
    requires { NamedBy persons.now columns notices marked × (asked < length marked.fails.now) }
    ensures { (b : Book) → StandsBy b persons.now columns.entry notices.entry marked.entry.fails.now → MarksBy b marked.entry → result ≡ delivered_in asked (book_under b marked.entry.named.now pattern) }
{
    let held = marked.fails.len();
    let mut failed = [0; SECTION_PLACES];
    failed[..held].copy_from_slice(marked.fails);
    marks::mark(
        marked.named,
        pattern,
        marked.own,
        marked.still,
        &mut failed[..held],
    );
    delivered(persons, columns, notices, &failed[..held], asked)
}
