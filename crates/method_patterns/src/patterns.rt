// All patterns, one after the other.
ghost use Rattle.std.specs.Prelude.{◌^◌, ℕ, ◌≡◌, ◌≤◌, ◌<◌, length};
ghost use Rattle.rules.specs.Words.{entry};
ghost use Rattle.rules.specs.declared.book.Book.{Book};
ghost use Rattle.rules.specs.Failures.{delivered_in};
ghost use Rattle.method_patterns.specs.Patterns.{book_under, StandsBy, MarksBy, NamedBy};
ghost use Rattle.method_patterns.specs.Endings.{Counted};

use crate::marks::Marked;
use crate::{endings, one};
use method_register::columns::NoticeColumns;
use method_steps::columns::SectionColumns;
use rules::book::Failures;

// How many patterns so many sections named have (02, n, 4).
fn pattern_count(named: usize) -> u32
    requires { named ≤ 10 }
    ensures { (result ≡ 2 ^ named) × (result ≤ 1_024) }
{
    1 << named
}

// In how many patterns a section is delivered in full, in part, not at all (02, n, 2 and 4).
pub fn count(
    persons: &[u32],
    columns: SectionColumns<'_>,
    notices: NoticeColumns<'_>,
    marked: Marked<'_>,
    asked: usize,
) -> Failures
    requires { NamedBy persons.now columns notices marked × (asked < length marked.fails.now) × (length marked.named.now ≤ 10) }
    ensures { (b : Book) → StandsBy b persons.now columns.entry notices.entry marked.entry.fails.now → MarksBy b marked.entry → Counted (entry marked.entry.own.now asked) (λ (q : ℕ). delivered_in asked (book_under b marked.entry.named.now q)) (2 ^ length marked.entry.named.now) result }
{
    let patterns = pattern_count(marked.named.len());
    let lots = marked.own[asked];
    let mut counts = endings::no_patterns();
    for pattern in 0..patterns {
        let delivered = one::delivered_under(persons, columns, notices, marked, pattern, asked);
        counts = endings::with_ending(counts, lots, delivered);
    }
    counts
}
