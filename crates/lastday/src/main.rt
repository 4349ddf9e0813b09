// Reads rows on standard input, a year, a month and closed dates each, and prints for each its last trading day or its refusal, or `bad row`
// (02, e, 2 and 5).
#![tactic(auto)]

ghost use Rattle.std.specs.Prelude.{◌≡◌, ◌≤◌, length, IfOk, MatchOption, ⊤};
ghost use Rattle.lastday.specs.Feeding.{kept_most};

use feed::KEPT_BYTES;
use std::io;
use std::io::Read;

mod feed;
mod fields;
mod rows;

// So many bytes are read at once; each of them ends one row at most, and what is printed for one has at most 11.
const PIECE_BYTES: usize = 4_096;

const TEXT_BYTES: usize = 45_056;

// Reads a piece of the input and prints what rows end in it, and answers how many bytes are kept of the row that has not ended; at the end of the input it
// prints the row that ends there, and keeps none. After a failure nothing more is read or printed.
fn print_piece(
    input: &mut impl Read,
    rt: &impl Print,
    piece: &mut [u8],
    kept: &mut [u8],
    held: usize,
    out: &mut [u8],
) -> io::Result<Option<usize>>
    requires { (length piece.old ≤ 4_096) × (length kept.old ≡ kept_most) × (held ≤ kept_most) × (length out.old ≡ 45_056) }
    ensures { IfOk result (λ left. MatchOption left ⊤ (λ few. few ≤ kept_most)) }
{
    let count = program_io::read_some(input, piece)?;
    if count == 0 {
        let last = feed::end(&kept[..held], out);
        program_io::write_output(rt, &out[..last])?;
        return Ok(None);
    }
    let fed = feed::piece(&piece[..count], kept, held, out);
    program_io::write_output(rt, &out[..fed.written])?;
    Ok(Some(fed.held))
}

// A proved loop has to end, and nothing says that an input does: so the turns have an end that no run comes to.
fn main(rt: HostRuntime) -> io::Result<()> {
    let mut input = rt.stdin();
    let mut piece = [0; PIECE_BYTES];
    let mut kept = [0; KEPT_BYTES];
    let mut out = [0; TEXT_BYTES];
    let mut held = 0;
    for _ in 0..u64::MAX {
        let left = print_piece(&mut input, &rt, &mut piece, &mut kept, held, &mut out)?;
        let Some(more) = left else {
            break;
        };
        held = more;
    }
    Ok(())
}
