// The lists of an expiry and of a file's read, as they are read and not written: a caller lends them shared, whoever else holds them.
// (A type of `rules` would stand there beside `ExpiryLists` and `ReadLists`; every crate would be proved anew for it.)
#![tactic(auto)]

ghost use Rattle.std.specs.Prelude.{◌≡◌};
ghost use Rattle.rules.specs.Lent.{lists_of, lent_of};
ghost use Rattle.shared_lists.specs.Lists.{lists_read};

use rules::lists::{ExpiryLists, ReadLists};

// Of each line of the register the buyer's number, the elevator, the seller's number and the lots; of each section held what is delivered, terminated and lapsed, and the sum of its margins.
// A list that a function does not read may be empty.
#[derive(Clone, Copy)]
pub struct Lists<'a> {
    pub buyers: &'a [u8],
    pub elevators: &'a [u8],
    pub sellers: &'a [u8],
    pub lots: &'a [u32],
    pub delivered: &'a [u32],
    pub terminated: &'a [u32],
    pub lapsed: &'a [u32],
    pub sums: &'a [i64],
}

// The lists of an expiry, read; there are no sums.
pub fn of_expiry<'a>(lists: &'a ExpiryLists<'_>) -> Lists<'a>
    ensures { (lists_read result).lists ≡ lists_of lists.now }
{
    Lists {
        buyers: lists.buyers,
        elevators: lists.elevators,
        sellers: lists.sellers,
        lots: lists.lots,
        delivered: lists.delivered,
        terminated: lists.terminated,
        lapsed: lists.lapsed,
        sums: &[],
    }
}

// The lists of a file's read.
pub fn of_read<'a>(lent: &'a ReadLists<'_>) -> Lists<'a>
    ensures { lists_read result ≡ lent_of lent.now }
{
    let expiry = &lent.expiry;
    Lists {
        buyers: expiry.buyers,
        elevators: expiry.elevators,
        sellers: expiry.sellers,
        lots: expiry.lots,
        delivered: expiry.delivered,
        terminated: expiry.terminated,
        lapsed: expiry.lapsed,
        sums: lent.sums,
    }
}
