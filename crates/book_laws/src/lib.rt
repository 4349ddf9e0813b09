// No code: the laws of the book and of its calls, on the definitions of `rules`. The crates of the calls cite them.
#![tactic(auto)]
