// No code: the laws of a whole file's read, on the definitions of `rules`.
#![tactic(auto)]
