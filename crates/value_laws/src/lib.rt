// No code: the laws of the rounding, of K and V and of what lots are worth, on the definitions of `rules`. They are cited instead of the definitions' text.
#![tactic(auto)]
