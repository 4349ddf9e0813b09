// No code: the laws of the calendar and of the table of tenths, on the definitions of `rules`. They are cited instead of the definitions' text.
#![tactic(auto)]
