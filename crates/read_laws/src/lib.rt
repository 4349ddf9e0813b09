// No code: the laws of whole event files, on the definitions of `rules`: what the writer makes of what is read, the calls that a read is, and what an old file prints.
#![tactic(auto)]
