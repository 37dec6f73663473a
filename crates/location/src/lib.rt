// What locate answers, and the laws about it. The code is crate locate.
#![tactic(auto)]
