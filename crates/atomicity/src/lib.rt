// The ring stays right over every list of calls: the theorem about the meaning in `protocol`; no code.
#![tactic(auto)]
