// Laws between the words of a record and the state that they stand for; no code.
#![tactic(auto)]
