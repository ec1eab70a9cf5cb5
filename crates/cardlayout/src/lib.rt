// Laws between the words of a card slice and the book that they stand for, and of owners among members; no code.
#![tactic(auto)]
