// Every card is with the ledger's owner over every list of steps, offers and routes: the theorem about the meaning in `protocol`; no code.
#![tactic(auto)]
