// The ring at rest, where no message waits: the theorem about the meaning in `protocol`; no code.
#![tactic(auto)]
