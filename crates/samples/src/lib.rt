// The sheets of the facts that are computed: definitions alone, no code.

#![tactic(auto)]
