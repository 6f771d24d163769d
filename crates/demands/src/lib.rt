// The user's three demands, as theorems about the contracts that the store's, the registry's and the run's public calls state. There is
// no code here.
#![tactic(auto)]
