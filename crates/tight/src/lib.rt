// That the contracts of the public calls are tight: no second outcome meets one. Examples of what the calls give and tables of wrong
// outcomes, each computed under one claim, stand in specs/, what follows from them in proofs/. There is no code here.
#![tactic(auto)]
