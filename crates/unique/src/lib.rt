// That no second outcome satisfies a public call's contract: one theorem for each call, over the contract that its source states. There is
// no code here.
#![tactic(auto)]
