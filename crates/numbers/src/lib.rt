// Document 01's number and values for each case of each answer that a public call gives, and that they are those of the rules' answer
// which its contract fixes. There is no code here.
#![tactic(auto)]
