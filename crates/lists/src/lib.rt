// Laws on lists and columns that know nothing of brokers: searches by a test, tests of every place, columns filled up with blanks.
// The definitions stand in specs/, their laws in proofs/. There is no code here.
#![tactic(auto)]
